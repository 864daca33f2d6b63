// Names: bytes after the first zero don't count.
ghost use Rattle.std.specs.Prelude.{◌≡◌, true, false, MatchResult};
ghost use Rattle.le.specs.Compare.{same};
ghost use Rattle.ubios.specs.Layout.{name_of, root_name};
ghost use Rattle.ubios.specs.Lookup.{no_name, bad_name};

use crate::Reason;
use le::Word;

// The longest name.
const NAME_MAX: usize = 16;

// A name that a table can have: at most 16 bytes, and no zero among them.
#[derive(Clone, Copy)]
pub(crate) struct Name<'a> {
    bytes: &'a [u8],
    ghost fits: { no_name bytes.now ≡ false },
}

impl<'a> Name<'a> {
    // The name that is sought, or 39. The empty name is a table's too, but cannot be sought.
    #[tactic(auto, using(crate::proofs::Names::zero_among), unfolding(crate::specs::Lookup::bad_name, crate::specs::Lookup::no_name))]
    pub(crate) fn sought(bytes: &'a [u8]) -> Result<Name<'a>, Reason>
        ensures { MatchResult result
            (λ n. (bad_name bytes.now ≡ false) × (n.bytes.now ≡ bytes.now))
            (λ e. (bad_name bytes.now ≡ true) × (e ≡ Reason.BadName)) }
    {
        if bytes.is_empty() || NAME_MAX < bytes.len() || bytes.contains(&0) {
            return Err(Reason::BadName);
        }
        Ok(Name { bytes })
    }

    // The root's.
    #[tactic(auto, unfolding(crate::specs::Lookup::no_name, crate::specs::Layout::up_to_zero))]
    pub(crate) fn root() -> Name<'static>
        ensures { result.bytes.now ≡ root_name }
    {
        Name {
            bytes: b"root_table",
        }
    }

    // Whether a table has this name: it starts with it, and then comes a zero, unless the name fills its field.
    #[tactic(auto, using(crate::proofs::Names::start_tests))]
    pub(crate) fn is_of(self, table: &[u8]) -> bool
        ensures { result ≡ same (name_of table.now) self.entry.bytes.now }
    {
        let n = self.bytes.len();
        le::same(le::head(table, n), self.bytes) && (n == NAME_MAX || u8::at(table, n) == 0)
    }
}
