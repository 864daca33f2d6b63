// SFI tables (SFI 0.8.2): the kinds, the check of a table, its entries, the search for SYST, and the choice
// between the board's table and a built-in one.
#![tactic(auto)]

pub mod choice;
pub mod kind;
pub mod search;

ghost use Rattle.std.specs.Prelude.{◌≡◌, ◌≤◌, ◌<◌, Ok, length};
ghost use Rattle.sfi.specs.Checks.{header_size, length_of_def, number_of, bad_length, header_checked, checked, entry_in, entry_of};

use kind::Kind;
use le::Word;

// A table that passes its checks: its kind, and its Length.
#[derive(Clone, Copy, Debug, PartialEq, Eq)]
pub struct Table {
    pub kind: Kind,
    pub length: usize,
}

// Why a table, an entry, a search or a choice is refused.
#[derive(Clone, Copy, Debug, PartialEq, Eq)]
pub enum Reason {
    // 40: slice under 24 bytes, Length under 24, over 65,536 or past the slice.
    BadLength,
    // 41: the first Length bytes do not sum to 0.
    WrongSum,
    // 42: no kind has that signature.
    UnknownSignature,
    // 43: Length − 24 is not a multiple of the entry size, or Length is not 32 for WAKE.
    BadEntries,
    // 44: Revision is older than the listed one.
    WrongRevision,
    // 45: the table has no such entry.
    NoEntry,
    // 46: the memory to search is not 131,072 bytes.
    BadMemory,
    // 47: SYST is not there.
    NoSyst,
    // 48: neither table passes with that signature.
    Neither,
}

impl Reason {
    // The refusal's number.
    pub fn number(self) -> u32
        ensures { result ≡ number_of self }
    {
        match self {
            Reason::BadLength => 40,
            Reason::WrongSum => 41,
            Reason::UnknownSignature => 42,
            Reason::BadEntries => 43,
            Reason::WrongRevision => 44,
            Reason::NoEntry => 45,
            Reason::BadMemory => 46,
            Reason::NoSyst => 47,
            Reason::Neither => 48,
        }
    }
}

// Length, as it stands in a table, with no check of it: a slice that is too short reads as if zeros followed.
pub fn length_of(table: &[u8]) -> usize
    ensures { result ≡ length_of_def table.now }
{
    u32::at(table, 4) as usize
}

// Whether Length is not legal in a slice. Its size is tested before anything is read, so that each read behind that is
// one load.
#[tactic(auto, unfolding(crate::specs::Checks::bad_length))]
fn is_bad_length(table: &[u8]) -> bool
    ensures { result ≡ bad_length (length table.now) (length_of_def table.now) }
{
    if table.len() < Table::HEADER {
        return true;
    }
    let length = length_of(table);
    length < Table::HEADER || Table::LENGTH_MAX < length || table.len() < length
}

impl Table {
    pub const HEADER: usize = 24;
    // The longest table.
    pub const LENGTH_MAX: usize = 65536;
    // WAKE has exactly one entry.
    pub const WAKE_LENGTH: usize = 32;

    // 40, 42, 44 and 43: what a slice's size and its first 24 bytes tell.
    #[tactic(auto, unfolding(crate::specs::Checks::header_checked))]
    fn check_header(table: &[u8]) -> Result<Table, Reason>
        ensures { result ≡ header_checked (length table.now) table.now }
    {
        if is_bad_length(table) {
            return Err(Reason::BadLength);
        }
        Kind::of(u32::at(table, 0))
            .ok_or(Reason::UnknownSignature)?
            .judge(table)
    }

    // The table at a slice's start, or the first reason to refuse it. Bytes behind Length don't count.
    #[tactic(auto, unfolding(crate::specs::Checks::checked))]
    pub fn check(table: &[u8]) -> Result<Table, Reason>
        ensures { result ≡ checked table.now }
    {
        let t = Self::check_header(table)?;
        if le::sum::sum::<u8>(le::head(table, t.length)) != 0 {
            return Err(Reason::WrongSum);
        }
        Ok(t)
    }

    // Where entry k starts in this table, or 45.
    fn find_entry(self, k: usize) -> Result<usize, Reason>
        requires { (0 < self.kind.entry) × (header_size ≤ self.length) }
        ensures { result ≡ entry_in (Ok self) k }
    {
        let size = self.kind.entry;
        if (self.length - Self::HEADER) / size <= k {
            return Err(Reason::NoEntry);
        }
        Ok(Self::HEADER + k * size)
    }

    // Where entry k, counted from 0, starts in the table; or the first reason to refuse the table, or 45.
    pub fn entry(table: &[u8], k: usize) -> Result<usize, Reason>
        ensures { result ≡ entry_of table.now k }
    {
        Self::check(table)?.find_entry(k)
    }
}
