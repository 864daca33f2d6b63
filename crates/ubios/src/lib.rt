// UBIOS tables (T/GCC 3007-2025, tables 12 and 13): the checks of a table and of the root table, and the
// look-up of a table by its name. Memory is a lent region; any region and any addresses get an answer.
#![tactic(auto)]

pub mod lookup;
mod name;

ghost use Rattle.std.specs.Prelude.{◌≡◌, ◌≤◌, length};
ghost use Rattle.ubios.specs.Layout.{table_header, root_header};
ghost use Rattle.ubios.specs.Checks.{number_of, bad_size, judged, checked, bad_count, root_judged, root_checked};

use le::Word;
use name::Name;
pub use region::Region;

// A table that passes its checks: where it stands in the region, and the length of its used part.
#[derive(Clone, Copy, Debug, PartialEq, Eq)]
pub struct Table {
    pub at: usize,
    pub used: usize,
}

// A root table that passes its checks, and how many slots it has.
#[derive(Clone, Copy, Debug, PartialEq, Eq)]
pub struct Root {
    pub table: Table,
    pub count: usize,
}

// Why a table, a root or a look-up is refused.
#[derive(Clone, Copy, Debug, PartialEq, Eq)]
pub enum Reason {
    // 30: the region runs past 2^64, or the header is not inside it.
    Outside,
    // 31: the address is not a multiple of 8.
    Misaligned,
    // 32: Total Size or Remaining Size is not legal.
    BadSize,
    // 33: Version is not 1.
    WrongVersion,
    // 34: the used part does not sum to 0.
    WrongSum,
    // 35: the root's name is another.
    NotRoot,
    // 36: Count is over 128, or more than the used part holds.
    BadCount,
    // 37: no slot leads to a passing table of the name.
    NoTable,
    // 38: two slots or more do.
    TwoTables,
    // 39: the sought name is empty, over 16 bytes, or has a zero byte.
    BadName,
}

impl Reason {
    // The refusal's number.
    pub fn number(self) -> u32
        ensures { result ≡ number_of self }
    {
        match self {
            Reason::Outside => 30,
            Reason::Misaligned => 31,
            Reason::BadSize => 32,
            Reason::WrongVersion => 33,
            Reason::WrongSum => 34,
            Reason::NotRoot => 35,
            Reason::BadCount => 36,
            Reason::NoTable => 37,
            Reason::TwoTables => 38,
            Reason::BadName => 39,
        }
    }
}

// Whether Total Size or Remaining Size is not legal in a table that has `size` bytes of the region.
#[tactic(auto, unfolding(crate::specs::Checks::bad_size))]
fn is_bad_size(header: usize, size: usize, total: usize, remaining: usize) -> bool
    ensures { result ≡ bad_size header size total remaining }
{
    total < header || Table::TOTAL_MAX < total || size < total || total - header < remaining
}

// 32, 33 and 34, of the table that stands at that place of the region. Too few bytes for a header would be 32 as
// well; once that is tested, each word behind it is one load. The checks before it are small enough to be compiled in
// place, so with this as the one call of a check no region is laid out in memory to be passed.
#[inline(never)]
#[tactic(auto, using(crate::proofs::Answers::short_size, crate::proofs::Answers::sized), unfolding(crate::specs::Checks::judged))]
fn judge(header: usize, at: usize, table: &[u8]) -> Result<Table, Reason>
    requires { table_header ≤ header }
    ensures { result ≡ judged header at table.now }
{
    if table.len() < Table::HEADER {
        return Err(Reason::BadSize);
    }
    let total = u32::at(table, 16) as usize;
    let remaining = u32::at(table, 24) as usize;
    if is_bad_size(header, table.len(), total, remaining) {
        return Err(Reason::BadSize);
    }
    if u8::at(table, 20) != Table::VERSION {
        return Err(Reason::WrongVersion);
    }
    let used = total - remaining;
    if le::sum::sum::<u32>(le::head(table, used)) != 0 {
        return Err(Reason::WrongSum);
    }
    Ok(Table { at, used })
}

// The checks of a table with a header of that size.
#[tactic(auto, using(region::proofs::Answers::not_outside), unfolding(crate::specs::Checks::checked))]
fn check(header: usize, region: Region<'_>, address: u64) -> Result<Table, Reason>
    requires { table_header ≤ header }
    ensures { result ≡ checked header region.entry.bytes.now region.entry.base address }
{
    if !address.is_multiple_of(8) {
        return Err(Reason::Misaligned);
    }
    if region.span().is_outside(header, address) {
        return Err(Reason::Outside);
    }
    let at = (address - region.base) as usize;
    judge(header, at, &region.bytes[at..])
}

impl Table {
    pub const HEADER: usize = 32;
    // The largest Total Size.
    pub const TOTAL_MAX: usize = 65536;

    pub const VERSION: u8 = 1;

    // The table at an address, or the first reason to refuse it.
    pub fn check(region: Region<'_>, address: u64) -> Result<Self, Reason>
        ensures { result ≡ checked table_header region.entry.bytes.now region.entry.base address }
    {
        check(Self::HEADER, region, address)
    }
}

impl Root {
    pub const HEADER: usize = 40;
    // The most slots.
    pub const COUNT_MAX: usize = 128;
    // The size of each.
    pub const SLOT_SIZE: usize = 8;

    // Whether Count is not legal in a root with that used part.
    #[tactic(auto, unfolding(crate::specs::Checks::bad_count))]
    fn is_bad_count(used: usize, count: usize) -> bool
        ensures { result ≡ bad_count used count }
    {
        Self::COUNT_MAX < count || used < Self::HEADER + Self::SLOT_SIZE * count
    }

    // 35 and 36, of a root that passes the checks of a table. So its header is there; the test, which never holds,
    // says it to the compiler, and each word is one load.
    #[tactic(auto, unfolding(crate::specs::Checks::root_judged))]
    fn judge(table: Table, root: &[u8]) -> Result<Self, Reason>
        requires { root_header ≤ length root.now }
        ensures { result ≡ root_judged table root.now }
    {
        if root.len() < Self::HEADER || !Name::root().is_of(root) {
            return Err(Reason::NotRoot);
        }
        let count = usize::from(u16::at(root, 32));
        if Self::is_bad_count(table.used, count) {
            return Err(Reason::BadCount);
        }
        Ok(Root { table, count })
    }

    // The root table at an address, or the first reason to refuse it.
    #[inline]
    #[tactic(auto, using(crate::proofs::Answers::passes_only), unfolding(crate::specs::Checks::root_checked))]
    pub fn check(region: Region<'_>, address: u64) -> Result<Self, Reason>
        ensures { result ≡ root_checked region.entry.bytes.now region.entry.base address }
    {
        let table = check(Self::HEADER, region, address)?;
        Self::judge(table, &region.bytes[table.at..])
    }
}
