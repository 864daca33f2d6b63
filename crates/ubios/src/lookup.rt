// Looking for a table by its name, through the slots of the root.
ghost use Rattle.std.specs.Prelude.{◌≡◌, ◌-◌, ◌*◌, ◌/◌, length, drop};
ghost use Rattle.ubios.specs.Layout.{addresses};
ghost use Rattle.ubios.specs.Lookup.{hits, looked_up, found};
ghost use Rattle.ubios.specs.Helpers.{hit_of, first_of};

use crate::name::Name;
use crate::{Reason, Region, Root, Table};
use le::Word;

// The slot, counted from 0 with the gaps, and the body's place and length in the region: the table's used part
// behind its header.
#[derive(Clone, Copy, Debug, PartialEq, Eq)]
pub struct Body {
    pub slot: usize,
    pub at: usize,
    pub length: usize,
}

// What a slot with that address leads to, if that is a passing table of the name. The name is compared first,
// since it is the cheaper test. Region and name are two parameters here and below: in a struct of both, each would
// stand one field deeper in every contract.
#[tactic(auto, using(crate::proofs::Walking::slot_tests))]
fn follow(region: Region<'_>, name: Name<'_>, slot: usize, address: u64) -> Option<Body>
    ensures { result ≡ hit_of region.entry.bytes.now region.entry.base name.entry.bytes.now slot address }
{
    if address == 0 || !name.is_of(region.bytes_from(address)?) {
        return None;
    }
    let table = Table::check(region, address).ok()?;
    Some(Body {
        slot,
        at: table.at + Table::HEADER,
        length: table.used - Table::HEADER,
    })
}

// The first hit among the slots from one on; eight bytes are a slot.
fn next_hit(region: Region<'_>, name: Name<'_>, slots: &[u8], from: usize) -> Option<Body>
    ensures { let count = length slots.now / 8 in result ≡ first_of (hits region.entry.bytes.now region.entry.base name.entry.bytes.now from (addresses (count - from) (drop (8 * from) slots.now))) }
{
    let count = slots.len() / Root::SLOT_SIZE;
    (from..count).find_map(|slot| {
        let address = u64::at(slots, Root::SLOT_SIZE * slot);
        follow(region, name, slot, address)
    })
}

// Every slot is walked, until two hits are met: a gap ends nothing.
#[tactic(auto, using(crate::proofs::Walking::hit_tests))]
fn walk(region: Region<'_>, name: Name<'_>, slots: &[u8]) -> Result<Body, Reason>
    ensures { result ≡ looked_up region.entry.bytes.now region.entry.base name.entry.bytes.now (addresses (length slots.now / 8) slots.now) }
{
    let first = next_hit(region, name, slots, 0).ok_or(Reason::NoTable)?;
    match next_hit(region, name, slots, first.slot + 1) {
        None => Ok(first),
        Some(_) => Err(Reason::TwoTables),
    }
}

// The body of the one passing table of that name to which the root at an address leads, or the first reason
// to refuse.
#[tactic(auto, using(crate::proofs::Walking::slots_fit), unfolding(crate::specs::Lookup::found))]
pub fn find(region: Region<'_>, root: u64, name: &[u8]) -> Result<Body, Reason>
    ensures { result ≡ found region.entry.bytes.now region.entry.base root name.now }
{
    let name = Name::sought(name)?;
    let root = Root::check(region, root)?;
    let slots = &region.bytes[root.table.at + Root::HEADER..];
    walk(region, name, &slots[..Root::SLOT_SIZE * root.count])
}
