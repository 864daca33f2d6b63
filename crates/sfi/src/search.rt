// The search for SYST in the memory from 0xE0000 to 0xFFFFF.
ghost use Rattle.std.specs.Prelude.{◌≡◌};
ghost use Rattle.sfi.specs.Search.{is_hit_def, located};

use crate::kind::Kind;
use crate::{Reason, Table, length_of};
use le::Word;

pub const MEMORY_SIZE: usize = 131072;
// Every 16th byte is tried.
const STEP: usize = 16;

const PAGE_SIZE: usize = 4096;

// Whether SYST stands there, inside one page. What costs least is tested first.
#[tactic(auto, using(crate::proofs::Searching::tested))]
fn is_hit(memory: &[u8], at: usize) -> bool
    ensures { result ≡ is_hit_def memory.now at }
{
    let table = le::tail(memory, at);
    u32::at(table, 0) == Kind::SYST
        && length_of(table) <= PAGE_SIZE - at % PAGE_SIZE
        && Table::check(table).is_ok()
}

// Where SYST starts in the memory, the lowest such place, or 46 or 47. By `step_by` over the bytes, a place that is passed
// over takes 12 instructions instead of 9.
#[tactic(auto, unfolding(crate::specs::Search::located))]
pub fn find_syst(memory: &[u8]) -> Result<usize, Reason>
    ensures { result ≡ located memory.now }
{
    if memory.len() != MEMORY_SIZE {
        return Err(Reason::BadMemory);
    }
    (0..MEMORY_SIZE / STEP)
        .map(|k| STEP * k)
        .find(|at| is_hit(memory, *at))
        .ok_or(Reason::NoSyst)
}
