// The notice ring. Its positions are a block of two numbers, read and write, for a caller to keep between calls.
ghost use Rattle.std.specs.Prelude.{◌≡◌};
ghost use Rattle.notice.specs.Ring as Ring;
ghost use Rattle.hoursquall.specs.Answer.{told};
ghost use Rattle.hoursquall.specs.Notice.{positions_of_def, positions_after_take, id_after, data_length_after};

use crate::answer::Numbered;
use notice::{Positions, Reason, Taken};

// The positions that a block is.
pub fn positions_of(block: [usize; 2]) -> Positions
    ensures { result ≡ positions_of_def block }
{
    let [read, write] = block;
    Positions { read, write }
}

// The positions after a take, Notify ID and Data Length, each to a place of its own.
pub fn tell_taken(
    answer: Result<Taken, Reason>,
    positions: &mut [usize; 2],
    id: &mut u32,
    extent: &mut usize,
) -> u32
    ensures value { result ≡ told Ring.number_of answer }
    ensures positions_after { positions.new ≡ positions_after_take answer positions.old }
    ensures id_after { id.new ≡ id_after answer id.old }
    ensures extent_after { extent.new ≡ data_length_after answer extent.old }
{
    match answer {
        Err(reason) => reason.number(),
        Ok(taken) => {
            *positions = taken.positions.numbers();
            *id = taken.id;
            *extent = taken.length;
            0
        }
    }
}
