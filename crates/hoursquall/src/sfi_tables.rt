// SFI tables, and the choice between two of them. What is answered goes to several places, or is told by which table it is, so each function says both cases.
ghost use Rattle.std.specs.Prelude.{◌≡◌};
ghost use Rattle.sfi.specs.Checks.{number_of};
ghost use Rattle.hoursquall.specs.Answer.{told};
ghost use Rattle.hoursquall.specs.Sfi.{signature_after, table_length_after, choose_number, chosen_length_after};

use sfi::choice::Source;
use sfi::{Reason, Table};

// The answer that the board's table is chosen.
const BOARD: u32 = 101;

// The answer that the built-in one is.
const BUILT_IN: u32 = 102;

// The signature of the table's kind, and its Length.
pub fn tell_checked(answer: Result<Table, Reason>, signature: &mut u32, extent: &mut usize) -> u32
    ensures value { result ≡ told number_of answer }
    ensures signature_after { signature.new ≡ signature_after answer signature.old }
    ensures extent_after { extent.new ≡ table_length_after answer extent.old }
{
    match answer {
        Err(reason) => reason.number(),
        Ok(table) => {
            *signature = table.kind.signature;
            *extent = table.length;
            0
        }
    }
}

// Which table is chosen, and its Length.
pub fn tell_chosen(
    answer: Result<Source, Reason>,
    board: &[u8],
    built_in: &[u8],
    extent: &mut usize,
) -> u32
    ensures value { result ≡ choose_number answer }
    ensures extent_after { extent.new ≡ chosen_length_after answer board.now built_in.now extent.old }
{
    match answer {
        Err(reason) => reason.number(),
        Ok(Source::Board) => {
            *extent = sfi::length_of(board);
            BOARD
        }
        Ok(Source::BuiltIn) => {
            *extent = sfi::length_of(built_in);
            BUILT_IN
        }
    }
}
