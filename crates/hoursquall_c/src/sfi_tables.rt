// SFI tables: the check, the entries, the search for SYST, and the choice between two tables.
ghost use Rattle.std.specs.Prelude.{◌≡◌};
ghost use Rattle.sfi.specs.Checks.{number_of, checked, entry_of};
ghost use Rattle.sfi.specs.Search.{located};
ghost use Rattle.sfi.specs.Choice.{chosen};
ghost use Rattle.hoursquall.specs.Answer.{told, left_lent, itself};
ghost use Rattle.hoursquall.specs.Sfi.{signature_after, table_length_after, choose_number, chosen_length_after};

use hoursquall::answer::tell;
use hoursquall::sfi_tables::{tell_checked, tell_chosen};
use sfi::Table;

// Checks the table at the start of `table`; `signature` and `extent` receive the signature of its kind and
// its Length.
#[unsafe(no_mangle)]
pub extern "C" fn hs_sfi_check(table: &[u8], signature: &mut u32, extent: &mut usize) -> u32
    ensures value { result ≡ told number_of (checked table.now) }
    ensures signature_after { signature.new ≡ signature_after (checked table.now) signature.old }
    ensures extent_after { extent.new ≡ table_length_after (checked table.now) extent.old }
{
    tell_checked(Table::check(table), signature, extent)
}

// Where entry k of a table starts, counted from 0; `offset` receives it.
#[unsafe(no_mangle)]
pub extern "C" fn hs_sfi_entry(table: &[u8], k: usize, offset: &mut usize) -> u32
    ensures value { result ≡ told number_of (entry_of table.now k) }
    ensures offset_after { offset.new ≡ left_lent itself (entry_of table.now k) offset.old }
{
    tell(Table::entry(table, k), offset)
}

// Looks for SYST in the memory from 0xE0000 to 0xFFFFF; `offset` receives where it starts in it.
#[unsafe(no_mangle)]
pub extern "C" fn hs_sfi_find_syst(memory: &[u8], offset: &mut usize) -> u32
    ensures value { result ≡ told number_of (located memory.now) }
    ensures offset_after { offset.new ≡ left_lent itself (located memory.now) offset.old }
{
    tell(sfi::search::find_syst(memory), offset)
}

// Chooses between the board's table and the built-in one; `extent` receives Length of the one chosen.
#[unsafe(no_mangle)]
pub extern "C" fn hs_sfi_choose(
    signature: u32,
    board: &[u8],
    built_in: &[u8],
    extent: &mut usize,
) -> u32
    ensures value { result ≡ choose_number (chosen signature board.now built_in.now) }
    ensures extent_after { extent.new ≡ chosen_length_after (chosen signature board.now built_in.now) board.now built_in.now extent.old }
{
    let answer = sfi::choice::choose(signature, board, built_in);
    tell_chosen(answer, board, built_in, extent)
}
