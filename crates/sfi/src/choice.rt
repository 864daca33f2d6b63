// The choice between the board's table and the built-in one.
ghost use Rattle.std.specs.Prelude.{◌≡◌};
ghost use Rattle.sfi.specs.Checks.{checked, passes_as_def};
ghost use Rattle.sfi.specs.Choice.{chosen, part_of};

use crate::kind::Kind;
use crate::{Reason, Table, length_of};

// Which of the two tables. The scope names this form: one function answers an enum for which, another the
// part of one of the two lent slices.
#[derive(Clone, Copy, Debug, PartialEq, Eq)]
pub enum Source {
    Board,
    BuiltIn,
}

// Whether a table passes, and has that signature.
fn passes_as(signature: u32, table: &[u8]) -> bool
    ensures { result ≡ passes_as_def signature (checked table.now) }
{
    Table::check(table).is_ok_and(|t| t.kind.signature == signature)
}

// Which table the entries of that signature come from, or 42 or 48. The signature and the tables are three parameters here and in
// `part` alone; a struct of them would be made for one call.
#[tactic(auto, unfolding(crate::specs::Choice::between))]
pub fn choose(signature: u32, board: &[u8], built_in: &[u8]) -> Result<Source, Reason>
    ensures { result ≡ chosen signature board.now built_in.now }
{
    Kind::of(signature).ok_or(Reason::UnknownSignature)?;
    if passes_as(signature, board) {
        Ok(Source::Board)
    } else if passes_as(signature, built_in) {
        Ok(Source::BuiltIn)
    } else {
        Err(Reason::Neither)
    }
}

// The table itself: the first Length bytes of the one chosen, or no bytes where `choose` refuses.
pub fn part<'a>(signature: u32, board: &'a [u8], built_in: &'a [u8]) -> &'a [u8]
    ensures { result.now ≡ part_of (chosen signature board.now built_in.now) board.now built_in.now }
{
    match choose(signature, board, built_in) {
        Ok(Source::Board) => le::head(board, length_of(board)),
        Ok(Source::BuiltIn) => le::head(built_in, length_of(built_in)),
        Err(_) => le::head(board, 0),
    }
}
