// The state of a reassembly as a block of eight numbers, for a caller to keep between calls: C lends it. `heads` keeps its places
// by a layout of its own: there all of a fresh place is 0, and a number has 32 bits.
ghost use Rattle.std.specs.Prelude.{◌≡◌};
ghost use Rattle.hoursquall.specs.Reassembly.{open_of_def, state_of_def, block_of, verdict_number, block_after};

use frame::Words;
use reassembly::{Answer, Progress, Reason, State, Verdict};

// A block that is no state reads as one that is refused.
#[tactic(auto, unfolding(crate::specs::Reassembly::state_of_def))]
pub fn state_of(b: [u64; 8]) -> State
    ensures { result ≡ state_of_def b }
{
    match b[0] {
        0 => State::Fresh,
        1 => open_of(b),
        _ => State::INCONSISTENT,
    }
}

fn open_of(b: [u64; 8]) -> State
    ensures { result ≡ open_of_def b }
{
    let [_, sequence, id, sender, status, total, next, filled] = b;
    let Ok(sequence) = u8::try_from(sequence) else {
        return State::INCONSISTENT;
    };
    let Ok(id) = u32::try_from(id) else {
        return State::INCONSISTENT;
    };
    let Ok(sender) = u32::try_from(sender) else {
        return State::INCONSISTENT;
    };
    let Ok(status) = u32::try_from(status) else {
        return State::INCONSISTENT;
    };
    let Ok(total) = u32::try_from(total) else {
        return State::INCONSISTENT;
    };
    State::Open(Progress {
        words: Words {
            sequence,
            id,
            sender,
            status,
            total,
        },
        next: next as usize,
        filled: filled as usize,
    })
}

// Each case writes the whole block itself: one write behind both would carry eight numbers to it from either.
pub fn write_state(state: State, block: &mut [u64; 8])
    ensures { block.new ≡ block_of state }
{
    match state {
        State::Fresh => {
            *block = [0; 8];
        }
        State::Open(open) => {
            let words = open.words;
            *block = [
                1,
                u64::from(words.sequence),
                u64::from(words.id),
                u64::from(words.sender),
                u64::from(words.status),
                u64::from(words.total),
                open.next as u64,
                open.filled as u64,
            ];
        }
    }
}

// Writes the state after an answer to its block. A frame that is not read leaves the block as it was lent.
pub(crate) fn write_block(answer: Answer, block: &mut [u64; 8])
    ensures { block.new ≡ block_after (verdict_number answer.verdict) answer.state block.old }
{
    match answer.verdict {
        Verdict::Refused(Reason::Unread(_)) => {}
        _ => write_state(answer.state, block),
    }
}
