// What a step of the reassembly comes to.
ghost use Rattle.std.specs.Prelude.{◌≡◌};
ghost use Rattle.hoursquall.specs.Reassembly.{verdict_number, words_after, block_after};

use crate::state::write_block;
use reassembly::{Answer, Verdict};

// The answer that a message is delivered.
const DELIVERED: u32 = 100;

// The verdict and the state after it. `words` receives the carried words of a message that is delivered.
pub fn tell(answer: Answer, state: &mut [u64; 8], words: &mut [u32; 5]) -> u32
    ensures value { result ≡ verdict_number answer.verdict }
    ensures state_after { state.new ≡ block_after (verdict_number answer.verdict) answer.state state.old }
    ensures words_after { words.new ≡ words_after answer.verdict words.old }
{
    write_block(answer, state);
    tell_verdict(answer.verdict, words)
}

fn tell_verdict(verdict: Verdict, words: &mut [u32; 5]) -> u32
    ensures value { result ≡ verdict_number verdict }
    ensures words_after { words.new ≡ words_after verdict words.old }
{
    match verdict {
        Verdict::More => 0,
        Verdict::Delivered(w, _) => {
            *words = [u32::from(w.sequence), w.id, w.sender, w.status, w.total];
            DELIVERED
        }
        Verdict::Refused(reason) => reason.number(),
    }
}
