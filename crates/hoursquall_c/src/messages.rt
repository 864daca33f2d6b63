// Messages, taken in frame by frame.
ghost use Rattle.std.specs.Prelude.{◌≡◌};
ghost use Rattle.hoursquall.specs.Reassembly.{lending, answered, left};

use hoursquall::messages::tell;
use hoursquall::state::state_of;

// Takes one frame into a reassembly. `state` is a block of eight numbers (see `state_of_def`), `words` receives
// the carried words of a message that is delivered.
#[unsafe(no_mangle)]
pub extern "C" fn hs_reassembly_step(
    state: &mut [u64; 8],
    frame: &[u8],
    us: u32,
    buffer: &mut [u8],
    words: &mut [u32; 5],
) -> u32
    ensures value { result ≡ answered us (lending state.old buffer.old words.old) frame.now }
    ensures state_after { state.new ≡ (left us (lending state.old buffer.old words.old) frame.now).block }
    ensures buffer_after { buffer.new ≡ (left us (lending state.old buffer.old words.old) frame.now).buffer }
    ensures words_after { words.new ≡ (left us (lending state.old buffer.old words.old) frame.now).words }
{
    let answer = reassembly::step(state_of(*state), frame, us, buffer);
    tell(answer, state, words)
}
