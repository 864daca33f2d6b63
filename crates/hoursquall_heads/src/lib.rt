// The static library of several senders on one cable. It is a library of its own, since the compiler compiles the
// reassembly's step in place only where it has one caller.
#![tactic(auto)]

ghost use Rattle.std.specs.Prelude.{◌≡◌};
ghost use Rattle.hoursquall_heads.specs.Heads.{verdict_number, words_after, place_after, lending, answered, left};

use heads::Verdict;

// The answer that a message is delivered: a number, as the C interface has it.
const DELIVERED: u32 = 100;

// Takes one frame in. `places` is a block of 64 numbers (see `places_in`); `words` receives the carried words of a message
// that is delivered, and `place` its place.
#[unsafe(no_mangle)]
pub extern "C" fn hs_heads_step(
    places: &mut [u32; 64],
    frame: &[u8],
    us: u32,
    buffer: &mut [u8],
    words: &mut [u32; 5],
    place: &mut usize,
) -> u32
    ensures value { result ≡ answered us (lending places.old buffer.old words.old place.old) frame.now }
    ensures places_after { places.new ≡ (left us (lending places.old buffer.old words.old place.old) frame.now).places }
    ensures buffer_after { buffer.new ≡ (left us (lending places.old buffer.old words.old place.old) frame.now).buffer }
    ensures words_after { words.new ≡ (left us (lending places.old buffer.old words.old place.old) frame.now).words }
    ensures place_after { place.new ≡ (left us (lending places.old buffer.old words.old place.old) frame.now).place }
{
    let verdict = heads::step(places, frame, us, buffer);
    tell_verdict(verdict, words, place)
}

// A verdict as a number; a delivery's words and place go to what is lent for them. It is no plainer by the function that tells
// the reassembly's verdict: this one is another type, and has a place.
pub fn tell_verdict(verdict: Verdict, words: &mut [u32; 5], place: &mut usize) -> u32
    ensures value { result ≡ verdict_number verdict }
    ensures words_after { words.new ≡ words_after verdict words.old }
    ensures place_after { place.new ≡ place_after verdict place.old }
{
    match verdict {
        Verdict::More => 0,
        Verdict::Delivered(w, _, k) => {
            *words = [u32::from(w.sequence), w.id, w.sender, w.status, w.total];
            *place = k;
            DELIVERED
        }
        Verdict::Refused(reason) => reason.number(),
    }
}
