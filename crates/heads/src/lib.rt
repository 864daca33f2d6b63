// Several senders on one cable: reassembly with eight places, a message of one sender in each. The places are 64 numbers
// that the caller lends (see `numbers`), and each has its own 4,096 bytes of a lent buffer.
#![tactic(auto)]

mod numbers;

ghost use Rattle.std.specs.Prelude.{◌≡◌, true, ◌≤◌, length, get_or, MatchOption};
ghost use Rattle.frame.specs.declared.read.Parsed.TheVariants as Parsed;
ghost use Rattle.reassembly.specs.Step.{received};
ghost use Rattle.reassembly.specs.declared.State.TheVariants.{Fresh};
ghost use Rattle.heads.specs.Places.{place_count, buffer_min, part, all_consistent, legal};
ghost use Rattle.heads.specs.Step.{number_of, placed, seated, crowded, routed, step_of};
ghost use Rattle.heads.specs.Numbers.{places_in, numbers_of};
ghost use Rattle.heads.specs.Helpers.{relaid, Keeps, seat_of, left_for, turned_away};

use frame::read::Parsed;
use frame::{Header, Words};
use numbers::{Places, Seat};

// How many messages can be open at once, one a sender.
pub const PLACE_COUNT: usize = 8;
// The bytes of each.
pub const PLACE_SIZE: usize = 4096;
// The least bytes of a buffer.
pub const BUFFER_MIN: usize = 32768;
// How many numbers the places are kept as.
pub const NUMBER_COUNT: usize = 64;

// Why a frame is refused.
#[derive(Clone, Copy, Debug, PartialEq, Eq)]
pub enum Reason {
    // 1 to 11: as in the crate `reassembly`, of the sender's own message.
    Step(reassembly::Reason),
    // 15: a message begins, and no place is free.
    NoPlace,
}

// What a call answers: the scope names this form.
#[derive(Clone, Copy, Debug, PartialEq, Eq)]
pub enum Verdict {
    // More of the message is wanted.
    More,
    // The carried words, the message's length, and its place: it is the first bytes of that place, as many as that.
    Delivered(Words, usize, usize),
    Refused(Reason),
}

impl Reason {
    // The refusal's number.
    pub fn number(self) -> u32
        ensures { result ≡ number_of self }
    {
        match self {
            Reason::Step(reason) => reason.number(),
            Reason::NoPlace => 15,
        }
    }
}

// A verdict of place k.
fn place(verdict: reassembly::Verdict, k: usize) -> Verdict
    ensures { result ≡ placed k verdict }
{
    match verdict {
        reassembly::Verdict::More => Verdict::More,
        reassembly::Verdict::Delivered(words, n) => Verdict::Delivered(words, n, k),
        reassembly::Verdict::Refused(reason) => Verdict::Refused(Reason::Step(reason)),
    }
}

// Takes a frame in at its place.
fn take_in(
    seat: Seat,
    h: Header,
    piece: &[u8],
    places: &mut [u32; NUMBER_COUNT],
    buf: &mut [u8],
) -> Verdict
    requires room_enough { buffer_min ≤ length buf.old }
    requires keeps { Keeps h piece.now }
    ensures value { result ≡ (seated seat.k seat.state h piece.now (places_in places.old) buf.old).verdict }
    ensures places_after { places.new ≡ relaid seat.k (received (Parsed.Header h) piece.now seat.state (part seat.k buf.old)).answer.state places.old }
    ensures read_back { places_in places.new ≡ (seated seat.k seat.state h piece.now (places_in places.old) buf.old).places }
    ensures buf_after { buf.new ≡ (seated seat.k seat.state h piece.now (places_in places.old) buf.old).buffer }
{
    let k = seat.k;
    let start = PLACE_SIZE * k;
    let end = start + PLACE_SIZE;
    let answer = reassembly::receive(Parsed::Header(h), piece, seat.state, &mut buf[start..end]);
    let next = Seat {
        k,
        state: answer.state,
    };
    next.put(places);
    place(answer.verdict, k)
}

// Why a frame with Index 0 is refused where no place is free.
#[tactic(auto, unfolding(crate::specs::Step::crowded))]
fn crowd(size: usize, total: u32) -> Reason
    ensures { result ≡ crowded size total }
{
    let whole = total as usize;
    if Header::MESSAGE_MAX < whole {
        return Reason::Step(reassembly::Reason::MessageLong);
    }
    if reassembly::lacks_data(size, whole) {
        return Reason::Step(reassembly::Reason::NoData);
    }
    if whole < size {
        return Reason::Step(reassembly::Reason::TooMuchData);
    }
    Reason::NoPlace
}

// The place of a frame, with what is there. For a frame with Index 0 its sender's own message is dropped first; then it
// is the lowest free place, and for any other its sender's own.
fn find_place(h: Header, places: &mut [u32; NUMBER_COUNT]) -> Option<Seat>
    requires { all_consistent (places_in places.old) ≡ true }
    ensures value { MatchOption result (place_count ≤ seat_of h (places_in places.old)) (λ s. (s.k ≡ seat_of h (places_in places.old)) × (s.state ≡ get_or (left_for h (places_in places.old)) s.k Fresh)) }
    ensures places_after { places.new ≡ numbers_of (left_for h (places_in places.old)) }
    ensures read_back { places_in places.new ≡ left_for h (places_in places.old) }
{
    let sender = h.words.sender;
    if h.index == 0 {
        numbers::drop_own(sender, places);
        let left = Places::of(places);
        return Some(left.seat(left.lowest_free()?));
    }
    let all = Places::of(places);
    Some(all.seat(all.place_of(sender)?))
}

// Why a frame that has no place is refused.
fn turn_away(h: Header, size: usize) -> Reason
    ensures { result ≡ turned_away h size }
{
    if h.index == 0 {
        return crowd(size, h.words.total);
    }
    Reason::Step(reassembly::Reason::NothingOpen)
}

// A frame that is read, where the places are legal. There is one call of `take_in`, so that it is compiled in place.
// The numbers and the buffer stay two arguments here and in `take_in`, as the C interface lends them to `step`.
fn route(h: Header, piece: &[u8], places: &mut [u32; NUMBER_COUNT], buf: &mut [u8]) -> Verdict
    requires allowed { legal (places_in places.old) (length buf.old) ≡ true }
    requires keeps { Keeps h piece.now }
    ensures value { result ≡ (routed (Parsed.Header h) piece.now (places_in places.old) buf.old).verdict }
    ensures places_after { places.new ≡ numbers_of (routed (Parsed.Header h) piece.now (places_in places.old) buf.old).places }
    ensures read_back { places_in places.new ≡ (routed (Parsed.Header h) piece.now (places_in places.old) buf.old).places }
    ensures buf_after { buf.new ≡ (routed (Parsed.Header h) piece.now (places_in places.old) buf.old).buffer }
{
    let Some(seat) = find_place(h, places) else {
        return Verdict::Refused(turn_away(h, piece.len()));
    };
    take_in(seat, h, piece, places, buf)
}

// One call: a frame, for the receiver `us`. `places` are 64 numbers (see `places_in`): a zeroed block is eight fresh places.
// Accepted data lands in the bytes of its own place; a refusal changes no byte of the buffer.
pub fn step(places: &mut [u32; NUMBER_COUNT], frame: &[u8], us: u32, buf: &mut [u8]) -> Verdict
    ensures value { result ≡ (step_of us (places_in places.old) buf.old frame.now).verdict }
    ensures places_after { places.new ≡ numbers_of (step_of us (places_in places.old) buf.old frame.now).places }
    ensures read_back { places_in places.new ≡ (step_of us (places_in places.old) buf.old frame.now).places }
    ensures buf_after { buf.new ≡ (step_of us (places_in places.old) buf.old frame.now).buffer }
{
    if !numbers::are_legal(places, buf.len()) {
        numbers::clear(places);
        return Verdict::Refused(Reason::Step(reassembly::Reason::BadState));
    }
    match frame::read::parse(frame, us) {
        Parsed::Refused(reason) => {
            Verdict::Refused(Reason::Step(reassembly::Reason::Unread(reason)))
        }
        Parsed::Header(h) => route(h, frame::read::data(frame), places, buf),
    }
}
