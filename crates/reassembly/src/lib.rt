// Reassembly of messages from their frames: one call a frame, over a state that is handed in and back,
// and a buffer that the caller lends.
#![tactic(auto)]

ghost use Rattle.std.specs.Prelude.{◌≡◌, true, ◌≤◌, ◌<◌, length};
ghost use Rattle.frame.specs.Layout.{message_max};
ghost use Rattle.reassembly.specs.Step.{number_of, consistent, state_after_def, refusal, lacks_data_def, accept, begin, proceed, routed, received, step_of};

use frame::read::Parsed;
use frame::{Header, Words};

// A message that is open: its carried words, the Index that comes next, and how many of its bytes stand
// in the buffer.
#[derive(Clone, Copy, Debug, PartialEq, Eq)]
pub struct Progress {
    pub words: Words,
    pub next: usize,
    pub filled: usize,
}

// What is kept between two calls. An enum of its own and no Option: the scope names this form.
#[derive(Clone, Copy, Debug, PartialEq, Eq)]
pub enum State {
    // Nothing is open.
    Fresh,
    Open(Progress),
}

impl State {
    // An open state that no buffer is consistent with: what numbers that are no state are read as.
    pub const INCONSISTENT: State = State::Open(Progress {
        words: Words {
            sequence: 0,
            id: 0,
            sender: 0,
            status: 0,
            total: 0,
        },
        next: 0,
        filled: 0,
    });
}

// Why a frame is refused.
#[derive(Clone, Copy, Debug, PartialEq, Eq)]
pub enum Reason {
    // 1 to 4: the frame does not parse.
    Unread(frame::read::Reason),
    // 5: Index not 0, nothing open.
    NothingOpen,
    // 6: Index not 0, and not the next one.
    OutOfOrder,
    // 7: Index is the next one, a carried word differs.
    OtherWords,
    // 8: no data though total is not 0.
    NoData,
    // 9: more data than is still missing.
    TooMuchData,
    // 10: Index 0, total over 4,096 or over the buffer.
    MessageLong,
    // 11: the state handed in is neither fresh nor consistent.
    BadState,
}

// What a call answers, refusals among it and in no Result: the scope names this form.
#[derive(Clone, Copy, Debug, PartialEq, Eq)]
pub enum Verdict {
    // More of the message is wanted.
    More,
    // The carried words, and the message's length: it is the buffer's first bytes, as many as that.
    Delivered(Words, usize),
    Refused(Reason),
}

// A verdict together with the state after it: the scope names this form.
#[derive(Clone, Copy, Debug, PartialEq, Eq)]
pub struct Answer {
    pub verdict: Verdict,
    pub state: State,
}

impl Reason {
    // The refusal's number.
    pub fn number(self) -> u32
        ensures { result ≡ number_of self }
    {
        match self {
            Reason::Unread(reason) => reason.number(),
            Reason::NothingOpen => 5,
            Reason::OutOfOrder => 6,
            Reason::OtherWords => 7,
            Reason::NoData => 8,
            Reason::TooMuchData => 9,
            Reason::MessageLong => 10,
            Reason::BadState => 11,
        }
    }
}

// The state after a refusal: a frame that does not parse changes nothing, any other refusal drops what is
// open.
fn state_after(reason: Reason, before: State) -> State
    ensures { result ≡ state_after_def reason before }
{
    match reason {
        Reason::Unread(_) => before,
        _ => State::Fresh,
    }
}

fn refuse(reason: Reason, before: State) -> Answer
    ensures { result ≡ refusal reason before }
{
    Answer {
        verdict: Verdict::Refused(reason),
        state: state_after(reason, before),
    }
}

// Whether a state is fresh or consistent, over a buffer of `room` bytes.
#[tactic(auto, unfolding(crate::specs::Step::consistent))]
pub fn is_consistent(state: State, room: usize) -> bool
    ensures { result ≡ consistent state room }
{
    let State::Open(open) = state else {
        return true;
    };
    let total = open.words.total as usize;
    1 <= open.next
        && open.next <= open.filled
        && open.filled < total
        && total <= Header::MESSAGE_MAX
        && total <= room
}

// Whether data is missing: there is none, though the message is not empty.
pub fn lacks_data(size: usize, total: usize) -> bool
    ensures { result ≡ lacks_data_def size total }
{
    size == 0 && total != 0
}

// The data of the frame whose Index comes next, for what is open or begins. Data and buffer stay two parameters, here and below:
// the one is read, the other is lent to be written, and no function keeps both.
#[tactic(auto, unfolding(crate::specs::Step::accept))]
fn accept_data(progress: Progress, piece: &[u8], buf: &mut [u8]) -> Answer
    requires filled_le_total { progress.filled ≤ progress.words.total }
    requires total_in_bounds { progress.words.total ≤ length buf.old }
    requires next_lt_message_max { progress.next < message_max }
    ensures value { result ≡ (accept progress.words progress.next progress.filled piece.now buf.old).answer }
    ensures buf_after { buf.new ≡ (accept progress.words progress.next progress.filled piece.now buf.old).buffer }
{
    let total = progress.words.total as usize;
    if lacks_data(piece.len(), total) {
        return refuse(Reason::NoData, State::Fresh);
    }
    if total - progress.filled < piece.len() {
        return refuse(Reason::TooMuchData, State::Fresh);
    }
    let filled = progress.filled + piece.len();
    // The buffer's part from the first unfilled byte on is lent to the copy: the scope names this form.
    le::copy(piece, &mut buf[progress.filled..]);
    if filled == total {
        return Answer {
            verdict: Verdict::Delivered(progress.words, total),
            state: State::Fresh,
        };
    }
    let open = Progress {
        next: progress.next + 1,
        filled,
        ..progress
    };
    Answer {
        verdict: Verdict::More,
        state: State::Open(open),
    }
}

// A frame with Index 0: it begins anew, whatever was open.
#[tactic(auto, unfolding(crate::specs::Step::begin))]
fn begin_message(words: Words, piece: &[u8], buf: &mut [u8]) -> Answer
    ensures value { result ≡ (begin words piece.now buf.old).answer }
    ensures buf_after { buf.new ≡ (begin words piece.now buf.old).buffer }
{
    let total = words.total as usize;
    if Header::MESSAGE_MAX < total || buf.len() < total {
        return refuse(Reason::MessageLong, State::Fresh);
    }
    let begun = Progress {
        words,
        next: 0,
        filled: 0,
    };
    accept_data(begun, piece, buf)
}

// A frame with any other Index: it goes on with what is open.
#[tactic(auto, using(crate::proofs::Answers::continuing), unfolding(crate::specs::Step::proceed))]
fn continue_message(h: Header, piece: &[u8], state: State, buf: &mut [u8]) -> Answer
    requires { consistent state (length buf.old) ≡ true }
    ensures value { result ≡ (proceed h piece.now state buf.old).answer }
    ensures buf_after { buf.new ≡ (proceed h piece.now state buf.old).buffer }
{
    let State::Open(open) = state else {
        return refuse(Reason::NothingOpen, state);
    };
    if h.index as usize != open.next {
        return refuse(Reason::OutOfOrder, state);
    }
    if h.words != open.words {
        return refuse(Reason::OtherWords, state);
    }
    // The words are the same. The frame's go on, which are at hand where they were compared.
    let open = Progress {
        words: h.words,
        ..open
    };
    accept_data(open, piece, buf)
}

// Takes in what the reader answers of a frame, with the frame's data, where the state is fresh or consistent. The scope names
// the first `let .. else`; that `read` is a refusal then is proved of the second.
#[tactic(auto, unfolding(crate::specs::Step::routed))]
fn route(read: Parsed, piece: &[u8], state: State, buf: &mut [u8]) -> Answer
    requires { consistent state (length buf.old) ≡ true }
    ensures value { result ≡ (routed read piece.now state buf.old).answer }
    ensures buf_after { buf.new ≡ (routed read piece.now state buf.old).buffer }
{
    let Parsed::Header(h) = read else {
        let Parsed::Refused(reason) = read else {
            unreachable!()
        };
        return refuse(Reason::Unread(reason), state);
    };
    if h.index == 0 {
        return begin_message(h.words, piece, buf);
    }
    continue_message(h, piece, state, buf)
}

// The same for any state: one that is neither fresh nor consistent gets 11. Accepted data lands in the buffer from
// the first unfilled byte on; a refusal changes no byte.
#[tactic(auto, unfolding(crate::specs::Step::received))]
pub fn receive(read: Parsed, piece: &[u8], state: State, buf: &mut [u8]) -> Answer
    ensures value { result ≡ (received read piece.now state buf.old).answer }
    ensures buf_after { buf.new ≡ (received read piece.now state buf.old).buffer }
{
    if !is_consistent(state, buf.len()) {
        return refuse(Reason::BadState, state);
    }
    route(read, piece, state, buf)
}

// One call: a frame, for the receiver `us`, received as the reader answers it. The state is tested first, so that
// the words of a frame and of a state are compared where they stand.
#[tactic(auto, unfolding(crate::specs::Step::received))]
pub fn step(state: State, frame: &[u8], us: u32, buf: &mut [u8]) -> Answer
    ensures value { result ≡ (step_of us state buf.old frame.now).answer }
    ensures buf_after { buf.new ≡ (step_of us state buf.old frame.now).buffer }
{
    if !is_consistent(state, buf.len()) {
        return refuse(Reason::BadState, state);
    }
    let parsed = frame::read::parse(frame, us);
    let piece = frame::read::data(frame);
    route(parsed, piece, state, buf)
}
