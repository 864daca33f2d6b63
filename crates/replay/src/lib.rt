// A recorded day, played again: the frames of a log run in order through the reassembly, with a line of text for
// each record.
#![tactic(auto)]

ghost use Rattle.std.specs.Prelude.{◌≡◌, ◌≤◌, ◌<◌, ◌++◌, Ok, length};
ghost use Rattle.frame.specs.Layout.{message_max};
ghost use Rattle.text.specs.Decimal.{decimal};
ghost use Rattle.text.specs.Output.{HasRoom, Adds};
ghost use Rattle.replay.specs.Day.{play_of, ran, Bounded, EntryBounded};
ghost use Rattle.replay.specs.Lines.{space, no_receiver_def, receiver_of, delivered_text, told, line_of};
ghost use Rattle.replay.specs.Helpers.{told_max};
ghost use Rattle.replay.specs.Chunk.{starting, line_max, number_max, halts, line_for, next_player, played, answer_of, output_after};
ghost use Rattle.reassembly.specs.Step.{step_of};

use le::Word;
use reassembly::{State, Verdict};
use text::Writer;

// What a record comes to: a refusal by 50 to 53, of which no frame is run, or what the reassembly answers to the frame.
pub type Entry = Result<Verdict, framelog::Reason>;

// An entry together with the state after it.
#[derive(Clone, Copy, Debug, PartialEq, Eq)]
pub struct Played {
    pub entry: Entry,
    pub state: State,
}

// What is kept between two parts of a log: the reassembly's state, and the number of the next record.
#[derive(Clone, Copy, Debug, PartialEq, Eq)]
pub struct Player {
    pub state: State,
    pub number: u64,
}

// What was played of a part of a log: how many of its bytes, how many bytes of text were written, and the player
// after that.
#[derive(Clone, Copy, Debug, PartialEq, Eq)]
pub struct Listed {
    pub read: usize,
    pub written: usize,
    pub player: Player,
}

// The bytes of the reassembly's buffer.
pub const BUFFER_SIZE: usize = 4096;
// The longest line: a record number of 20 digits, a Message ID of 10, a length of 4, and the words.
pub const LINE_MAX: usize = 47;
// No record gets this number: none would come after it.
pub const NUMBER_MAX: u64 = u64::MAX;

impl Player {
    // As a day starts.
    pub fn new() -> Self
        ensures { result ≡ starting }
    {
        Player {
            state: State::Fresh,
            number: 0,
        }
    }
}

// A frame that is run. (`us` and `buffer` go side by side, here and below, as `reassembly::step` takes them: a struct of
// both would only be taken apart for it.)
fn run_frame(state: State, frame: &[u8], us: u32, buffer: &mut [u8; BUFFER_SIZE]) -> Played
    ensures value { result ≡ (ran (step_of us state buffer.old frame.now)).answer }
    ensures entry_bounded { EntryBounded result.entry }
    ensures buffer_after { buffer.new ≡ (ran (step_of us state buffer.old frame.now)).buffer }
{
    let answer = reassembly::step(state, frame, us, buffer);
    Played {
        entry: Ok(answer.verdict),
        state: answer.state,
    }
}

// Plays one record: its frame is run, unless the record is refused.
pub fn play(state: State, slice: &[u8], us: u32, buffer: &mut [u8; BUFFER_SIZE]) -> Played
    ensures value { result ≡ (play_of us state buffer.old slice.now).answer }
    ensures entry_bounded { EntryBounded result.entry }
    ensures buffer_after { buffer.new ≡ (play_of us state buffer.old slice.now).buffer }
{
    match framelog::read(slice) {
        Ok(n) => run_frame(state, framelog::cut(slice, n), us, buffer),
        Err(reason) => Played {
            entry: Err(reason),
            state,
        },
    }
}

// The receiver that a file names, which is four bytes, little-endian; None of any other file.
pub fn receiver_in(file: &[u8]) -> Option<u32>
    ensures { result ≡ receiver_of file.now }
{
    (file.len() == 4).then_some(u32::at(file, 0))
}

// All that is written where it names none.
pub fn no_receiver() -> [u8; 12]
    ensures { result ≡ no_receiver_def }
{
    *b"no receiver\n"
}

// The lines are put by a writer, and not by `Display`: `write!` can fail, and std's clauses say of its text only what holds
// where it does not, so that nothing would follow of a line for which there is room. Each function asks for the room of its own
// text, and of an entry that it is bounded: no type says that, since the rooms differ, and a `Played` is what any caller may make.

// Puts a space and a number.
fn put_spaced(n: u32, text: &mut Writer)
    requires { HasRoom (length (space ++ decimal n)) text.old }
    ensures { Adds (space ++ decimal n) text.old text.new }
{
    text.put(b" ");
    text.put_decimal(n as u64);
}

// Puts a space and what is told of a message that is delivered.
fn put_delivered(id: u32, n: usize, text: &mut Writer)
    requires { (n ≤ message_max) × HasRoom told_max text.old }
    ensures adds { Adds (space ++ delivered_text id n) text.old text.new }
    ensures short { length (space ++ delivered_text id n) ≤ told_max }
{
    text.put(b" delivered");
    put_spaced(id, text);
    put_spaced(n as u32, text);
}

fn put_verdict(verdict: Verdict, text: &mut Writer)
    requires { Bounded verdict × HasRoom told_max text.old }
    ensures adds { Adds (space ++ told (Ok verdict)) text.old text.new }
    ensures short { length (space ++ told (Ok verdict)) ≤ told_max }
{
    match verdict {
        Verdict::More => text.put(b" more"),
        Verdict::Delivered(words, n) => put_delivered(words.id, n, text),
        Verdict::Refused(reason) => put_spaced(reason.number(), text),
    }
}

// Puts a space and what is told of a record.
fn put_told(entry: Entry, text: &mut Writer)
    requires { EntryBounded entry × HasRoom told_max text.old }
    ensures adds { Adds (space ++ told entry) text.old text.new }
    ensures short { length (space ++ told entry) ≤ told_max }
{
    match entry {
        Ok(verdict) => put_verdict(verdict, text),
        Err(reason) => put_spaced(reason.number(), text),
    }
}

// Puts the line of a record.
fn put_line(number: u64, entry: Entry, text: &mut Writer)
    requires { EntryBounded entry × HasRoom line_max text.old }
    ensures { Adds (line_of number entry) text.old text.new }
{
    text.put_decimal(number);
    put_told(entry, text);
    text.put(b"\n");
}

// Whether playing stops before a record, where the output has so much room left.
fn must_halt(player: Player, room: usize) -> bool
    ensures { result ≡ halts room player }
{
    room < LINE_MAX || NUMBER_MAX <= player.number
}

// Plays a record, and puts its line.
fn play_line(
    player: Player,
    slice: &[u8],
    us: u32,
    buffer: &mut [u8; BUFFER_SIZE],
    text: &mut Writer,
) -> Player
    requires { (player.number < number_max) × HasRoom line_max text.old }
    ensures value { result ≡ next_player player (play_of us player.state buffer.old slice.now) }
    ensures adds { Adds (line_for player (play_of us player.state buffer.old slice.now)) text.old text.new }
    ensures buffer_after { buffer.new ≡ (play_of us player.state buffer.old slice.now).buffer }
{
    let done = play(player.state, slice, us, buffer);
    put_line(player.number, done.entry, text);
    Player {
        state: done.state,
        number: player.number + 1,
    }
}

// Plays a part of a log, and lists its records as text at the start of the output, up to the end of the part or to the
// first record before which the output has no room for the longest line, or for which no number is left. That record
// and those behind it are as if they had not been handed in: the caller hands them in again, so that nothing is lost or
// played twice. A part that is not the log's last ends at a record's end.
pub fn play_chunk(
    player: Player,
    chunk: &[u8],
    us: u32,
    buffer: &mut [u8; BUFFER_SIZE],
    out: &mut [u8],
) -> Listed
    ensures value { result ≡ answer_of (played us player buffer.old chunk.now (length out.old)) }
    ensures buffer_after { buffer.new ≡ (played us player buffer.old chunk.now (length out.old)).buffer }
    ensures out_after { out.new ≡ output_after (played us player buffer.old chunk.now (length out.old)) out.old }
{
    let mut text = Writer { out, at: 0 };
    let mut current = player;
    let mut read = 0;
    for slice in chunk.chunks(framelog::RECORD_SIZE) {
        if must_halt(current, text.out.len() - text.at) {
            break;
        }
        current = play_line(current, slice, us, buffer, &mut text);
        read += slice.len();
    }
    Listed {
        read,
        written: text.at,
        player: current,
    }
}
