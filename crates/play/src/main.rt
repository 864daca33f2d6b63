// Plays a recorded day: play RECEIVER LOG
//
// RECEIVER is a file of four bytes, the Receiver ID. LOG is a frame log. A line is written for each of its records. A
// file that is missing or cannot be opened counts as empty, and so does one that is not named. A log that cannot be read
// on ends there.
#![tactic(auto)]

ghost use Rattle.std.specs.Prelude.{◌≤◌, length};

use replay::Player;
use std::fs;
use std::io::{self, Read};
use std::rt::{Env, Files};

// Room for any path that the system takes.
const PATH_SIZE: usize = 4096;
// The input's buffer: 252 records, so that what fills it ends at a record's end. What does not fill it is the log's end.
const CHUNK: usize = 65520;
// The output's: room for the longest line of each of them, so that one call plays them all.
const TEXT: usize = 11844;

// Why no more is played, though the log may go on.
#[derive(Debug, Drop)]
enum Stop {
    // The lines cannot be written.
    Output(io::Error),
    // No record number is left.
    Numbers,
}

impl From<io::Error> for Stop {
    fn from(e: io::Error) -> Stop {
        Stop::Output(e)
    }
}

// A path that is not UTF-8 cannot be opened either: std takes no other.
fn open<R: Files + Env>(rt: &R, argument: usize) -> Option<R::File> {
    let mut path = [0u8; PATH_SIZE];
    let n = rt.arg(argument, &mut path).ok()?;
    let path = str::from_utf8(&path[..n]).ok()?;
    fs::open(rt, path).ok()
}

// Reads until the buffer is full, the file ends or a read fails, and answers how many bytes stand at its start: that is
// why it is a loop over `read`, since `read_exact` does not tell how many it read of a file that ends.
fn read_full(file: &mut impl Read, buffer: &mut [u8]) -> usize
    ensures { result ≤ length buffer.new }
{
    let mut done = 0;
    while done < buffer.len() {
        match file.read(&mut buffer[done..]) {
            Ok(0) | Err(_) => break,
            Ok(n) => done += n,
        }
    }
    done
}

// A byte more than a receiver has is read, so that a longer file is seen to be one.
fn read_receiver(rt: &(impl Files + Env)) -> Option<u32> {
    let mut file = [0u8; 5];
    let n = read_full(&mut open(rt, 1)?, &mut file);
    replay::receiver_in(&file[..n])
}

// Plays what was read, and writes its lines: what a call leaves unread is handed in again, which no iterator knows before
// the call. A call that reads nothing has no record number left.
fn play_part(
    rt: &impl Print,
    player: Player,
    part: &[u8],
    us: u32,
    buffer: &mut [u8; replay::BUFFER_SIZE],
    text: &mut [u8],
) -> Result<Player, Stop> {
    let mut current = player;
    let mut rest = part;
    while !rest.is_empty() {
        let listed = replay::play_chunk(current, rest, us, buffer, text);
        rt.write_all(le::head(text, listed.written))?;
        if listed.read == 0 {
            return Err(Stop::Numbers);
        }
        current = listed.player;
        rest = le::tail(rest, listed.read);
    }
    Ok(current)
}

// A proved loop has to end, and nothing says that a file does: the turns are counted, to a number that no run reaches.
fn play_log(rt: &impl Print, log: &mut impl Read, us: u32) -> Result<(), Stop> {
    let mut buffer = [0u8; replay::BUFFER_SIZE];
    let mut chunk = [0u8; CHUNK];
    let mut text = [0u8; TEXT];
    let mut player = Player::new();
    for _ in 0..u64::MAX {
        let n = read_full(log, &mut chunk);
        player = play_part(rt, player, &chunk[..n], us, &mut buffer, &mut text)?;
        if n < CHUNK {
            break;
        }
    }
    Ok(())
}

fn play(rt: &(impl Files + Env + Print)) -> Result<(), Stop> {
    let Some(us) = read_receiver(rt) else {
        rt.write_all(&replay::no_receiver())?;
        return Ok(());
    };
    if let Some(mut log) = open(rt, 2) {
        play_log(rt, &mut log, us)?;
    }
    Ok(())
}

fn main(rt: HostRuntime) {
    if let Err(Stop::Output(e)) = play(&rt) {
        let _ = eprintln!(rt; "standard output: {e}");
    }
}
