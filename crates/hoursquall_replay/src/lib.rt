// The static library of the replay: a recorded day, played record by record, or part by part into text. It is a library
// of its own, since the compiler compiles the reassembly's step in place only where it has one caller.
#![tactic(auto)]

ghost use Rattle.std.specs.Prelude.{◌≡◌, length};
ghost use Rattle.replay.specs.Chunk.{output_after};
ghost use Rattle.hoursquall.specs.Reassembly.{lending};
ghost use Rattle.hoursquall_replay.specs.Replay.{played_number, played_block, played_words, staged_in, left_by, player_of_def, numbers_of, numbers_after, player_after, played_in};

use hoursquall::messages::tell;
use hoursquall::state::{state_of, write_state};
use reassembly::Answer;
use replay::{Listed, Played, Player};

// Plays one record. `state` and `words` are as for `hs_reassembly_step`.
#[unsafe(no_mangle)]
pub extern "C" fn hs_replay_record(
    state: &mut [u64; 8],
    slice: &[u8],
    us: u32,
    buffer: &mut [u8; 4096],
    words: &mut [u32; 5],
) -> u32
    ensures value { result ≡ played_number (staged_in us (lending state.old buffer.old words.old) slice.now).answer.entry }
    ensures state_after { state.new ≡ (left_by us (lending state.old buffer.old words.old) slice.now).block }
    ensures buffer_after { buffer.new ≡ (left_by us (lending state.old buffer.old words.old) slice.now).buffer }
    ensures words_after { words.new ≡ (left_by us (lending state.old buffer.old words.old) slice.now).words }
{
    let done = replay::play(state_of(*state), slice, us, buffer);
    tell_played(done, state, words)
}

fn tell_played(done: Played, state: &mut [u64; 8], words: &mut [u32; 5]) -> u32
    ensures value { result ≡ played_number done.entry }
    ensures state_after { state.new ≡ played_block done.entry done.state state.old }
    ensures words_after { words.new ≡ played_words done.entry words.old }
{
    match done.entry {
        Err(reason) => reason.number(),
        Ok(verdict) => {
            let answer = Answer {
                verdict,
                state: done.state,
            };
            tell(answer, state, words)
        }
    }
}

fn player_of(b: [u64; 9]) -> Player
    ensures { result ≡ player_of_def b }
{
    Player {
        state: state_of([b[0], b[1], b[2], b[3], b[4], b[5], b[6], b[7]]),
        number: b[8],
    }
}

fn write_player(player: Player, block: &mut [u64; 9])
    ensures { block.new ≡ numbers_of player }
{
    let mut b = [0u64; 8];
    write_state(player.state, &mut b);
    block[..8].copy_from_slice(&b);
    block[8] = player.number;
}

// Plays a part of a log and lists it as text at the start of `out`; answers how many bytes of text were written. `read`
// receives how many bytes of the part were played. `player` is a block of nine numbers (see `player_of_def`).
#[unsafe(no_mangle)]
pub extern "C" fn hs_replay_chunk(
    player: &mut [u64; 9],
    chunk: &[u8],
    us: u32,
    buffer: &mut [u8; 4096],
    out: &mut [u8],
    read: &mut usize,
) -> usize
    ensures value { result ≡ length (played_in us player.old buffer.old chunk.now (length out.old)).text }
    ensures player_after { player.new ≡ player_after (played_in us player.old buffer.old chunk.now (length out.old)) player.old }
    ensures buffer_after { buffer.new ≡ (played_in us player.old buffer.old chunk.now (length out.old)).buffer }
    ensures out_after { out.new ≡ output_after (played_in us player.old buffer.old chunk.now (length out.old)) out.old }
    ensures read_after { read.new ≡ (played_in us player.old buffer.old chunk.now (length out.old)).read }
{
    let listed = replay::play_chunk(player_of(*player), chunk, us, buffer, out);
    tell_listed(listed, player, read)
}

// A block from which nothing was played stays as it was lent.
fn tell_listed(listed: Listed, player: &mut [u64; 9], read: &mut usize) -> usize
    ensures value { result ≡ listed.written }
    ensures player_after { player.new ≡ numbers_after listed player.old }
    ensures read_after { read.new ≡ listed.read }
{
    *read = listed.read;
    if listed.read != 0 {
        write_player(listed.player, player);
    }
    listed.written
}
