// The eight places as 64 numbers, eight of each place: whether it is open, its carried words, the next Index, and how many
// bytes are filled. They stay one array, and no structs, since C lends them.
ghost use Rattle.std.specs.Prelude.{◌≡◌, true, false, ◌≤◌, ◌<◌, map, length, get_or, set, position, MatchOption};
ghost use Rattle.reassembly.specs.Step.{consistent};
ghost use Rattle.reassembly.specs.declared.State.TheVariants.{Fresh, Open};
ghost use Rattle.heads.specs.Places.{place_count, place_size, all_fresh, is_free_def, is_of_def, without, all_consistent, distinct, legal};
ghost use Rattle.heads.specs.Numbers.{byte_max, row_of, state_in_def, rows, places_in, numbers_of};
ghost use Rattle.heads.specs.Helpers.{relaid};

use crate::{BUFFER_MIN, NUMBER_COUNT, PLACE_SIZE};
use frame::Words;
use reassembly::{Progress, State};

// How many numbers a place has.
const ROW_SIZE: usize = 8;

// The state that a place's numbers are; numbers that are none read as one that is refused. Those of a fresh place are
// joined by hand before they are tested, which is vector code; tried: `*row == [0; 8]`, 1.2 to 1.5 times as long with
// eight senders, and one pattern for both kinds, 1.06 times.
#[tactic(auto, unfolding(crate::specs::Numbers::state_in_def))]
fn state_in(row: &[u32; ROW_SIZE]) -> State
    ensures { result ≡ state_in_def row.now }
{
    if row[0] == 0 {
        let any = row[1] | row[2] | row[3] | row[4] | row[5] | row[6] | row[7];
        return if any == 0 {
            State::Fresh
        } else {
            State::INCONSISTENT
        };
    }
    let [kind, sequence, id, sender, status, total, next, filled] = *row;
    if kind != 1 {
        return State::INCONSISTENT;
    }
    let Ok(sequence) = u8::try_from(sequence) else {
        return State::INCONSISTENT;
    };
    State::Open(Progress {
        words: Words {
            sequence,
            id,
            sender,
            status,
            total,
        },
        next: next as usize,
        filled: filled as usize,
    })
}

// The numbers of a place that is open.
fn open_row(progress: Progress) -> [u32; ROW_SIZE]
    requires { (progress.next ≤ place_size) × (progress.filled ≤ place_size) }
    ensures row { result ≡ row_of (Open progress) }
    ensures sequence_is_byte { progress.words.sequence ≤ byte_max }
{
    let words = progress.words;
    [
        1,
        u32::from(words.sequence),
        words.id,
        words.sender,
        words.status,
        words.total,
        progress.next as u32,
        progress.filled as u32,
    ]
}

// The numbers of each place.
fn rows_of(numbers: &[u32; NUMBER_COUNT]) -> &[[u32; ROW_SIZE]]
    ensures { result.now ≡ rows place_count numbers.now }
{
    let (rows, _) = numbers.as_chunks();
    rows
}

// A place, and a state for it: fresh or consistent.
#[derive(Clone, Copy)]
pub(crate) struct Seat {
    pub(crate) k: usize,
    pub(crate) state: State,
    ghost in_range: { k < place_count },
    ghost fits: { consistent state place_size ≡ true },
}

impl Seat {
    // The state as the numbers of a place.
    fn row(self) -> [u32; ROW_SIZE]
        ensures row { result ≡ row_of self.state }
        ensures read_back { state_in_def result ≡ self.state }
    {
        match self.state {
            State::Fresh => [0; ROW_SIZE],
            State::Open(open) => open_row(open),
        }
    }

    // Keeps the state at the place.
    pub(crate) fn put(self, numbers: &mut [u32; NUMBER_COUNT])
        ensures places_after { numbers.new ≡ relaid self.k self.state numbers.old }
        ensures read_back { places_in numbers.new ≡ set (places_in numbers.old) self.k self.state }
    {
        let start = ROW_SIZE * self.k;
        let end = start + ROW_SIZE;
        numbers[start..end].copy_from_slice(&self.row());
    }
}

// Places, one behind another, of which each is fresh or consistent. So a place is free where its first number is 0.
#[derive(Clone, Copy)]
pub(crate) struct Places<'a> {
    rows: &'a [[u32; ROW_SIZE]],
    ghost few: { length rows.now ≤ place_count },
    ghost all_fit: { all_consistent (map state_in_def rows.now) ≡ true },
}

impl<'a> Places<'a> {
    // All eight, where each is known to be fresh or consistent.
    pub(crate) fn of(numbers: &'a [u32; NUMBER_COUNT]) -> Places<'a>
        requires { all_consistent (places_in numbers.now) ≡ true }
        ensures { result.rows.now ≡ rows place_count numbers.now }
    {
        Places {
            rows: rows_of(numbers),
        }
    }

    // All eight, if each is fresh or consistent.
    fn read(numbers: &'a [u32; NUMBER_COUNT]) -> Option<Places<'a>>
        ensures { MatchOption result (all_consistent (places_in numbers.now) ≡ false) (λ ps. ps.rows.now ≡ rows place_count numbers.now) }
    {
        let all_fit = rows_of(numbers)
            .iter()
            .all(|row| reassembly::is_consistent(state_in(row), PLACE_SIZE));
        if !all_fit {
            return None;
        }
        Some(Places::of(numbers))
    }

    // The lowest free place.
    pub(crate) fn lowest_free(self) -> Option<usize>
        ensures { result ≡ position is_free_def (map state_in_def self.entry.rows.now) }
    {
        self.rows.iter().position(|row| row[0] == 0)
    }

    // The lowest place of the sender.
    pub(crate) fn place_of(self, sender: u32) -> Option<usize>
        ensures { result ≡ position (is_of_def sender) (map state_in_def self.entry.rows.now) }
    {
        self.rows
            .iter()
            .position(|row| row[0] != 0 && row[3] == sender)
    }

    // Place k, and the state there.
    pub(crate) fn seat(self, k: usize) -> Seat
        requires { k < length self.rows.now }
        ensures place { result.k ≡ k }
        ensures state { result.state ≡ get_or (map state_in_def self.entry.rows.now) k Fresh }
    {
        Seat {
            k,
            state: state_in(&self.rows[k]),
        }
    }

    // Whether no two have one sender.
    fn are_distinct(self) -> bool
        ensures { result ≡ distinct (map state_in_def self.entry.rows.now) }
    {
        let mut rest = self.rows;
        // It counts nothing: it goes on with what is left.
        while let Some((row, behind)) = rest.split_first() {
            let others = Places { rows: behind };
            if row[0] != 0 && others.place_of(row[3]).is_some() {
                return false;
            }
            rest = behind;
        }
        true
    }
}

// Drops what the sender has open.
pub(crate) fn drop_own(sender: u32, numbers: &mut [u32; NUMBER_COUNT])
    requires { all_consistent (places_in numbers.old) ≡ true }
    ensures places_after { numbers.new ≡ numbers_of (without sender (places_in numbers.old)) }
    ensures read_back { places_in numbers.new ≡ without sender (places_in numbers.old) }
{
    if let Some(k) = Places::of(numbers).place_of(sender) {
        let fresh = Seat {
            k,
            state: State::Fresh,
        };
        fresh.put(numbers);
    }
}

// Whether the places are such as calls leave, over a buffer of `room` bytes.
#[tactic(auto, unfolding(crate::specs::Places::legal))]
pub(crate) fn are_legal(numbers: &[u32; NUMBER_COUNT], room: usize) -> bool
    ensures { result ≡ legal (places_in numbers.now) room }
{
    BUFFER_MIN <= room && Places::read(numbers).is_some_and(|places| places.are_distinct())
}

// Frees all places.
pub(crate) fn clear(numbers: &mut [u32; NUMBER_COUNT])
    ensures places_after { numbers.new ≡ numbers_of all_fresh }
    ensures read_back { places_in numbers.new ≡ all_fresh }
{
    numbers.fill(0);
}
