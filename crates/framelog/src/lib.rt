// The frame log: records of 260 bytes, each with one frame as it came from the cable.
#![tactic(auto)]

ghost use Rattle.std.specs.Prelude.{◌≡◌, ◌+◌, ◌≤◌, length};
ghost use Rattle.framelog.specs.Layout.{number_of, record_size, header_size, cut_of};
ghost use Rattle.framelog.specs.Helpers.{filled};
ghost use Rattle.framelog.specs.Reading.{is_zero_def, read_of, frame_after};
ghost use Rattle.framelog.specs.Writing.{written, slice_after};

use le::Word;

// Why a record is refused.
#[derive(Clone, Copy, Debug, PartialEq, Eq)]
pub enum Reason {
    // 50: the slice is not 260 bytes.
    WrongSize,
    // 51: byte 2 or 3 is not zero.
    NotZero,
    // 52: the frame is longer than 256 bytes.
    FrameLong,
    // 53: a byte after the frame is not zero.
    BadEnd,
}

pub const RECORD_SIZE: usize = 260;
// What stands before the frame: its length, and two zero bytes.
pub const HEADER_SIZE: usize = 4;
// The longest frame.
pub const FRAME_MAX: usize = 256;

impl Reason {
    // The refusal's number.
    pub fn number(self) -> u32
        ensures { result ≡ number_of self }
    {
        match self {
            Reason::WrongSize => 50,
            Reason::NotZero => 51,
            Reason::FrameLong => 52,
            Reason::BadEnd => 53,
        }
    }
}

// Whether all bytes are zero. 16 are compared at a time, and it ends at the first word that is not zero: `all` over single
// bytes is compiled byte by byte, and a fold by `|` has no early end, which costs more where few bytes are left. Behind the
// longest frame none are.
fn is_zero(s: &[u8]) -> bool
    ensures { result ≡ is_zero_def s.now }
{
    if s.is_empty() {
        return true;
    }
    let (words, rest) = s.as_chunks::<16>();
    let (halves, bytes) = rest.as_chunks::<8>();
    words.iter().all(|word| u128::from_le_bytes(*word) == 0)
        && halves.iter().all(|half| u64::from_le_bytes(*half) == 0)
        && bytes.iter().all(|byte| *byte == 0)
}

// The length of the frame in a record of that size, or the first reason to refuse the record. The theorems hold for each size.
#[tactic(auto, unfolding(crate::specs::Reading::read_of), using(crate::proofs::Answers::reserved_zero, crate::proofs::Answers::reserved_not))]
fn read_sized(slice: &[u8], size: usize) -> Result<usize, Reason>
    requires { header_size ≤ size }
    ensures { result ≡ read_of size slice.now }
{
    if slice.len() != size {
        return Err(Reason::WrongSize);
    }
    let n = usize::from(u16::at(slice, 0));
    if size - HEADER_SIZE < n {
        return Err(Reason::FrameLong);
    }
    if u16::at(slice, 2) != 0 {
        return Err(Reason::NotZero);
    }
    if !is_zero(le::tail(slice, HEADER_SIZE + n)) {
        return Err(Reason::BadEnd);
    }
    Ok(n)
}

// The same of a record of 260 bytes.
pub fn read(slice: &[u8]) -> Result<usize, Reason>
    ensures { result ≡ read_of record_size slice.now }
{
    read_sized(slice, RECORD_SIZE)
}

// The frame in a record for which `read` gave n.
pub fn cut(slice: &[u8], n: usize) -> &[u8]
    ensures { result.now ≡ cut_of n slice.now }
{
    le::head(le::tail(slice, HEADER_SIZE), n)
}

// The frame in a record, or no bytes of a record that is refused.
pub fn frame(slice: &[u8]) -> &[u8]
    ensures { result.now ≡ frame_after (read_of record_size slice.now) slice.now }
{
    cut(slice, read(slice).unwrap_or(0))
}

// Lays a frame's length in the header's four bytes, of which the last two are the zeros, and the frame behind them.
fn fill(frame: &[u8], built: &mut [u8])
    requires { header_size + length frame.now ≤ length built.old }
    ensures { built.new ≡ filled frame.now built.old }
{
    let n = (frame.len() as u64).bytes();
    le::copy(le::head(&n, HEADER_SIZE), built);
    le::copy(frame, &mut built[HEADER_SIZE..]);
}

// Writes the record of a frame over all of the slice, or leaves the slice as it is.
#[tactic(auto, unfolding(crate::specs::Writing::written))]
pub fn write(frame: &[u8], slice: &mut [u8]) -> Result<(), Reason>
    ensures value { result ≡ written record_size frame.now slice.old }
    ensures slice_after { slice.new ≡ slice_after result record_size frame.now slice.old }
{
    if slice.len() != RECORD_SIZE {
        return Err(Reason::WrongSize);
    }
    if FRAME_MAX < frame.len() {
        return Err(Reason::FrameLong);
    }
    // Built from zeros, filled, and copied out: the scope names this form.
    let mut built = [0u8; 260];
    fill(frame, &mut built);
    le::copy(&built, slice);
    Ok(())
}
