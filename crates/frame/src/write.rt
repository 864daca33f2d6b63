// Writing a message as frames.
ghost use Rattle.std.specs.Prelude.{◌≡◌, ◌*◌, ◌≤◌, length};
ghost use Rattle.frame.specs.Layout.{frame_of, piece_max};
ghost use Rattle.frame.specs.Helpers.{lay_answer};
ghost use Rattle.frame.specs.Writing.{counted, number_of, piece_of, frame_at, written, output_of};

use crate::{Envelope, Header};

// Why a count or a frame is refused.
#[derive(Clone, Copy, Debug, PartialEq, Eq)]
pub enum Reason {
    // 10: message over 4,096 bytes.
    MessageLong,
    // 12: piece size 0 or over 232.
    PieceSize,
    // 13: no frame of that Index.
    NoFrame,
    // 14: output shorter than the frame.
    OutputShort,
}

impl Reason {
    // The refusal's number.
    pub fn number(self) -> u32
        ensures { result ≡ number_of self }
    {
        match self {
            Reason::MessageLong => 10,
            Reason::PieceSize => 12,
            Reason::NoFrame => 13,
            Reason::OutputShort => 14,
        }
    }
}

// How many frames a message of `total` bytes makes in pieces of `size`.
#[tactic(auto, using(crate::proofs::Counting::ceil_rounded), unfolding(crate::specs::Writing::counted, crate::specs::Writing::count_of))]
pub fn count(total: usize, size: usize) -> Result<usize, Reason>
    ensures { result ≡ counted total size }
{
    if Header::MESSAGE_MAX < total {
        return Err(Reason::MessageLong);
    }
    if size == 0 || Header::PIECE_MAX < size {
        return Err(Reason::PieceSize);
    }
    if total == 0 {
        return Ok(1);
    }
    Ok(total.div_ceil(size))
}

// The piece of a message that the frame with this Index carries.
fn piece(message: &[u8], size: usize, index: usize) -> &[u8]
    requires size_in_bounds { index * size ≤ length message.now }
    requires size_le_piece_max { size ≤ piece_max }
    ensures { result.now ≡ piece_of size index message.now }
{
    let start = index * size;
    let end = message.len().min(start + size);
    &message[start..end]
}

// Lays one frame at the output's start, if the output holds it, and answers with the frame's length.
#[tactic(auto, using(crate::proofs::Writing::length_frame))]
fn lay(header: Header, piece: &[u8], out: &mut [u8]) -> Result<usize, Reason>
    ensures value { result ≡ lay_answer (frame_of header piece.now) out.old }
    ensures out_after { out.new ≡ output_of result (frame_of header piece.now) out.old }
{
    let length = Header::SIZE + piece.len();
    if out.len() < length {
        return Err(Reason::OutputShort);
    }
    out[..Header::SIZE].copy_from_slice(&header.bytes());
    le::copy(piece, &mut out[Header::SIZE..]);
    Ok(length)
}

// Writes the frame with this Index of a message cut in pieces of `size`, and answers with the frame's length; all
// pieces but the last have that size. No byte past the frame changes, and a refusal changes none.
#[tactic(auto, using(crate::proofs::Writing::writing))]
pub fn write(
    e: Envelope,
    message: &[u8],
    size: usize,
    index: usize,
    out: &mut [u8],
) -> Result<usize, Reason>
    ensures value { result ≡ written e message.now size index out.old }
    ensures out_after { out.new ≡ output_of result (frame_at e message.now size index) out.old }
{
    let frames = count(message.len(), size)?;
    if frames <= index {
        return Err(Reason::NoFrame);
    }
    let header = Header::new(e, message.len() as u32, index as u16);
    lay(header, piece(message, size, index), out)
}
