// Frames: the reader, the frame count and the writer.
ghost use Rattle.std.specs.Prelude.{◌≡◌};
ghost use Rattle.frame.specs.Reading.{parsed};
ghost use Rattle.frame.specs.Writing.{number_of, counted, written, output_after};
ghost use Rattle.hoursquall.specs.Answer.{told, left_lent, itself};
ghost use Rattle.hoursquall.specs.Frame.{parse_number, header_after, envelope_of};

use frame::Envelope;
use hoursquall::answer::tell;
use hoursquall::frames::tell_parsed;

// Reads a frame for the receiver `us`; `header` receives its words in the frame's order.
#[unsafe(no_mangle)]
pub extern "C" fn hs_frame_parse(frame: &[u8], us: u32, header: &mut [u32; 7]) -> u32
    ensures value { result ≡ parse_number (parsed us frame.now) }
    ensures header_after { header.new ≡ header_after (parsed us frame.now) header.old }
{
    tell_parsed(frame::read::parse(frame, us), header)
}

// How many frames a message of `total` bytes makes in pieces of `size`.
#[unsafe(no_mangle)]
pub extern "C" fn hs_frame_count(total: usize, size: usize, frames: &mut usize) -> u32
    ensures value { result ≡ told number_of (counted total size) }
    ensures frames_after { frames.new ≡ left_lent itself (counted total size) frames.old }
{
    tell(frame::write::count(total, size), frames)
}

// Writes one frame of a message at the start of `out`; `extent` receives the frame's length.
#[unsafe(no_mangle)]
pub extern "C" fn hs_frame_write(
    sequence: u8,
    id: u32,
    sender: u32,
    status: u32,
    receiver: u32,
    message: &[u8],
    size: usize,
    index: usize,
    out: &mut [u8],
    extent: &mut usize,
) -> u32
    ensures value { result ≡ told number_of (written (envelope_of sequence id sender status receiver) message.now size index out.old) }
    ensures out_after { out.new ≡ output_after (envelope_of sequence id sender status receiver) message.now size index out.old }
    ensures extent_after { extent.new ≡ left_lent itself (written (envelope_of sequence id sender status receiver) message.now size index out.old) extent.old }
{
    let e = Envelope {
        sequence,
        id,
        sender,
        status,
        receiver,
    };
    tell(frame::write::write(e, message, size, index, out), extent)
}
