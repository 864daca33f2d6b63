// Frames that are read.
ghost use Rattle.std.specs.Prelude.{◌≡◌};
ghost use Rattle.hoursquall.specs.Frame.{parse_number, header_after};

use frame::read::Parsed;

// 0, and the header's words in the frame's order; or the number of the refusal.
pub fn tell_parsed(answer: Parsed, header: &mut [u32; 7]) -> u32
    ensures value { result ≡ parse_number answer }
    ensures header_after { header.new ≡ header_after answer header.old }
{
    match answer {
        Parsed::Refused(reason) => reason.number(),
        Parsed::Header(h) => {
            let words = h.words;
            *header = [
                u32::from(words.sequence),
                u32::from(h.index),
                words.id,
                words.sender,
                h.receiver,
                words.status,
                words.total,
            ];
            0
        }
    }
}
