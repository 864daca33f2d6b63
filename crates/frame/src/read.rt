// Reading a frame.
ghost use Rattle.std.specs.Prelude.{◌≡◌};
ghost use Rattle.frame.specs.Reading.{parsed, data_of, number_of};

use crate::Header;
use le::Word;

// Why a frame is refused.
#[derive(Clone, Copy, Debug, PartialEq, Eq)]
pub enum Reason {
    // 1: under 24 bytes.
    FrameShort,
    // 2: over 256 bytes.
    FrameLong,
    // 3: byte 0 is not 0x11.
    WrongType,
    // 4: Receiver ID is not ours.
    OtherReceiver,
}

// What the reader answers. An enum of its own and no Result: the scope names this form.
#[derive(Clone, Copy, Debug, PartialEq, Eq)]
pub enum Parsed {
    Header(Header),
    Refused(Reason),
}

impl Reason {
    // The refusal's number.
    pub fn number(self) -> u32
        ensures { result ≡ number_of self }
    {
        match self {
            Reason::FrameShort => 1,
            Reason::FrameLong => 2,
            Reason::WrongType => 3,
            Reason::OtherReceiver => 4,
        }
    }
}

// The header of a frame for the receiver `us`, or the first reason to refuse it.
#[tactic(auto, unfolding(crate::specs::Reading::parsed))]
pub fn parse(frame: &[u8], us: u32) -> Parsed
    ensures { result ≡ parsed us frame.now }
{
    if frame.len() < Header::SIZE {
        return Parsed::Refused(Reason::FrameShort);
    }
    if Header::FRAME_MAX < frame.len() {
        return Parsed::Refused(Reason::FrameLong);
    }
    if u8::at(frame, 0) != Header::TYPE_VERSION {
        return Parsed::Refused(Reason::WrongType);
    }
    let header = Header::read(frame);
    if header.receiver != us {
        return Parsed::Refused(Reason::OtherReceiver);
    }
    Parsed::Header(header)
}

// What a frame carries: all that follows its header; nothing where it is shorter than that.
pub fn data(frame: &[u8]) -> &[u8]
    ensures { result.now ≡ data_of frame.now }
{
    le::tail(frame, Header::SIZE)
}
