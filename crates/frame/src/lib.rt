// UBIOS message frames (T/GCC 3007-2025, table 11): the header, its reader and its writer.
#![tactic(auto)]

pub mod read;
pub mod write;

ghost use Rattle.std.specs.Prelude.{◌≡◌};
ghost use Rattle.frame.specs.Layout.{header_of, header_for, header_bytes};

use le::Word;

// What a message is sent under: the carried words but for its length, and the Receiver ID.
#[derive(Clone, Copy, Debug, PartialEq, Eq)]
pub struct Envelope {
    // The message's number, in the byte that table 11 calls Reserved.
    pub sequence: u8,
    // Message ID.
    pub id: u32,
    // Sender ID.
    pub sender: u32,
    // Output Size or Returned Status.
    pub status: u32,
    // Receiver ID.
    pub receiver: u32,
}

// The five carried words, which every frame of a message repeats.
#[derive(Clone, Copy, Debug, PartialEq, Eq)]
pub struct Words {
    pub sequence: u8,
    pub id: u32,
    pub sender: u32,
    pub status: u32,
    // Data Total Size: the message's length.
    pub total: u32,
}

#[derive(Clone, Copy, Debug, PartialEq, Eq)]
pub struct Header {
    pub index: u16,
    pub receiver: u32,
    pub words: Words,
}

impl Header {
    // How many bytes a header has; the data follows them.
    pub const SIZE: usize = 24;
    // Type 1 in the low four bits, version 1 in the high four.
    pub const TYPE_VERSION: u8 = 0x11;
    // The longest frame.
    pub const FRAME_MAX: usize = 256;
    // The longest piece: what a frame carries beside its header.
    pub const PIECE_MAX: usize = 232;
    // The longest message.
    pub const MESSAGE_MAX: usize = 4096;

    pub fn new(e: Envelope, total: u32, index: u16) -> Self
        ensures { result ≡ header_for e total index }
    {
        Header {
            index,
            receiver: e.receiver,
            words: Words {
                sequence: e.sequence,
                id: e.id,
                sender: e.sender,
                status: e.status,
                total,
            },
        }
    }

    // The words of a frame, with no check of it: a frame that is too short reads as if zeros followed.
    pub fn read(frame: &[u8]) -> Self
        ensures { result ≡ header_of frame.now }
    {
        Header {
            index: u16::at(frame, 2),
            receiver: u32::at(frame, 12),
            words: Words {
                sequence: u8::at(frame, 1),
                id: u32::at(frame, 4),
                sender: u32::at(frame, 8),
                status: u32::at(frame, 16),
                total: u32::at(frame, 20),
            },
        }
    }

    // The header as it is written.
    #[tactic(auto, unfolding(le::specs::Word::bytes))]
    pub fn bytes(self) -> [u8; 24]
        ensures { result ≡ header_bytes self }
    {
        let words = self.words;
        let mut bytes = [0u8; 24];
        bytes[0] = Self::TYPE_VERSION;
        bytes[1] = words.sequence;
        bytes[2..4].copy_from_slice(&self.index.bytes());
        bytes[4..8].copy_from_slice(&words.id.bytes());
        bytes[8..12].copy_from_slice(&words.sender.bytes());
        bytes[12..16].copy_from_slice(&self.receiver.bytes());
        bytes[16..20].copy_from_slice(&words.status.bytes());
        bytes[20..24].copy_from_slice(&words.total.bytes());
        bytes
    }
}
