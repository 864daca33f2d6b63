// The numbers to check by for reassembly, a whole message and then each thing that can go wrong: a part of the program `vectors`.
#![tactic(auto)]

use frame::{Envelope, Header, Words};
use reassembly::{State, Verdict};
use report::{Bytes, Lossy, Refused};
use std::io;

// Who receives, and under what is sent. Another part has the same numbers: each says those that its own lines print.
const RECEIVER: u32 = 11;

const ENVELOPE: Envelope = Envelope {
    sequence: 0,
    id: 0x0102_0304,
    sender: 10,
    status: 0xFFFF_FFFF,
    receiver: RECEIVER,
};

// A frame of the message of the first bytes 1, 2, 3 and on, in pieces of two.
#[derive(Clone, Copy)]
struct Sent {
    envelope: Envelope,
    byte_0: u8,
    // The message's length.
    total: usize,
    index: usize,
    // Where the frame is cut, or what it is filled up to with zeros.
    length: usize,
}

// The frames of a message of five bytes.
const FIRST: Sent = Sent {
    envelope: ENVELOPE,
    byte_0: Header::TYPE_VERSION,
    total: 5,
    index: 0,
    length: 26,
};

const SECOND: Sent = Sent { index: 1, ..FIRST };

const THIRD: Sent = Sent {
    index: 2,
    length: 25,
    ..FIRST
};

impl Sent {
    // The frame, and zeros behind it.
    fn lay(self) -> [u8; 257] {
        let message = le::head(&[1, 2, 3, 4, 5, 6, 7, 8, 9], self.total);
        let mut out = [0; 257];
        // Nothing is written where that is refused, and the receiver refuses such a frame.
        let _ = frame::write::write(self.envelope, message, 2, self.index, &mut out);
        out[0] = self.byte_0;
        out
    }

    fn numbered(self, sequence: u8) -> Sent {
        Sent {
            envelope: Envelope {
                sequence,
                ..self.envelope
            },
            ..self
        }
    }
}

fn print_verdict(rt: &impl Print, verdict: Verdict, buffer: &[u8]) -> io::Result<()> {
    match verdict {
        Verdict::More => print!(rt; "more wanted"),
        Verdict::Delivered(words, n) => print_message(rt, words, le::head(buffer, n)),
        Verdict::Refused(reason) => print!(rt; "{}", Refused(reason.number())),
    }
}

fn print_message(rt: &impl Print, words: Words, message: &[u8]) -> io::Result<()> {
    let Words {
        sequence,
        id,
        sender,
        status,
        total: _,
    } = words;
    print!(rt;
        "delivered, sequence {sequence}, message 0x{id:08X}, sender {sender}, word 0x{status:08X}, data{}",
        Bytes(message)
    )
}

fn print_state(rt: &impl Print, state: State) -> io::Result<()> {
    match state {
        State::Fresh => print!(rt; "fresh"),
        State::Open(open) => print!(rt;
            "index {} is next, {} of {} bytes",
            open.next, open.filled, open.words.total
        ),
    }
}

// The one who receives.
#[derive(Drop)]
struct Receiver {
    state: State,
    buffer: [u8; 8],
}

impl Receiver {
    fn new(state: State) -> Receiver {
        Receiver {
            state,
            buffer: [0; 8],
        }
    }

    fn receive(&mut self, rt: &impl Print, what: &str, sent: Sent) -> io::Result<()> {
        let frame = sent.lay();
        let frame = le::head(&frame, sent.length);
        let answer = reassembly::step(self.state, frame, RECEIVER, &mut self.buffer);
        self.state = answer.state;
        print!(rt; "  {what}: ")?;
        print_verdict(rt, answer.verdict, &self.buffer)?;
        print!(rt; "; ")?;
        print_state(rt, self.state)?;
        println!(rt; "")
    }
}

// A whole message, and then one that loses its second frame, which comes too late.
fn run_loss(rt: &impl Print, receiver: &mut Receiver) -> io::Result<()> {
    receiver.receive(rt, "index 0", FIRST)?;
    receiver.receive(rt, "index 1", SECOND)?;
    receiver.receive(rt, "index 2", THIRD)?;
    receiver.receive(rt, "index 0", FIRST)?;
    receiver.receive(rt, "index 2, index 1 lost", THIRD)?;
    receiver.receive(rt, "index 1, nothing open", SECOND)
}

// Frames that leave a message open, and one that does not.
fn run_open(rt: &impl Print, receiver: &mut Receiver) -> io::Result<()> {
    receiver.receive(rt, "index 0", FIRST)?;
    let cut = Sent {
        length: 23,
        ..SECOND
    };
    receiver.receive(rt, "index 1, its first 23 bytes", cut)?;
    let long = Sent {
        length: 257,
        ..SECOND
    };
    receiver.receive(rt, "index 1 and more, 257 bytes", long)?;
    let typed = Sent {
        byte_0: 0x12,
        ..SECOND
    };
    receiver.receive(rt, "index 1, byte 0 is 0x12", typed)?;
    let to_other = Sent {
        envelope: Envelope {
            receiver: 12,
            ..ENVELOPE
        },
        ..SECOND
    };
    receiver.receive(rt, "index 1, for receiver 12", to_other)?;
    let other_word = Sent {
        envelope: Envelope {
            status: 0,
            ..ENVELOPE
        },
        ..SECOND
    };
    receiver.receive(rt, "index 1, word 0x00000000", other_word)
}

// A message that is numbered, and frames of which byte 1 differs: the next Index, and one that is not.
fn run_numbered(rt: &impl Print, receiver: &mut Receiver) -> io::Result<()> {
    let whole = Sent { total: 2, ..FIRST };
    let whole = whole.numbered(255);
    receiver.receive(rt, "index 0 of 2 bytes, sequence 255", whole)?;
    let first = FIRST.numbered(255);
    receiver.receive(rt, "index 0, sequence 255", first)?;
    receiver.receive(rt, "index 1, sequence 254", SECOND.numbered(254))?;
    receiver.receive(rt, "index 0, sequence 255", first)?;
    receiver.receive(rt, "index 2, sequence 254", THIRD.numbered(254))
}

// First frames that begin nothing.
fn run_first(rt: &impl Print, receiver: &mut Receiver) -> io::Result<()> {
    receiver.receive(rt, "index 0 of 9 bytes", Sent { total: 9, ..FIRST })?;
    let bare = Sent {
        length: 24,
        ..FIRST
    };
    receiver.receive(rt, "index 0, without its data", bare)?;
    let long = Sent {
        length: 30,
        ..FIRST
    };
    receiver.receive(rt, "index 0, 6 bytes of data", long)
}

fn run_all(rt: &impl Print) -> io::Result<()> {
    println!(rt;
        "Reassembly of a message of 5 bytes in pieces of 2, for receiver 11, buffer of 8"
    )?;
    let mut receiver = Receiver::new(State::Fresh);
    run_loss(rt, &mut receiver)?;
    run_open(rt, &mut receiver)?;
    run_numbered(rt, &mut receiver)?;
    run_first(rt, &mut receiver)?;
    Receiver::new(State::INCONSISTENT).receive(rt, "index 0, from next 0", FIRST)
}

// A write that fails is passed over, and the next is tried. Never inlined, so that the parts don't add up on `main`'s stack.
#[inline(never)]
pub fn run(rt: &impl Print) {
    let _ = run_all(&Lossy(rt));
}
