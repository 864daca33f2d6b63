// The numbers to check by for frames, counted, written and read, and every refusal of theirs: a part of the program `vectors`.
#![tactic(auto)]

use frame::read::Parsed;
use frame::write::Reason;
use frame::{Envelope, Header, Words};
use report::{Bytes, Lossy, Refused};
use std::io;

// Who receives, and under what is sent. Another part has the same numbers: each says those that its own lines print.
const RECEIVER: u32 = 11;

// The size of the pieces that most messages here are cut in.
const PIECE: usize = 2;

const ENVELOPE: Envelope = Envelope {
    sequence: 0,
    id: 0x0102_0304,
    sender: 10,
    status: 0xFFFF_FFFF,
    receiver: RECEIVER,
};

fn count(rt: &impl Print, total: usize, piece: usize) -> io::Result<()> {
    print!(rt; "  count, {total} bytes in pieces of {piece}: ")?;
    match frame::write::count(total, piece) {
        Ok(n) => println!(rt; "{n}"),
        Err(reason) => println!(rt; "{}", Refused(reason.number())),
    }
}

fn print_written(rt: &impl Print, written: Result<usize, Reason>, out: &[u8]) -> io::Result<()> {
    match written {
        Ok(n) => println!(rt; "{n} bytes:{}", Bytes(le::head(out, n))),
        Err(reason) => println!(rt; "{}", Refused(reason.number())),
    }
}

fn write(
    rt: &impl Print,
    message: &[u8],
    piece: usize,
    index: usize,
    out: &mut [u8],
) -> io::Result<()> {
    print!(rt;
        "  write, {} bytes in pieces of {piece}, index {index}, output of {}: ",
        message.len(),
        out.len()
    )?;
    let written = frame::write::write(ENVELOPE, message, piece, index, out);
    print_written(rt, written, out)
}

// An empty message with that sequence number.
fn write_numbered(rt: &impl Print, sequence: u8, out: &mut [u8]) -> io::Result<()> {
    print!(rt; "  write, 0 bytes, sequence {sequence}: ")?;
    let envelope = Envelope {
        sequence,
        ..ENVELOPE
    };
    let written = frame::write::write(envelope, &[], PIECE, 0, out);
    print_written(rt, written, out)
}

fn print_header(rt: &impl Print, header: Header) -> io::Result<()> {
    let Header {
        index,
        receiver,
        words,
    } = header;
    let Words {
        sequence,
        id,
        sender,
        status,
        total,
    } = words;
    print!(rt;
        "sequence {sequence}, index {index}, message 0x{id:08X}, sender {sender}, receiver {receiver}, word 0x{status:08X}, total {total}"
    )
}

fn read(rt: &impl Print, what: &str, frame: &[u8], receiver: u32) -> io::Result<()> {
    print!(rt; "  read, {what}: ")?;
    match frame::read::parse(frame, receiver) {
        Parsed::Header(header) => {
            print_header(rt, header)?;
            println!(rt; ", data{}", Bytes(frame::read::data(frame)))
        }
        Parsed::Refused(reason) => println!(rt; "{}", Refused(reason.number())),
    }
}

// The frame with Index 1, with those bytes 0 and 1, and zeros behind it.
fn second(byte_0: u8, byte_1: u8) -> [u8; 257] {
    let mut out = [0; 257];
    // Nothing is written where that is refused, and the reader refuses such a frame.
    let _ = frame::write::write(ENVELOPE, &[1, 2, 3, 4, 5], PIECE, 1, &mut out);
    out[0] = byte_0;
    out[1] = byte_1;
    out
}

fn run_reader(rt: &impl Print) -> io::Result<()> {
    let whole = second(Header::TYPE_VERSION, 0);
    let right = le::head(&whole, 26);
    let numbered = second(Header::TYPE_VERSION, 0xA5);
    let typed = second(0x12, 0);
    read(rt, "index 1, by receiver 11", right, RECEIVER)?;
    read(rt, "byte 1 is 0xA5", le::head(&numbered, 26), RECEIVER)?;
    read(rt, "its first 23 bytes", le::head(&whole, 23), RECEIVER)?;
    read(rt, "257 bytes", &whole, RECEIVER)?;
    read(rt, "byte 0 is 0x12", le::head(&typed, 26), RECEIVER)?;
    read(rt, "index 1, by receiver 12", right, 12)
}

fn run_writer(rt: &impl Print, five: &[u8], bytes: &[u8], out: &mut [u8]) -> io::Result<()> {
    count(rt, 5, PIECE)?;
    write(rt, five, PIECE, 0, out)?;
    write(rt, five, PIECE, 1, out)?;
    write(rt, five, PIECE, 2, out)?;
    count(rt, 0, PIECE)?;
    write(rt, &[], PIECE, 0, &mut [0; 24])?;
    write_numbered(rt, 255, out)?;
    count(rt, 4096, Header::PIECE_MAX)?;
    let longest = le::head(bytes, Header::MESSAGE_MAX);
    write(rt, longest, Header::PIECE_MAX, 17, out)
}

fn run_refusals(rt: &impl Print, five: &[u8], bytes: &[u8], out: &mut [u8]) -> io::Result<()> {
    count(rt, 4097, Header::PIECE_MAX)?;
    count(rt, 5, 0)?;
    write(rt, bytes, Header::PIECE_MAX, 0, out)?;
    write(rt, five, 233, 0, out)?;
    write(rt, five, PIECE, 3, out)?;
    write(rt, five, PIECE, 0, &mut [0; 25])
}

// A byte more than a message may have: byte k is (k + 1) mod 256.
fn bytes() -> [u8; 4097] {
    std::array::from_fn(|k| ((k + 1) % 256) as u8)
}

fn run_all(rt: &impl Print) -> io::Result<()> {
    println!(rt;
        "Frames of message 0x{:08X}, sender {}, receiver {}, word 0x{:08X}; byte k of a message is k + 1 modulo 256",
        ENVELOPE.id, ENVELOPE.sender, ENVELOPE.receiver, ENVELOPE.status
    )?;
    let bytes = bytes();
    let five = le::head(&bytes, 5);
    let mut out = [0; Header::FRAME_MAX];
    run_writer(rt, five, &bytes, &mut out)?;
    run_refusals(rt, five, &bytes, &mut out)?;
    run_reader(rt)
}

// A write that fails is passed over, and the next is tried. Never inlined, so that the parts don't add up on `main`'s stack.
#[inline(never)]
pub fn run(rt: &impl Print) {
    let _ = run_all(&Lossy(rt));
}
