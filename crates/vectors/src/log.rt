// The frame log: a record written and read, and every refusal.
use framelog::RECORD_SIZE;
use report::{Bytes, Lossy, Refused};
use std::io;

fn write(rt: &impl Print, what: &str, frame: &[u8], slice: &mut [u8]) -> io::Result<()> {
    print!(rt; "  write, {what}: ")?;
    match framelog::write(frame, slice) {
        Ok(()) => println!(rt; "done:{}", Bytes(slice)),
        Err(reason) => println!(rt; "{}", Refused(reason.number())),
    }
}

fn read(rt: &impl Print, what: &str, slice: &[u8]) -> io::Result<()> {
    print!(rt; "  {what}: ")?;
    match framelog::read(slice) {
        Ok(n) => println!(rt; "{n} bytes:{}", Bytes(framelog::frame(slice))),
        Err(reason) => println!(rt; "{}", Refused(reason.number())),
    }
}

// The record of a frame.
fn record(frame: &[u8]) -> [u8; RECORD_SIZE] {
    let mut slice = [0; RECORD_SIZE];
    // Nothing is written where that is refused: the lines then have zeros.
    let _ = framelog::write(frame, &mut slice);
    slice
}

fn run_reads(rt: &impl Print, five: &[u8]) -> io::Result<()> {
    let right = record(five);
    read(rt, "read", &right)?;
    read(rt, "read, 259 bytes", le::head(&right, 259))?;
    let mut marked = right;
    marked[2] = 1;
    read(rt, "read, byte 2 is 1", &marked)?;
    // The length 1 becomes 257.
    let mut long = record(&[1]);
    long[1] = 1;
    read(rt, "read, length 257", &long)?;
    let mut padded = right;
    padded[259] = 1;
    read(rt, "read, the last byte is 1", &padded)
}

fn run_all(rt: &impl Print) -> io::Result<()> {
    println!(rt; "The frame log, records of {RECORD_SIZE} bytes")?;
    let five = [1, 2, 3, 4, 5];
    let mut slice = [0; RECORD_SIZE];
    write(rt, "5 bytes", &five, &mut slice)?;
    run_reads(rt, &five)?;
    write(rt, "a slice of 259", &five, &mut [0; 259])?;
    write(rt, "257 bytes", &[0; 257], &mut slice)
}

// A write that fails is passed over, and the next is tried. Never inlined, as the other parts.
#[inline(never)]
pub(crate) fn run(rt: &impl Print) {
    let _ = run_all(&Lossy(rt));
}
