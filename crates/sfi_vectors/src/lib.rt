// The numbers to check by for SFI tables, and every refusal of theirs: a part of the program `vectors`.
#![tactic(auto)]

use report::{Lossy, Refused};
use sfi::choice::Source;
use sfi::kind::Kind;
use sfi::search::MEMORY_SIZE;
use sfi::{Reason, Table};
use std::{fmt, io};

// The four letters `CPUX`.
const NO_KIND: u32 = 0x5855_5043;

// The places of the words.
const LENGTH: usize = 4;

const REVISION: usize = 8;

const CHECKSUM: usize = 9;

// 32 bytes before the end of a page, and the start of the next page but one.
const SYST_AT: usize = 4064;

const SECOND_AT: usize = 8192;

// The Checksum of a table in which it still stands as 0.
fn checksum(table: &[u8]) -> u8 {
    le::sum::sum::<u8>(table).wrapping_neg()
}

// A table whose Checksum is 0. The longest here is MMAP with two entries.
fn unsealed(signature: u32, length: u32, revision: u8) -> [u8; 96] {
    let mut table = [0; 96];
    le::copy(&signature.to_le_bytes(), &mut table);
    le::copy(&length.to_le_bytes(), &mut table[LENGTH..]);
    table[REVISION] = revision;
    table
}

// A table with a right Checksum.
fn laid(signature: u32, length: u32, revision: u8) -> [u8; 96] {
    let mut table = unsealed(signature, length, revision);
    table[CHECKSUM] = checksum(le::head(&table, length as usize));
    table
}

// A signature's four letters.
#[derive(Clone, Copy)]
struct Letters(u32);

impl fmt::Display for Letters {
    fn fmt<W: fmt::Write>(&self, f: &mut fmt::Formatter<W>) -> fmt::Result {
        for letter in self.0.to_le_bytes().iter() {
            write!(f, "{}", char::from(*letter))?;
        }
        Ok(())
    }
}

fn check(rt: &impl Print, what: &str, table: &[u8]) -> io::Result<()> {
    print!(rt; "  check, {what}: ")?;
    match Table::check(table) {
        Ok(t) => println!(rt; "{}, {} bytes", Letters(t.kind.signature), t.length),
        Err(reason) => println!(rt; "{}", Refused(reason.number())),
    }
}

fn print_place(rt: &impl Print, answer: Result<usize, Reason>) -> io::Result<()> {
    match answer {
        Ok(at) => println!(rt; "at {at}"),
        Err(reason) => println!(rt; "{}", Refused(reason.number())),
    }
}

fn entry(rt: &impl Print, what: &str, table: &[u8], k: usize) -> io::Result<()> {
    print!(rt; "  {what}: ")?;
    print_place(rt, Table::entry(table, k))
}

fn find_syst(rt: &impl Print, what: &str, memory: &[u8]) -> io::Result<()> {
    print!(rt; "  find SYST, {what}: ")?;
    print_place(rt, sfi::search::find_syst(memory))
}

// The length of the chosen part, which comes from a call of its own, by whose it is.
fn print_chosen(rt: &impl Print, signature: u32, board: &[u8], built_in: &[u8]) -> io::Result<()> {
    let part = sfi::choice::part(signature, board, built_in);
    match sfi::choice::choose(signature, board, built_in) {
        Ok(Source::Board) => println!(rt; "board, {} bytes", part.len()),
        Ok(Source::BuiltIn) => println!(rt; "built-in, {} bytes", part.len()),
        Err(reason) => println!(rt; "{}", Refused(reason.number())),
    }
}

fn choose_cpus(rt: &impl Print, what: &str, board: &[u8], built_in: &[u8]) -> io::Result<()> {
    print!(rt; "  choose CPUS, {what}: ")?;
    print_chosen(rt, Kind::CPUS, board, built_in)
}

fn run_checks(rt: &impl Print, cpus: &[u8]) -> io::Result<()> {
    let unsealed = unsealed(Kind::CPUS, 28, 1);
    let padded = laid(Kind::MMAP, 64, 1);
    println!(rt;
        "  the checksum of CPUS with Length 28, Revision 1, the rest 0: 0x{:02X}",
        checksum(&unsealed)
    )?;
    check(rt, "CPUS of 28 bytes", cpus)?;
    check(rt, "its first 27 bytes", le::head(cpus, 27))?;
    check(rt, "another signature", &laid(NO_KIND, 28, 1))?;
    check(rt, "Length 27", &laid(Kind::CPUS, 27, 1))?;
    check(rt, "Checksum 0", &unsealed)?;
    check(rt, "MMAP with an entry of 40 bytes", &padded)?;
    check(rt, "WAKE of 40 bytes", &laid(Kind::WAKE, 40, 2))?;
    check(rt, "WAKE of 32 bytes", &laid(Kind::WAKE, 32, 2))
}

// Revisions are read from the listed one on: 1, and 2 for MTMR and WAKE. A newer table has entries of the listed size.
fn run_revisions(rt: &impl Print) -> io::Result<()> {
    check(rt, "FREQ of Revision 0", &laid(Kind::FREQ, 36, 0))?;
    check(rt, "FREQ of Revision 1", &laid(Kind::FREQ, 36, 1))?;
    check(rt, "FREQ of Revision 2", &laid(Kind::FREQ, 36, 2))?;
    check(rt, "FREQ of Revision 255", &laid(Kind::FREQ, 36, 255))?;
    let what = "FREQ of Revision 2 with an entry of 16 bytes";
    check(rt, what, &laid(Kind::FREQ, 40, 2))?;
    check(rt, "MTMR of Revision 1", &laid(Kind::MTMR, 40, 1))?;
    check(rt, "MTMR of Revision 3", &laid(Kind::MTMR, 40, 3))?;
    check(rt, "WAKE of Revision 1", &laid(Kind::WAKE, 32, 1))?;
    check(rt, "WAKE of Revision 3", &laid(Kind::WAKE, 32, 3))
}

fn run_entries(rt: &impl Print, cpus: &[u8]) -> io::Result<()> {
    entry(rt, "entry 0", cpus, 0)?;
    entry(rt, "entry 1", cpus, 1)?;
    entry(rt, "entry 1, MMAP of 96 bytes", &laid(Kind::MMAP, 96, 1), 1)
}

// Puts bytes at each of the places. A place past the memory's end changes nothing.
fn put(bytes: &[u8], places: &[usize], memory: &mut [u8]) {
    for at in places {
        if let Some(place) = memory.get_mut(*at..) {
            le::copy(bytes, place);
        }
    }
}

// The search in memory of zeros, but for such a SYST at each of these places. It is lent as zeros, and left so.
fn find_laid(
    rt: &impl Print,
    what: &str,
    length: u32,
    revision: u8,
    places: &[usize],
    memory: &mut [u8],
) -> io::Result<()> {
    put(&laid(Kind::SYST, length, revision), places, memory);
    let said = find_syst(rt, what, memory);
    put(&[0; 96], places, memory);
    said
}

// A SYST that ends with its page, also with a second one behind it, one that runs past it, and others of several revisions.
fn search(rt: &impl Print, memory: &mut [u8]) -> io::Result<()> {
    find_laid(rt, "at 4064 with Length 32", 32, 1, &[SYST_AT], memory)?;
    find_laid(
        rt,
        "at 4064 and at 8192",
        32,
        1,
        &[SYST_AT, SECOND_AT],
        memory,
    )?;
    find_laid(rt, "at 4064 with Length 40", 40, 1, &[SYST_AT], memory)?;
    find_laid(rt, "at 4064 of Revision 0", 32, 0, &[SYST_AT], memory)?;
    find_laid(rt, "at 4064 of Revision 2", 32, 2, &[SYST_AT], memory)?;
    find_syst(rt, "131071 bytes", le::head(memory, 131071))
}

// One array, made once and lent: each more of them would stand on the stack.
fn run_search(rt: &impl Print) -> io::Result<()> {
    search(rt, &mut [0; MEMORY_SIZE])
}

fn run_choice(rt: &impl Print, cpus: &[u8]) -> io::Result<()> {
    let wrong = le::head(cpus, 27);
    let longer = laid(Kind::CPUS, 32, 1);
    let newer = laid(Kind::CPUS, 32, 2);
    let older = laid(Kind::CPUS, 32, 0);
    choose_cpus(rt, "the board's passes", cpus, wrong)?;
    choose_cpus(
        rt,
        "both pass, the built-in one with 28 bytes",
        &longer,
        cpus,
    )?;
    choose_cpus(rt, "the board's is of Revision 2", &newer, cpus)?;
    choose_cpus(rt, "the board's is of Revision 0", &older, cpus)?;
    choose_cpus(rt, "the board's fails", wrong, cpus)?;
    choose_cpus(rt, "both fail", wrong, wrong)?;
    print!(rt; "  choose, another signature: ")?;
    print_chosen(rt, NO_KIND, cpus, cpus)
}

fn run_all(rt: &impl Print) -> io::Result<()> {
    println!(rt; "SFI tables")?;
    let table = laid(Kind::CPUS, 28, 1);
    let cpus = le::head(&table, 28);
    run_checks(rt, cpus)?;
    run_revisions(rt)?;
    run_entries(rt, cpus)?;
    run_search(rt)?;
    run_choice(rt, cpus)
}

// A write that fails is passed over, and the next is tried. Never inlined, so that the parts don't add up on `main`'s stack.
#[inline(never)]
pub fn run(rt: &impl Print) {
    let _ = run_all(&Lossy(rt));
}
