// The numbers to check by for UBIOS tables, a root with a gap and two tables, and every refusal of theirs: a part of the program
// `vectors`.
#![tactic(auto)]

use report::{Bytes, Lossy, Refused};
use std::io;
use ubios::{Region, Root, Table};

// Where the region stands, and where the two tables in it do.
const BASE: u64 = 4096;

const SPEED_ADDRESS: u64 = 4160;

const DEPTH_ADDRESS: u64 = 4208;

// A slot with no address.
const GAP: u64 = 0;

// The places of the words.
const TOTAL: usize = 16;

const VERSION: usize = 20;

const RESERVED: usize = 21;

const REMAINING: usize = 24;

const CHECKSUM: usize = 28;

const BODY: usize = 32;

const COUNT: usize = 32;

const FIRST_SLOT: usize = 40;

// A place past the end changes nothing.
fn put(bytes: &[u8], at: usize, region: &mut [u8]) {
    if let Some(place) = region.get_mut(at..) {
        le::copy(bytes, place);
    }
}

// A root or a table as it is laid out, with zeros where nothing was put.
#[derive(Clone, Copy)]
struct Laid {
    bytes: [u8; 64],
}

impl Laid {
    // A table with no body, and with Checksum 0.
    fn new(name: &[u8], total: u32, remaining: u32) -> Self {
        let empty = Laid { bytes: [0; 64] };
        empty
            .with(0, name)
            .with(TOTAL, &total.to_le_bytes())
            .with(VERSION, &[1])
            .with(REMAINING, &remaining.to_le_bytes())
    }

    // A root with three slots.
    fn root(slots: [u64; 3]) -> Self {
        let root = Laid::new(b"root_table", 64, 0);
        root.with(COUNT, &[3])
            .with(FIRST_SLOT, &slots[0].to_le_bytes())
            .with(FIRST_SLOT + 8, &slots[1].to_le_bytes())
            .with(FIRST_SLOT + 16, &slots[2].to_le_bytes())
    }

    // The same with these bytes at a place.
    fn with(mut self, at: usize, bytes: &[u8]) -> Self {
        put(bytes, at, &mut self.bytes);
        self
    }

    // The Checksum of a table of that length, where it still stands as 0.
    fn checksum(&self, used: usize) -> u32 {
        le::sum::sum::<u32>(le::head(&self.bytes, used)).wrapping_neg()
    }

    // The same with a right Checksum.
    fn sealed(self, used: usize) -> Self {
        self.with(CHECKSUM, &self.checksum(used).to_le_bytes())
    }
}

// Of `sound_speed` 40 bytes of 48 are used, and a byte behind them is not 0.
fn bytes_with(first_slot: u64) -> [u8; 256] {
    let root = Laid::root([first_slot, SPEED_ADDRESS, DEPTH_ADDRESS]).sealed(64);
    let speed = Laid::new(b"sound_speed", 48, 8).with(BODY, &[0xCF, 5]);
    let depth = Laid::new(b"depth", 36, 0).with(BODY, &[0x1F]);
    let mut bytes = [0; 256];
    put(&root.bytes, 0, &mut bytes);
    put(&speed.sealed(40).bytes, 64, &mut bytes);
    put(&depth.sealed(36).bytes, 112, &mut bytes);
    bytes[104] = 1;
    bytes
}

fn at_base(bytes: &[u8]) -> Region<'_> {
    Region { bytes, base: BASE }
}

fn check_root(rt: &impl Print, what: &str, region: Region<'_>, address: u64) -> io::Result<()> {
    print!(rt; "  {what}: ")?;
    match Root::check(region, address) {
        Ok(root) => println!(rt;
            "at {}, {} bytes used, {} slots",
            root.table.at, root.table.used, root.count
        ),
        Err(reason) => println!(rt; "{}", Refused(reason.number())),
    }
}

fn check_table(rt: &impl Print, what: &str, region: Region<'_>, address: u64) -> io::Result<()> {
    print!(rt; "  {what}: ")?;
    match Table::check(region, address) {
        Ok(table) => println!(rt; "at {}, {} bytes used", table.at, table.used),
        Err(reason) => println!(rt; "{}", Refused(reason.number())),
    }
}

fn find(rt: &impl Print, what: &str, region: Region<'_>, name: &[u8]) -> io::Result<()> {
    print!(rt; "  find, {what}: ")?;
    match ubios::lookup::find(region, BASE, name) {
        Ok(body) => println!(rt;
            "slot {}, {} bytes at {}:{}",
            body.slot,
            body.length,
            body.at,
            Bytes(le::head(le::tail(region.bytes, body.at), body.length))
        ),
        Err(reason) => println!(rt; "{}", Refused(reason.number())),
    }
}

// The least root has no slots.
fn run_sums(rt: &impl Print) -> io::Result<()> {
    println!(rt;
        "  sum, 01 00 00 00 FF: 0x{:08X}",
        le::sum::sum::<u32>(&[1, 0, 0, 0, 0xFF])
    )?;
    let root = Laid::new(b"root_table", 40, 0);
    println!(rt;
        "  the checksum of a root with Total 40, Version 1, all else 0: 0x{:08X}",
        root.checksum(40)
    )?;
    let root = root.sealed(40);
    check_root(rt, "that root", at_base(&root.bytes), BASE)
}

fn run_region(rt: &impl Print) -> io::Result<()> {
    let bytes = bytes_with(GAP);
    let region = at_base(&bytes);
    check_root(rt, "root", region, BASE)?;
    let what = "table in slot 1, a byte behind its used part is 1";
    check_table(rt, what, region, SPEED_ADDRESS)?;
    find(rt, "sound_speed", region, b"sound_speed")?;
    find(rt, "depth", region, b"depth")?;
    find(rt, "bottom", region, b"bottom")
}

// Where `depth` is in the gap too.
fn run_twice(rt: &impl Print) -> io::Result<()> {
    let bytes = bytes_with(DEPTH_ADDRESS);
    let twice = at_base(&bytes);
    find(rt, "depth, in two slots", twice, b"depth")?;
    find(rt, "no name", twice, b"")
}

// A root at the start of a region with nothing else.
fn check_alone(rt: &impl Print, what: &str, root: Laid, address: u64) -> io::Result<()> {
    let mut bytes = [0; 256];
    put(&root.bytes, 0, &mut bytes);
    check_root(rt, what, at_base(&bytes), address)
}

// A place that is no multiple of 8, one past the region, and a reserved byte that is in the sum.
fn run_refusals(rt: &impl Print) -> io::Result<()> {
    let root = Laid::root([GAP, SPEED_ADDRESS, DEPTH_ADDRESS]);
    let right = root.sealed(64);
    check_alone(rt, "root at 4100", right, 4100)?;
    check_alone(rt, "root at 8192", right, 8192)?;
    let odd = root.with(TOTAL, &[39]).sealed(64);
    check_alone(rt, "root, Total 39", odd, BASE)?;
    let newer = root.with(VERSION, &[2]).sealed(64);
    check_alone(rt, "root, Version 2", newer, BASE)?;
    let wrong = right.with(RESERVED, &[1]);
    check_alone(rt, "root, one byte more in its sum", wrong, BASE)?;
    let named = root.with(0, b"b").sealed(64);
    check_alone(rt, "root, another name", named, BASE)?;
    let counted = root.with(COUNT, &[4]).sealed(64);
    check_alone(rt, "root, Count 4", counted, BASE)
}

fn run_all(rt: &impl Print) -> io::Result<()> {
    println!(rt;
        "UBIOS tables in a region of 256 bytes at 4096: a root with three slots, a gap, sound_speed and depth"
    )?;
    run_sums(rt)?;
    run_region(rt)?;
    run_twice(rt)?;
    run_refusals(rt)
}

// A write that fails is passed over, and the next is tried. Never inlined, so that the parts don't add up on `main`'s stack.
#[inline(never)]
pub fn run(rt: &impl Print) {
    let _ = run_all(&Lossy(rt));
}
