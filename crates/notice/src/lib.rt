// The notice ring (T/GCC 3007-2025, tables 30 and 31): notices stand end to end in a lent ring, and run past
// its last byte to its first.
#![tactic(auto)]

ghost use Rattle.std.specs.Prelude.{◌≡◌, ◌≤◌, ◌<◌, ◌++◌, true, false, length, drop, IfOk, IfErr};
ghost use Rattle.std.proofs.Math.ListN as ListN;
ghost use Rattle.le.specs.Word.{word, bytes};
ghost use Rattle.notice.specs.Ring.{number_of, header_size, ring_min, ring_max, bad_ring, waiting, is_full, moved, turned, stored, posted, ring_after, taken_of, output_after};

use le::Word;

// Where the oldest notice starts, and where the next one will: offsets in the ring. Equal means empty.
#[derive(Clone, Copy, Debug, PartialEq, Eq)]
pub struct Positions {
    pub read: usize,
    pub write: usize,
}

// Why a post or a take is refused.
#[derive(Clone, Copy, Debug, PartialEq, Eq)]
pub enum Reason {
    // 20: the ring's length or a position is not legal.
    BadRing,
    // 21: nothing waits.
    Empty,
    // 22: what waits does not start with a legal notice.
    Damaged,
    // 23: the output is shorter than the data.
    OutputShort,
    // 24: data over 1,024 bytes.
    DataLong,
    // 25: the notice does not fit what is free.
    Full,
}

// A notice that was taken: Notify ID, Data Length, and the positions after it. The data is the output's first bytes.
#[derive(Clone, Copy, Debug, PartialEq, Eq)]
pub struct Taken {
    pub id: u32,
    pub length: usize,
    pub positions: Positions,
}

// A notice's Notify ID and Data Length.
pub const HEADER_SIZE: usize = 8;
// The longest data.
pub const DATA_MAX: usize = 1024;
// The smallest and the largest capacity, and of what each is a multiple.
pub const RING_MIN: usize = 16;

pub const RING_MAX: usize = 65536;

pub const RING_UNIT: usize = 8;

impl Reason {
    // The refusal's number.
    pub fn number(self) -> u32
        ensures { result ≡ number_of self }
    {
        match self {
            Reason::BadRing => 20,
            Reason::Empty => 21,
            Reason::Damaged => 22,
            Reason::OutputShort => 23,
            Reason::DataLong => 24,
            Reason::Full => 25,
        }
    }
}

// The capacity of a legal ring, and the positions in it.
#[derive(Clone, Copy)]
struct Geometry {
    capacity: usize,
    at: Positions,
    ghost least: { ring_min ≤ capacity },
    ghost most: { capacity ≤ ring_max },
    ghost read_inside: { at.read < capacity },
    ghost write_inside: { at.write < capacity },
}

impl Geometry {
    // Of a ring that is not legal there is none.
    #[tactic(auto, unfolding(crate::specs::Ring::bad_ring))]
    fn new(capacity: usize, at: Positions) -> Result<Self, Reason>
        ensures legal { IfOk result (λ geometry. (bad_ring capacity at ≡ false) × (geometry.capacity ≡ capacity) × (geometry.at ≡ at)) }
        ensures bad { IfErr result (λ reason. (bad_ring capacity at ≡ true) × (reason ≡ Reason.BadRing)) }
    {
        if capacity < RING_MIN
            || RING_MAX < capacity
            || capacity % RING_UNIT != 0
            || capacity <= at.read
            || capacity <= at.write
        {
            return Err(Reason::BadRing);
        }
        Ok(Geometry { capacity, at })
    }

    // How many bytes wait.
    #[tactic(auto, unfolding(crate::specs::Ring::waiting))]
    fn waiting(self) -> usize
        ensures value { result ≡ waiting self.capacity self.at }
        ensures below { result < self.capacity }
    {
        if self.at.read <= self.at.write {
            self.at.write - self.at.read
        } else {
            self.capacity - self.at.read + self.at.write
        }
    }

    // Whether a notice with n bytes of data does not fit what is free.
    fn lacks_room(self, n: usize) -> bool
        ensures { result ≡ is_full self.capacity self.at n }
    {
        let free = self.capacity - 1 - self.waiting();
        free < HEADER_SIZE.saturating_add(n)
    }

    // A position moved on by n, past the last byte to the first.
    #[tactic(auto, using(crate::proofs::Answers::moved_inside, crate::proofs::Answers::moved_past))]
    fn moved(self, at: usize, n: usize) -> usize
        requires { (at < self.capacity) × (n ≤ self.capacity) }
        ensures value { result ≡ moved self.capacity at n }
        ensures below { result < self.capacity }
    {
        let next = at + n;
        if next < self.capacity {
            next
        } else {
            next - self.capacity
        }
    }
}

// Writes bytes to the ring from a place on: first what fits before its end, then the rest at its start. Ring and place
// are two parameters, here and in the two that read: no one struct holds a ring that is lent here to be written, there to be read.
fn put_round(src: &[u8], at: usize, ring: &mut [u8])
    requires { (at ≤ length ring.old) × (length src.now ≤ length ring.old) }
    ensures { ring.new ≡ stored at src.now ring.old }
{
    let room = ring.len() - at;
    le::copy(src, &mut ring[at..]);
    le::copy(le::tail(src, room), ring);
}

// Reads bytes of the ring from a place on, as many as the output holds: where they stand before its end, in one part,
// so that a header is read as a whole; else in two.
fn get_round(ring: &[u8], at: usize, out: &mut [u8])
    requires { (at ≤ length ring.now) × (length out.old ≤ length ring.now) }
    ensures { out.new ≡ ListN.take (length out.old) (turned at ring.now) }
{
    let room = ring.len() - at;
    if out.len() <= room {
        le::copy(&ring[at..at + out.len()], out);
        return;
    }
    le::copy(le::tail(ring, at), out);
    le::copy(ring, &mut out[room..]);
}

// What stands before a notice's data: two words, laid out as one, so that the copy to the ring reads what one store wrote.
fn header(id: u32, length: u32) -> [u8; HEADER_SIZE]
    ensures { result ≡ bytes 4 id ++ bytes 4 length }
{
    (u64::from(id) + u64::from(length) * 0x1_0000_0000).bytes()
}

// Posts a notice behind those that wait. It changes the notice's bytes and the write position; a refusal
// changes nothing.
#[tactic(auto, unfolding(crate::specs::Ring::posted))]
pub fn post(ring: &mut [u8], at: Positions, id: u32, body: &[u8]) -> Result<Positions, Reason>
    ensures value { result ≡ posted ring.old at id body.now }
    ensures ring_after { ring.new ≡ ring_after result ring.old at id body.now }
{
    let geometry = Geometry::new(ring.len(), at)?;
    if DATA_MAX < body.len() {
        return Err(Reason::DataLong);
    }
    if geometry.lacks_room(body.len()) {
        return Err(Reason::Full);
    }
    put_round(&header(id, body.len() as u32), at.write, ring);
    put_round(body, geometry.moved(at.write, HEADER_SIZE), ring);
    Ok(Positions {
        read: at.read,
        write: geometry.moved(at.write, HEADER_SIZE + body.len()),
    })
}

// The Notify ID and the Data Length that stand at a place.
fn read_header(ring: &[u8], at: usize) -> (u32, usize)
    requires { (at ≤ length ring.now) × (header_size ≤ length ring.now) }
    ensures { (result.0 ≡ word 4 (turned at ring.now)) × (result.1 ≡ word 4 (drop 4 (turned at ring.now))) }
{
    let mut header = [0u8; HEADER_SIZE];
    get_round(ring, at, &mut header);
    (u32::at(&header, 0), u32::at(&header, 4) as usize)
}

// Takes the oldest notice. It changes the read position and the first bytes of the output; a refusal changes
// nothing.
#[tactic(auto, unfolding(crate::specs::Ring::taken_of))]
pub fn take(ring: &[u8], at: Positions, out: &mut [u8]) -> Result<Taken, Reason>
    ensures value { result ≡ taken_of ring.now at out.old }
    ensures out_after { out.new ≡ output_after result ring.now at out.old }
{
    let geometry = Geometry::new(ring.len(), at)?;
    if at.read == at.write {
        return Err(Reason::Empty);
    }
    let behind = geometry
        .waiting()
        .checked_sub(HEADER_SIZE)
        .ok_or(Reason::Damaged)?;
    let (id, length) = read_header(ring, at.read);
    if DATA_MAX < length || behind < length {
        return Err(Reason::Damaged);
    }
    if out.len() < length {
        return Err(Reason::OutputShort);
    }
    get_round(
        ring,
        geometry.moved(at.read, HEADER_SIZE),
        &mut out[..length],
    );
    Ok(Taken {
        id,
        length,
        positions: Positions {
            read: geometry.moved(at.read, HEADER_SIZE + length),
            write: at.write,
        },
    })
}
