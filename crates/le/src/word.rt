// Words of 1, 2, 4 and 8 bytes: read at any place of a slice, and laid out as bytes. Bytes past the
// end of the slice count as 0, so there is a word at every place.
ghost use Rattle.std.specs.Prelude.{◌≡◌, ℕ, ◌+◌, ◌-◌, ◌%◌, ◌^◌, ◌<◌, ◌≤◌, List, length, drop, slice_index};
ghost use Rattle.std.proofs.Common.{refl, lit<};
ghost use Rattle.le.specs.Word.{word, bytes};

use crate::tail;

// An unsigned number of SIZE bytes, little-endian.
pub trait Word: Copy {
    // Its bytes, an array of SIZE.
    type Bytes;

    const SIZE: usize;

    ghost SIZE: { ℕ };

    ghost number: { Self → ℕ };

    ghost list: { Self.Bytes → List ℕ };

    fn zero() -> Self
        ensures { number result ≡ 0 };

    // The sum, without what is carried out of the top.
    fn wrapping_add(self, other: Self) -> Self
        ensures { number result ≡ (number self + number other) % 256 ^ SIZE };

    // The word at a place of a slice.
    fn at(s: &[u8], at: usize) -> Self
        ensures { number result ≡ word SIZE (drop at s.now) };

    // The bytes of the word, the lowest first.
    fn bytes(self) -> Self::Bytes
        ensures { list result ≡ bytes SIZE (number self) };

    // Whole words make up 8 bytes, so the blocks of a sum too.
    ghost size_divides: { (0 < SIZE) × (8 % SIZE ≡ 0) };
}

// The word at a place from which on the slice has all its bytes: nothing is compared, so it is a single load.
pub(crate) fn inner<W: Word>(s: &[u8], at: usize) -> W
    requires { W.SIZE ≤ length s.now - at }
    ensures { W.number result ≡ word W.SIZE (drop at s.now) }
{
    W::at(&s[at..at + W::SIZE], 0)
}

// The byte at `i`; 0 past the end.
fn byte(s: &[u8], i: usize) -> u8
    ensures { result ≡ slice_index s.now i }
{
    if i < s.len() { s[i] } else { 0 }
}

impl Word for u8 {
    type Bytes = [u8; 1];

    const SIZE: usize = 1;

    ghost SIZE = { 1 };

    ghost number = { λ x. x };

    ghost list = { λ array. array };

    fn zero() -> u8 {
        0
    }

    fn wrapping_add(self, other: u8) -> u8 {
        u8::wrapping_add(self, other)
    }

    fn at(s: &[u8], at: usize) -> u8 {
        byte(s, at)
    }

    #[tactic(auto, unfolding(crate::specs::Word::bytes))]
    fn bytes(self) -> [u8; 1] {
        u8::to_le_bytes(self)
    }

    ghost size_divides = { (lit< tt, refl) };
}

impl Word for u16 {
    type Bytes = [u8; 2];

    const SIZE: usize = 2;

    ghost SIZE = { 2 };

    ghost number = { λ x. x };

    ghost list = { λ array. array };

    fn zero() -> u16 {
        0
    }

    fn wrapping_add(self, other: u16) -> u16 {
        u16::wrapping_add(self, other)
    }

    // Byte by byte, which compiles to a single load where the slice is known to have the bytes; so at `u32`.
    fn at(s: &[u8], at: usize) -> u16 {
        let rest = tail(s, at);
        u16::from_le_bytes([byte(rest, 0), byte(rest, 1)])
    }

    #[tactic(auto, unfolding(crate::specs::Word::bytes))]
    fn bytes(self) -> [u8; 2] {
        u16::to_le_bytes(self)
    }

    ghost size_divides = { (lit< tt, refl) };
}

impl Word for u32 {
    type Bytes = [u8; 4];

    const SIZE: usize = 4;

    ghost SIZE = { 4 };

    ghost number = { λ x. x };

    ghost list = { λ array. array };

    fn zero() -> u32 {
        0
    }

    fn wrapping_add(self, other: u32) -> u32 {
        u32::wrapping_add(self, other)
    }

    fn at(s: &[u8], at: usize) -> u32 {
        let rest = tail(s, at);
        u32::from_le_bytes([byte(rest, 0), byte(rest, 1), byte(rest, 2), byte(rest, 3)])
    }

    #[tactic(auto, unfolding(crate::specs::Word::bytes))]
    fn bytes(self) -> [u8; 4] {
        u32::to_le_bytes(self)
    }

    ghost size_divides = { (lit< tt, refl) };
}

impl Word for u64 {
    type Bytes = [u8; 8];

    const SIZE: usize = 8;

    ghost SIZE = { 8 };

    ghost number = { λ x. x };

    ghost list = { λ array. array };

    fn zero() -> u64 {
        0
    }

    fn wrapping_add(self, other: u64) -> u64 {
        u64::wrapping_add(self, other)
    }

    fn at(s: &[u8], at: usize) -> u64 {
        let here = tail(s, at);
        if 8 <= here.len() {
            u64::from_le_bytes([
                here[0], here[1], here[2], here[3], here[4], here[5], here[6], here[7],
            ])
        } else {
            short_u64(here)
        }
    }

    #[tactic(auto, unfolding(crate::specs::Word::bytes))]
    fn bytes(self) -> [u8; 8] {
        u64::to_le_bytes(self)
    }

    ghost size_divides = { (lit< tt, refl) };
}

// In two halves, which need not be a single load: a slice of eight bytes or more is read as a whole.
fn short_u64(s: &[u8]) -> u64
    ensures { result ≡ word 8 s.now }
{
    u32::at(s, 0) as u64 + u32::at(s, 4) as u64 * 0x1_0000_0000
}
