// Little-endian words, sums, comparison and copies over byte slices. Everything above reads bytes through this
// crate, and knows it by its promises alone.
#![tactic(auto)]

pub mod sum;
pub mod word;

ghost use Rattle.std.specs.Prelude.{◌≡◌, length, take, drop};
ghost use Rattle.le.specs.Compare as Compare;
ghost use Rattle.le.specs.Copy.{copied};

pub use word::Word;
use word::inner;

// The slice from `at` on; empty where `at` is past its end.
pub fn tail(s: &[u8], at: usize) -> &[u8]
    ensures { result.now ≡ drop at s.now }
{
    &s[at.min(s.len())..]
}

// The first n bytes of a slice; all of it where it has no more.
pub fn head(s: &[u8], n: usize) -> &[u8]
    ensures { result.now ≡ take n s.now }
{
    &s[..n.min(s.len())]
}

// Whether two slices hold the same bytes: word by word, and what is left byte by byte. `a == b` was tried: it is
// compiled as a call, and a look-up among 128 names took twice as long.
pub fn same(a: &[u8], b: &[u8]) -> bool
    ensures { result ≡ Compare.same a.now b.now }
{
    if a.len() != b.len() {
        return false;
    }
    let words = a.len() / 8;
    for n in 0..words {
        if inner::<u64>(a, 8 * n) != inner(b, 8 * n) {
            return false;
        }
    }
    for i in 8 * words..a.len() {
        if a[i] != b[i] {
            return false;
        }
    }
    true
}

// Byte by byte: a loop from slice to slice stays one, since they might overlap. It counts its places itself, so that a wrong
// copy can be planted in it: there is no such place in `copy_from_slice`.
fn copy_bytes(src: &[u8], dst: &mut [u8])
    ensures { dst.new ≡ copied src.now dst.old }
{
    let n = src.len().min(dst.len());
    let mut i = 0;
    while i < n {
        dst[i] = src[i];
        i += 1;
    }
}

// Copies src to the start of dst, as much of it as fits; the rest of dst stays. Lent `&mut d[at..]`,
// it changes d from `at` on. By way of an array, which overlaps neither: the compiler makes one `memmove` of
// the two copies, and the array vanishes. Copied from the one to the other it first asks whether they overlap, in three
// times the code. Where there is nothing to copy, as mostly behind a ring's end, it is not called.
pub fn copy(src: &[u8], dst: &mut [u8])
    ensures { dst.new ≡ copied src.now dst.old }
{
    let n = src.len().min(dst.len());
    if n == 0 {
        return;
    }
    if n <= 4096 {
        let mut held = [0u8; 4096];
        copy_bytes(&src[..n], &mut held);
        copy_bytes(&held[..n], dst);
    } else {
        copy_bytes(src, dst);
    }
}
