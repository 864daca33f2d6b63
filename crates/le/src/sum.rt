// Sums of a whole slice, by wrapping addition: a carry out of the top is dropped.
//
// What is long is cut into four quarters, and each turn of the loop adds a word of each: the order makes no
// difference to the sum. Of a loop over single bytes or words the compiler makes one that adds 32 bytes a turn, and that
// takes twice as long where its code happens to cross the end of a cache line. The loop over quarters adds 128 bytes a
// turn, and does not depend on its place (docs/changes/Q-03.md).
ghost use Rattle.std.specs.Prelude.{◌≡◌, ◌*◌, ◌%◌, length};
ghost use Rattle.le.specs.Sum as Sum;

use crate::Word;
use crate::word::inner;

// What the compiled loop adds in one turn, two vectors of each quarter: so whole blocks leave nothing over.
const BLOCK: usize = 128;

// Word by word, and what is left as a short word.
fn serial<W: Word>(s: &[u8]) -> W
    ensures { W.number result ≡ Sum.sum W.SIZE s.now }
{
    let words = s.len() / W::SIZE;
    let mut sum = W::zero();
    for n in 0..words {
        sum = sum.wrapping_add(inner(s, W::SIZE * n));
    }
    sum.wrapping_add(W::at(&s[W::SIZE * words..], 0))
}

// A word of each quarter at a time.
fn quarters<W: Word>(s: &[u8]) -> W
    requires { length s.now % (4 * W.SIZE) ≡ 0 }
    ensures { W.number result ≡ Sum.sum W.SIZE s.now }
{
    let quarter = s.len() / W::SIZE / 4;
    let mut sum = W::zero();
    for i in 0..quarter {
        sum = sum.wrapping_add(inner(s, W::SIZE * i));
        sum = sum.wrapping_add(inner(s, W::SIZE * (quarter + i)));
        sum = sum.wrapping_add(inner(s, W::SIZE * (2 * quarter + i)));
        sum = sum.wrapping_add(inner(s, W::SIZE * (3 * quarter + i)));
    }
    sum
}

// The words, added up modulo 256^SIZE. A short last word is filled with zeros at the high end. Bytes without a whole
// block are told apart first, which is faster for the shortest tables; the sum of longer words with that test would be
// too large to be compiled in place. What follows the whole blocks is summed before them, for the same reason.
pub fn sum<W: Word>(s: &[u8]) -> W
    ensures { W.number result ≡ Sum.sum W.SIZE s.now }
{
    if W::SIZE == 1 && s.len() < BLOCK {
        return serial(s);
    }
    let whole = s.len() / BLOCK * BLOCK;
    let rest = serial::<W>(&s[whole..]);
    quarters::<W>(&s[..whole]).wrapping_add(rest)
}
