// Text in ASCII, put into an output that the caller lends, from a place on.
#![tactic(auto)]

ghost use Rattle.std.specs.Prelude.{◌≡◌, ◌+◌, leb, length};
ghost use Rattle.text.specs.Decimal.{decimal};
ghost use Rattle.text.specs.Output.{Puts};

// An output, and the place in it from which the next text is put. What is put moves the place behind it; text that does
// not fit whole is not put, and the place stays.
#[derive(Drop)]
pub struct Writer<'a> {
    pub out: &'a mut [u8],
    pub at: usize,
}

impl Writer<'_> {
    // Whether n bytes fit.
    fn has_room(&self, n: usize) -> bool
        ensures { result ≡ leb (self.now.at + n) (length self.now.out.now) }
    {
        self.at <= self.out.len() && n <= self.out.len() - self.at
    }

    // Puts bytes as they are.
    pub fn put(&mut self, bytes: &[u8])
        ensures { Puts bytes.now self.old self.new }
    {
        if self.has_room(bytes.len()) {
            le::copy(bytes, &mut self.out[self.at..]);
            self.at += bytes.len();
        }
    }

    // Puts a number in decimal.
    pub fn put_decimal(&mut self, n: u64)
        ensures { Puts (decimal n) self.old self.new }
    {
        let count = count_digits(n);
        if self.has_room(count) {
            let end = self.at + count;
            spell(n, &mut self.out[self.at..end]);
            self.at = end;
        }
    }
}

// Digits are counted and put here, and not by `Display`: `write!` can fail, and `put_decimal` cannot.
fn count_digits(n: u64) -> usize
    ensures { result ≡ length (decimal n) }
{
    n.max(1).ilog10() as usize + 1
}

// Writes the digits of a number over all of a slice that has one byte for each, the last digit first.
fn spell(n: u64, out: &mut [u8])
    requires { length out.old ≡ length (decimal n) }
    ensures { out.new ≡ decimal n }
{
    let mut rest = n;
    for at in (0..out.len()).rev() {
        out[at] = b'0' + (rest % 10) as u8;
        rest /= 10;
    }
}
