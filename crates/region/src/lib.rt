// A lent region: a part of memory, and the address of its first byte. Whether a header that stands at an
// address lies in it; any sizes and addresses get an answer.
#![tactic(auto)]

ghost use Rattle.std.specs.Prelude.{◌≡◌, ◌-◌, ◌≤◌, ◌<◌, length, drop, MatchOption};
ghost use Rattle.region.specs.Region.{runs_past_def, outside};

// Where a region lies: how many bytes it has, and the address of the first. Its size is any number, also one that no slice has.
#[derive(Clone, Copy, Debug, PartialEq, Eq)]
pub struct Span {
    pub size: usize,
    pub base: u64,
}

impl Span {
    // Whether it runs past 2^64. The sum of base and size is not taken, so it cannot wrap.
    pub fn runs_past(self) -> bool
        ensures { result ≡ runs_past_def self.size self.base }
    {
        self.size != 0 && u64::MAX - self.base < self.size as u64 - 1
    }

    // Whether it runs past 2^64, or does not hold `header` bytes from the address on.
    #[tactic(auto, unfolding(crate::specs::Region::outside))]
    pub fn is_outside(self, header: usize, address: u64) -> bool
        ensures { result ≡ outside header self.size self.base address }
    {
        self.runs_past()
            || address < self.base
            || (self.size as u64) < address - self.base
            || self.size as u64 - (address - self.base) < header as u64
    }
}

#[derive(Clone, Copy, Debug)]
pub struct Region<'a> {
    pub bytes: &'a [u8],
    pub base: u64,
}

impl<'a> Region<'a> {
    // Where it lies.
    pub fn span(self) -> Span
        ensures { result ≡ record { size = length self.entry.bytes.now; base = self.entry.base } }
    {
        Span {
            size: self.bytes.len(),
            base: self.base,
        }
    }

    // Its bytes from an address on: none where that is past its end, and `None` where it is before its first byte.
    pub fn bytes_from(self, address: u64) -> Option<&'a [u8]>
        ensures { MatchOption result (address < self.entry.base)
            (λ s. (self.entry.base ≤ address) × (s.now ≡ drop (address - self.entry.base) self.entry.bytes.now)) }
    {
        let at = address.checked_sub(self.base)?;
        Some(le::tail(self.bytes, at as usize))
    }
}
