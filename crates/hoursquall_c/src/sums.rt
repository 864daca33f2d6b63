// Sums of bytes and of words.
ghost use Rattle.std.specs.Prelude.{◌≡◌};
ghost use Rattle.le.specs.Sum.{sum};

// The bytes, added up modulo 2^8.
#[unsafe(no_mangle)]
pub extern "C" fn hs_sum8(s: &[u8]) -> u8
    ensures { result ≡ sum 1 s.now }
{
    le::sum::sum::<u8>(s)
}

// The 32-bit words, added up modulo 2^32.
#[unsafe(no_mangle)]
pub extern "C" fn hs_sum32(s: &[u8]) -> u32
    ensures { result ≡ sum 4 s.now }
{
    le::sum::sum::<u32>(s)
}
