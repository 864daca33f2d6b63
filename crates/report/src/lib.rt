// How the program `vectors` prints, and the forms in which its lines have a list of bytes, and a refusal.
#![tactic(auto)]

use std::fmt::Display;
use std::{fmt, io};

// A printer that passes over each write that fails: what is printed is compared with what is kept, and a gap shows there.
#[derive(Drop)]
pub struct Lossy<'a, P>(pub &'a P);

impl<P: Print> Print for Lossy<'_, P> {
    fn print<D: Display + Drop>(&self, value: D) -> io::Result<()> {
        let _ = self.0.print(value);
        Ok(())
    }

    fn println<D: Display + Drop>(&self, value: D) -> io::Result<()> {
        let _ = self.0.println(value);
        Ok(())
    }

    fn write_all(&self, bytes: &[u8]) -> io::Result<()> {
        let _ = self.0.write_all(bytes);
        Ok(())
    }
}

// How many bytes of a list are shown.
const SHOWN: usize = 32;

// A blank and two digits for each of the first bytes, and two dots for any more.
#[derive(Clone, Copy)]
pub struct Bytes<'a>(pub &'a [u8]);

impl fmt::Display for Bytes<'_> {
    fn fmt<W: fmt::Write>(&self, f: &mut fmt::Formatter<W>) -> fmt::Result {
        for byte in self.0.iter().take(SHOWN) {
            write!(f, " {byte:02X}")?;
        }
        if SHOWN < self.0.len() {
            write!(f, " ..")?;
        }
        Ok(())
    }
}

// A refusal's number.
#[derive(Clone, Copy)]
pub struct Refused(pub u32);

impl fmt::Display for Refused {
    fn fmt<W: fmt::Write>(&self, f: &mut fmt::Formatter<W>) -> fmt::Result {
        write!(f, "refused with {}", self.0)
    }
}
