// An answer as C is told it: 0, and what is answered goes to what the caller lent for it; or the number of the refusal, which
// leaves that as it was.
ghost use Rattle.std.specs.Prelude.{◌≡◌, ℕ};
ghost use Rattle.frame.specs.Writing as FrameWriting;
ghost use Rattle.framelog.specs.Layout as LogLayout;
ghost use Rattle.notice.specs.Ring as Ring;
ghost use Rattle.sfi.specs.Checks as SfiChecks;
ghost use Rattle.ubios.specs.Checks as UbiosChecks;
ghost use Rattle.hoursquall.specs.Answer.{told, left_lent};
ghost use Rattle.hoursquall.specs.Notice.{block_of_positions};
ghost use Rattle.hoursquall.specs.Ubios.{part_of, root_part_of, place_of};

use notice::Positions;
use ubios::lookup::Body;
use ubios::{Root, Table};

// Why a call is refused, as the number that C is told. Each crate has its own `number`, which docs/PROMISES.md names; `From` would
// say of it what a conversion may give, where `told` wants a function.
pub trait Refusal {
    ghost number_of: { Self → ℕ };

    fn number(self) -> u32
        ensures { result ≡ number_of self };
}

impl Refusal for frame::write::Reason {
    ghost number_of = { FrameWriting.number_of };

    fn number(self) -> u32 {
        frame::write::Reason::number(self)
    }
}

impl Refusal for framelog::Reason {
    ghost number_of = { LogLayout.number_of };

    fn number(self) -> u32 {
        framelog::Reason::number(self)
    }
}

impl Refusal for notice::Reason {
    ghost number_of = { Ring.number_of };

    fn number(self) -> u32 {
        notice::Reason::number(self)
    }
}

impl Refusal for sfi::Reason {
    ghost number_of = { SfiChecks.number_of };

    fn number(self) -> u32 {
        sfi::Reason::number(self)
    }
}

impl Refusal for ubios::Reason {
    ghost number_of = { UbiosChecks.number_of };

    fn number(self) -> u32 {
        ubios::Reason::number(self)
    }
}

// What is answered, as the numbers that C lends a place for.
pub trait Numbered {
    type Numbers: Copy;

    ghost numbers_of: { Self → Self.Numbers };

    fn numbers(self) -> Self::Numbers
        ensures { result ≡ numbers_of self };
}

impl Numbered for () {
    type Numbers = ();

    ghost numbers_of = { λ nothing. nothing };

    fn numbers(self) {}
}

impl Numbered for usize {
    type Numbers = usize;

    ghost numbers_of = { λ n. n };

    fn numbers(self) -> usize {
        self
    }
}

impl Numbered for Positions {
    type Numbers = [usize; 2];

    ghost numbers_of = { block_of_positions };

    fn numbers(self) -> [usize; 2] {
        [self.read, self.write]
    }
}

impl Numbered for Table {
    type Numbers = [usize; 2];

    ghost numbers_of = { part_of };

    fn numbers(self) -> [usize; 2] {
        [self.at, self.used]
    }
}

impl Numbered for Root {
    type Numbers = [usize; 3];

    ghost numbers_of = { root_part_of };

    fn numbers(self) -> [usize; 3] {
        [self.table.at, self.table.used, self.count]
    }
}

impl Numbered for Body {
    type Numbers = [usize; 3];

    ghost numbers_of = { place_of };

    fn numbers(self) -> [usize; 3] {
        [self.slot, self.at, self.length]
    }
}

// Tells an answer of any of these.
pub fn tell<T: Numbered, R: Refusal>(answer: Result<T, R>, lent: &mut T::Numbers) -> u32
    ensures value { result ≡ told R.number_of answer }
    ensures lent_after { lent.new ≡ left_lent T.numbers_of answer lent.old }
{
    match answer {
        Ok(answered) => {
            *lent = answered.numbers();
            0
        }
        Err(reason) => reason.number(),
    }
}
