//! Clocks.
ghost use Rattle.std.specs.Prelude.{◌≡◌, ℤ};
ghost use Rattle.tough_vault.specs.SystemClock.{runtime_of};

use jiff::Timestamp;
use std::rt;

/// A clock. It may go back, and any moment may come where it says no more of itself.
pub trait Clock {
    ghost use Rattle.std.specs.Prelude.{ℤ, ⊤};

    /// The moments that may come next, as nanoseconds since 1970.
    ghost may_give: { Self → ℤ → Type 0 } = { λ _ _. ⊤ };

    /// The moment that it shows.
    fn now(&mut self) -> Timestamp
        ensures { may_give self.old result.nanosecond };
}

/// The clock of the operating system. Where it can't be read it shows the first moment that jiff has.
#[derive(Drop)]
pub struct SystemClock<R> {
    rt: R,
}

impl<R: rt::Clock + Drop> SystemClock<R> {
    /// The clock that the runtime reaches.
    pub fn new(rt: R) -> SystemClock<R>
        ensures { runtime_of result ≡ rt }
    {
        SystemClock { rt }
    }
}

impl<R: rt::Clock + Drop> Clock for SystemClock<R> {
    fn now(&mut self) -> Timestamp {
        match Timestamp::now(&self.rt) {
            Ok(moment) => moment,
            Err(_) => Timestamp::MIN,
        }
    }
}

/// A clock that stands still: it shows the same moment whenever it is asked.
#[derive(Clone, Copy, Drop)]
pub struct FixedClock(pub Timestamp);

impl Clock for FixedClock {
    ghost may_give = { λ clock moment. moment ≡ clock.0.nanosecond };

    fn now(&mut self) -> Timestamp
        ensures shown { result ≡ self.old.0 }
        ensures same { self.new ≡ self.old }
    {
        self.0
    }
}
