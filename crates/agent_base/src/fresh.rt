//! Clocks that have given no moment yet.
ghost use Rattle.std.specs.Prelude.{◌≡◌};

use crate::{Clock, MemClock};

/// A clock in memory that stands at its first moment.
#[derive(Drop)]
pub(crate) struct FreshClock {
    clock: MemClock,
    ghost first: { clock.at ≡ 0 },
}

impl FreshClock {
    /// The clock has given no moment.
    pub(crate) fn new(clock: MemClock) -> FreshClock
        requires { (⟦<MemClock as Clock>⟧.told clock).next ≡ 0 }
        ensures { result.clock ≡ clock }
    {
        FreshClock { clock }
    }

    /// The clock itself.
    pub(crate) fn into_clock(self) -> MemClock
        ensures is { result ≡ self.clock }
        ensures first { (⟦<MemClock as Clock>⟧.told result).next ≡ 0 }
    {
        self.clock
    }
}
