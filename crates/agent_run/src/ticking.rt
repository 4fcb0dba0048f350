//! A clock whose moments are computed.
ghost use Rattle.std.specs.Prelude.{◌≡◌, ◌≤◌, Some, false};
ghost use Rattle.agent_run.specs.Generated.{generated_moments};

use agent_base::Clock;
use fixed_num::Moment;

// The index of the last moment: that of the next one, in nanoseconds, is 2^63 or more.
const LAST: u64 = 9_223_372_036;

/// The seconds since 1970, one after another from 0 on, each as a moment in nanoseconds; no wait waits, and the clock
/// never stops.
///
/// The moment with the index 9,223,372,036 is the last one, which comes again and again: a later one is none that an
/// i64 holds.
#[derive(Debug, Drop)]
pub(crate) struct Ticking {
    next: u64,
    waits: u64,
    ghost within: { next ≤ 9223372036 },
}

impl Ticking {
    ghost use Rattle.agent_base.specs.Moments.{GivesAt};

    /// The next moment is that of the index 0, and there was no wait.
    pub(crate) fn new() -> Ticking
        ensures told { ⟦<Ticking as Clock>⟧.told result ≡ record { moments = Some generated_moments; next = 0 } }
        ensures unstopped { ⟦<Ticking as Clock>⟧.stopped result ≡ false }
        ensures waits { ⟦<Ticking as Clock>⟧.waits result ≡ 0 }
    {
        Ticking { next: 0, waits: 0 }
    }

    // The next moment; moves on.
    fn give(&mut self) -> Moment
        ensures gives { GivesAt generated_moments self.old.next self.new.next result }
        ensures waits { self.new.waits ≡ self.old.waits }
    {
        let moment = (self.next * 1_000_000_000) as i64;
        if self.next < LAST {
            self.next += 1;
        }
        moment
    }
}

impl Clock for Ticking {
    ghost told = { λ c. record { moments = Some generated_moments; next = c.next } };

    ghost stopped = { λ _. false };

    ghost waits = { λ c. c.waits };

    fn now(&mut self) -> Moment {
        self.give()
    }

    fn wait(&mut self) -> Option<Moment> {
        self.waits = self.waits.saturating_add(1);
        Some(self.give())
    }
}
