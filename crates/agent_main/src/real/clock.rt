//! The clock of the system.
ghost use Rattle.std.specs.Prelude.{None, false};

use agent_base::Clock;
use fixed_num::Moment;
use std::thread;
use std::time::{Duration, SystemTime};

/// The clock of the system. Where it can't be read it gives again the last moment that it gave, 0
/// at first; a moment outside the type is given as the nearest one of the type.
#[derive(Drop)]
pub struct RealClock<'r, R> {
    pub rt: &'r R,
    /// How many nanoseconds a wait pauses.
    pub pause: i64,
    pub last: Moment,
    pub waits: u64,
}

/// Nanoseconds since 1970, where the clock can be read.
fn moment_of<R: std::rt::Clock>(rt: &R) -> Option<Moment> {
    let now = SystemTime::now(rt).ok()?;
    let since = now.duration_since(SystemTime::UNIX_EPOCH).ok()?;
    Some(i64::try_from(since.as_nanos()).unwrap_or(i64::MAX))
}

impl<R: std::rt::Clock> Clock for RealClock<'_, R> {
    ghost told = { λ _. record { moments = None; next = 0 } };

    ghost stopped = { λ _. false };

    ghost waits = { λ c. c.waits };

    fn now(&mut self) -> Moment {
        self.last = moment_of(self.rt).unwrap_or(self.last);
        self.last
    }

    fn wait(&mut self) -> Option<Moment> {
        if let Ok(pause) = u64::try_from(self.pause) {
            thread::sleep(self.rt, Duration::from_nanos(pause));
        }
        self.waits = self.waits.saturating_add(1);
        Some(self.now())
    }
}
