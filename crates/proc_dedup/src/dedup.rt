//! Removing repeated metrics.
ghost use Rattle.std.specs.Prelude.{◌≡◌, ◌++◌, ◌∷◌, [], ℤ, List, false, IfOk, OnOk, OnErr, if◌then◌else◌};
ghost use Rattle.proc_dedup.specs.declared.sight.Sight.TheVariants.{Repeated, Fresh as SeenFresh};
ghost use Rattle.metric.specs.declared.metric.Content.{Content};
ghost use Rattle.proc_dedup.specs.Dedup.{is_removed, left_after, sight_of, CanKeep, HasRoom, StandsFor};
ghost use Rattle.proc_dedup.specs.Repeats.{series_of};

use crate::map::{Kept, look, put};
use crate::{Fresh, Sight};
use fixed_num::OutOfMemory;
use metric::Metric;
use std::alloc::Global;
use std::marker::Model;

/// Removes a metric that repeats the last one of its series that wasn't removed (as Telegraf's processor dedup does). It
/// keeps that one of each series, for ever.
#[derive(Drop)]
pub struct Dedup {
    interval: i64,
    kept: Kept,
}

impl Model for Dedup {
    ghost use Rattle.proc_dedup.specs.Dedup.{Memory};

    ghost Value = { Memory };

    ghost view = { λ d. record { interval = d.interval; kept = d.kept.entries } };
}

impl Dedup {
    /// Nothing was seen yet. A metric is removed that comes less than `interval` nanoseconds behind the one that it repeats.
    pub fn new(alloc: Global, interval: i64) -> Dedup
        ensures { StandsFor interval [] result }
    {
        Dedup {
            interval,
            kept: Kept::new(alloc),
        }
    }

    /// The next metric: None exactly where it is removed. It is where the last earlier metric of its series that wasn't
    /// removed has each of its fields with the same value and type, and the metric's time less that one's is below the
    /// interval. After an error all is as if the metric hadn't come.
    pub fn apply(&mut self, m: Metric) -> Result<Option<Metric>, OutOfMemory>
        ensures answer { (interval : ℤ) (list : List Content) → StandsFor interval list self.old
            → IfOk result (λ answer. answer ≡ left_after interval list m) }
        ensures stands { (interval : ℤ) (list : List Content) → StandsFor interval list self.old
            → OnOk result (StandsFor interval (list ++ m ∷ []) self.new) }
        ensures err { (interval : ℤ) (list : List Content) → StandsFor interval list self.old
            → OnErr result (StandsFor interval list self.new) }
    {
        match self.look(&m)? {
            Sight::Repeated => Ok(None),
            Sight::Fresh(fresh) => {
                self.keep(fresh);
                Ok(Some(m))
            }
        }
    }

    /// Whether the metric would be removed if it came next; else what is to be kept of it. Nothing changes by it but that
    /// there is room for one more series: where it would be removed, all is already as behind it.
    pub fn look(&mut self, m: &Metric) -> Result<Sight, OutOfMemory>
        ensures sight { (interval : ℤ) (list : List Content) → StandsFor interval list self.old
            → IfOk result (λ sight. sight ≡ sight_of interval list m.now) }
        ensures stands { (interval : ℤ) (list : List Content) → StandsFor interval list self.old
            → StandsFor interval list self.new }
        ensures repeated { (interval : ℤ) (list : List Content) → StandsFor interval list self.old
            → IfOk result (λ sight. sight ≡ Repeated → StandsFor interval (list ++ m.now ∷ []) self.new) }
        ensures room { IfOk result (λ sight. CanKeep self.new.kept sight) }
    {
        let fresh = Fresh::of(m)?;
        let repeated = look(&mut self.kept, self.interval, m)?;
        Ok(sight(repeated, fresh))
    }

    /// Keeps a metric that came next and isn't removed, once there is room for it: it takes no memory.
    pub fn keep(&mut self, fresh: Fresh)
        requires { HasRoom self.old.kept (series_of fresh) }
        ensures { (interval : ℤ) (list : List Content) → StandsFor interval list self.old
            → is_removed interval list fresh ≡ false → StandsFor interval (list ++ fresh ∷ []) self.new }
    {
        put(&mut self.kept, fresh);
    }
}

/// What is seen of a metric.
fn sight(repeated: bool, fresh: Fresh) -> Sight
    ensures { result ≡ if repeated then Repeated else SeenFresh fresh }
{
    if repeated {
        Sight::Repeated
    } else {
        Sight::Fresh(fresh)
    }
}
