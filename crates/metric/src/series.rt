//! The series of metrics.
ghost use Rattle.std.specs.Prelude.{◌≡◌};
ghost use Rattle.std.proofs.Common.{rules};
ghost use Rattle.std.specs.Cmp.{partial_equiv_from_equiv, partial_order_from_own_ties};
ghost use Rattle.std.specs.Cmp.{partial_order_from_total};
ghost use Rattle.std.specs.Cmp.Rules.{comparing};
ghost use Rattle.std.specs.Ordering.{as_partial_cmp};
ghost use Rattle.metric.specs.Series.{series_alike, series_cmp, series_eq, series_equiv, series_ties};
ghost use Rattle.metric.specs.Series.{series_total, series_writes};

use crate::Metric;
use std::cmp::Ordering;
use std::hash::{Hash, Hasher};
use std::marker::Model;

/// The series of a metric: its name and its tags. It shares the metric's content, and two are equal where names and tags
/// are, whatever the fields and times.
#[derive(Drop, Debug)]
pub struct Series {
    metric: Metric,
}

impl Model for Series {
    ghost use Rattle.std.specs.Prelude.{List, ℕ};

    ghost Value = { List ℕ × List (List ℕ × List ℕ) };

    ghost view = { λ s. (s.metric.name, s.metric.tags) };
}

impl Series {
    /// The series of a metric.
    pub(crate) fn of(metric: Metric) -> Series
        ensures { result ≡ (metric.name, metric.tags) }
    {
        Series { metric }
    }
}

impl PartialEq for Series {
    ghost eq = { series_eq };

    ghost laws = { partial_equiv_from_equiv series_equiv };

    fn eq(&self, other: &Self) -> bool {
        self.metric.name() == other.metric.name() && self.metric.tags() == other.metric.tags()
    }
}

impl Eq for Series {
    ghost laws = { series_equiv };
}

impl PartialOrd for Series {
    ghost partial_cmp = { as_partial_cmp series_cmp };

    ghost laws = { partial_order_from_own_ties (partial_order_from_total series_total) series_ties };

    fn partial_cmp(&self, other: &Self) -> Option<Ordering> {
        Some(self.cmp(other))
    }
}

impl Ord for Series {
    ghost cmp = { series_cmp };

    ghost total = { series_total };

    ghost matches_partial_cmp = { Prim.search (comparing, rules) };

    ghost matches_eq = { series_ties };

    fn cmp(&self, other: &Self) -> Ordering {
        match self.metric.name().cmp(other.metric.name()) {
            Ordering::Equal => self.metric.tags().cmp(other.metric.tags()),
            apart => apart,
        }
    }
}

impl Hash for Series {
    ghost hash_input = { series_writes };

    ghost respects_eq = { series_alike.fed };

    fn hash<H: Hasher>(&self, state: &mut H) {
        self.metric.name().hash(state);
        self.metric.tags().hash(state);
    }
}
