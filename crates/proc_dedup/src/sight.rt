//! What is seen of a metric.
ghost use Rattle.std.specs.Prelude.{◌≡◌, IfOk};
ghost use Rattle.proc_dedup.specs.Repeats.{series_of};

use fixed_num::OutOfMemory;
use metric::{Metric, Series};
use std::marker::Model;

/// What is seen of a metric.
#[derive(Debug, Drop)]
pub enum Sight {
    /// It repeats the last metric of its series that wasn't removed.
    Repeated,
    /// It doesn't; this is to be kept of it.
    Fresh(Fresh),
}

/// A metric that is to be kept, with its series.
#[derive(Debug, Drop)]
pub struct Fresh {
    series: Series,
    metric: Metric,
}

impl Model for Fresh {
    ghost use Rattle.std.specs.Prelude.{◌≡◌};
    ghost use Rattle.metric.specs.declared.metric.Content.{Content};
    ghost use Rattle.proc_dedup.specs.Repeats.{series_of};

    ghost Value = { Content };

    ghost view = { λ f. f.metric };

    ghost invariant = { λ f. f.series ≡ series_of f.metric };
}

impl Fresh {
    /// A metric that is to be kept.
    pub(crate) fn of(m: &Metric) -> Result<Fresh, OutOfMemory>
        ensures { IfOk result (λ fresh. fresh ≡ m.now) }
    {
        let series = m.series()?;
        let metric = m.copy()?;
        Ok(Fresh { series, metric })
    }

    /// Its series, and the metric.
    pub(crate) fn into_parts(self) -> (Series, Metric)
        ensures { result ≡ (series_of self, self) }
    {
        let Fresh { series, metric } = self;
        (series, metric)
    }
}
