//! What is left of a metric.
ghost use Rattle.std.specs.Prelude.{◌≡◌};
ghost use Rattle.metric_filter.specs.Kept.{is_same, metric_of};

use metric::Metric;

/// What is left of a metric, and whether it is the one that came in, so that the two needn't be compared.
#[derive(Debug, Drop)]
pub enum Kept {
    /// The metric that came in.
    Same(Metric),
    /// What was made of it. Nothing is said of whether the two are equal.
    Changed(Metric),
}

impl Kept {
    /// The metric that is left.
    #[inline(always)]
    pub fn metric(&self) -> &Metric
        ensures { result.now ≡ metric_of self.now }
    {
        match self {
            Kept::Same(metric) => metric,
            Kept::Changed(metric) => metric,
        }
    }

    /// The same, where the rest is given up.
    #[inline(always)]
    pub fn into_metric(self) -> Metric
        ensures { result ≡ metric_of self }
    {
        match self {
            Kept::Same(metric) => metric,
            Kept::Changed(metric) => metric,
        }
    }

    /// Is it the metric that came in?
    #[inline(always)]
    pub fn is_same(&self) -> bool
        ensures { result ≡ is_same self.now }
    {
        match self {
            Kept::Same(_) => true,
            Kept::Changed(_) => false,
        }
    }
}
