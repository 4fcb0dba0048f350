//! Which statistics are given.
ghost use Rattle.std.specs.Prelude.{◌≡◌};
ghost use Rattle.agg_stats.specs.Asked.{asked_of};

use std::marker::Model;

/// Which statistics are given of each field.
#[derive(Clone, Copy, Debug, PartialEq, Eq)]
pub enum StatsKind {
    /// The least and the greatest number (as Telegraf's aggregator minmax gives them).
    MinMax,
    /// Those that are set (as Telegraf's aggregator basicstats gives them).
    Basic {
        /// The sum.
        sum: bool,
        /// How many numbers there are.
        count: bool,
        /// The least.
        min: bool,
        /// The greatest.
        max: bool,
    },
}

/// The statistics that are given.
#[derive(Clone, Copy, Debug)]
pub(crate) struct Asked {
    pub sum: bool,
    pub count: bool,
    pub min: bool,
    pub max: bool,
}

impl Model for Asked {
    ghost use Rattle.agg_stats.specs.Asked.{Asked as AskedFor};

    ghost Value = { AskedFor };

    ghost view = { λ a. record { sum = a.sum; count = a.count; min = a.min; max = a.max } };

    ghost inverse = { λ a. record { sum = a.sum; count = a.count; min = a.min; max = a.max } };
}

impl Asked {
    /// What a kind gives.
    pub(crate) fn of(kind: StatsKind) -> Asked
        ensures { result ≡ asked_of kind }
    {
        match kind {
            StatsKind::MinMax => Asked {
                sum: false,
                count: false,
                min: true,
                max: true,
            },
            StatsKind::Basic {
                sum,
                count,
                min,
                max,
            } => Asked {
                sum,
                count,
                min,
                max,
            },
        }
    }
}
