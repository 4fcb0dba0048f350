//! A series and a time.
ghost use Rattle.agg_keep.specs.Spot.{spot_of, spot_same};

use crate::keyed::Key;
use fixed_num::{Moment, OutOfMemory};
use metric::{Metric, Series};

/// A series and a time: ordered by series, and those of one series by time.
#[derive(Debug, Drop, PartialEq, Eq, PartialOrd, Ord)]
pub(crate) struct Spot {
    series: Series,
    time: Moment,
}

impl Key for Spot {
    ghost key_of = { spot_of };

    ghost decides = { spot_same };

    fn of(m: &Metric) -> Result<Spot, OutOfMemory> {
        Ok(Spot {
            series: m.series()?,
            time: m.time(),
        })
    }
}
