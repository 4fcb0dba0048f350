//! The last metric of each series.
ghost use Rattle.std.specs.Prelude.{◌≡◌, ◌++◌, ◌&&◌, IfOk, OnOk, None, filter, is_some, if◌then◌else◌};
ghost use Rattle.std.specs.List.{flat_map};
ghost use Rattle.metric.specs.Series.{series_eq, Series};
ghost use Rattle.agg_keep.specs.Final.{gives};
ghost use Rattle.agg_keep.specs.FinalKept.{given_at, held, left_held};

use crate::closing::Closing;
use crate::due::{append_given, gives};
use crate::keyed::{Kept, held_of};
use fixed_num::OutOfMemory;
use metric::{Metric, Series};
use std::alloc::Global;

/// The metrics that a closing gives, in order.
pub(crate) fn made(
    alloc: Global,
    timeout: i64,
    closing: Closing,
    kept: &Kept<Series>,
    order: &[Series],
) -> Result<Vec<Metric>, OutOfMemory>
    ensures { IfOk result
        (λ made. made.items ≡ flat_map (given_at timeout closing kept.now.entries) order.now) }
{
    let mut made = Vec::new(alloc);
    for series in order {
        append_made(alloc, timeout, closing, kept, series, &mut made)?;
    }
    Ok(made)
}

/// Appends what a closing gives of a series.
fn append_made(
    alloc: Global,
    timeout: i64,
    closing: Closing,
    kept: &Kept<Series>,
    series: &Series,
    made: &mut Vec<Metric>,
) -> Result<(), OutOfMemory>
    ensures { OnOk result
        (made.new.items ≡ made.old.items ++ given_at timeout closing kept.now.entries series.now) }
{
    append_given(alloc, timeout, closing, held_of(kept, series), made)
}

/// Drops the series that a closing gives.
pub(crate) fn drop_given(timeout: i64, closing: Closing, kept: &mut Kept<Series>, order: &[Series])
    ensures { (series : Series) → held kept.new.entries series
        ≡ left_held timeout closing order.now series (held kept.old.entries series) }
{
    for series in order {
        drop_one(timeout, closing, kept, series);
    }
}

/// Drops a series, where a closing gives it.
fn drop_one(timeout: i64, closing: Closing, kept: &mut Kept<Series>, series: &Series)
    ensures { (other : Series) → held kept.new.entries other
        ≡ if series_eq series.now other && gives timeout closing (held kept.old.entries other)
        then None else held kept.old.entries other }
{
    if gives(timeout, closing, held_of(kept, series)) {
        let _ = kept.remove(series);
    }
}

/// Keeps the series of which something is held, in order.
pub(crate) fn keep_held(kept: &Kept<Series>, order: &mut Vec<Series>)
    ensures { order.new.items ≡ filter (λ series. is_some (held kept.now.entries series)) order.old.items }
{
    order.retain(|series| held_of(kept, series).is_some());
}
