//! The metrics that are merged so far.
ghost use Rattle.std.specs.Prelude.{◌≡◌, ◌++◌, ◌∷◌, [], IfOk, OnOk, Some};
ghost use Rattle.std.specs.List.{flat_map};
ghost use Rattle.agg_keep.specs.MergeKept.{held_at, made_at, merged_with};
ghost use Rattle.agg_keep.specs.Spot.{spot_of};

use crate::fields::{field_copies, put_all};
use crate::keyed::{Kept, Key, held_of};
use crate::spot::Spot;
use fixed_num::{OutOfMemory, Seq};
use metric::{Content, Metric, tag_copies};
use std::alloc::Global;

/// A metric merged into what is held of its series and time.
pub(crate) fn merged(alloc: Global, kept: &Kept<Spot>, m: &Metric) -> Result<Metric, OutOfMemory>
    ensures { IfOk result
        (λ merged. merged ≡ merged_with (held_at kept.now.entries (spot_of m.now)) m.now) }
{
    match held_of(kept, &Spot::of(m)?) {
        None => m.copy(),
        Some(held) => merged_into(alloc, held, m),
    }
}

/// A metric with the fields of another one of its series and time, and its own put over them.
fn merged_into(alloc: Global, held: &Metric, m: &Metric) -> Result<Metric, OutOfMemory>
    ensures { IfOk result (λ merged. merged ≡ merged_with (Some held.now) m.now) }
{
    held.shows_metric();
    m.shows_metric();
    let mut fields = field_copies(alloc, held.fields())?;
    put_all(&mut fields, m.fields())?;
    let content = Content {
        name: m.name().copy()?,
        tags: tag_copies(alloc, m.tags(), 0)?,
        fields: Seq::of(fields),
        time: m.time(),
    };
    Ok(Metric::of(alloc, content)?)
}

/// The merged metrics, in order.
pub(crate) fn made(
    alloc: Global,
    kept: &Kept<Spot>,
    order: &[Spot],
) -> Result<Vec<Metric>, OutOfMemory>
    ensures { IfOk result (λ made. made.items ≡ flat_map (made_at kept.now.entries) order.now) }
{
    let mut made = Vec::new(alloc);
    for spot in order {
        append_made(kept, spot, &mut made)?;
    }
    Ok(made)
}

/// Appends what is held of a series and time.
fn append_made(kept: &Kept<Spot>, spot: &Spot, made: &mut Vec<Metric>) -> Result<(), OutOfMemory>
    ensures { OnOk result (made.new.items ≡ made.old.items ++ made_at kept.now.entries spot.now) }
{
    match held_of(kept, spot) {
        None => Ok(()),
        Some(m) => push_one(made, m.copy()?),
    }
}

/// Appends a metric.
fn push_one(made: &mut Vec<Metric>, m: Metric) -> Result<(), OutOfMemory>
    ensures { OnOk result (made.new.items ≡ made.old.items ++ m ∷ []) }
{
    made.push(m)?;
    Ok(())
}
