//! Room for entries and copies of metrics.
ghost use Rattle.std.specs.Prelude.{◌≡◌, ◌+◌, ◌++◌, ◌<◌, ◌≤◌, ◌^◌, vec_len, vec_capacity};
ghost use Rattle.std.specs.Prelude.{IfOk, OnOk, OnErr};
ghost use Rattle.pipeline_core.specs.ViewList.{listed_views};

use account::Entry;
use fixed_num::OutOfMemory;
use metric::Metric;
use smallvec::SmallVec;
use std::alloc::Global;
use std::collections::VecDeque;

/// Makes room for one entry more, and for one of each output.
pub(crate) fn make_room(stored: &mut Vec<Entry>, outputs: usize) -> Result<(), OutOfMemory>
    requires { outputs ≤ 16 }
    ensures items { stored.new.items ≡ stored.old.items }
    ensures len { vec_len stored.new ≡ vec_len stored.old }
    ensures room { OnOk result (vec_len stored.new + (outputs + 1) ≤ vec_capacity stored.new) }
    ensures kept { vec_capacity stored.old ≤ vec_capacity stored.new }
{
    stored.reserve(outputs + 1)?;
    Ok(())
}

/// The most items for whose entries room is made before they are taken and routed.
const MOST_AHEAD: usize = 65_536;

/// The same, where so many items came: they will be taken and routed. So the entries of a round are moved to larger
/// memory once, and not again and again.
pub(crate) fn make_room_for(
    stored: &mut Vec<Entry>,
    outputs: usize,
    items: usize,
) -> Result<(), OutOfMemory>
    requires few { outputs ≤ 16 }
    requires numbered { items < 2 ^ 32 }
    ensures items { stored.new.items ≡ stored.old.items }
    ensures len { vec_len stored.new ≡ vec_len stored.old }
    ensures room { OnOk result (vec_len stored.new + (outputs + 1) ≤ vec_capacity stored.new) }
    ensures kept { vec_capacity stored.old ≤ vec_capacity stored.new }
{
    stored.reserve(outputs + 1 + 2 * items.min(MOST_AHEAD))?;
    Ok(())
}

/// Copies of metrics, in order.
pub(crate) fn copies_of(alloc: Global, metrics: &[Metric]) -> Result<Vec<Metric>, OutOfMemory>
    ensures { IfOk result (λ copies. copies.items ≡ metrics.now) }
{
    let mut copies = Vec::with_capacity(alloc, metrics.len())?;
    for metric in metrics {
        copies.push(metric.copy()?)?;
    }
    Ok(copies)
}

/// Copies of metrics, in order, for a queue.
pub(crate) fn queue_of(alloc: Global, metrics: &[Metric]) -> Result<VecDeque<Metric>, OutOfMemory>
    ensures { IfOk result (λ copies. copies.items ≡ metrics.now) }
{
    let copies = copies_of(alloc, metrics)?;
    Ok(VecDeque::from_vec(copies))
}

/// Lets items wait behind those that are raw. Without memory all stays as it was.
pub(crate) fn line_up(
    raw: &mut VecDeque<Metric>,
    mut more: VecDeque<Metric>,
) -> Result<(), OutOfMemory>
    ensures raw { OnOk result (raw.new.items ≡ raw.old.items ++ more.items) }
    ensures err { OnErr result (raw.new.items ≡ raw.old.items) }
{
    raw.append(&mut more)?;
    Ok(())
}

/// The views of an item, in the order of the outputs.
#[derive(Drop)]
pub(crate) enum Views {
    /// That of the only output.
    One(Option<Metric>),
    /// Those of several outputs: up to four of them take no memory but their own.
    Several(SmallVec<Option<Metric>, 4>),
}

/// Copies of views, in order.
#[inline(always)]
pub(crate) fn view_copies(alloc: Global, views: &[Option<Metric>]) -> Result<Views, OutOfMemory>
    ensures { IfOk result (λ copies. listed_views copies ≡ views.now) }
{
    if let [view] = views {
        return Ok(Views::One(view_copy(view)?));
    }
    Ok(Views::Several(several_copies(alloc, views)?))
}

/// A copy of a view.
#[inline(always)]
fn view_copy(view: &Option<Metric>) -> Result<Option<Metric>, OutOfMemory>
    ensures { IfOk result (λ copy. copy ≡ view.now) }
{
    match view {
        Some(metric) => Ok(Some(metric.copy()?)),
        None => Ok(None),
    }
}

/// Copies of the views of several outputs, in order.
#[inline(never)]
fn several_copies(
    alloc: Global,
    views: &[Option<Metric>],
) -> Result<SmallVec<Option<Metric>, 4>, OutOfMemory>
    ensures { IfOk result (λ copies. copies.items ≡ views.now) }
{
    let mut copies = SmallVec::with_capacity(alloc, views.len())?;
    for view in views {
        copies.push(view_copy(view)?)?;
    }
    Ok(copies)
}
