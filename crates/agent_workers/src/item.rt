//! Routing the items: to the aggregators, and to the outputs.
ghost use Rattle.std.specs.Prelude.{◌≡◌, ◌+◌, ◌++◌, ◌&&◌, ◌∷◌, [], Ok, OnOk, Some, None, false, true, length};
ghost use Rattle.std.specs.Prelude.{IfOk, IfSome};
ghost use Rattle.std.specs.Option.{option_map, IfNone};
ghost use Rattle.journal_text.specs.Known.{AreWhole, IsKnownRoute};
ghost use Rattle.metric.specs.declared.metric.Content.{Content};
ghost use Rattle.metric_filter.specs.Kept.{metric_of, IsKeptOf};
ghost use Rattle.pipeline_core.specs.Worked.{views_of};
ghost use Rattle.agent_workers.specs.Item.{proc_of, routed_by, seen_by, IsSameProc, Makes, MakesSo, TakesNext};
ghost use Rattle.agent_workers.specs.Job.{agg_filters, filters_of};
ghost use Rattle.agent_workers.specs.Progress.{GoesOn};
ghost use Rattle.agent_workers.specs.RunState.{IsProcFit};
ghost use Rattle.agent_workers.specs.Running.{IsAtRest, IsRoutable};

use agent_config::{AggConf, OutputConf};
use fixed_num::{OutOfMemory, Seq};
use journal_text::Known;
use metric::Metric;
use metric_filter::Kept;
use pipeline_core::{Core, Item, Routed, TakeAnswer};
use proc_chain::Chain;
use std::alloc::Global;
use std::collections::VecDeque;

/// How many items are routed before the journal's entries are put. The `take` and the `route` of so many are more than
/// 2 MiB of its text, so that no part is put for it that is below 1 MiB.
pub const ROUTED_AT_ONCE: u64 = 65_536;

/// What routes the items of a run.
#[derive(Drop)]
pub struct ProcJob<'a, C: Drop> {
    /// The steps that each item goes through, in order.
    pub chain: Chain<'a>,
    /// Whether metrics that aggregators made pass the steps by.
    pub skip: bool,
    /// The aggregators, in order, each with its filter.
    pub aggs: &'a [AggConf],
    /// The outputs, in order, each with its filter.
    pub outs: &'a [OutputConf],
    /// Its clock, which is asked for no moment yet.
    pub clock: C,
}

/// What was made of a metric, if it is there still.
#[derive(Drop)]
struct Made {
    metric: Option<Metric>,
    /// Whether it is known to be the metric itself.
    same: bool,
}

impl Made {
    /// What is left of a metric.
    #[inline(always)]
    fn of(kept: Option<Kept>) -> Made
        ensures metric { result.metric ≡ option_map metric_of kept }
        ensures same { (m : Content) → IfSome kept (IsKeptOf m) → result.same ≡ true
            → IfSome result.metric (λ left. left ≡ m) }
    {
        match kept {
            Some(kept) => {
                let same = kept.is_same();
                Made {
                    metric: Some(kept.into_metric()),
                    same,
                }
            }
            None => Made {
                metric: None,
                same: true,
            },
        }
    }
}

/// What is there of the whole of an item, at the aggregators or at the outputs.
#[derive(Drop)]
struct Views {
    views: Seq<Option<Metric>>,
    /// Whether each of them, where it is there, is known to be the whole.
    same: bool,
}

impl Views {
    /// That of one filter, of what it leaves of the whole.
    #[inline(always)]
    fn of_one(kept: Option<Kept>) -> Views
        ensures views { result.views ≡ option_map metric_of kept ∷ [] }
        ensures same { (m : Content) → IfSome kept (IsKeptOf m) → result.same ≡ true
            → AreWhole (Some m) result.views }
    {
        let made = Made::of(kept);
        Views {
            views: Seq::of_one(made.metric),
            same: made.same,
        }
    }

    /// Those of as many that have none.
    #[inline(always)]
    fn of_none(views: Vec<Option<Metric>>) -> Views
        ensures { result.views ≡ views.items }
    {
        Views {
            views: Seq::of(views),
            same: true,
        }
    }
}

/// The views of several filters, one after the other.
#[derive(Drop)]
struct ViewList {
    views: Vec<Option<Metric>>,
    /// Whether each of them, where it is there, is known to be the whole.
    same: bool,
}

impl ViewList {
    /// None yet, with room for so many.
    fn with_room(alloc: Global, count: usize) -> Result<ViewList, OutOfMemory>
        ensures { IfOk result (λ list. list.views.items ≡ []) }
    {
        Ok(ViewList {
            views: Vec::with_capacity(alloc, count)?,
            same: true,
        })
    }

    /// Adds what the next filter leaves of the whole.
    fn add(&mut self, kept: Option<Kept>) -> Result<(), OutOfMemory>
        ensures views { OnOk result (self.new.views.items ≡ self.old.views.items ++ option_map metric_of kept ∷ []) }
        ensures same { (m : Content) → IfSome kept (IsKeptOf m)
            → (self.old.same ≡ true → AreWhole (Some m) self.old.views.items)
            → OnOk result (self.new.same ≡ true → AreWhole (Some m) self.new.views.items) }
    {
        let made = Made::of(kept);
        self.same = self.same && made.same;
        self.views.push(made.metric)?;
        Ok(())
    }

    /// All of them.
    fn all(self) -> Views
        ensures views { result.views ≡ self.views.items }
        ensures same { result.same ≡ self.same }
    {
        let ViewList { views, same } = self;
        Views {
            views: Seq::of(views),
            same,
        }
    }
}

/// What the filter of each output gives for a metric. That of one output takes no memory but its own.
#[inline(always)]
fn views_of(alloc: Global, metric: &Metric, confs: &[OutputConf]) -> Result<Views, OutOfMemory>
    ensures views { IfOk result (λ seen. seen.views ≡ views_of (filters_of confs.now) (Some metric.now)) }
    ensures same { IfOk result (λ seen. seen.same ≡ true → AreWhole (Some metric.now) seen.views) }
{
    if let [conf] = confs {
        return Ok(Views::of_one(conf.filter.apply_to(metric.copy()?)?));
    }
    let mut views = ViewList::with_room(alloc, confs.len())?;
    for conf in confs {
        views.add(conf.filter.apply_to(metric.copy()?)?)?;
    }
    Ok(views.all())
}

/// What is there at each output of an item that was removed: nothing.
fn no_views(alloc: Global, confs: &[OutputConf]) -> Result<Views, OutOfMemory>
    ensures { IfOk result (λ seen. seen.views ≡ views_of (filters_of confs.now) None) }
{
    let mut views = Vec::with_capacity(alloc, confs.len())?;
    for _conf in confs {
        views.push(None)?;
    }
    Ok(Views::of_none(views))
}

/// What the filter of each aggregator gives for a metric. That of one aggregator takes no memory but its own.
fn agg_views(alloc: Global, metric: &Metric, confs: &[AggConf]) -> Result<Views, OutOfMemory>
    ensures views { IfOk result (λ seen. seen.views ≡ views_of (agg_filters confs.now) (Some metric.now)) }
    ensures same { IfOk result (λ seen. seen.same ≡ true → AreWhole (Some metric.now) seen.views) }
{
    if let [conf] = confs {
        return Ok(Views::of_one(conf.filter.apply(metric)?));
    }
    let mut views = ViewList::with_room(alloc, confs.len())?;
    for conf in confs {
        views.add(conf.filter.apply(metric)?)?;
    }
    Ok(views.all())
}

/// What is there at each aggregator of an item that was removed, or made: nothing.
fn no_agg_views(alloc: Global, confs: &[AggConf]) -> Result<Views, OutOfMemory>
    ensures { IfOk result (λ seen. seen.views ≡ views_of (agg_filters confs.now) None) }
{
    let mut views = Vec::with_capacity(alloc, confs.len())?;
    for _conf in confs {
        views.push(None)?;
    }
    Ok(Views::of_none(views))
}

/// What the aggregators see of an item: of one that was made nothing, so that no window takes what another made.
#[inline(always)]
fn seen(
    alloc: Global,
    confs: &[AggConf],
    made: bool,
    whole: &Option<Metric>,
) -> Result<Views, OutOfMemory>
    ensures views { IfOk result (λ seen. seen.views ≡ seen_by confs.now made whole.now) }
    ensures same { IfOk result (λ seen. seen.same ≡ true → AreWhole whole.now seen.views) }
{
    if confs.is_empty() {
        return Ok(Views::of_none(Vec::new(alloc)));
    }
    if made {
        return no_agg_views(alloc, confs);
    }
    match whole {
        Some(metric) => agg_views(alloc, metric, confs),
        None => no_agg_views(alloc, confs),
    }
}

/// Takes the next raw item, where there is one.
#[inline(always)]
fn take_next(core: &mut Core) -> Result<Option<Item>, OutOfMemory>
    requires { core.old.held ≡ None }
    ensures none { IfOk result (λ next. IfNone next ((core.new ≡ core.old) × (core.old.raw ≡ []))) }
    ensures some { IfOk result (λ next. IfSome next (TakesNext core.old core.new)) }
{
    match core.take() {
        Ok(item) => Ok(Some(item)),
        Err(TakeAnswer::Empty) => Ok(None),
        Err(TakeAnswer::InHand) => unreachable!(),
        Err(TakeAnswer::OutOfMemory) => Err(OutOfMemory),
    }
}

/// What the steps make of a metric. One that an aggregator made passes them by, where that is said.
fn whole_of<C: Drop>(
    proc: &mut ProcJob<'_, C>,
    made: bool,
    metric: Metric,
) -> Result<Made, OutOfMemory>
    ensures makes { IfOk result
        (λ whole. MakesSo (proc.old.skip && made) (proc_of proc.old) (proc_of proc.new) metric whole.metric) }
    ensures itself { IfOk result (λ whole. whole.same ≡ true → IfSome whole.metric (λ left. left ≡ metric)) }
    ensures same { IsSameProc (proc_of proc.old) (proc_of proc.new) }
{
    if proc.skip && made {
        return Ok(Made {
            metric: Some(metric),
            same: true,
        });
    }
    let whole = proc.chain.push(metric)?;
    Ok(Made::of(whole))
}

/// How an item is routed, and what is known of that.
#[derive(Drop)]
struct ItemRoute {
    routed: Routed,
    known: Known,
}

/// How an item is routed: with what the steps make of it, and with what the filter of each aggregator and of each output
/// gives for that.
fn routing<C: Drop>(
    alloc: Global,
    proc: &mut ProcJob<'_, C>,
    item: Item,
) -> Result<ItemRoute, OutOfMemory>
    ensures routed { IfOk result
        (λ route. route.routed ≡ routed_by (proc_of proc.old) item route.routed.whole) }
    ensures known { IfOk result (λ route. IsKnownRoute route.known (item.metric ∷ [])
        route.routed.whole route.routed.aggs route.routed.outs) }
    ensures makes { IfOk result
        (λ route. Makes (proc_of proc.old) (proc_of proc.new) item route.routed.whole) }
    ensures same { IsSameProc (proc_of proc.old) (proc_of proc.new) }
{
    let Item {
        number,
        made,
        metric,
    } = item;
    let whole = whole_of(proc, made, metric)?;
    let aggs = seen(alloc, proc.aggs, made, &whole.metric)?;
    let outs = match &whole.metric {
        Some(metric) => views_of(alloc, metric, proc.outs)?,
        None => no_views(alloc, proc.outs)?,
    };
    let known = Known {
        whole: whole.same,
        aggs: aggs.same,
        outs: outs.same,
    };
    let routed = Routed {
        item: number,
        whole: whole.metric,
        aggs: aggs.views,
        outs: outs.views,
    };
    Ok(ItemRoute { routed, known })
}

/// Takes the next raw item and routes it, keeps what is known of its Route, and says whether there was one.
fn route_next<C: Drop>(
    alloc: Global,
    core: &mut Core,
    proc: &mut ProcJob<'_, C>,
    known: &mut VecDeque<Known>,
) -> Result<bool, OutOfMemory>
    requires rests { IsAtRest core.old }
    requires fit { IsProcFit core.old (proc_of proc.old) }
    ensures rests { OnOk result (IsAtRest core.new) }
    ensures kept { OnOk result (IsRoutable core.old core.new) }
    ensures none { result ≡ Ok false → core.new.raw ≡ [] }
    ensures fewer { result ≡ Ok true → length core.new.raw + 1 ≡ length core.old.raw }
    ensures same { IsSameProc (proc_of proc.old) (proc_of proc.new) }
    ensures goes { OnOk result (GoesOn core.old core.new (proc_of proc.old) (proc_of proc.new)
        known.old.items known.new.items) }
{
    let Some(item) = take_next(core)? else {
        return Ok(false);
    };
    let planned = routing(alloc, proc, item)?;
    core.route(planned.routed)?;
    known.push_back(planned.known)?;
    Ok(true)
}

/// Routes raw items, at most so many, keeps what is known of their Routes, and says whether there may be others.
pub fn route_some<C: Drop>(
    alloc: Global,
    core: &mut Core,
    proc: &mut ProcJob<'_, C>,
    known: &mut VecDeque<Known>,
    most: u64,
) -> Result<bool, OutOfMemory>
    requires rests { IsAtRest core.old }
    requires fit { IsProcFit core.old (proc_of proc.old) }
    ensures rests { OnOk result (IsAtRest core.new) }
    ensures kept { OnOk result (IsRoutable core.old core.new) }
    ensures none { result ≡ Ok false → core.new.raw ≡ [] }
    ensures fewer { result ≡ Ok true → length core.new.raw + most ≡ length core.old.raw }
    ensures same { IsSameProc (proc_of proc.old) (proc_of proc.new) }
    ensures goes { OnOk result (GoesOn core.old core.new (proc_of proc.old) (proc_of proc.new)
        known.old.items known.new.items) }
{
    for _taken in 0..most {
        if !route_next(alloc, core, proc, known)? {
            return Ok(false);
        }
    }
    Ok(true)
}

/// Routes all raw items, each with what the steps make of it, and what each output's filter gives for that, and keeps what
/// is known of their Routes.
pub fn route_all<C: Drop>(
    alloc: Global,
    core: &mut Core,
    proc: &mut ProcJob<'_, C>,
    known: &mut VecDeque<Known>,
) -> Result<(), OutOfMemory>
    requires rests { IsAtRest core.old }
    requires fit { IsProcFit core.old (proc_of proc.old) }
    ensures rests { OnOk result (IsAtRest core.new) }
    ensures kept { OnOk result (IsRoutable core.old core.new) }
    ensures none { OnOk result (core.new.raw ≡ []) }
    ensures same { IsSameProc (proc_of proc.old) (proc_of proc.new) }
    ensures goes { OnOk result (GoesOn core.old core.new (proc_of proc.old) (proc_of proc.new)
        known.old.items known.new.items) }
{
    if route_some(alloc, core, proc, known, u64::MAX)? {
        return Err(OutOfMemory);
    }
    Ok(())
}
