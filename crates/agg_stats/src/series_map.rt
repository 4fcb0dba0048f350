//! The numbers of all series.
ghost use Rattle.std.specs.Prelude.{◌≡◌, ◌<◌, ◌++◌, ◌∷◌, [], length, set, slice_get, IfOk, OnOk, None, Some};
ghost use Rattle.std.specs.Prelude.{vec_capacity};
ghost use Rattle.std.specs.List.{flat_map};
ghost use Rattle.std.specs.Option.{option_to_list};
ghost use Rattle.agg_stats.specs.Folds.{series_of};
ghost use Rattle.agg_stats.specs.Kept.{made_at, place_at, place_of, seen, with_fields};
ghost use Rattle.agg_stats.specs.Kept.{HasRoom, IsIndexed, IsPlace, SeriesSums};

use crate::give::metric_of;
use crate::kind::Asked;
use crate::row::{Row, all_fresh};
use crate::summary::Summary;
use fixed_num::{Moment, OutOfMemory};
use metric::{Metric, Series, Text};
use std::alloc::Global;
use std::collections::BTreeMap;
use std::marker::Model;

/// Where the row of each series stands. A series that was prepared and not added has none there.
pub(crate) type Kept = BTreeMap<Series, usize>;

/// A metric that can be added, where the row of its series stands or will stand, and the keys that are new to it.
#[derive(Drop)]
pub(crate) struct Ready {
    metric: Metric,
    at: usize,
    fresh: Vec<(Text, Summary)>,
}

impl Model for Ready {
    ghost use Rattle.agg_stats.specs.Kept.{ReadyMemory};

    ghost Value = { ReadyMemory };

    ghost view = { λ r. record { metric = r.metric; at = r.at; fresh = r.fresh.items } };
}

impl Ready {
    /// A metric, an index and the new keys.
    fn of(metric: Metric, at: usize, fresh: Vec<(Text, Summary)>) -> Ready
        ensures { result ≡ record { metric = metric; at = at; fresh = fresh.items } }
    {
        Ready { metric, at, fresh }
    }

    /// Makes room for a metric in the row of its series, or for a row of it.
    pub(crate) fn make(
        alloc: Global,
        kept: &mut Kept,
        rows: &mut Vec<Row>,
        m: &Metric,
    ) -> Result<Ready, OutOfMemory>
        ensures seen { seen rows.new.items ≡ seen rows.old.items }
        ensures indexed { IsIndexed kept.old.entries (seen rows.old.items)
            → IsIndexed kept.new.entries (seen rows.new.items) }
        ensures metric { IfOk result (λ ready. ready.metric ≡ m.now) }
        ensures place { IfOk result
            (λ ready. IsPlace (series_of m.now) kept.new.entries (seen rows.new.items) ready.at) }
        ensures room { IfOk result (λ ready. HasRoom rows.new.items (vec_capacity rows.new) ready) }
    {
        let series = m.series()?;
        match place_of(kept, rows.as_slice(), &series, m) {
            Some(at) => Ready::known(alloc, rows, at, m),
            None => Ready::new(alloc, kept, rows, series, m),
        }
    }

    /// Makes room for a metric in the row at an index.
    fn known(
        alloc: Global,
        rows: &mut Vec<Row>,
        at: usize,
        m: &Metric,
    ) -> Result<Ready, OutOfMemory>
        requires { at < length rows.old.items }
        ensures seen { seen rows.new.items ≡ seen rows.old.items }
        ensures metric { IfOk result (λ ready. ready.metric ≡ m.now) }
        ensures place { IfOk result (λ ready. ready.at ≡ at) }
        ensures room { IfOk result (λ ready. HasRoom rows.new.items (vec_capacity rows.new) ready) }
    {
        let fresh = rows[at].make_room(alloc, m)?;
        Ok(Ready::of(m.copy()?, at, fresh))
    }

    /// Makes room for a row of a metric's series behind the others.
    fn new(
        alloc: Global,
        kept: &mut Kept,
        rows: &mut Vec<Row>,
        series: Series,
        m: &Metric,
    ) -> Result<Ready, OutOfMemory>
        requires series { series ≡ series_of m.now }
        requires none { place_of kept.old.entries (seen rows.old.items) (series_of m.now) ≡ None }
        ensures seen { seen rows.new.items ≡ seen rows.old.items }
        ensures indexed { IsIndexed kept.old.entries (seen rows.old.items)
            → IsIndexed kept.new.entries (seen rows.new.items) }
        ensures metric { IfOk result (λ ready. ready.metric ≡ m.now) }
        ensures place { IfOk result
            (λ ready. IsPlace (series_of m.now) kept.new.entries (seen rows.new.items) ready.at) }
        ensures room { IfOk result (λ ready. HasRoom rows.new.items (vec_capacity rows.new) ready) }
    {
        let at = rows.len();
        let fields = m.fields();
        let fresh = all_fresh(alloc, &[], fields, fields.len())?;
        let metric = m.copy()?;
        rows.reserve(1)?;
        kept.insert(series, at)?;
        Ok(Ready::of(metric, at, fresh))
    }

    /// Its metric, the index, and the new keys.
    fn into_parts(self) -> (Metric, usize, Vec<(Text, Summary)>)
        ensures metric { result.0 ≡ self.metric }
        ensures at { result.1 ≡ self.at }
        ensures fresh { result.2.items ≡ self.fresh }
    {
        let Ready { metric, at, fresh } = self;
        (metric, at, fresh)
    }
}

/// Where the row of a metric's series stands.
fn place_of(kept: &Kept, rows: &[Row], series: &Series, m: &Metric) -> Option<usize>
    requires { series.now ≡ series_of m.now }
    ensures { result ≡ place_of kept.now.entries (seen rows.now) (series_of m.now) }
{
    match kept.get(series) {
        Some(at) => place_at(rows, *at, m),
        None => None,
    }
}

/// An index, where the row of a metric's series stands there.
fn place_at(rows: &[Row], at: usize, m: &Metric) -> Option<usize>
    ensures { result ≡ place_at (seen rows.now) (series_of m.now) at }
{
    if at >= rows.len() {
        return None;
    }
    if !rows[at].is_of(m) {
        return None;
    }
    Some(at)
}

/// Adds what is prepared: a new series stands behind the others.
pub(crate) fn add(rows: &mut Vec<Row>, ready: Ready)
    requires { HasRoom rows.old.items (vec_capacity rows.old) ready }
    ensures known { (row : SeriesSums) → slice_get (seen rows.old.items) ready.at ≡ Some row
        → seen rows.new.items ≡ set (seen rows.old.items) ready.at
        (row.0, with_fields row.1 ready.metric.fields) }
    ensures new { slice_get (seen rows.old.items) ready.at ≡ None → seen rows.new.items
        ≡ seen rows.old.items ++ (series_of ready.metric, with_fields [] ready.metric.fields) ∷ [] }
{
    let (metric, at, fresh) = ready.into_parts();
    if at < rows.len() {
        rows[at].add(&metric, fresh);
    } else {
        // There is room for it.
        let _ = rows.push(Row::of(metric, fresh));
    }
}

/// The metrics of all series, in order.
pub(crate) fn made(
    alloc: Global,
    asked: Asked,
    time: Moment,
    rows: &[Row],
) -> Result<Vec<Metric>, OutOfMemory>
    ensures { IfOk result (λ made. made.items ≡ flat_map (made_at asked time) rows.now) }
{
    let mut made = Vec::new(alloc);
    for row in rows {
        push_some(&mut made, metric_of(alloc, asked, time, row)?)?;
    }
    Ok(made)
}

/// Appends a metric, where there is one.
fn push_some(made: &mut Vec<Metric>, m: Option<Metric>) -> Result<(), OutOfMemory>
    ensures { OnOk result (made.new.items ≡ made.old.items ++ option_to_list m) }
{
    match m {
        None => Ok(()),
        Some(m) => {
            made.push(m)?;
            Ok(())
        }
    }
}
