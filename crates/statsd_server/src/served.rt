//! The metrics that are served.
ghost use Rattle.std.specs.Prelude.{◌≡◌, [], pos, IfOk, OnOk};
ghost use Rattle.metric.specs.Pairs.{IsInKeyOrder};
ghost use Rattle.statsd_server.specs.Kept.{level_held, made_of, served_of};
ghost use Rattle.statsd_server.specs.Served.{fields_of, metric_with, own_metric};
ghost use Rattle.statsd_server.specs.TallyView.{memory_of};
ghost use Rattle.statsd_server.specs.declared.kind.Kind.{Kind as KindSeen};
ghost use Rattle.statsd_server.specs.declared.summary.Summary.{Summary as SummarySeen};

use crate::change::zero;
use crate::kind::Kind;
use crate::marked::Marked;
use crate::placed::First;
use crate::summary::Summary;
use crate::table::Table;
use crate::tally::{Tally, level_or_zero};
use fixed_num::{Fixed, OutOfMemory};
use metric::{Builder, Metric, Text, Value};
use std::alloc::Global;

/// Gives a metric in the making the tags of a series.
fn put_tags(builder: &mut Builder, tags: &[(Text, Text)]) -> Result<(), OutOfMemory>
    requires none { builder.old.tags ≡ [] }
    requires sorted { IsInKeyOrder tags.now }
    ensures { OnOk result (builder.new ≡ record builder.old { tags = tags.now }) }
{
    for (key, value) in tags {
        builder.tag_of(key.copy()?, value.copy()?)?;
    }
    Ok(())
}

/// Gives a metric in the making the fields of a timing.
#[tactic(auto, unfolding(metric::specs::Pairs::with_pair))]
fn put_times(builder: &mut Builder, summary: &Summary) -> Result<(), OutOfMemory>
    requires { builder.old.fields ≡ [] }
    ensures { OnOk result
        (builder.new ≡ record builder.old { fields = fields_of KindSeen.Timing summary.now (pos 0) }) }
{
    builder.field("count", Value::Uint(summary.count))?;
    builder.field("lower", Value::Fixed(summary.least))?;
    builder.field("upper", Value::Fixed(summary.greatest))?;
    builder.field("sum", Value::Fixed(summary.sum))
}

/// Gives a metric in the making the fields of a series of a type, by what is counted of it and the level of a gauge.
#[tactic(auto, unfolding(metric::specs::Pairs::with_pair))]
fn put_fields(
    builder: &mut Builder,
    kind: Kind,
    summary: &Summary,
    level: Fixed,
) -> Result<(), OutOfMemory>
    requires { builder.old.fields ≡ [] }
    ensures { OnOk result (builder.new ≡ record builder.old { fields = fields_of kind summary.now level }) }
{
    match kind {
        Kind::Counter => builder.field("value", Value::Fixed(summary.sum)),
        Kind::Gauge => builder.field("value", Value::Fixed(level)),
        Kind::Timing => put_times(builder, summary),
        Kind::Set => builder.field("count", Value::Uint(summary.distinct)),
    }
}

/// The metric of a series, by what is counted of it and the level of a gauge.
#[tactic(auto, unfolding(crate::specs::Served::metric_with))]
fn metric_with(
    alloc: Global,
    series: &Marked,
    summary: &Summary,
    level: Fixed,
) -> Result<Metric, OutOfMemory>
    ensures { IfOk result (λ metric. metric ≡ metric_with series.now summary.now level) }
{
    series.shows_sound();
    let tags = series.tags();
    let mut builder = Builder::with_room_of(alloc, series.name().copy()?, tags.len(), 1)?;
    put_tags(&mut builder, tags)?;
    put_fields(&mut builder, Kind::of(tags), summary, level)?;
    builder.complete(0)
}

/// The level that is held of a series.
fn level_held(levels: &Table<Marked, Fixed>, series: &Marked) -> Fixed
    ensures { result ≡ level_held levels.now series.now }
{
    match levels.place_of(series) {
        Some(at) => level_or_zero(levels.at(at)),
        None => zero(),
    }
}

/// The level that the metric of a series gives: that of a gauge, and else 0.
fn level_given(levels: &Table<Marked, Fixed>, series: &Marked) -> Fixed
    ensures { (summary : SummarySeen) → metric_with series.now summary result
        ≡ metric_with series.now summary (level_held levels.now series.now) }
{
    match Kind::of(series.tags()) {
        Kind::Gauge => level_held(levels, series),
        Kind::Counter | Kind::Timing | Kind::Set => zero(),
    }
}

/// The metric of a series in the group, by what is kept.
fn served_of(alloc: Global, tally: &Tally, first: &First) -> Result<Metric, OutOfMemory>
    ensures { IfOk result (λ metric. metric ≡ served_of (memory_of tally.now) first.now) }
{
    let summary = Summary::or_empty(tally.sums.at(first.sum));
    let level = level_given(&tally.levels, &first.series);
    metric_with(alloc, &first.series, &summary, level)
}

/// The metric of the server itself.
#[tactic(auto, unfolding(crate::specs::Served::own_metric, metric::specs::Pairs::with_pair))]
fn own_metric(alloc: Global, packets: u64, refused: u64) -> Result<Metric, OutOfMemory>
    ensures { IfOk result (λ metric. metric ≡ own_metric packets refused) }
{
    let mut builder = Builder::new(alloc, "statsd")?;
    builder.field("packets", Value::Uint(packets))?;
    builder.field("refused", Value::Uint(refused))?;
    builder.complete(0)
}

/// What is served of so many packets and what is kept of their parts.
pub(crate) fn made_of(
    alloc: Global,
    packets: u64,
    tally: &Tally,
) -> Result<Vec<Metric>, OutOfMemory>
    ensures { IfOk result (λ made. made.items ≡ made_of packets (memory_of tally.now)) }
{
    let mut made = Vec::new(alloc);
    made.push(own_metric(alloc, packets, tally.refused)?)?;
    for first in &tally.order {
        made.push(served_of(alloc, tally, first)?)?;
    }
    Ok(made)
}
