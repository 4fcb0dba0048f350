//! The metrics of a line.
ghost use Rattle.std.specs.Prelude.{◌≡◌, ◌<◌, [], ◌∷◌, length, map, IfOk, OnOk};
ghost use Rattle.text_parts.specs.Chain.{Gives};
ghost use Rattle.std.specs.List.{AllByRecursion};
ghost use Rattle.metric.specs.Pairs.{with_sorted, IsInKeyOrder};
ghost use Rattle.statsd_text.specs.Reading.{limited, type_tag};
ghost use Rattle.statsd_text.specs.Said.{field_name};
ghost use Rattle.statsd_text.specs.TagMap.{part_tags, HasValue, IsKeyed, kept_content};

use crate::fault::{StatsdFault, StatsdKind, fault};
use crate::said::{MetricType, Said};
use fixed_num::{Moment, OutOfMemory, Seq};
use metric::{Builder, Metric, Text, insert_tag, tag_copies};
use std::alloc::Global;
use text_parts::ReadError;

/// The most tags of a metric.
pub(crate) const MOST_TAGS: usize = 64;

/// The tags of the metric of a part with this type: those of its line and, over them, that of the type, in the order of
/// their keys.
pub fn part_tags(
    alloc: Global,
    tags: &[(Text, Text)],
    metric_type: MetricType,
) -> Result<Seq<(Text, Text)>, OutOfMemory>
    requires sorted { IsInKeyOrder tags.now }
    requires valued { AllByRecursion HasValue tags.now }
    ensures { IfOk result (λ all. all ≡ part_tags tags.now metric_type) }
{
    let mut all = tag_copies(alloc, tags, 1)?;
    let key = Text::of(alloc, "metric_type")?;
    insert_tag(alloc, &mut all, key, Text::of(alloc, metric_type.name())?)?;
    Ok(all)
}

/// Puts the tags of a line and what a part says into a builder that has none yet.
#[inline(always)]
fn put_said(builder: &mut Builder, tags: &[(Text, Text)], said: Said) -> Result<(), OutOfMemory>
    requires tags { builder.old.tags ≡ [] }
    requires fields { builder.old.fields ≡ [] }
    requires keyed { IsKeyed tags.now }
    ensures name { OnOk result (builder.new.name ≡ builder.old.name) }
    ensures tags { OnOk result
        (builder.new.tags ≡ with_sorted tags.now (type_tag said).0 (type_tag said).1) }
    ensures fields { OnOk result
        (builder.new.fields ≡ (field_name said.field, said.value) ∷ []) }
{
    for (key, value) in tags {
        builder.tag_of(key.copy()?, value.copy()?)?;
    }
    builder.tag("metric_type", said.metric_type.name())?;
    builder.field(said.field.text(), said.value)?;
    Ok(())
}

/// The metric of a part at a time, with the tags of its line.
fn metric_of(
    alloc: Global,
    name: Text,
    tags: &[(Text, Text)],
    said: Said,
    moment: Moment,
) -> Result<Metric, OutOfMemory>
    requires named { 0 < length name }
    requires keyed { IsKeyed tags.now }
    ensures { IfOk result (λ metric. metric ≡ kept_content name tags.now moment said) }
{
    let mut builder = Builder::of(alloc, name);
    put_said(&mut builder, tags, said)?;
    builder.complete(moment)
}

/// The metric of a part at a time, with the tags of its line, unless they are too many.
fn limited_metric(
    alloc: Global,
    name: Text,
    tags: &[(Text, Text)],
    said: Said,
    moment: Moment,
) -> Result<Metric, ReadError<StatsdFault>>
    requires named { 0 < length name }
    requires keyed { IsKeyed tags.now }
    ensures { Gives (λ metric. metric ∷ []) result
        (limited (kept_content name tags.now moment said ∷ [])) }
{
    let metric = metric_of(alloc, name, tags, said, moment)?;
    if metric.tags().len() > MOST_TAGS {
        return Err(fault(StatsdKind::TooMany, 0));
    }
    Ok(metric)
}

/// The metrics of parts of a line at a time, with the tags of the line, unless they are too many. They share the line's
/// texts.
fn metrics_of_parts(
    alloc: Global,
    name: &Text,
    tags: &[(Text, Text)],
    said: Vec<Said>,
    moment: Moment,
) -> Result<Vec<Metric>, ReadError<StatsdFault>>
    requires named { 0 < length name.now }
    requires keyed { IsKeyed tags.now }
    ensures { Gives (λ metrics. metrics.items) result
        (limited (map (kept_content name.now tags.now moment) said.items)) }
{
    let mut metrics = Vec::with_capacity(alloc, said.len())?;
    for part in said {
        metrics.push(limited_metric(alloc, name.copy()?, tags, part, moment)?)?;
    }
    Ok(metrics)
}

/// The metrics of the parts of a line at a time, with the tags of the line, unless they are too many. Most lines have
/// one part.
pub(crate) fn metrics_of(
    alloc: Global,
    name: Text,
    tags: &[(Text, Text)],
    said: Seq<Said>,
    moment: Moment,
) -> Result<Seq<Metric>, ReadError<StatsdFault>>
    requires named { 0 < length name }
    requires keyed { IsKeyed tags.now }
    ensures { Gives (λ metrics. metrics) result
        (limited (map (kept_content name tags.now moment) said)) }
{
    match said.into_one() {
        Ok(said) => Ok(Seq::of_one(limited_metric(alloc, name, tags, said, moment)?)),
        Err(said) => Ok(Seq::of(metrics_of_parts(
            alloc,
            &name,
            tags,
            said.into_vec(alloc)?,
            moment,
        )?)),
    }
}
