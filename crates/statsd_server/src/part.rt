//! Parts of lines: their series, with what they say of them.
ghost use Rattle.std.specs.Prelude.{◌≡◌, ◌<◌, ◌++◌, length, map, pos, IfOk, OnOk};
ghost use Rattle.std.specs.List.{AllByRecursion};
ghost use Rattle.statsd_text.specs.TagMap.{kept_content, HasValue, IsKeyed};
ghost use Rattle.statsd_text.specs.Views.{metrics_said, IsWholeLine};
ghost use Rattle.statsd_server.specs.Kept.{said_by};
ghost use Rattle.statsd_server.specs.Marked.{text_mark};

use crate::change::Change;
use crate::marked::{Marked, text_mark};
use crate::tags::TypeTags;
use fixed_num::OutOfMemory;
use metric::{Metric, Text};
use statsd_text::{LineSaid, Said};
use std::alloc::Global;

/// The series of a part, and what the part says of it.
#[derive(Drop)]
pub(crate) struct Part {
    pub series: Marked,
    pub change: Change,
}

impl Part {
    /// What a metric that was read says.
    pub(crate) fn of_metric(alloc: Global, metric: &Metric) -> Result<Part, OutOfMemory>
        ensures { IfOk result (λ part. part ≡ said_by metric.now) }
    {
        Ok(Part {
            series: Marked::of_metric(alloc, metric)?,
            change: Change::of(alloc, metric)?,
        })
    }

    /// What a part says of the series of a name, whose number is known, and a line's tags.
    fn said(
        alloc: Global,
        types: &TypeTags,
        name_mark: u64,
        name: Text,
        tags: &[(Text, Text)],
        said: Said,
    ) -> Result<Part, OutOfMemory>
        requires mark { name_mark ≡ text_mark 0 name }
        requires named { 0 < length name }
        requires keyed { IsKeyed tags.now }
        requires valued { AllByRecursion HasValue tags.now }
        ensures { IfOk result (λ part. part ≡ said_by (kept_content name tags.now (pos 0) said)) }
    {
        let tags = types.with_line(alloc, tags, said.metric_type)?;
        Ok(Part {
            series: Marked::of(name_mark, name, tags),
            change: Change::said(alloc, said)?,
        })
    }
}

/// Appends what metrics say.
pub(crate) fn append_metrics(
    alloc: Global,
    metrics: &[Metric],
    parts: &mut Vec<Part>,
) -> Result<(), OutOfMemory>
    ensures { OnOk result (parts.new.items ≡ parts.old.items ++ map said_by metrics.now) }
{
    for metric in metrics {
        parts.push(Part::of_metric(alloc, metric)?)?;
    }
    Ok(())
}

/// Appends what the parts of a line say. They share its texts.
fn append_each(
    alloc: Global,
    types: &TypeTags,
    name: &Text,
    tags: &[(Text, Text)],
    said: Vec<Said>,
    parts: &mut Vec<Part>,
) -> Result<(), OutOfMemory>
    requires named { 0 < length name.now }
    requires keyed { IsKeyed tags.now }
    requires valued { AllByRecursion HasValue tags.now }
    ensures { OnOk result (parts.new.items ≡ parts.old.items
        ++ map said_by (map (kept_content name.now tags.now (pos 0)) said.items)) }
{
    let mark = text_mark(0, name.as_str());
    for part in said {
        parts.push(Part::said(alloc, types, mark, name.copy()?, tags, part)?)?;
    }
    Ok(())
}

/// Appends what a line says. Most lines have one part.
pub(crate) fn append_line(
    alloc: Global,
    types: &TypeTags,
    line: LineSaid,
    parts: &mut Vec<Part>,
) -> Result<(), OutOfMemory>
    requires { IsWholeLine line }
    ensures { OnOk result (parts.new.items ≡ parts.old.items ++ map said_by (metrics_said line (pos 0))) }
{
    let LineSaid { name, tags, said } = line;
    match said.into_one() {
        Ok(said) => {
            let mark = text_mark(0, name.as_str());
            parts.push(Part::said(alloc, types, mark, name, tags.as_slice(), said)?)?;
            Ok(())
        }
        Err(said) => append_each(
            alloc,
            types,
            &name,
            tags.as_slice(),
            said.into_vec(alloc)?,
            parts,
        ),
    }
}
