//! What the lines of an exposition have said so far.
ghost use Rattle.std.specs.Prelude.{◌≡◌, ◌<◌, ◌+◌, ◌-◌, ◌^◌, ◌++◌, true, [], ◌∷◌, List, ℤ, Bool, length, map};
ghost use Rattle.std.specs.Prelude.{min, OnOk, IfOk};
ghost use Rattle.metric.specs.Draft.{Tag};
ghost use Rattle.metric.specs.Pairs.{in_key_order, in_key_order_on, with_sorted};
ghost use Rattle.openmetrics_text.specs.Collecting.{HaveSaid};
ghost use Rattle.openmetrics_text.specs.Lines.{LineSays, Typed, Sampled};
ghost use Rattle.openmetrics_text.specs.Reading.{content_of, or_moment, type_tags};
ghost use Rattle.openmetrics_text.specs.Types.{types_in, type_of};
ghost use Rattle.openmetrics_text.specs.Views.{label_view, sample_view, line_view, IsFilled, IsFilledLine};

use crate::labels::Label;
use crate::line::Line;
use crate::number::Number;
use crate::sample::Sample;
use crate::types::Types;
use fixed_num::{Fixed, Moment, OutOfMemory};
use metric::{Builder, Metric, Text, Value};
use std::alloc::Global;

/// The metrics of the samples so far, how many were passed over, how many of these were out of range, and the
/// types so far.
#[derive(Drop)]
pub(crate) struct Collected<'a> {
    alloc: Global,
    /// The time of a sample without one: nanoseconds since 1970.
    moment: Moment,
    /// Whether a metric has the tag of its type.
    typed: bool,
    pub(crate) metrics: Vec<Metric>,
    pub(crate) passed: u32,
    pub(crate) out_of_range: u32,
    types: Types<'a>,
}

/// Puts a label with a long text into a builder. A long text shares its bytes with that of the label's tag among those
/// of the last metric, where it is equal.
fn put_long(
    alloc: Global,
    builder: &mut Builder,
    name: &str,
    value: &str,
    last: &[(Text, Text)],
) -> Result<(), OutOfMemory>
    ensures { OnOk result (builder.new
        ≡ record builder.old { tags = with_sorted builder.old.tags name.now value.now }) }
{
    let like = last.iter().find(|tag| tag.0.as_str() == name);
    let key = Text::sharing(alloc, like.map(|tag| &tag.0), name)?;
    let value = Text::sharing(alloc, like.map(|tag| &tag.1), value)?;
    builder.tag_of(key, value)?;
    Ok(())
}

/// Puts a label into a builder. The last metric has these tags.
fn put_label(
    alloc: Global,
    builder: &mut Builder,
    label: &Label,
    last: &[(Text, Text)],
) -> Result<(), OutOfMemory>
    ensures { OnOk result (builder.new ≡ record builder.old {
      tags = with_sorted builder.old.tags (label_view label.now).0 (label_view label.now).1;
    }) }
{
    let value = label.value.as_str();
    if Text::is_short(label.name) && Text::is_short(value) {
        builder.tag(label.name, value)?;
        return Ok(());
    }
    put_long(alloc, builder, label.name, value, last)
}

/// Puts labels into a builder that has no tags. The last metric has these tags.
fn put_labels(
    alloc: Global,
    builder: &mut Builder,
    labels: &[Label],
    last: &[(Text, Text)],
) -> Result<(), OutOfMemory>
    requires none { builder.old.tags ≡ [] }
    ensures name { OnOk result (builder.new.name ≡ builder.old.name) }
    ensures tags { OnOk result (builder.new.tags ≡ in_key_order (map label_view labels.now)) }
    ensures fields { OnOk result (builder.new.fields ≡ builder.old.fields) }
{
    for label in labels {
        put_label(alloc, builder, label, last)?;
    }
    Ok(())
}

/// Puts the tag of a type into a builder, where it is asked for.
#[tactic(auto, unfolding(metric::specs::Pairs::in_key_order_on))]
fn put_type(builder: &mut Builder, typed: bool, kind: &str) -> Result<(), OutOfMemory>
    ensures name { OnOk result (builder.new.name ≡ builder.old.name) }
    ensures tags { OnOk result
        (builder.new.tags ≡ in_key_order_on builder.old.tags (type_tags typed kind.now)) }
    ensures fields { OnOk result (builder.new.fields ≡ builder.old.fields) }
{
    if typed {
        builder.tag("om_type", kind)?;
        return Ok(());
    }
    Ok(())
}

/// The time of a sample; without one it is the moment.
fn or_moment(moment: Moment, time: Option<Moment>) -> Moment
    ensures { result ≡ or_moment moment time }
{
    match time {
        Some(time) => time,
        None => moment,
    }
}

/// How many tags so many labels make, and that of a type where it is asked for.
fn tags_of(labels: usize, typed: bool) -> usize {
    if typed {
        return labels.saturating_add(1);
    }
    labels
}

impl<'a> Collected<'a> {
    /// No line has said anything.
    pub(crate) fn new(alloc: Global, moment: Moment, typed: bool) -> Collected<'a>
        ensures { HaveSaid moment typed result [] }
    {
        Collected {
            alloc,
            moment,
            typed,
            metrics: Vec::new(alloc),
            passed: 0,
            out_of_range: 0,
            types: Types::new(alloc),
        }
    }

    // The type of a sample, where it is asked for.
    fn kind_of(&self, name: &str) -> &'a str
        ensures { (lines : List LineSays) (moment : ℤ) (typed : Bool) → HaveSaid moment typed self.now lines
            → typed ≡ true → result.now ≡ type_of name.now (types_in lines) }
    {
        if self.typed {
            return self.types.type_of(name);
        }
        ""
    }

    // The name of the last metric.
    fn last_name(&self) -> Option<&Text> {
        match self.metrics.last() {
            Some(metric) => Some(metric.name()),
            None => None,
        }
    }

    // The tags of the last metric.
    fn last_tags(&self) -> &[(Text, Text)] {
        match self.metrics.last() {
            Some(metric) => metric.tags(),
            None => &[],
        }
    }

    // The metric of a sample whose number is a decimal. Long texts share their bytes with those of the last metric,
    // where they are equal.
    fn metric_of(&self, sample: &Sample, number: Fixed, kind: &str) -> Result<Metric, OutOfMemory>
        requires { IsFilled sample.now }
        ensures { IfOk result (λ metric. metric
            ≡ content_of self.now.moment self.now.typed kind.now (sample_view sample.now) number) }
    {
        let name = Text::sharing(self.alloc, self.last_name(), sample.name)?;
        let tags = tags_of(sample.labels.len(), self.typed);
        let mut builder = Builder::with_room_of(self.alloc, name, tags, 1)?;
        put_labels(
            self.alloc,
            &mut builder,
            sample.labels.as_slice(),
            self.last_tags(),
        )?;
        put_type(&mut builder, self.typed, kind)?;
        builder.field("value", Value::Fixed(number))?;
        builder.complete(or_moment(self.moment, sample.time))
    }

    // One more sample that is passed over.
    fn pass(&mut self)
        ensures { self.new ≡ record self.old { passed = min (self.old.passed + 1) (2 ^ 32 - 1) } }
    {
        self.passed = self.passed.saturating_add(1);
    }

    // One more sample.
    fn add_sample(&mut self, sample: &Sample) -> Result<(), OutOfMemory>
        requires { IsFilled sample.now }
        ensures { OnOk result ((lines : List LineSays) (moment : ℤ) (typed : Bool)
            → HaveSaid moment typed self.old lines
            → HaveSaid moment typed self.new (lines ++ Sampled (sample_view sample.now) ∷ [])) }
    {
        match sample.number {
            Number::Decimal(number) => {
                let kind = self.kind_of(sample.name);
                let metric = self.metric_of(sample, number, kind)?;
                self.metrics.push(metric)?;
                Ok(())
            }
            Number::NoDecimal => {
                self.pass();
                Ok(())
            }
            Number::OutOfRange => {
                self.pass();
                self.out_of_range = self.out_of_range.saturating_add(1);
                Ok(())
            }
        }
    }

    // One more TYPE line.
    fn add_type(&mut self, name: &'a str, kind: &'a str) -> Result<(), OutOfMemory>
        ensures { OnOk result ((lines : List LineSays) (moment : ℤ) (typed : Bool)
            → HaveSaid moment typed self.old lines
            → HaveSaid moment typed self.new (lines ++ Typed name.now kind.now ∷ [])) }
    {
        if self.typed {
            self.types.add(name, kind)?;
            return Ok(());
        }
        Ok(())
    }

    // One more sample, whose labels leave their room.
    fn add_and_free(
        &mut self,
        sample: Sample<'a>,
        room: &mut Vec<Label<'a>>,
    ) -> Result<(), OutOfMemory>
        requires { IsFilled sample }
        ensures { OnOk result ((lines : List LineSays) (moment : ℤ) (typed : Bool)
            → HaveSaid moment typed self.old lines
            → HaveSaid moment typed self.new (lines ++ Sampled (sample_view sample.entry) ∷ [])) }
    {
        self.add_sample(&sample)?;
        let Sample { labels, .. } = sample;
        *room = labels;
        Ok(())
    }

    /// One more line. The labels of a sample leave their room.
    pub(crate) fn add(
        &mut self,
        line: Line<'a>,
        room: &mut Vec<Label<'a>>,
    ) -> Result<(), OutOfMemory>
        requires { IsFilledLine line }
        ensures { OnOk result ((lines : List LineSays) (moment : ℤ) (typed : Bool)
            → HaveSaid moment typed self.old lines
            → HaveSaid moment typed self.new (lines ++ line_view line.entry ∷ [])) }
    {
        match line {
            Line::Typed(name, kind) => self.add_type(name, kind),
            Line::Nothing => Ok(()),
            Line::Sampled(sample) => self.add_and_free(sample, room),
        }
    }
}
