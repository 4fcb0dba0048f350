//! What the parts of lines say of their series.
ghost use Rattle.std.specs.Prelude.{◌≡◌, ◌+ℤ◌, IfOk, IfSome, Some, is_some, pos};
ghost use Rattle.statsd_server.specs.Counting.{is_in_range, taken_to};
ghost use Rattle.statsd_server.specs.Parts.{amount_of, change_of, field_change, fields_change, gauge_change};
ghost use Rattle.statsd_server.specs.Parts.{level_with, number_of, said_change, text_of};

use crate::kind::Kind;
use fixed_num::{Fixed, OutOfMemory};
use metric::{Metric, Text, Value};
use statsd_text::{MetricType, Said};
use std::alloc::Global;

/// What a part says of its series.
#[derive(Debug, Drop)]
pub(crate) enum Change {
    /// A counter has so many more.
    Adds(Fixed),
    /// A gauge has this level.
    Sets(Fixed),
    /// A gauge has another level, by so much.
    Moves(Fixed),
    /// Something took so long.
    Took(Fixed),
    /// A set has this member.
    Names(Text),
}

/// The number 0.
pub(crate) fn zero() -> Fixed
    ensures { result ≡ pos 0 }
{
    match Fixed::of_billionths(0) {
        Some(number) => number,
        None => unreachable!(),
    }
}

/// The number of a value; what is no number counts as 0.
fn number_of(value: &Value) -> Fixed
    ensures { result ≡ number_of value.now }
{
    match value {
        Value::Fixed(number) => *number,
        _ => zero(),
    }
}

/// The text of a value; what is no text counts as the empty one.
fn text_of(alloc: Global, value: &Value) -> Result<Text, OutOfMemory>
    ensures { IfOk result (λ text. text ≡ text_of value.now) }
{
    match value {
        Value::Text(text) => text.copy(),
        _ => Text::of(alloc, ""),
    }
}

/// The same, of a value that isn't needed any more.
fn into_text(alloc: Global, value: Value) -> Result<Text, OutOfMemory>
    ensures { IfOk result (λ text. text ≡ text_of value) }
{
    match value {
        Value::Text(text) => Ok(text),
        _ => Text::of(alloc, ""),
    }
}

/// The sum of a series in its group, and the level of a gauge.
#[derive(Clone, Copy, Debug)]
pub(crate) struct Totals {
    pub sum: Fixed,
    pub level: Fixed,
}

impl Totals {
    /// A sum beside a level, where there is one.
    fn of_sum(sum: Option<Fixed>, level: Fixed) -> Option<Totals>
        ensures counts { is_some result ≡ is_some sum }
        ensures both { IfSome result (λ totals. (sum ≡ Some totals.sum) × (totals.level ≡ level)) }
    {
        match sum {
            Some(sum) => Some(Totals { sum, level }),
            None => None,
        }
    }

    /// A level beside a sum, where there is one.
    fn of_level(sum: Fixed, level: Option<Fixed>) -> Option<Totals>
        ensures counts { is_some result ≡ is_some level }
        ensures both { IfSome result (λ totals. (level ≡ Some totals.level) × (totals.sum ≡ sum)) }
    {
        match level {
            Some(level) => Some(Totals { sum, level }),
            None => None,
        }
    }
}

impl Change {
    /// What a part says of its series.
    #[tactic(auto, unfolding(crate::specs::Parts::change_of))]
    pub(crate) fn of(alloc: Global, part: &Metric) -> Result<Change, OutOfMemory>
        ensures { IfOk result (λ change. change ≡ change_of part.now) }
    {
        match part.fields() {
            [field, ..] => Change::of_field(alloc, Kind::of(part.tags()), field),
            [] => Ok(Change::Names(Text::of(alloc, "")?)),
        }
    }

    /// What is said of a series of its type.
    pub(crate) fn said(alloc: Global, said: Said) -> Result<Change, OutOfMemory>
        ensures { IfOk result (λ change. change ≡ said_change said) }
    {
        match said.metric_type {
            MetricType::Counter => Ok(Change::Adds(number_of(&said.value))),
            MetricType::Gauge => Ok(Change::of_gauge(said.field.text(), number_of(&said.value))),
            MetricType::Timing => Ok(Change::Took(number_of(&said.value))),
            MetricType::Set => Ok(Change::Names(into_text(alloc, said.value)?)),
        }
    }

    /// What a field says of a series of a type.
    fn of_field(alloc: Global, kind: Kind, field: &(Text, Value)) -> Result<Change, OutOfMemory>
        ensures { IfOk result (λ change. change ≡ field_change kind field.now) }
    {
        match kind {
            Kind::Counter => Ok(Change::Adds(number_of(&field.1))),
            Kind::Gauge => Ok(Change::of_gauge(field.0.as_str(), number_of(&field.1))),
            Kind::Timing => Ok(Change::Took(number_of(&field.1))),
            Kind::Set => Ok(Change::Names(text_of(alloc, &field.1)?)),
        }
    }

    /// What a field of a gauge says.
    fn of_gauge(key: &str, number: Fixed) -> Change
        ensures { result ≡ gauge_change key.now number }
    {
        if key == "delta" {
            Change::Moves(number)
        } else {
            Change::Sets(number)
        }
    }

    /// What it adds to the sum of its series.
    pub(crate) fn amount(&self) -> Fixed
        ensures { result ≡ amount_of self.now }
    {
        match self {
            Change::Adds(number) | Change::Took(number) => *number,
            Change::Sets(_) | Change::Moves(_) | Change::Names(_) => zero(),
        }
    }

    /// The sum of its series and the level of a gauge behind it, where neither leaves the range of numbers.
    pub(crate) fn behind(&self, sum: Fixed, level: Fixed) -> Option<Totals>
        ensures counts { is_some result ≡ is_in_range (taken_to sum level self.now) }
        ensures sum { IfSome result (λ totals. totals.sum ≡ sum +ℤ amount_of self.now) }
        ensures level { IfSome result (λ totals. totals.level ≡ level_with level self.now) }
    {
        match self {
            Change::Adds(number) | Change::Took(number) => {
                Totals::of_sum(sum.add(*number), level)
            }
            Change::Sets(number) => {
                Totals::of_level(sum, Fixed::of_billionths(number.billionths()))
            }
            Change::Moves(number) => Totals::of_level(sum, level.add(*number)),
            Change::Names(_) => Some(Totals { sum, level }),
        }
    }
}
