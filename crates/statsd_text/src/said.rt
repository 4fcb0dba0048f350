//! What the parts of a line say.
ghost use Rattle.std.specs.Prelude.{◌≡◌, ◌==◌, ◌≤◌, ◌+◌, length, slice_index, option_map, IfOk, IfSome};
ghost use Rattle.text_parts.specs.Chain.{Gives};
ghost use Rattle.text_parts.specs.Split.{Fits, each, parts_of};
ghost use Rattle.fixed_num.specs.Fixed.{read_as};
ghost use Rattle.statsd_text.specs.Said.{type_of, type_name, texts_of, number_value, value_of, begins_signed};
ghost use Rattle.statsd_text.specs.Said.{placed_at, member_value, field_of, field_name};
ghost use Rattle.statsd_text.specs.Said.{is_positive, rate_text, rate_read, rate_of, divided_value};
ghost use Rattle.statsd_text.specs.Said.{counted, part_of};
ghost use Rattle.statsd_text.specs.Views.{part_at, texts_view};

use crate::fault::{StatsdFault, StatsdKind, fault};
use fixed_num::{Fixed, NumFault, Seq};
use metric::{Text, Value};
use std::alloc::Global;
use text_parts::{Placed, ReadError, Separated, first_part};

/// The type of a metric.
#[derive(Clone, Copy, Debug, PartialEq, Eq)]
pub enum MetricType {
    Counter,
    Gauge,
    Timing,
    Set,
}

impl MetricType {
    /// Its name as a tag's value.
    pub fn name(self) -> &'static str
        ensures { result.now ≡ type_name self }
    {
        match self {
            MetricType::Counter => "counter",
            MetricType::Gauge => "gauge",
            MetricType::Timing => "timing",
            MetricType::Set => "set",
        }
    }
}

/// The name of a metric's field.
#[derive(Clone, Copy, Debug, PartialEq, Eq)]
pub enum FieldName {
    Value,
    Delta,
    Member,
}

impl FieldName {
    /// Its text.
    pub fn text(self) -> &'static str
        ensures { result.now ≡ field_name self }
    {
        match self {
            FieldName::Value => "value",
            FieldName::Delta => "delta",
            FieldName::Member => "member",
        }
    }
}

/// What a part says.
#[derive(Debug, Drop)]
pub struct Said {
    /// The type.
    pub metric_type: MetricType,
    /// The name of the field.
    pub field: FieldName,
    /// Its value, divided by the rate where it is that of a counter.
    pub value: Value,
}

/// The texts of a part.
#[derive(Clone, Copy)]
pub(crate) struct PartTexts<'a> {
    /// What stands before the first `|`.
    pub value: &'a str,
    /// The type behind it.
    pub metric_type: MetricType,
    /// What stands behind the type's `|`, with the offset of that `|`.
    pub rate: Option<Placed<'a>>,
}

/// The type that a text names.
#[tactic(auto, unfolding(crate::specs::Said::type_of))]
fn type_of(text: &str) -> Option<MetricType>
    ensures { result ≡ type_of text.now }
{
    match text {
        "c" => Some(MetricType::Counter),
        "g" => Some(MetricType::Gauge),
        "ms" | "h" => Some(MetricType::Timing),
        "s" => Some(MetricType::Set),
        _ => None,
    }
}

/// The texts of a part.
#[tactic(auto, unfolding(crate::specs::Said::texts_of))]
fn texts_of<'a>(part: &Placed<'a>) -> Result<PartTexts<'a>, ReadError<StatsdFault>>
    requires fits { Fits (part_at part.now) }
    ensures { Gives texts_view result (texts_of (part_at part.now)) }
{
    let (value, rest) = first_part(b'|', part.text);
    let Some(rest) = rest else {
        return Err(fault(StatsdKind::BadType, part.offset + part.text.len()));
    };
    let (name, rate) = first_part(b'|', rest);
    let offset = part.offset + value.len() + 1;
    let Some(metric_type) = type_of(name) else {
        return Err(fault(StatsdKind::BadType, offset));
    };
    Ok(PartTexts {
        value,
        metric_type,
        rate: rate_text(offset + name.len(), rate),
    })
}

/// The text of a rate with its offset, where there is one.
fn rate_text<'a>(offset: usize, rate: Option<&'a str>) -> Option<Placed<'a>>
    ensures { option_map part_at result ≡ rate_text offset (option_map (λ text. text.now) rate.entry) }
{
    match rate {
        Some(text) => Some(Placed { offset, text }),
        None => None,
    }
}

/// The number that a text is.
fn number_value(text: &str) -> Result<Value, StatsdKind>
    ensures { result ≡ number_value (read_as text.now) }
{
    match Fixed::read(text.as_bytes()) {
        Ok(number) => Ok(Value::Fixed(number)),
        Err(NumFault::NotANumber) => Err(StatsdKind::BadValue),
        Err(NumFault::NumberRange) => Err(StatsdKind::NumberRange),
    }
}

/// The value that a text at an offset is, for a type.
fn value_of(
    alloc: Global,
    metric_type: MetricType,
    text: &str,
    offset: usize,
) -> Result<Value, ReadError<StatsdFault>>
    ensures { Gives (λ x. x) result (placed_at offset (value_of metric_type text.now)) }
{
    match metric_type {
        MetricType::Set => member_value(alloc, text, offset),
        _ => match number_value(text) {
            Ok(value) => Ok(value),
            Err(kind) => Err(fault(kind, offset)),
        },
    }
}

/// The member that a text at an offset is.
fn member_value(alloc: Global, text: &str, offset: usize) -> Result<Value, ReadError<StatsdFault>>
    ensures { Gives (λ x. x) result (placed_at offset (member_value text.now)) }
{
    if text.is_empty() {
        return Err(fault(StatsdKind::BadValue, offset));
    }
    Ok(Value::Text(Text::of(alloc, text)?))
}

/// Whether a number has a sign.
fn begins_signed(text: &str) -> bool
    ensures { result ≡ begins_signed text.now }
{
    matches!(text.as_bytes(), [b'+' | b'-', ..])
}

/// The name of the field of a value.
fn field_of(metric_type: MetricType, text: &str) -> FieldName
    ensures { result ≡ field_of metric_type text.now }
{
    match metric_type {
        MetricType::Counter | MetricType::Timing => FieldName::Value,
        MetricType::Gauge => {
            if begins_signed(text) {
                FieldName::Delta
            } else {
                FieldName::Value
            }
        }
        MetricType::Set => FieldName::Member,
    }
}

/// Whether a number is above 0.
fn is_positive(number: Fixed) -> bool
    ensures { result ≡ is_positive number }
{
    number.billionths() > 0
}

/// Whether a minus stands behind the first byte.
fn is_negative(text: &[u8]) -> bool
    ensures { result ≡ (slice_index text.now 1 == 45) }
{
    matches!(text, [_, b'-', ..])
}

/// The rate behind the `|` of a value.
fn rate_read(offset: usize, rate: &Placed) -> Result<Option<Fixed>, ReadError<StatsdFault>>
    ensures { Gives (λ x. x) result (rate_read offset (part_at rate.now)) }
{
    let bytes = rate.text.as_bytes();
    let [b'@', number @ ..] = bytes else {
        return Err(fault(StatsdKind::BadRate, rate.offset));
    };
    match Fixed::read(number) {
        Ok(number) => {
            if is_positive(number) {
                Ok(Some(number))
            } else {
                Err(fault(StatsdKind::BadRate, rate.offset))
            }
        }
        Err(NumFault::NotANumber) => Err(fault(StatsdKind::BadRate, rate.offset)),
        Err(NumFault::NumberRange) => {
            if is_negative(bytes) {
                Err(fault(StatsdKind::BadRate, rate.offset))
            } else {
                Err(fault(StatsdKind::NumberRange, offset))
            }
        }
    }
}

/// The rate of a value at an offset, where one is written.
#[tactic(auto, unfolding(crate::specs::Said::rate_of))]
fn rate_of(offset: usize, rate: &Option<Placed>) -> Result<Option<Fixed>, ReadError<StatsdFault>>
    ensures { Gives (λ x. x) result (rate_of offset (option_map part_at rate.now)) }
{
    match rate {
        Some(rate) => rate_read(offset, rate),
        None => Ok(None),
    }
}

/// A value divided by its rate, where it is that of a counter.
fn counted(metric_type: MetricType, value: Value, rate: Option<Fixed>) -> Result<Value, StatsdKind>
    ensures { result ≡ counted metric_type value rate }
{
    match (metric_type, rate) {
        (MetricType::Counter, Some(rate)) => divided(value, rate),
        _ => Ok(value),
    }
}

/// A number divided by a rate.
fn divided(value: Value, rate: Fixed) -> Result<Value, StatsdKind>
    ensures { result ≡ divided_value value rate }
{
    match value {
        Value::Fixed(number) => match number.divide(rate) {
            Some(quotient) => Ok(Value::Fixed(quotient)),
            None => Err(StatsdKind::NumberRange),
        },
        value => Ok(value),
    }
}

/// What a part says.
#[tactic(auto, unfolding(crate::specs::Said::part_of))]
pub(crate) fn part_of(alloc: Global, part: &Placed) -> Result<Said, ReadError<StatsdFault>>
    requires fits { Fits (part_at part.now) }
    ensures { Gives (λ x. x) result (part_of (part_at part.now)) }
{
    let texts = texts_of(part)?;
    let value = value_of(alloc, texts.metric_type, texts.value, part.offset)?;
    let rate = rate_of(part.offset, &texts.rate)?;
    match counted(texts.metric_type, value, rate) {
        Ok(value) => Ok(Said {
            metric_type: texts.metric_type,
            field: field_of(texts.metric_type, texts.value),
            value,
        }),
        Err(kind) => Err(fault(kind, part.offset)),
    }
}

/// What the parts of a text say.
pub(crate) fn read_parts(alloc: Global, text: Placed) -> Result<Seq<Said>, ReadError<StatsdFault>>
    requires fits { Fits (part_at text) }
    ensures { Gives (λ said. said) result (each part_of (parts_of 58 (part_at text.entry))) }
{
    let mut said = Seq::of(Vec::new(alloc));
    let mut parts = Separated::of(b':', text);
    while let Some(part) = parts.next() {
        said.push(alloc, part_of(alloc, &part)?)?;
    }
    Ok(said)
}
