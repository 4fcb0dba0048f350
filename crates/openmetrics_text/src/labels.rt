//! The labels of a sample.
ghost use Rattle.std.specs.Prelude.{◌≡◌, ◌<◌, ◌≤◌, ◌==◌, ◌+◌, [], length, map, slice_index, IfOk};
ghost use Rattle.std.specs.List.{list_any};
ghost use Rattle.std.specs.Str.{IsCharBoundary, bytes_eq};
ghost use Rattle.text_parts.specs.Chain.{Gives};
ghost use Rattle.text_parts.specs.Part.{text_at};
ghost use Rattle.text_parts.specs.Span.{IsSpan};
ghost use Rattle.openmetrics_text.specs.Labels.{value_part, is_opened_at, label_name_at, label_at};
ghost use Rattle.openmetrics_text.specs.Labels.{has_twice, names_of, labels_at, AreNamed};
ghost use Rattle.openmetrics_text.specs.Views.{text_view, label_view};

use crate::fault::{ExpositionKind, fault};
use crate::names::{Alphabet, name_len};
use fixed_num::OutOfMemory;
use std::alloc::{AllocError, Global};
use std::collections::BTreeMap;
use text_parts::{Part, ReadError, Span, part_text, span_at, span_text};

/// What ends the value of a label, and what a backslash hides in it.
const VALUE: Part = Part {
    ends: [b'"', b'"', b'"'],
    escapes: [b'\\', b'"', b'n'],
    newlines: true,
};

/// So many labels are held against each other one by one.
const FEW: usize = 64;

/// The text of a label's value.
#[derive(Debug, Drop)]
pub(crate) enum LabelText<'a> {
    /// It is written as it is.
    Plain(&'a str),
    /// It is written with escapes.
    Escaped(String),
}

impl<'a> LabelText<'a> {
    /// The text.
    pub(crate) fn as_str(&self) -> &str
        ensures { result.now ≡ text_view self.now }
    {
        match self {
            LabelText::Plain(text) => text,
            LabelText::Escaped(text) => text.as_str(),
        }
    }
}

/// A label.
#[derive(Debug, Drop)]
pub(crate) struct Label<'a> {
    /// The name.
    pub(crate) name: &'a str,
    /// The value.
    pub(crate) value: LabelText<'a>,
}

/// Whether a byte stands at an offset.
pub(crate) fn is_at(byte: u8, line: &str, at: usize) -> bool
    requires { 0 < byte }
    ensures value { result ≡ (slice_index line.now at == byte) }
{
    at < line.len() && line.as_bytes()[at] == byte
}

/// Whether an equals sign and a double quote stand at an offset.
fn is_opened_at(line: &str, at: usize) -> bool
    requires { at ≤ length line.now }
    ensures { result ≡ is_opened_at line.now at }
{
    is_at(b'=', line, at) && is_at(b'"', line, at + 1)
}

/// The name of the label that begins at an offset, behind which an equals sign and a double quote stand.
#[tactic(auto, unfolding(crate::specs::Labels::label_name_at))]
fn label_name_at<'a>(line: &'a str, i: usize) -> Result<&'a str, ReadError<ExpositionKind>>
    requires boundary { IsCharBoundary line.now i }
    ensures gives { Gives (λ name. (name.now, i + length name.now + 2)) result (label_name_at line.now i) }
    ensures filled { IfOk result (λ name. 0 < length name.now) }
    ensures behind { IfOk result (λ name. IsCharBoundary line.now (i + length name.now + 2)) }
{
    let (_, rest) = line.split_at(i);
    let n = name_len(Alphabet::Labels, rest.as_bytes());
    if n == 0 || !is_opened_at(line, i + n) {
        return Err(fault(ExpositionKind::BadLabel));
    }
    let (name, _) = rest.split_at(n);
    Ok(name)
}

/// Where the value stands that begins at an offset, behind its double quote.
fn value_span(line: &str, i: usize) -> Span
    requires boundary { IsCharBoundary line.now i }
    ensures start { result.start ≡ i }
    ensures span { IsSpan value_part line.now result }
{
    span_at(&VALUE, line, i)
}

/// The text of a value.
fn value_text<'a>(alloc: Global, line: &'a str, span: &Span) -> Result<LabelText<'a>, AllocError>
    requires { IsSpan value_part line.now span.now }
    ensures { IfOk result (λ text. text_view text ≡ text_at value_part line.now span.now.start) }
{
    if span.escaped {
        return Ok(LabelText::Escaped(part_text(alloc, &VALUE, line, span.start)?));
    }
    Ok(LabelText::Plain(span_text(line, span)))
}

/// The label that begins at an offset, and the offset behind it.
#[tactic(auto, unfolding(crate::specs::Labels::label_at, crate::specs::Labels::label_value_at))]
fn label_at<'a>(
    alloc: Global,
    line: &'a str,
    i: usize,
) -> Result<(Label<'a>, usize), ReadError<ExpositionKind>>
    requires boundary { IsCharBoundary line.now i }
    ensures gives { Gives (λ x. (label_view x.0, x.1)) result (label_at line.now i) }
    ensures filled { IfOk result (λ x. 0 < length (label_view x.0).0) }
    ensures behind { IfOk result (λ x. IsCharBoundary line.now x.1) }
    ensures more { IfOk result (λ x. i ≤ x.1) }
{
    let name = label_name_at(line, i)?;
    let span = value_span(line, i + name.len() + 2);
    if !is_at(b'"', line, span.end) {
        return Err(fault(ExpositionKind::BadLabel));
    }
    let value = value_text(alloc, line, &span)?;
    Ok((Label { name, value }, span.end + 1))
}

/// Whether one of some labels has a name.
fn is_among(name: &str, labels: &[Label]) -> bool
    ensures { result ≡ list_any (λ label. bytes_eq label.name.now name.now) labels.now }
{
    labels.iter().any(|label| label.name == name)
}

/// Whether two of a few labels have one name.
fn few_have_twice(labels: &[Label]) -> bool
    ensures { result ≡ has_twice [] (names_of (map label_view labels.now)) }
{
    for (i, label) in labels.iter().enumerate() {
        if is_among(label.name, &labels[..i]) {
            return true;
        }
    }
    false
}

/// Whether two of any number of labels have one name.
fn many_have_twice(alloc: Global, labels: &[Label]) -> Result<bool, OutOfMemory>
    ensures { IfOk result (λ twice. twice ≡ has_twice [] (names_of (map label_view labels.now))) }
{
    let mut before = BTreeMap::new(alloc);
    for label in labels {
        if before.insert(label.name, ())?.is_some() {
            return Ok(true);
        }
    }
    Ok(false)
}

/// Whether two labels have one name.
fn have_twice(alloc: Global, labels: &[Label]) -> Result<bool, OutOfMemory>
    ensures { IfOk result (λ twice. twice ≡ has_twice [] (names_of (map label_view labels.now))) }
{
    if labels.len() <= FEW {
        return Ok(few_have_twice(labels));
    }
    many_have_twice(alloc, labels)
}

/// The labels behind an opening brace, up to the closing one, and the offset behind that. They are put into the room.
#[tactic(auto, unfolding(crate::specs::Labels::labels_at))]
pub(crate) fn labels_at<'a>(
    alloc: Global,
    line: &'a str,
    i: usize,
    room: Vec<Label<'a>>,
) -> Result<(Vec<Label<'a>>, usize), ReadError<ExpositionKind>>
    requires boundary { IsCharBoundary line.now i }
    requires empty { room.items ≡ [] }
    ensures gives { Gives (λ x. (map label_view x.0.items, x.1)) result (labels_at line.now i) }
    ensures named { IfOk result (λ x. AreNamed (map label_view x.0.items)) }
    ensures behind { IfOk result (λ x. x.1 ≤ length line.now) }
{
    if is_at(b'}', line, i) {
        return Ok((room, i + 1));
    }
    let (first, behind) = label_at(alloc, line, i)?;
    let mut labels = room;
    labels.push(first)?;
    let mut at = behind;
    'labels: while is_at(b',', line, at) {
        let (label, behind) = label_at(alloc, line, at + 1)?;
        labels.push(label)?;
        at = behind;
    }
    if !is_at(b'}', line, at) {
        return Err(fault(ExpositionKind::BadLabel));
    }
    if have_twice(alloc, labels.as_slice())? {
        return Err(fault(ExpositionKind::BadLabel));
    }
    Ok((labels, at + 1))
}
