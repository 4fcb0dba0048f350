//! The lines of an exposition.
ghost use Rattle.std.specs.Prelude.{◌≡◌, ◌==◌, [], MatchOption, drop, length, slice_index, IfOk};
ghost use Rattle.text_parts.specs.Chain.{Gives};
ghost use Rattle.openmetrics_text.specs.Lines.{begins_with, type_line, about_line, hash_line, line_of, is_type};
ghost use Rattle.openmetrics_text.specs.Lines.{sample_line};
ghost use Rattle.openmetrics_text.specs.Views.{line_view, IsFilledLine};

use crate::fault::{ExpositionKind, fault};
use crate::labels::{Label, is_at};
use crate::names::is_name;
use crate::sample::{Sample, sample_of};
use std::alloc::Global;
use std::mem;
use text_parts::{ReadError, first_part};

/// What a line says.
#[derive(Debug, Drop)]
pub(crate) enum Line<'a> {
    /// The type of a name.
    Typed(&'a str, &'a str),
    /// Nothing that counts.
    Nothing,
    /// A sample.
    Sampled(Sample<'a>),
}

/// Whether a text is a type.
fn is_type(text: &str) -> bool
    ensures { result ≡ is_type text.now }
{
    matches!(
        text,
        "counter"
            | "gauge"
            | "histogram"
            | "gaugehistogram"
            | "stateset"
            | "info"
            | "summary"
            | "unknown"
    )
}

/// Whether a line begins with a word.
fn begins_with(word: &[u8], line: &str) -> bool
    ensures { result ≡ begins_with word.now line.now }
{
    line.as_bytes().strip_prefix(word).is_some()
}

/// What stands behind the first seven bytes, of which the last is a space.
fn behind_word(line: &str) -> &str
    requires { slice_index line.now 6 ≡ 32 }
    ensures { result.now ≡ drop 7 line.now }
{
    let (_, behind) = line.split_at(7);
    behind
}

/// What a TYPE line says behind its first word.
#[tactic(auto, unfolding(crate::specs::Lines::type_line))]
fn type_line<'a>(text: &'a str) -> Result<Line<'a>, ReadError<ExpositionKind>>
    ensures gives { Gives line_view result (type_line text.now) }
    ensures filled { IfOk result IsFilledLine }
{
    let (name, kind) = first_part(b' ', text);
    if !is_name(name) {
        return Err(fault(ExpositionKind::BadLine));
    }
    match kind {
        Some(kind) => {
            if !is_type(kind) {
                return Err(fault(ExpositionKind::BadLine));
            }
            Ok(Line::Typed(name, kind))
        }
        None => Err(fault(ExpositionKind::BadLine)),
    }
}

/// What a HELP line or a UNIT line says behind its first word.
#[tactic(auto, unfolding(crate::specs::Lines::about_line))]
fn about_line<'a>(text: &'a str) -> Result<Line<'a>, ReadError<ExpositionKind>>
    ensures gives { Gives line_view result (about_line text.now) }
    ensures filled { IfOk result IsFilledLine }
{
    let (name, _) = first_part(b' ', text);
    if !is_name(name) {
        return Err(fault(ExpositionKind::BadLine));
    }
    Ok(Line::Nothing)
}

/// What a line says that begins with `#`.
#[tactic(auto, unfolding(crate::specs::Lines::hash_line))]
fn hash_line<'a>(line: &'a str) -> Result<Line<'a>, ReadError<ExpositionKind>>
    ensures gives { Gives line_view result (hash_line line.now) }
    ensures filled { IfOk result IsFilledLine }
{
    if begins_with(b"# TYPE ", line) {
        return type_line(behind_word(line));
    }
    if begins_with(b"# HELP ", line) {
        return about_line(behind_word(line));
    }
    if begins_with(b"# UNIT ", line) {
        return about_line(behind_word(line));
    }
    Ok(Line::Nothing)
}

/// A vector without an element, in the memory of one, which has none afterwards.
fn taken<'a>(alloc: Global, room: &mut Vec<Label<'a>>) -> Vec<Label<'a>>
    ensures { result.items ≡ [] }
{
    let mut taken = mem::replace(room, Vec::new(alloc));
    taken.clear();
    taken
}

/// The sample that a line is. Its labels take the room.
#[tactic(auto, unfolding(crate::specs::Lines::sample_line))]
fn sample_line<'a>(
    alloc: Global,
    line: &'a str,
    room: &mut Vec<Label<'a>>,
    passing: bool,
) -> Result<Line<'a>, ReadError<ExpositionKind>>
    ensures gives { Gives line_view result (sample_line passing line.now) }
    ensures filled { IfOk result IsFilledLine }
{
    let sample = sample_of(alloc, line, taken(alloc, room), passing)?;
    Ok(Line::Sampled(sample))
}

/// What a line says, where what is out of range is passed over or not. The labels of a sample take the room.
#[tactic(auto, unfolding(crate::specs::Lines::line_of))]
pub(crate) fn line_of<'a>(
    alloc: Global,
    line: &'a str,
    room: &mut Vec<Label<'a>>,
    passing: bool,
) -> Result<Line<'a>, ReadError<ExpositionKind>>
    ensures gives { Gives line_view result (line_of passing line.now) }
    ensures filled { IfOk result IsFilledLine }
{
    if is_at(b'#', line, 0) {
        return hash_line(line);
    }
    sample_line(alloc, line, room, passing)
}
