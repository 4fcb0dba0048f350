//! Samples.
ghost use Rattle.std.specs.Prelude.{◌≡◌, ◌<◌, ◌≤◌, ◌==◌, ◌&&◌, [], length, map, slice_index, option_map, Some, IfOk};
ghost use Rattle.std.specs.Str.{IsCharBoundary};
ghost use Rattle.text_parts.specs.Chain.{Gives};
ghost use Rattle.text_parts.specs.Split.{first_part};
ghost use Rattle.openmetrics_text.specs.Labels.{AreNamed};
ghost use Rattle.openmetrics_text.specs.Sample.{head_of, behind_space, is_exemplar, timed, numbered, shape_of};
ghost use Rattle.openmetrics_text.specs.Sample.{is_out_of_range, number_said, time_said, limited, sample_of};
ghost use Rattle.openmetrics_text.specs.Views.{label_view, head_view, shape_view, sample_view};
ghost use Rattle.openmetrics_text.specs.Views.{IsFilled};

use crate::fault::{ExpositionKind, fault};
use crate::labels::{Label, is_at, labels_at};
use crate::names::{Alphabet, name_len};
use crate::number::{Number, Time, number_of, time_of};
use fixed_num::Moment;
use std::alloc::Global;
use text_parts::{ReadError, first_part};

/// The most labels that a sample is written with.
const MOST_LABELS: usize = 64;

/// The name and the labels of a sample.
#[derive(Debug, Drop)]
pub(crate) struct Head<'a> {
    /// The name.
    name: &'a str,
    /// The labels.
    labels: Vec<Label<'a>>,
    /// The offset behind them.
    behind: usize,
}

/// The texts of the number and the time of a sample.
#[derive(Clone, Copy, Debug)]
pub(crate) struct Shape<'a> {
    /// That of the number.
    number: &'a str,
    /// That of the time.
    time: Option<&'a str>,
}

/// A sample.
#[derive(Debug, Drop)]
pub(crate) struct Sample<'a> {
    /// The name.
    pub(crate) name: &'a str,
    /// The labels.
    pub(crate) labels: Vec<Label<'a>>,
    /// The number, which is out of range where the time is.
    pub(crate) number: Number,
    /// The time, where one in range is written: nanoseconds since 1970.
    pub(crate) time: Option<Moment>,
}

/// The name that a line begins with, and the labels behind it, which are put into the room.
#[tactic(auto, unfolding(crate::specs::Sample::head_of))]
fn head_of<'a>(
    alloc: Global,
    line: &'a str,
    room: Vec<Label<'a>>,
) -> Result<Head<'a>, ReadError<ExpositionKind>>
    requires { room.items ≡ [] }
    ensures gives { Gives head_view result (head_of line.now) }
    ensures named { IfOk result (λ head. 0 < length head.name.now) }
    ensures labels { IfOk result (λ head. AreNamed (map label_view head.labels.items)) }
    ensures behind { IfOk result (λ head. head.behind ≤ length line.now) }
{
    let n = name_len(Alphabet::Samples, line.as_bytes());
    if n == 0 {
        return Err(fault(ExpositionKind::BadLine));
    }
    let (name, _) = line.split_at(n);
    if is_at(b'{', line, n) {
        let (labels, behind) = labels_at(alloc, line, n + 1, room)?;
        return Ok(Head {
            name,
            labels,
            behind,
        });
    }
    Ok(Head {
        name,
        labels: room,
        behind: n,
    })
}

/// What stands behind the space at an offset.
#[tactic(auto, unfolding(crate::specs::Sample::behind_space))]
fn behind_space(line: &str, i: usize) -> Result<&str, ReadError<ExpositionKind>>
    ensures { Gives (λ text. text.now) result (behind_space line.now i) }
{
    if !is_at(b' ', line, i) {
        return Err(fault(ExpositionKind::BadLine));
    }
    let (_, text) = line.split_at(i + 1);
    Ok(text)
}

/// Whether a text begins with a `#` and a space.
fn is_exemplar(text: &str) -> bool
    ensures { result ≡ is_exemplar text.now }
{
    is_at(b'#', text, 0) && is_at(b' ', text, 1)
}

/// The texts of a number and a time, behind which nothing stands but what is passed over.
fn timed<'a>(number: &'a str, rest: &'a str) -> Result<Shape<'a>, ReadError<ExpositionKind>>
    ensures { Gives shape_view result
        (timed number.now (first_part 32 rest.now).0 (first_part 32 rest.now).1) }
{
    let (time, behind) = first_part(b' ', rest);
    match behind {
        Some(behind) => {
            if !is_exemplar(behind) {
                return Err(fault(ExpositionKind::BadLine));
            }
            Ok(Shape {
                number,
                time: Some(time),
            })
        }
        None => Ok(Shape {
            number,
            time: Some(time),
        }),
    }
}

/// The texts of the number and of the time, where one is written.
#[tactic(auto, unfolding(crate::specs::Sample::shape_of))]
fn shape_of(text: &str) -> Result<Shape<'_>, ReadError<ExpositionKind>>
    ensures { Gives shape_view result (shape_of text.now) }
{
    let (number, behind) = first_part(b' ', text);
    match behind {
        Some(behind) => {
            if is_exemplar(behind) {
                return Ok(Shape { number, time: None });
            }
            timed(number, behind)
        }
        None => Ok(Shape { number, time: None }),
    }
}

/// The number of a sample, which is out of range where its time is.
fn number_said(number: Number, time: &Time) -> Number
    ensures { result ≡ number_said number time.now }
{
    match time {
        Time::OutOfRange => Number::OutOfRange,
        _ => number,
    }
}

/// Whether a number is out of range.
fn is_out_of_range(number: &Number) -> bool
    ensures { result ≡ is_out_of_range number.now }
{
    match number {
        Number::OutOfRange => true,
        _ => false,
    }
}

/// The time of a sample.
fn time_said(time: &Time) -> Option<Moment>
    ensures { result ≡ time_said time.now }
{
    match time {
        Time::At(time) => Some(*time),
        Time::Unwritten => None,
        Time::OutOfRange => None,
    }
}

/// The sample, where its number and its time are in range, unless what is out of range is passed over, and it
/// isn't written with too many labels.
#[tactic(auto, unfolding(crate::specs::Sample::limited))]
fn limited<'a>(
    head: Head<'a>,
    number: Number,
    time: &Time,
    passing: bool,
) -> Result<Sample<'a>, ReadError<ExpositionKind>>
    requires named { 0 < length head.name.now }
    requires labels { AreNamed (map label_view head.labels.items) }
    ensures gives { Gives sample_view result (limited passing (head_view head.entry) number time.now) }
    ensures filled { IfOk result IsFilled }
{
    let number = number_said(number, time);
    if is_out_of_range(&number) && !passing {
        return Err(fault(ExpositionKind::NumberRange));
    }
    if head.labels.len() > MOST_LABELS {
        return Err(fault(ExpositionKind::TooMany));
    }
    Ok(Sample {
        name: head.name,
        labels: head.labels,
        number,
        time: time_said(time),
    })
}

/// The sample that a line is, where what is out of range is passed over or not. Its labels are put into the room.
#[tactic(auto, unfolding(crate::specs::Sample::sample_of))]
pub(crate) fn sample_of<'a>(
    alloc: Global,
    line: &'a str,
    room: Vec<Label<'a>>,
    passing: bool,
) -> Result<Sample<'a>, ReadError<ExpositionKind>>
    requires { room.items ≡ [] }
    ensures gives { Gives sample_view result (sample_of passing line.now) }
    ensures filled { IfOk result IsFilled }
{
    let head = head_of(alloc, line, room)?;
    let text = behind_space(line, head.behind)?;
    let shape = shape_of(text)?;
    let number = number_of(shape.number.as_bytes())?;
    let time = time_of(shape.time)?;
    limited(head, number, &time, passing)
}
