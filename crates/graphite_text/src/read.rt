//! Reading a line.
ghost use Rattle.std.specs.Prelude.{◌≡◌, ℕ, IfOk, option_map};
ghost use Rattle.text_parts.specs.Chain.{Gives};
ghost use Rattle.fixed_num.specs.Fixed.{read_as};
ghost use Rattle.graphite_text.specs.Path.{path_of, IsPath};
ghost use Rattle.graphite_text.specs.Reading.{or_bad_path, number_at, value_of, is_minus_one, is_moment};
ghost use Rattle.graphite_text.specs.Reading.{moment_of, time_of, metric_reading, text_reading, reading};
ghost use Rattle.format_words.specs.Views.{part_at};
ghost use Rattle.graphite_text.specs.Views.{path_view, line_view, Answers};

use crate::applied::templated;
use crate::fault::{GraphiteFault, GraphiteKind, NO_MEMORY, fault};
use crate::line::{Line, line_of};
use crate::path::{Path, path_of};
use fixed_num::{Fixed, Moment, NumFault};
use format_words::Template;
use metric::Metric;
use std::alloc::Global;
use text_parts::{Placed, ReadError, answer, utf8_text};

/// The path that a text is; one that is none is a fault of the line.
fn read_path(alloc: Global, text: &str) -> Result<Path<'_>, ReadError<GraphiteFault>>
    ensures gives { Gives path_view result (or_bad_path (path_of text.now)) }
    ensures path { IfOk result (λ path. IsPath (path_view path)) }
{
    match path_of(alloc, text) {
        Ok(path) => Ok(path),
        Err(ReadError::OutOfMemory) => Err(ReadError::OutOfMemory),
        Err(ReadError::Fault(_)) => Err(fault(GraphiteKind::BadPath, 0)),
    }
}

/// The number that a part is, and the kind of fault where it is none.
fn number_at(kind: GraphiteKind, part: &Placed) -> Result<Fixed, ReadError<GraphiteFault>>
    ensures { Gives (λ x. x) result (number_at kind part.now.offset (read_as part.now.text.now)) }
{
    match Fixed::read(part.text.as_bytes()) {
        Ok(number) => Ok(number),
        Err(NumFault::NotANumber) => Err(fault(kind, part.offset)),
        Err(NumFault::NumberRange) => Err(fault(GraphiteKind::NumberRange, part.offset)),
    }
}

/// Whether nanoseconds are one second before 1970.
fn is_minus_one(nanoseconds: i128) -> bool
    ensures { result ≡ is_minus_one nanoseconds }
{
    nanoseconds == -1_000_000_000
}

/// Whether nanoseconds are a moment.
fn is_moment(nanoseconds: i128) -> bool
    ensures { result ≡ is_moment nanoseconds }
{
    i64::MIN as i128 <= nanoseconds && nanoseconds <= i64::MAX as i128
}

/// The time of so many nanoseconds.
fn moment_of(
    offset: usize,
    moment: Moment,
    nanoseconds: i128,
) -> Result<Moment, ReadError<GraphiteFault>>
    ensures { Gives (λ x. x) result (moment_of offset moment nanoseconds) }
{
    if is_minus_one(nanoseconds) {
        return Ok(moment);
    }
    if !is_moment(nanoseconds) {
        return Err(fault(GraphiteKind::NumberRange, offset));
    }
    Ok(nanoseconds as i64)
}

/// The time of a line; without one it is the moment.
#[tactic(auto, unfolding(crate::specs::Reading::time_of))]
fn time_of(moment: Moment, time: &Option<Placed>) -> Result<Moment, ReadError<GraphiteFault>>
    ensures { Gives (λ x. x) result (time_of moment (option_map part_at time.now)) }
{
    match time {
        Some(part) => {
            let number = number_at(GraphiteKind::BadTime, part)?;
            moment_of(part.offset, moment, number.billionths())
        }
        None => Ok(moment),
    }
}

/// The metric of a line.
#[tactic(auto, unfolding(crate::specs::Reading::metric_reading))]
fn read_words(
    alloc: Global,
    templates: &[Template],
    separator: &str,
    line: &Line,
    moment: Moment,
) -> Result<Option<Metric>, ReadError<GraphiteFault>>
    ensures { Gives (λ x. x) result
        (metric_reading templates.now separator.now (line_view line.now) moment) }
{
    let path = read_path(alloc, line.path.text)?;
    let value = number_at(GraphiteKind::BadValue, &line.value)?;
    let time = time_of(moment, &line.time)?;
    templated(alloc, templates, separator, &path, value, time)
}

/// The metric of a text, none where it has no word.
#[tactic(auto, unfolding(crate::specs::Reading::text_reading))]
fn read_text(
    alloc: Global,
    templates: &[Template],
    separator: &str,
    piece: &str,
    moment: Moment,
) -> Result<Option<Metric>, ReadError<GraphiteFault>>
    ensures { Gives (λ x. x) result (text_reading templates.now separator.now piece.now moment) }
{
    match line_of(piece)? {
        Some(line) => read_words(alloc, templates, separator, &line, moment),
        None => Ok(None),
    }
}

/// Reads a piece without its newline as a line of Graphite's plaintext protocol: a path, a value and perhaps
/// a time in seconds since 1970, with spaces between them, the path perhaps with tags as carbon 1.1 has them.
/// The first template that serves the path says what its segments are; where none does, all of them are the
/// measurement. What is collected for one thing is joined by the separator. The metric has one field. None
/// where the piece has no word. Without a time, or with one that is -1, its time is the moment. `NotUtf8`
/// comes before all else; then the first fault of the number of words, of the path, of the value, of the time
/// and of the number of tags counts, with its offset. `OutOfMemory`, at offset 0, may come in place of any
/// answer.
#[tactic(auto, unfolding(crate::specs::Reading::reading))]
pub fn read_line(
    alloc: Global,
    templates: &[Template],
    separator: &str,
    piece: &[u8],
    moment: Moment,
) -> Result<Option<Metric>, GraphiteFault>
    ensures { Answers result (reading templates.now separator.now piece.now moment) }
{
    let text = utf8_text(piece).map_err(|offset| GraphiteFault {
        kind: GraphiteKind::NotUtf8,
        offset,
    })?;
    let read = read_text(alloc, templates, separator, text, moment);
    answer(read, NO_MEMORY)
}
