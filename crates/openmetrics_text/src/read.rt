//! Reading an exposition.
ghost use Rattle.std.specs.Prelude.{◌≡◌, ◌<◌, length, option_map, MatchOption, true, false, slice_index, IfOk};
ghost use Rattle.text_parts.specs.Chain.{Gives};
ghost use Rattle.openmetrics_text.specs.Reading.{ends_with, without_end, without_newline, before_last};
ghost use Rattle.openmetrics_text.specs.Reading.{line_at, lines_reading, text_reading, reading};
ghost use Rattle.openmetrics_text.specs.Views.{part_at, line_view, texts_view, said_view, IsFilledLine, Answers};

use crate::collected::Collected;
use crate::exposition::Exposition;
use crate::fault::{ExpositionFault, ExpositionKind, NO_MEMORY};
use crate::labels::Label;
use crate::line::{Line, line_of};
use fixed_num::{Moment, Seq};
use std::alloc::Global;
use text_parts::{Placed, ReadError, Separated, answer, utf8_text};

/// A text without a word at its end, which begins with an ASCII byte; None where it doesn't end with the word.
fn without_end<'a>(word: &[u8], text: &'a str) -> Option<&'a str>
    requires filled { 0 < length word.now }
    requires ascii { slice_index word.now 0 < 128 }
    ensures { MatchOption result (ends_with word.now text.now ≡ false)
        (λ front. (ends_with word.now text.now ≡ true) × (front.now ≡ without_end word.now text.now)) }
{
    match text.as_bytes().strip_suffix(word) {
        Some(front) => {
            let (front, _) = text.split_at(front.len());
            Some(front)
        }
        None => None,
    }
}

/// A text without one newline at its end.
fn without_newline(text: &str) -> &str
    ensures { result.now ≡ without_newline text.now }
{
    match without_end(b"\n", text) {
        Some(front) => front,
        None => text,
    }
}

/// What stands before the last line, where that is `# EOF`; where no line stands before it that is None.
fn before_last(text: &str) -> Option<Option<&str>>
    ensures { texts_view result ≡ before_last text.now }
{
    if text == "# EOF" {
        return Some(None);
    }
    match without_end(b"\n# EOF", text) {
        Some(front) => Some(Some(front)),
        None => None,
    }
}

/// What a line says, where what is out of range is passed over or not. The labels of a sample take the room.
#[tactic(auto, unfolding(crate::specs::Reading::line_at))]
fn line_at<'a>(
    alloc: Global,
    line: &Placed<'a>,
    room: &mut Vec<Label<'a>>,
    passing: bool,
) -> Result<Line<'a>, ReadError<ExpositionFault>>
    ensures gives { Gives line_view result (line_at passing (part_at line.now)) }
    ensures filled { IfOk result IsFilledLine }
{
    match line_of(alloc, line.text, room, passing) {
        Ok(says) => Ok(says),
        Err(ReadError::OutOfMemory) => Err(ReadError::OutOfMemory),
        Err(ReadError::Fault(kind)) => Err(ReadError::Fault(ExpositionFault {
            kind,
            offset: line.offset,
        })),
    }
}

/// What the lines of a text say.
fn read_lines<'a>(
    alloc: Global,
    text: Option<&'a str>,
    moment: Moment,
    typed: bool,
    passing: bool,
) -> Result<Collected<'a>, ReadError<ExpositionFault>>
    ensures { Gives said_view result
        (lines_reading moment typed passing (option_map (λ text. text.now) text.entry)) }
{
    let mut collected = Collected::new(alloc, moment, typed);
    let Some(text) = text else {
        return Ok(collected);
    };
    let mut room = Vec::new(alloc);
    let mut lines = Separated::of(b'\n', Placed { offset: 0, text });
    while let Some(line) = lines.next() {
        let says = line_at(alloc, &line, &mut room, passing)?;
        collected.add(says, &mut room)?;
    }
    Ok(collected)
}

/// The exposition that a text is.
#[tactic(auto, unfolding(crate::specs::Reading::text_reading))]
fn read_text(
    alloc: Global,
    piece: &str,
    moment: Moment,
    typed: bool,
    passing: bool,
) -> Result<Exposition, ReadError<ExpositionFault>>
    ensures { Gives (λ x. x) result (text_reading piece.now moment typed passing) }
{
    match before_last(without_newline(piece)) {
        Some(text) => {
            let said = read_lines(alloc, text, moment, typed, passing)?;
            Ok(Exposition {
                metrics: Seq::of(said.metrics),
                passed: said.passed,
                out_of_range: said.out_of_range,
            })
        }
        None => Err(ReadError::Fault(ExpositionFault {
            kind: ExpositionKind::NoEof,
            offset: piece.len(),
        })),
    }
}

/// Reads a piece as an exposition of OpenMetrics 1.0's text format: lines of metadata and of samples, and at its
/// end `# EOF`, with or without a newline behind it. Each sample whose number is a decimal gives a metric with the
/// sample's name, its labels as tags, those with an empty value left out, and the field `value`; a sample whose
/// number is an infinity or NaN is passed over and counted. With `pass_out_of_range` so is one whose number or
/// whose time is out of range, and without it that is a fault. Without a time the metric's time is the moment. With
/// `type_tag` a metric has the tag `om_type`, over a label of that name: the type of the last TYPE line before the
/// sample whose name is the sample's, or that without one of the suffixes that OpenMetrics gives, else `unknown`.
/// Metrics one behind the other share long texts that are equal.
///
/// `NotUtf8` comes before all else, then `NoEof`, then the first line with a fault. In a line a fault in the name
/// or between the braces comes first; then `BadLine`, where the line has another shape, then `BadNumber`,
/// `BadTime`, `NumberRange`, which no line has with `pass_out_of_range`, and `TooMany`. One fault refuses the
/// whole. `OutOfMemory`, at offset 0, may come in place of any answer.
#[tactic(auto, unfolding(crate::specs::Reading::reading))]
pub fn read_exposition(
    alloc: Global,
    piece: &[u8],
    moment: Moment,
    type_tag: bool,
    pass_out_of_range: bool,
) -> Result<Exposition, ExpositionFault>
    ensures { Answers result (reading piece.now moment type_tag pass_out_of_range) }
{
    let text = utf8_text(piece).map_err(|offset| ExpositionFault {
        kind: ExpositionKind::NotUtf8,
        offset,
    })?;
    let read = read_text(alloc, text, moment, type_tag, pass_out_of_range);
    answer(read, NO_MEMORY)
}
