//! Reading a line.
ghost use Rattle.std.specs.Prelude.{◌≡◌, List, [], IfOk, IfErr};
ghost use Rattle.std.specs.Str.{IsCharBoundary};
ghost use Rattle.text_parts.specs.Chain.{Fails, Gives};
ghost use Rattle.metric.specs.Draft.{Tag, Field, StandsFor, IsReady};
ghost use Rattle.line_proto.specs.Draft.{HasRest};
ghost use Rattle.line_proto.specs.Reading.{fields_at, spaced_fields_at, limited, metric_at, text_reading, reading};
ghost use Rattle.line_proto.specs.Views.{Answers};

use crate::fault::{LineFault, LineKind, NO_MEMORY};
use crate::read_items::{name_text, read_fields, read_tags};
use crate::read_parts::{behind_spaces, fault, name_at};
use crate::read_value::time_at;
use fixed_num::Moment;
use metric::{Draft, DraftFault, Metric};
use std::alloc::Global;
use text_parts::{ReadError, answer, utf8_text};

/// The offset of the fields behind the spaces at an offset.
#[tactic(auto, unfolding(crate::specs::Reading::spaced_fields_at))]
fn fields_start(piece: &str, i: usize) -> Result<usize, ReadError<LineFault>>
    requires { IsCharBoundary piece.now i }
    ensures boundary { IfOk result (λ start. IsCharBoundary piece.now start) }
    ensures there { IfOk result (λ start. spaced_fields_at piece.now i ≡ fields_at piece.now start) }
    ensures none { IfErr result (λ e. Fails e (spaced_fields_at piece.now i)) }
{
    let start = behind_spaces(piece.as_bytes(), i);
    if start == piece.len() {
        return Err(fault(LineKind::NoFields, start));
    }
    Ok(start)
}

/// The metric of a draft at a time, unless there are too many tags or fields.
#[inline(always)]
fn finish(draft: Draft, time: Moment) -> Result<Option<Metric>, ReadError<LineFault>>
    requires { IsReady draft }
    ensures { (tags : List Tag) (fields : List Field) → StandsFor draft tags fields
        → Gives (λ x. x) result
        (limited (record { name = draft.parts.name; tags = tags; fields = fields; time = time })) }
{
    match draft.finish(time) {
        Ok(metric) => Ok(Some(metric)),
        Err(DraftFault::OutOfMemory) => Err(ReadError::OutOfMemory),
        Err(DraftFault::TooMany) => Err(fault(LineKind::TooMany, 0)),
    }
}

/// Puts the tags and the fields that stand behind a measurement into a draft that has none, and gives the time of the
/// line.
fn read_rest(
    alloc: Global,
    piece: &str,
    i: usize,
    moment: Moment,
    draft: &mut Draft,
) -> Result<Moment, ReadError<LineFault>>
    requires boundary { IsCharBoundary piece.now i }
    requires none { StandsFor draft.old [] [] }
    ensures name { draft.new.parts.name ≡ draft.old.parts.name }
    ensures rest { HasRest draft.new piece.now i moment result }
{
    let i = read_tags(alloc, piece, i, draft)?;
    let start = fields_start(piece, i)?;
    let i = read_fields(alloc, piece, start, draft)?;
    time_at(piece.as_bytes(), i, moment)
}

/// The metric of the line that begins at an offset.
fn metric_at(
    alloc: Global,
    piece: &str,
    i: usize,
    moment: Moment,
) -> Result<Option<Metric>, ReadError<LineFault>>
    requires boundary { IsCharBoundary piece.now i }
    ensures { Gives (λ x. x) result (metric_at piece.now i moment) }
{
    let name = name_at(piece, i)?;
    let mut draft = Draft::of(alloc, name_text(alloc, piece, &name)?);
    let time = read_rest(alloc, piece, name.end, moment, &mut draft)?;
    finish(draft, time)
}

/// The metric that a text is, or none where it is blank or a comment.
#[tactic(auto, unfolding(crate::specs::Reading::text_reading))]
fn read_text(
    alloc: Global,
    piece: &str,
    moment: Moment,
) -> Result<Option<Metric>, ReadError<LineFault>>
    ensures { Gives (λ x. x) result (text_reading piece.now moment) }
{
    let start = behind_spaces(piece.as_bytes(), 0);
    if start == piece.len() || piece.as_bytes()[start] == b'#' {
        return Ok(None);
    }
    metric_at(alloc, piece, start, moment)
}

/// Reads a piece without its newline as a line of line protocol. `NotUtf8` comes before all else, in comments
/// too. `None` exactly where the piece is blank (nothing but spaces) or a comment (its first byte other than
/// a space is `#`). Where the line has no time, the moment is its time. The first fault from left to right
/// counts, with its offset, which may be the length of the piece; `TooMany` comes last, where the line has no
/// other fault. `OutOfMemory` may come in place of any answer.
#[tactic(auto, unfolding(crate::specs::Reading::reading))]
pub fn read_line(alloc: Global, piece: &[u8], moment: Moment) -> Result<Option<Metric>, LineFault>
    ensures { Answers result (reading piece.now moment) }
{
    let text = utf8_text(piece).map_err(|offset| LineFault {
        kind: LineKind::NotUtf8,
        offset,
    })?;
    answer(read_text(alloc, text, moment), NO_MEMORY)
}
