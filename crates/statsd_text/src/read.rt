//! Reading a line.
ghost use Rattle.std.specs.Prelude.{◌≡◌, ◌<◌, length, IfOk, IfSome};
ghost use Rattle.std.specs.List.{AllByRecursion};
ghost use Rattle.text_parts.specs.Chain.{Gives};
ghost use Rattle.statsd_text.specs.Reading.{is_blank, line_reading, text_reading, reading};
ghost use Rattle.statsd_text.specs.TagMap.{HasValue, IsKeyed};
ghost use Rattle.statsd_text.specs.Views.{Answers, AnswersSaid, IsWholeLine, Says, SaysIf};

use crate::fault::{NO_MEMORY, StatsdFault, not_utf8};
use crate::metrics::{MOST_TAGS, metrics_of};
use crate::said::{Said, read_parts};
use crate::sections::sections;
use crate::tags::{read_head, read_later_tags, with_values};
use fixed_num::{Moment, OutOfMemory, Seq};
use metric::{Metric, Text};
use std::alloc::Global;
use std::collections::BTreeMap;
use text_parts::{ReadError, answer, utf8_text};

/// What a line says, before a metric is made of each part.
#[derive(Debug, Drop)]
pub struct LineSaid {
    /// The name, which isn't empty.
    pub name: Text,
    /// The tags that have a value, in the order of their keys, without the one of the type.
    pub tags: Vec<(Text, Text)>,
    /// What its parts say.
    pub said: Seq<Said>,
}

/// What a line says.
fn line_said(alloc: Global, piece: &str) -> Result<LineSaid, ReadError<StatsdFault>>
    ensures says { Says result (line_reading piece.now) }
    ensures named { IfOk result (λ line. 0 < length line.name) }
    ensures keyed { IfOk result (λ line. IsKeyed line.tags.items) }
    ensures valued { IfOk result (λ line. AllByRecursion HasValue line.tags.items) }
{
    let line = sections(piece)?;
    let mut tags = BTreeMap::new(alloc);
    let name = read_head(alloc, line.head, &mut tags)?;
    read_later_tags(alloc, line.tags, &mut tags)?;
    let said = read_parts(alloc, line.parts)?;
    let tags = with_values(alloc, tags)?;
    let name = Text::of(alloc, name)?;
    Ok(LineSaid { name, tags, said })
}

/// The metrics of a line.
fn line_metrics(
    alloc: Global,
    piece: &str,
    moment: Moment,
) -> Result<Seq<Metric>, ReadError<StatsdFault>>
    ensures { Gives (λ metrics. metrics) result (line_reading piece.now moment) }
{
    let LineSaid { name, tags, said } = line_said(alloc, piece)?;
    metrics_of(alloc, name, tags.as_slice(), said, moment)
}

/// Whether a text has nothing but spaces.
fn is_blank(text: &str) -> bool
    ensures { result ≡ is_blank text.now }
{
    text.as_bytes().iter().all(|byte| *byte == b' ')
}

/// The metrics of a text, none where it is blank.
#[tactic(auto, unfolding(crate::specs::Reading::text_reading))]
fn read_text(
    alloc: Global,
    piece: &str,
    moment: Moment,
) -> Result<Seq<Metric>, ReadError<StatsdFault>>
    ensures { Gives (λ metrics. metrics) result (text_reading piece.now moment) }
{
    if is_blank(piece) {
        return Ok(Seq::of(Vec::new(alloc)));
    }
    line_metrics(alloc, piece, moment)
}

/// What a text says, where it isn't blank and each metric of it has at most 64 tags.
#[tactic(auto, unfolding(crate::specs::Reading::text_reading))]
fn text_said(alloc: Global, piece: &str) -> Result<Option<LineSaid>, ReadError<StatsdFault>>
    ensures says { SaysIf result (text_reading piece.now) }
    ensures whole { IfOk result (λ line. IfSome line IsWholeLine) }
{
    if is_blank(piece) {
        return Ok(None);
    }
    let line = line_said(alloc, piece)?;
    if line.tags.len() < MOST_TAGS {
        Ok(Some(line))
    } else {
        Ok(None)
    }
}

/// What a piece says that `read_line` reads: its metrics, at any moment, are those of its parts. None where it is blank,
/// or its line has 64 tags or more that have a value: then `read_line` has to be asked. A fault is that of `read_line`.
#[tactic(auto, unfolding(crate::specs::Reading::reading))]
pub fn read_said(alloc: Global, piece: &[u8]) -> Result<Option<LineSaid>, StatsdFault>
    ensures says { AnswersSaid result (reading piece.now) }
    ensures whole { IfOk result (λ line. IfSome line IsWholeLine) }
{
    let text = utf8_text(piece).map_err(not_utf8)?;
    answer(text_said(alloc, text), NO_MEMORY)
}

/// Reads a piece without its newline as a StatsD line: a name with tags, then parts, each a value with its
/// type and perhaps a rate, then perhaps tags behind `|#`, as etsy's StatsD, DogStatsD and Telegraf have it.
/// Gives a metric for each part, in order, at the moment that is handed in; none where the piece is empty or
/// has nothing but spaces. They share the line's name and tags, and the list of a line of one part takes no memory
/// but its own. `NotUtf8` comes before all else; then the first fault of the head, of the tags
/// behind `|#`, and of the parts from left to right counts, with its offset; `TooMany` comes last, where there
/// is no other fault. `OutOfMemory`, at offset 0, may come in place of any answer.
#[tactic(auto, unfolding(crate::specs::Reading::reading))]
pub fn read_line(alloc: Global, piece: &[u8], moment: Moment) -> Result<Seq<Metric>, StatsdFault>
    ensures { Answers (λ metrics. metrics) result (reading piece.now moment) }
{
    let text = utf8_text(piece).map_err(not_utf8)?;
    answer(read_text(alloc, text, moment), NO_MEMORY)
}
