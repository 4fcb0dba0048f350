//! The words of a line.
ghost use Rattle.std.specs.Prelude.{◌≡◌, option_map};
ghost use Rattle.text_parts.specs.Chain.{Gives};
ghost use Rattle.text_parts.specs.Words.{words_of};
ghost use Rattle.graphite_text.specs.Reading.{last_word, words_behind, line_of};
ghost use Rattle.format_words.specs.Views.{part_at};
ghost use Rattle.graphite_text.specs.Views.{line_view};

use crate::fault::{GraphiteFault, GraphiteKind, fault};
use text_parts::{Placed, ReadError, Words};

/// The words of a line: a path, a value, perhaps a time.
#[derive(Clone, Copy)]
pub(crate) struct Line<'a> {
    pub path: Placed<'a>,
    pub value: Placed<'a>,
    pub time: Option<Placed<'a>>,
}

/// The last word, where there is one.
#[tactic(auto, unfolding(crate::specs::Reading::last_word))]
fn last_word<'a>(words: &mut Words<'a>) -> Result<Option<Placed<'a>>, ReadError<GraphiteFault>>
    ensures { Gives (option_map part_at) result (last_word words.old) }
{
    let Some(time) = words.next() else {
        return Ok(None);
    };
    if words.next().is_some() {
        return Err(fault(GraphiteKind::FieldCount, 0));
    }
    Ok(Some(time))
}

/// The words of a line, given the first of them.
#[tactic(auto, unfolding(crate::specs::Reading::words_behind))]
fn words_behind<'a>(
    path: Placed<'a>,
    words: &mut Words<'a>,
) -> Result<Option<Line<'a>>, ReadError<GraphiteFault>>
    ensures { Gives (option_map line_view) result (words_behind (part_at path.entry) words.old) }
{
    let Some(value) = words.next() else {
        return Err(fault(GraphiteKind::FieldCount, 0));
    };
    let time = last_word(words)?;
    Ok(Some(Line { path, value, time }))
}

/// The words of a line, none where it has no word.
#[tactic(auto, unfolding(crate::specs::Reading::line_of))]
pub(crate) fn line_of(piece: &str) -> Result<Option<Line<'_>>, ReadError<GraphiteFault>>
    ensures { Gives (option_map line_view) result (line_of (words_of (0, piece.now))) }
{
    let mut words = Words::of(Placed {
        offset: 0,
        text: piece,
    });
    match words.next() {
        Some(path) => words_behind(path, &mut words),
        None => Ok(None),
    }
}
