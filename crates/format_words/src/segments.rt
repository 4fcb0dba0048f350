//! Segments between dots, and pairs of a key and a value.
ghost use Rattle.std.specs.Prelude.{◌≡◌, ◌<◌, option_map};
ghost use Rattle.text_parts.specs.Chain.{Gives};
ghost use Rattle.format_words.specs.Segments.{segment, segments_of, pair, pairs_of};
ghost use Rattle.format_words.specs.Views.{part_at, texts_view, tag_view, tags_view};

use crate::fault::ShapeFault;
use std::alloc::Global;
use text_parts::{Placed, ReadError, Separated, first_part};

/// Segments and pairs that find room before memory is asked for again.
const ROOM: usize = 8;

/// A text isn't of the form that is wanted.
pub(crate) fn malformed() -> ReadError<ShapeFault>
    ensures { result ≡ ReadError.Fault ShapeFault.Malformed }
{
    ReadError::Fault(ShapeFault::Malformed)
}

/// A segment, which isn't empty.
#[tactic(auto, unfolding(crate::specs::Segments::segment))]
fn segment<'a>(part: &Placed<'a>) -> Result<&'a str, ReadError<ShapeFault>>
    ensures { Gives (λ text. text.now) result (segment (part_at part.now)) }
{
    if part.text.is_empty() {
        return Err(malformed());
    }
    Ok(part.text)
}

/// The segments of a text between its dots.
#[inline(always)]
pub fn segments_of(alloc: Global, text: &str) -> Result<Vec<&str>, ReadError<ShapeFault>>
    ensures { Gives texts_view result (segments_of text.now) }
{
    let mut parts = Separated::of(b'.', Placed { offset: 0, text });
    let mut segments = Vec::with_capacity(alloc, ROOM)?;
    while let Some(part) = parts.next() {
        let text = segment(&part)?;
        segments.push(text)?;
    }
    Ok(segments)
}

/// A key and its value, split at the first `=`.
#[tactic(auto, unfolding(crate::specs::Segments::pair))]
fn pair<'a>(part: &Placed<'a>) -> Result<(&'a str, &'a str), ReadError<ShapeFault>>
    ensures { Gives tag_view result (pair (part_at part.now)) }
{
    let (key, value) = first_part(b'=', part.text);
    let Some(value) = value else {
        return Err(malformed());
    };
    if key.is_empty() || value.is_empty() {
        return Err(malformed());
    }
    Ok((key, value))
}

/// The pairs of a text between its separators.
fn read_pairs(
    alloc: Global,
    separator: u8,
    text: &str,
) -> Result<Vec<(&str, &str)>, ReadError<ShapeFault>>
    requires ascii { separator < 128 }
    ensures { Gives tags_view result (pairs_of separator (Some text.now)) }
{
    let mut parts = Separated::of(separator, Placed { offset: 0, text });
    let mut pairs = Vec::with_capacity(alloc, ROOM)?;
    while let Some(part) = parts.next() {
        let tag = pair(&part)?;
        pairs.push(tag)?;
    }
    Ok(pairs)
}

/// The pairs of a text between its separators; of no text there are none.
#[inline(always)]
pub fn pairs_of<'a>(
    alloc: Global,
    separator: u8,
    text: Option<&'a str>,
) -> Result<Vec<(&'a str, &'a str)>, ReadError<ShapeFault>>
    requires ascii { separator < 128 }
    ensures { Gives tags_view result (pairs_of separator (option_map (λ t. t.now) text.entry)) }
{
    match text {
        Some(text) => read_pairs(alloc, separator, text),
        None => Ok(Vec::new(alloc)),
    }
}
