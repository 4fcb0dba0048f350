//! Parts of a piece, found in one pass and copied only where they have escapes.
ghost use Rattle.std.specs.Prelude.{◌≡◌, ◌≤◌, ◌==◌, ◌||◌, false, length, slice_range};
ghost use Rattle.std.specs.List.{list_any, position_or_len};
ghost use Rattle.std.specs.Str.{IsCharBoundary};
ghost use Rattle.text_parts.specs.Bytes.{backslash};
ghost use Rattle.text_parts.specs.Kinds.{kind_of, ends_of, IsAsciiPart};
ghost use Rattle.text_parts.specs.Span.{IsSpan};

use crate::part::{Part, part_len};
use crate::stops::first_of;

/// Where a part stands in a piece.
#[derive(Clone, Copy, Debug, PartialEq, Eq)]
pub struct Span {
    /// The offset of its first byte.
    pub start: usize,
    /// The offset behind its last byte.
    pub end: usize,
    /// Whether it has a backslash. If not its text is what stands there; else `part_text` gives it.
    pub escaped: bool,
}

/// The first byte that ends a part, or backslash; the length where there is none.
#[inline(always)]
fn stop_at(part: &Part, bytes: &[u8]) -> usize
    ensures value { result ≡ position_or_len (λ b. ends_of part.now b || b == backslash) bytes.now }
    ensures bound { result ≤ length bytes.now }
{
    first_of([part.ends[0], part.ends[1], part.ends[2], b'\\'], bytes)
}

/// Where the part stands that begins at an offset of a piece. Escapes are looked at only behind the first backslash.
#[inline(always)]
pub fn span_at(part: &Part, piece: &str, i: usize) -> Span
    requires boundary { IsCharBoundary piece.now i }
    requires ascii { IsAsciiPart part.now }
    ensures start { result.start ≡ i }
    ensures span { IsSpan (kind_of part.now) piece.now result }
    ensures escaped { ends_of part.now backslash ≡ false → result.escaped
        ≡ list_any (λ b. b == backslash) (slice_range piece.now result.start result.end) }
{
    let bytes = piece.as_bytes();
    let (_, rest) = bytes.split_at(i);
    let first = stop_at(part, rest);
    if first < rest.len() && rest[first] == b'\\' {
        let (_, tail) = rest.split_at(first);
        return Span {
            start: i,
            end: i + first + part_len(part, tail),
            escaped: true,
        };
    }
    Span {
        start: i,
        end: i + first,
        escaped: false,
    }
}

/// What stands between the offsets of a span, which is the text of its part where it has no backslash.
#[inline(always)]
pub fn span_text<'a>(piece: &'a str, span: &Span) -> &'a str
    requires first { IsCharBoundary piece.now span.now.start }
    requires last { IsCharBoundary piece.now span.now.end }
    requires order { span.now.start ≤ span.now.end }
    ensures { result.now ≡ slice_range piece.now span.now.start span.now.end }
{
    &piece[span.start..span.end]
}
