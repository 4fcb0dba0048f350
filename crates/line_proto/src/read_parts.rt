//! The parts of a line: names, keys, tag values, texts and words.
ghost use Rattle.std.specs.Prelude.{◌≡◌, ◌==◌, ◌||◌, ◌+◌, ◌<◌, ◌≤◌, not, length, take, drop, slice_index};
ghost use Rattle.std.specs.Prelude.{IfOk};
ghost use Rattle.std.specs.List.{position, position_or_len};
ghost use Rattle.std.specs.Str.{IsUtf8, IsCharBoundary};
ghost use Rattle.text_parts.specs.Bytes.{equals_sign};
ghost use Rattle.text_parts.specs.Chain.{Gives};
ghost use Rattle.text_parts.specs.Part.{IsPartAt, text_at};
ghost use Rattle.text_parts.specs.Span.{IsSpan};
ghost use Rattle.line_proto.specs.Kinds.{name_part, key_part, tag_value_part, text_part, value_part};
ghost use Rattle.line_proto.specs.Reading.{name_at, key_at, tag_value_at, tag_at, behind_spaces, time_len};

use crate::fault::{LineFault, LineKind};
use text_parts::{Part, ReadError, Span, first_of, span_at};

/// What ends a measurement and the value of a tag.
const NAME_ENDS: [u8; 3] = [b',', b' ', b' '];

/// What a backslash hides in keys and the values of tags.
const KEY_ESCAPES: [u8; 3] = [b',', b'=', b' '];

/// A measurement.
pub(crate) const NAME: Part = Part {
    ends: NAME_ENDS,
    escapes: [b',', b' ', b' '],
    newlines: false,
};

/// The key of a tag or a field.
pub(crate) const KEY: Part = Part {
    ends: [b'=', b',', b' '],
    escapes: KEY_ESCAPES,
    newlines: false,
};

/// The value of a tag.
pub(crate) const TAG_VALUE: Part = Part {
    ends: NAME_ENDS,
    escapes: KEY_ESCAPES,
    newlines: false,
};

/// A text between double quotes.
pub(crate) const TEXT: Part = Part {
    ends: [b'"', b'"', b'"'],
    escapes: [b'"', b'\\', b'\\'],
    newlines: false,
};

/// A fault at an offset.
pub(crate) fn fault(kind: LineKind, offset: usize) -> ReadError<LineFault>
    ensures { result ≡ ReadError.Fault (record { kind = kind; offset = offset }) }
{
    ReadError::Fault(LineFault { kind, offset })
}

/// Where the measurement stands that begins at an offset.
fn name_span(piece: &str, i: usize) -> Span
    requires boundary { IsCharBoundary piece.now i }
    ensures start { result.start ≡ i }
    ensures span { IsSpan name_part piece.now result }
{
    span_at(&NAME, piece, i)
}

/// Where the key stands that begins at an offset.
#[inline(always)]
fn key_span(piece: &str, i: usize) -> Span
    requires boundary { IsCharBoundary piece.now i }
    ensures start { result.start ≡ i }
    ensures span { IsSpan key_part piece.now result }
{
    span_at(&KEY, piece, i)
}

/// Where the value of a tag stands that begins at an offset.
#[inline(always)]
fn tag_value_span(piece: &str, i: usize) -> Span
    requires boundary { IsCharBoundary piece.now i }
    ensures start { result.start ≡ i }
    ensures span { IsSpan tag_value_part piece.now result }
{
    span_at(&TAG_VALUE, piece, i)
}

/// Where the text stands that begins at an offset, behind its double quote.
pub(crate) fn text_span(piece: &str, i: usize) -> Span
    requires boundary { IsCharBoundary piece.now i }
    ensures start { result.start ≡ i }
    ensures span { IsSpan text_part piece.now result }
{
    span_at(&TEXT, piece, i)
}

/// The first comma or space; the length where there is none.
fn word_end(bytes: &[u8]) -> usize
    ensures value { result ≡ position_or_len (λ b. b == 44 || b == 32) bytes.now }
    ensures bound { result ≤ length bytes.now }
{
    first_of([b',', b' ', b' ', b' '], bytes)
}

/// The first space; the length where there is none.
fn first_space(bytes: &[u8]) -> usize
    ensures value { result ≡ position_or_len (λ b. b == 32) bytes.now }
    ensures bound { result ≤ length bytes.now }
{
    first_of([b' '; 4], bytes)
}

/// The first byte other than a space.
fn first_other(bytes: &[u8]) -> Option<usize>
    ensures { result ≡ position (λ b. not (b == 32)) bytes.now }
{
    bytes.iter().position(|b| *b != b' ')
}

/// What stands at an offset before the next comma or space: a value that is no text.
#[inline(always)]
pub(crate) fn word_at(piece: &str, i: usize) -> &str
    requires boundary { IsCharBoundary piece.now i }
    ensures value { IsPartAt value_part piece.now i result.now }
    ensures end { IsCharBoundary piece.now (i + length result.now) }
{
    let (_, rest) = piece.split_at(i);
    let (word, _) = rest.split_at(word_end(rest.as_bytes()));
    word
}

/// What stands at an offset before the next space.
pub(crate) fn unspaced_at(piece: &[u8], i: usize) -> &[u8]
    requires { i ≤ length piece.now }
    ensures len { length result.now ≡ time_len piece.now i }
    ensures value { result.now ≡ take (time_len piece.now i) (drop i piece.now) }
    ensures end { i + length result.now ≤ length piece.now }
{
    let (_, rest) = piece.split_at(i);
    let (word, _) = rest.split_at(first_space(rest));
    word
}

/// The offset behind the spaces that stand at an offset.
pub(crate) fn behind_spaces(piece: &[u8], i: usize) -> usize
    requires { i ≤ length piece.now }
    ensures value { result ≡ behind_spaces piece.now i }
    ensures end { result ≤ length piece.now }
    ensures boundary { IsUtf8 piece.now → IsCharBoundary piece.now i → IsCharBoundary piece.now result }
{
    let (_, rest) = piece.split_at(i);
    i + first_other(rest).unwrap_or(rest.len())
}

/// The measurement that begins at an offset.
#[tactic(auto, unfolding(crate::specs::Reading::name_at))]
pub(crate) fn name_at(piece: &str, i: usize) -> Result<Span, ReadError<LineFault>>
    requires boundary { IsCharBoundary piece.now i }
    ensures gives { Gives (λ x. (text_at name_part piece.now x.start, x.end)) result (name_at piece.now i) }
    ensures span { IfOk result (λ x. IsSpan name_part piece.now x) }
    ensures filled { IfOk result (λ x. x.start < x.end) }
{
    let name = name_span(piece, i);
    if name.start == name.end {
        return Err(fault(LineKind::BadKey, i));
    }
    Ok(name)
}

/// Whether an equals sign stands at an offset.
fn equals_at(bytes: &[u8], at: usize) -> bool
    ensures { result ≡ (slice_index bytes.now at == equals_sign) }
{
    at < bytes.len() && bytes[at] == b'='
}

/// The key that begins at an offset, behind which an equals sign stands.
#[inline(always)]
#[tactic(auto, unfolding(crate::specs::Reading::key_at))]
pub(crate) fn key_at(piece: &str, i: usize) -> Result<Span, ReadError<LineFault>>
    requires boundary { IsCharBoundary piece.now i }
    ensures gives { Gives (λ x. (text_at key_part piece.now x.start, x.end + 1)) result (key_at piece.now i) }
    ensures span { IfOk result (λ x. IsSpan key_part piece.now x) }
    ensures filled { IfOk result (λ x. x.start < x.end) }
    ensures behind { IfOk result (λ x. IsCharBoundary piece.now (x.end + 1)) }
    ensures more { IfOk result (λ x. i < x.end) }
{
    let key = key_span(piece, i);
    if key.start == key.end || !equals_at(piece.as_bytes(), key.end) {
        return Err(fault(LineKind::BadKey, i));
    }
    Ok(key)
}

/// The value of a tag that begins at an offset.
#[inline(always)]
#[tactic(auto, unfolding(crate::specs::Reading::tag_value_at))]
fn tag_value_at(piece: &str, i: usize) -> Result<Span, ReadError<LineFault>>
    requires boundary { IsCharBoundary piece.now i }
    ensures gives { Gives (λ x. (text_at tag_value_part piece.now x.start, x.end)) result
        (tag_value_at piece.now i) }
    ensures span { IfOk result (λ x. IsSpan tag_value_part piece.now x) }
    ensures more { IfOk result (λ x. i < x.end) }
{
    let value = tag_value_span(piece, i);
    if value.start == value.end {
        return Err(fault(LineKind::BadValue, i));
    }
    Ok(value)
}

/// The tag that begins at an offset.
#[inline(always)]
#[tactic(auto, unfolding(crate::specs::Reading::tag_at))]
pub(crate) fn tag_at(piece: &str, i: usize) -> Result<(Span, Span), ReadError<LineFault>>
    requires boundary { IsCharBoundary piece.now i }
    ensures gives { Gives
        (λ x. ((text_at key_part piece.now x.0.start, text_at tag_value_part piece.now x.1.start), x.1.end))
        result (tag_at piece.now i) }
    ensures key { IfOk result (λ x. IsSpan key_part piece.now x.0) }
    ensures filled { IfOk result (λ x. x.0.start < x.0.end) }
    ensures value { IfOk result (λ x. IsSpan tag_value_part piece.now x.1) }
    ensures more { IfOk result (λ x. i ≤ x.1.end) }
{
    let key = key_at(piece, i)?;
    let value = tag_value_at(piece, key.end + 1)?;
    Ok((key, value))
}
