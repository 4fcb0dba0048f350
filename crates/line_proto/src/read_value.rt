//! Values and times.
ghost use Rattle.std.specs.Prelude.{◌≡◌, ◌<◌, ◌≤◌, ◌+◌, ◌==◌, length, slice_index, IfOk};
ghost use Rattle.std.specs.Str.{IsCharBoundary};
ghost use Rattle.text_parts.specs.Bytes.{double_quote};
ghost use Rattle.text_parts.specs.Chain.{Gives};
ghost use Rattle.text_parts.specs.Part.{text_at};
ghost use Rattle.text_parts.specs.Span.{IsSpan};
ghost use Rattle.line_proto.specs.Kinds.{key_part, text_part};
ghost use Rattle.fixed_num.specs.Fixed.{read_as};
ghost use Rattle.fixed_num.specs.Whole.{int_read_as, uint_read_as};
ghost use Rattle.line_proto.specs.Values.{is_one_of, true_words, false_words, truth_of, begins_truth, typed};
ghost use Rattle.line_proto.specs.Values.{number_of, value_of, time_of};
ghost use Rattle.line_proto.specs.Reading.{plain_value_at, text_value_at, is_value_end, value_at, field_at};
ghost use Rattle.line_proto.specs.Reading.{time_at, written_time_at};

use crate::fault::{LineFault, LineKind};
use crate::read_parts::{TEXT, behind_spaces, fault, key_at, text_span, unspaced_at, word_at};
use fixed_num::{Fixed, Moment, NumFault, OutOfMemory, read_int, read_uint};
use metric::{Text, Value};
use std::alloc::Global;
use text_parts::{ReadError, Span, part_text, span_text};

/// Whether a word stands for true.
fn is_true_word(text: &str) -> bool
    ensures { result ≡ is_one_of true_words text.now }
{
    matches!(text, "t" | "T" | "true" | "True" | "TRUE")
}

/// Whether a word stands for false.
fn is_false_word(text: &str) -> bool
    ensures { result ≡ is_one_of false_words text.now }
{
    matches!(text, "f" | "F" | "false" | "False" | "FALSE")
}

/// The truth value that a word names.
#[tactic(auto, unfolding(crate::specs::Values::truth_of))]
fn truth_word(text: &str) -> Option<bool>
    ensures { result ≡ truth_of text.now }
{
    if is_true_word(text) {
        Some(true)
    } else if is_false_word(text) {
        Some(false)
    } else {
        None
    }
}

/// Whether a word for a truth value begins with a byte.
fn begins_truth(byte: u8) -> bool
    ensures { result ≡ begins_truth byte }
{
    matches!(byte, b't' | b'T' | b'f' | b'F')
}

/// The truth value that a text names.
fn truth_value(text: &str) -> Option<bool>
    ensures { result ≡ truth_of text.now }
{
    let bytes = text.as_bytes();
    if bytes.is_empty() || !begins_truth(bytes[0]) {
        return None;
    }
    truth_word(text)
}

#[inline(always)]
fn int_value(text: &[u8]) -> Result<Value, LineKind>
    ensures { result ≡ typed Value.Int (int_read_as text.now) }
{
    match read_int(text) {
        Ok(number) => Ok(Value::Int(number)),
        Err(NumFault::NotANumber) => Err(LineKind::BadValue),
        Err(NumFault::NumberRange) => Err(LineKind::NumberRange),
    }
}

#[inline(always)]
fn uint_value(text: &[u8]) -> Result<Value, LineKind>
    ensures { result ≡ typed Value.Uint (uint_read_as text.now) }
{
    match read_uint(text) {
        Ok(number) => Ok(Value::Uint(number)),
        Err(NumFault::NotANumber) => Err(LineKind::BadValue),
        Err(NumFault::NumberRange) => Err(LineKind::NumberRange),
    }
}

#[inline(always)]
fn fixed_value(text: &[u8]) -> Result<Value, LineKind>
    ensures { result ≡ typed Value.Fixed (read_as text.now) }
{
    match Fixed::read(text) {
        Ok(number) => Ok(Value::Fixed(number)),
        Err(NumFault::NotANumber) => Err(LineKind::BadValue),
        Err(NumFault::NumberRange) => Err(LineKind::NumberRange),
    }
}

/// The number that a text is: a last `i` makes it an Int, a last `u` a Uint.
#[inline(always)]
#[tactic(auto, unfolding(crate::specs::Values::number_of))]
fn number_value(text: &[u8]) -> Result<Value, LineKind>
    ensures { result ≡ number_of text.now }
{
    match text {
        [front @ .., b'i'] => int_value(front),
        [front @ .., b'u'] => uint_value(front),
        _ => fixed_value(text),
    }
}

/// The value that a text is.
#[inline(always)]
#[tactic(auto, unfolding(crate::specs::Values::value_of))]
fn value_of(text: &str) -> Result<Value, LineKind>
    ensures { result ≡ value_of text.now }
{
    match truth_value(text) {
        Some(truth) => Ok(Value::Bool(truth)),
        None => number_value(text.as_bytes()),
    }
}

/// The value that begins at an offset where no double quote stands, and the offset behind it.
#[inline(always)]
#[tactic(auto, unfolding(crate::specs::Reading::plain_value_at))]
fn plain_value_at(piece: &str, i: usize) -> Result<(Value, usize), ReadError<LineFault>>
    requires boundary { IsCharBoundary piece.now i }
    ensures gives { Gives (λ x. x) result (plain_value_at piece.now i) }
    ensures behind { IfOk result (λ x. IsCharBoundary piece.now x.1) }
    ensures more { IfOk result (λ x. i ≤ x.1) }
{
    let text = word_at(piece, i);
    match value_of(text) {
        Ok(value) => Ok((value, i + text.len())),
        Err(kind) => Err(fault(kind, i)),
    }
}

/// Whether a double quote stands at an offset.
fn quote_at(bytes: &[u8], at: usize) -> bool
    ensures { result ≡ (slice_index bytes.now at == double_quote) }
{
    at < bytes.len() && bytes[at] == b'"'
}

/// Whether a comma, a space or the end stands at an offset.
fn value_ends(bytes: &[u8], at: usize) -> bool
    requires { at ≤ length bytes.now }
    ensures { result ≡ is_value_end bytes.now at }
{
    at == bytes.len() || bytes[at] == b',' || bytes[at] == b' '
}

/// The text of a span, made anew where it has a backslash.
fn text_of(alloc: Global, piece: &str, span: &Span) -> Result<Text, OutOfMemory>
    requires { IsSpan text_part piece.now span.now }
    ensures { IfOk result (λ text. text ≡ text_at text_part piece.now span.now.start) }
{
    if span.escaped {
        let text = part_text(alloc, &TEXT, piece, span.start)?;
        return Ok(Text::of_string(alloc, text)?);
    }
    Text::of(alloc, span_text(piece, span))
}

/// The text that begins with the double quote at an offset, and the offset behind it.
#[tactic(auto, unfolding(crate::specs::Reading::text_value_at))]
fn text_value_at(
    alloc: Global,
    piece: &str,
    i: usize,
) -> Result<(Value, usize), ReadError<LineFault>>
    requires boundary { IsCharBoundary piece.now (i + 1) }
    ensures gives { Gives (λ x. x) result (text_value_at piece.now i) }
    ensures behind { IfOk result (λ x. IsCharBoundary piece.now x.1) }
    ensures more { IfOk result (λ x. i ≤ x.1) }
{
    let text = text_span(piece, i + 1);
    let bytes = piece.as_bytes();
    if !quote_at(bytes, text.end) || !value_ends(bytes, text.end + 1) {
        return Err(fault(LineKind::BadValue, i));
    }
    let value = text_of(alloc, piece, &text)?;
    Ok((Value::Text(value), text.end + 1))
}

/// The value that begins at an offset, and the offset behind it.
#[inline(always)]
#[tactic(auto, unfolding(crate::specs::Reading::value_at))]
fn value_at(alloc: Global, piece: &str, i: usize) -> Result<(Value, usize), ReadError<LineFault>>
    requires boundary { IsCharBoundary piece.now i }
    ensures gives { Gives (λ x. x) result (value_at piece.now i) }
    ensures behind { IfOk result (λ x. IsCharBoundary piece.now x.1) }
    ensures more { IfOk result (λ x. i ≤ x.1) }
{
    if quote_at(piece.as_bytes(), i) {
        text_value_at(alloc, piece, i)
    } else {
        plain_value_at(piece, i)
    }
}

/// The field that begins at an offset, and the offset behind it.
#[inline(always)]
#[tactic(auto, unfolding(crate::specs::Reading::field_at))]
pub(crate) fn field_at(
    alloc: Global,
    piece: &str,
    i: usize,
) -> Result<((Span, Value), usize), ReadError<LineFault>>
    requires boundary { IsCharBoundary piece.now i }
    ensures gives { Gives (λ x. ((text_at key_part piece.now x.0.0.start, x.0.1), x.1)) result
        (field_at piece.now i) }
    ensures key { IfOk result (λ x. IsSpan key_part piece.now x.0.0) }
    ensures filled { IfOk result (λ x. x.0.0.start < x.0.0.end) }
    ensures behind { IfOk result (λ x. IsCharBoundary piece.now x.1) }
    ensures more { IfOk result (λ x. i ≤ x.1) }
{
    let key = key_at(piece, i)?;
    let (value, behind) = value_at(alloc, piece, key.end + 1)?;
    Ok(((key, value), behind))
}

/// The time that a text is.
fn time_of(text: &[u8]) -> Result<Moment, LineKind>
    ensures { result ≡ time_of text.now }
{
    match read_int(text) {
        Ok(time) => Ok(time),
        Err(NumFault::NotANumber) => Err(LineKind::BadTime),
        Err(NumFault::NumberRange) => Err(LineKind::NumberRange),
    }
}

/// The time that begins at an offset, behind which nothing but spaces may follow.
#[tactic(auto, unfolding(crate::specs::Reading::written_time_at))]
fn written_time_at(piece: &[u8], i: usize) -> Result<Moment, ReadError<LineFault>>
    requires { i ≤ length piece.now }
    ensures { Gives (λ x. x) result (written_time_at piece.now i) }
{
    let text = unspaced_at(piece, i);
    match time_of(text) {
        Err(kind) => Err(fault(kind, i)),
        Ok(time) => {
            let end = behind_spaces(piece, i + text.len());
            if end == piece.len() {
                Ok(time)
            } else {
                Err(fault(LineKind::BadTime, end))
            }
        }
    }
}

/// The time behind the spaces that stand at an offset, or the moment where none is written.
#[tactic(auto, unfolding(crate::specs::Reading::time_at))]
pub(crate) fn time_at(
    piece: &[u8],
    i: usize,
    moment: Moment,
) -> Result<Moment, ReadError<LineFault>>
    requires { i ≤ length piece.now }
    ensures { Gives (λ x. x) result (time_at piece.now i moment) }
{
    let start = behind_spaces(piece, i);
    if start == piece.len() {
        return Ok(moment);
    }
    written_time_at(piece, start)
}
