//! The tags and the fields of a line.
ghost use Rattle.std.specs.Prelude.{◌≡◌, ◌<◌, ◌≤◌, ◌==◌, ◌++◌, List, [], ◌∷◌, length, slice_index, IfOk};
ghost use Rattle.std.specs.Prelude.{IfErr};
ghost use Rattle.std.specs.Str.{IsCharBoundary};
ghost use Rattle.text_parts.specs.Bytes.{comma};
ghost use Rattle.text_parts.specs.Part.{text_at};
ghost use Rattle.text_parts.specs.Span.{IsSpan};
ghost use Rattle.text_parts.specs.declared.error.ReadError.TheVariants.{OutOfMemory};
ghost use Rattle.metric.specs.Draft.{StandsFor, Tag, Field};
ghost use Rattle.line_proto.specs.Draft.{HasTags, HasFields};
ghost use Rattle.line_proto.specs.Kinds.{name_part, key_part, tag_value_part};
ghost use Rattle.line_proto.specs.Reading.{tags_at, fields_at};

use crate::fault::LineFault;
use crate::read_parts::{KEY, NAME, TAG_VALUE, tag_at};
use crate::read_value::field_at;
use metric::{Draft, Text, Value};
use std::alloc::Global;
use text_parts::{ReadError, Span, part_text, span_text};

/// Whether a comma stands at an offset.
fn comma_at(piece: &str, at: usize) -> bool
    ensures { result ≡ (slice_index piece.now at == comma) }
{
    at < piece.len() && piece.as_bytes()[at] == b','
}

/// The measurement that stands there.
#[inline(always)]
pub(crate) fn name_text(
    alloc: Global,
    piece: &str,
    name: &Span,
) -> Result<Text, ReadError<LineFault>>
    requires { IsSpan name_part piece.now name.now }
    ensures text { IfOk result (λ text. text ≡ text_at name_part piece.now name.now.start) }
    ensures err { IfErr result (λ e. e ≡ OutOfMemory) }
{
    if name.escaped {
        let name = part_text(alloc, &NAME, piece, name.start)?;
        return Ok(Text::of(alloc, name.as_str())?);
    }
    Ok(Text::of(alloc, span_text(piece, name))?)
}

/// Puts a tag into a draft.
#[inline(always)]
fn put_tag(
    alloc: Global,
    piece: &str,
    key: &Span,
    value: &Span,
    draft: &mut Draft,
) -> Result<(), ReadError<LineFault>>
    requires key { IsSpan key_part piece.now key.now }
    requires filled { key.now.start < key.now.end }
    requires value { IsSpan tag_value_part piece.now value.now }
    ensures name { draft.new.parts.name ≡ draft.old.parts.name }
    ensures ok { IfOk result (λ done. (tags : List Tag) (fields : List Field)
        → StandsFor draft.old tags fields → StandsFor draft.new (tags ++ (
          text_at key_part piece.now key.now.start,
          text_at tag_value_part piece.now value.now.start,
        ) ∷ []) fields) }
    ensures err { IfErr result (λ e. e ≡ OutOfMemory) }
{
    if key.escaped || value.escaped {
        let key = part_text(alloc, &KEY, piece, key.start)?;
        let value = part_text(alloc, &TAG_VALUE, piece, value.start)?;
        return Ok(draft.tag(key.as_str(), value.as_str())?);
    }
    draft.tag(span_text(piece, key), span_text(piece, value))?;
    Ok(())
}

/// Puts a field into a draft.
#[inline(always)]
fn put_field(
    alloc: Global,
    piece: &str,
    key: &Span,
    value: Value,
    draft: &mut Draft,
) -> Result<(), ReadError<LineFault>>
    requires key { IsSpan key_part piece.now key.now }
    requires filled { key.now.start < key.now.end }
    ensures name { draft.new.parts.name ≡ draft.old.parts.name }
    ensures ok { IfOk result (λ done. (tags : List Tag) (fields : List Field)
        → StandsFor draft.old tags fields
        → StandsFor draft.new tags (fields ++ (text_at key_part piece.now key.now.start, value) ∷ [])) }
    ensures err { IfErr result (λ e. e ≡ OutOfMemory) }
{
    if key.escaped {
        let key = part_text(alloc, &KEY, piece, key.start)?;
        return Ok(draft.field(key.as_str(), value)?);
    }
    draft.field(span_text(piece, key), value)?;
    Ok(())
}

/// Puts the tags that stand at an offset into a draft, and gives the offset behind them.
pub(crate) fn read_tags(
    alloc: Global,
    piece: &str,
    i: usize,
    draft: &mut Draft,
) -> Result<usize, ReadError<LineFault>>
    requires boundary { IsCharBoundary piece.now i }
    requires none { StandsFor draft.old [] [] }
    ensures name { draft.new.parts.name ≡ draft.old.parts.name }
    ensures tags { HasTags draft.new result (tags_at piece.now i) }
    ensures behind { IfOk result (λ x. IsCharBoundary piece.now x) }
{
    let mut at = i;
    while comma_at(piece, at) {
        let (key, value) = tag_at(piece, at + 1)?;
        put_tag(alloc, piece, &key, &value, draft)?;
        at = value.end;
    }
    Ok(at)
}

/// Puts the fields that stand at an offset into a draft, and gives the offset behind them.
pub(crate) fn read_fields(
    alloc: Global,
    piece: &str,
    i: usize,
    draft: &mut Draft,
) -> Result<usize, ReadError<LineFault>>
    requires boundary { IsCharBoundary piece.now i }
    ensures name { draft.new.parts.name ≡ draft.old.parts.name }
    ensures fields { (tags : List Tag) → StandsFor draft.old tags []
        → HasFields draft.new tags result (fields_at piece.now i) }
    ensures behind { IfOk result (λ x. x ≤ length piece.now) }
{
    let ((key, value), behind) = field_at(alloc, piece, i)?;
    put_field(alloc, piece, &key, value, draft)?;
    let mut at = behind;
    while comma_at(piece, at) {
        let ((key, value), behind) = field_at(alloc, piece, at + 1)?;
        put_field(alloc, piece, &key, value, draft)?;
        at = behind;
    }
    Ok(at)
}
