//! Metrics as lines of InfluxDB line protocol.
ghost use Rattle.std.specs.Prelude.{◌≡◌, ◌++◌, not, true, flat_map, codes, OnOk, OnErr};
ghost use Rattle.std.specs.List.{list_all, join_by};
ghost use Rattle.metric.specs.Plain.{is_plain};
ghost use Rattle.line_proto.specs.OneLine.{ends_line};
ghost use Rattle.line_proto.specs.LineText.{spaced, on_one_line, trimmed, text_escapes, name_text, key_text};
ghost use Rattle.line_proto.specs.LineText.{value_text, tag_text, field_text, head_text, line_text, untimed_text};
ghost use Rattle.text_parts.specs.Escaped.{escaped};
ghost use Rattle.text_parts.specs.Marks.{escapes_of};
ghost use Rattle.text_parts.specs.Adds.{Adds};

use fixed_num::OutOfMemory;
use metric::{Metric, Text, Value};
use std::alloc::Global;
use text_buffer::TextBuffer;
use text_parts::{
    Marks, append_escaped, append_escaped_byte, append_int, append_signed, append_uint,
    append_words, settle,
};

/// Appends a metric's line: `measurement,key=value.. field=value,.. time` and a newline, the tags in the
/// order of their keys, the fields in theirs, the time in nanoseconds since 1970. A newline or carriage
/// return inside a text is written as a space. In the measurement, in keys and in tag values backslashes at
/// the end are left out, and `_` is written where nothing stays; a `#` at the front of the measurement is
/// written as `_`. After OutOfMemory `out` is as before.
pub fn write_line(alloc: Global, metric: &Metric, out: &mut TextBuffer) -> Result<(), OutOfMemory>
    ensures ok { OnOk result (out.new.items ≡ out.old.items ++ line_text metric.now) }
    ensures err { OnErr result (out.new.items ≡ out.old.items) }
{
    let before = out.len();
    let written = append_metric(alloc, metric, out);
    settle(out, before, written)
}

/// Appends a metric's line without its time: `measurement,key=value.. field=value,..` and a newline, each as `write_line`
/// writes it. Who reads it gives it the moment at which it is read. After OutOfMemory `out` is as before.
pub fn write_untimed(
    alloc: Global,
    metric: &Metric,
    out: &mut TextBuffer,
) -> Result<(), OutOfMemory>
    ensures ok { OnOk result (out.new.items ≡ out.old.items ++ untimed_text metric.now) }
    ensures err { OnErr result (out.new.items ≡ out.old.items) }
{
    let before = out.len();
    let written = append_untimed(alloc, metric, out);
    settle(out, before, written)
}

/// Bytes for which room is made before a line is written, so that most lines grow the text once at most.
const LIKELY: usize = 256;

#[tactic(auto, unfolding(crate::specs::LineText::line_text))]
fn append_metric(alloc: Global, metric: &Metric, out: &mut TextBuffer) -> Result<(), OutOfMemory>
    ensures { Adds result out.old.items out.new.items (line_text metric.now) }
{
    out.reserve(LIKELY)?;
    append_head(alloc, metric, out)?;
    append_signed(out, " ", &metric.time())?;
    out.push(b'\n')?;
    Ok(())
}

#[tactic(auto, unfolding(crate::specs::LineText::untimed_text))]
fn append_untimed(alloc: Global, metric: &Metric, out: &mut TextBuffer) -> Result<(), OutOfMemory>
    ensures { Adds result out.old.items out.new.items (untimed_text metric.now) }
{
    out.reserve(LIKELY)?;
    append_head(alloc, metric, out)?;
    out.push(b'\n')?;
    Ok(())
}

/// Appends the measurement, the tags and the fields.
#[tactic(auto, unfolding(crate::specs::LineText::head_text))]
fn append_head(alloc: Global, metric: &Metric, out: &mut TextBuffer) -> Result<(), OutOfMemory>
    ensures { Adds result out.old.items out.new.items (head_text metric.now) }
{
    append_name(metric.name(), out)?;
    append_tags(metric.tags(), out)?;
    out.push(b' ')?;
    append_fields(alloc, metric.fields(), out)
}

fn append_tags(tags: &[(Text, Text)], out: &mut TextBuffer) -> Result<(), OutOfMemory>
    ensures { Adds result out.old.items out.new.items (flat_map tag_text tags.now) }
{
    for tag in tags {
        append_tag(tag, out)?;
    }
    Ok(())
}

#[tactic(auto, unfolding(crate::specs::LineText::tag_text))]
fn append_tag(tag: &(Text, Text), out: &mut TextBuffer) -> Result<(), OutOfMemory>
    ensures { Adds result out.old.items out.new.items (tag_text tag.now) }
{
    out.push(b',')?;
    append_key(&tag.0, out)?;
    out.push(b'=')?;
    append_key(&tag.1, out)
}

fn append_fields(
    alloc: Global,
    fields: &[(Text, Value)],
    out: &mut TextBuffer,
) -> Result<(), OutOfMemory>
    ensures { Adds result out.old.items out.new.items (join_by field_text (codes ",") fields.now) }
{
    match fields {
        [] => Ok(()),
        [first, rest @ ..] => {
            append_field(alloc, first, out)?;
            append_rest(alloc, rest, out)
        }
    }
}

/// Appends fields, each behind a comma.
fn append_rest(
    alloc: Global,
    fields: &[(Text, Value)],
    out: &mut TextBuffer,
) -> Result<(), OutOfMemory>
    ensures { Adds result out.old.items out.new.items
        (flat_map (λ field. codes "," ++ field_text field) fields.now) }
{
    for field in fields {
        append_next(alloc, field, out)?;
    }
    Ok(())
}

/// Appends a comma and a field.
fn append_next(
    alloc: Global,
    field: &(Text, Value),
    out: &mut TextBuffer,
) -> Result<(), OutOfMemory>
    ensures { Adds result out.old.items out.new.items (codes "," ++ field_text field.now) }
{
    out.push(b',')?;
    append_field(alloc, field, out)
}

#[tactic(auto, unfolding(crate::specs::LineText::field_text))]
fn append_field(
    alloc: Global,
    field: &(Text, Value),
    out: &mut TextBuffer,
) -> Result<(), OutOfMemory>
    ensures { Adds result out.old.items out.new.items (field_text field.now) }
{
    append_key(&field.0, out)?;
    out.push(b'=')?;
    append_value(alloc, &field.1, out)
}

#[tactic(auto, unfolding(crate::specs::LineText::value_text))]
fn append_value(alloc: Global, value: &Value, out: &mut TextBuffer) -> Result<(), OutOfMemory>
    ensures { Adds result out.old.items out.new.items (value_text value.now) }
{
    match value {
        Value::Int(n) => {
            append_int(out, n)?;
            out.push(b'i')?;
        }
        Value::Uint(n) => {
            append_uint(out, *n)?;
            out.push(b'u')?;
        }
        Value::Fixed(n) => n.append(alloc, out)?,
        Value::Bool(true) => append_words(out, "true")?,
        Value::Bool(false) => append_words(out, "false")?,
        Value::Text(text) => return append_quoted(text, out),
    }
    Ok(())
}

/// Appends a text between double quotes.
fn append_quoted(text: &Text, out: &mut TextBuffer) -> Result<(), OutOfMemory>
    ensures { Adds result out.old.items out.new.items
        (codes "\"" ++ escaped text_escapes (on_one_line text.now) ++ codes "\"") }
{
    out.push(b'"')?;
    append_inside(text, out)?;
    out.push(b'"')?;
    Ok(())
}

/// Appends a text as it stands between double quotes.
fn append_inside(text: &Text, out: &mut TextBuffer) -> Result<(), OutOfMemory>
    ensures { Adds result out.old.items out.new.items (escaped text_escapes (on_one_line text.now)) }
{
    append_part(out, &TEXT_MARKS, text, text.as_str().as_bytes())
}

/// Appends a measurement.
#[tactic(auto, unfolding(crate::specs::LineText::name_text))]
fn append_name(name: &Text, out: &mut TextBuffer) -> Result<(), OutOfMemory>
    ensures { Adds result out.old.items out.new.items (name_text name.now) }
{
    let kept = trim(name.as_str().as_bytes());
    if kept.is_empty() {
        return Ok(out.push(b'_')?);
    }
    if kept[0] == b'#' {
        out.push(b'_')?;
        return append_in_line(out, &NAME_MARKS, &kept[1..]);
    }
    append_part(out, &NAME_MARKS, name, kept)
}

/// Appends a key or the value of a tag.
fn append_key(key: &Text, out: &mut TextBuffer) -> Result<(), OutOfMemory>
    ensures { Adds result out.old.items out.new.items (key_text key.now) }
{
    if key.is_known_plain() {
        return append_plain_key(key, out);
    }
    append_any_key(key, out)
}

/// The same, of a plain text, in which nothing is escaped and left out.
#[inline(always)]
fn append_plain_key(key: &Text, out: &mut TextBuffer) -> Result<(), OutOfMemory>
    requires { list_all is_plain key.now ≡ true }
    ensures { Adds result out.old.items out.new.items (key_text key.now) }
{
    if key.as_str().is_empty() {
        return Ok(out.push(b'_')?);
    }
    key.append(out)
}

/// The same, of any text.
#[inline(never)]
#[tactic(auto, unfolding(crate::specs::LineText::key_text))]
fn append_any_key(key: &Text, out: &mut TextBuffer) -> Result<(), OutOfMemory>
    ensures { Adds result out.old.items out.new.items (key_text key.now) }
{
    let kept = trim(key.as_str().as_bytes());
    if kept.is_empty() {
        return Ok(out.push(b'_')?);
    }
    append_in_line(out, &KEY_MARKS, kept)
}

/// The text without the backslashes at its end.
fn trim(text: &[u8]) -> &[u8]
    ensures { result.now ≡ trimmed text.now }
{
    let mut end = text.len();
    while end > 0 && text[end - 1] == b'\\' {
        end -= 1;
    }
    &text[..end]
}

/// What is escaped in a measurement.
const NAME_MARKS: Marks = Marks {
    bytes: [b',', b' ', b' '],
    written: [b',', b' ', b' '],
};

/// What is escaped in a key and in the value of a tag.
const KEY_MARKS: Marks = Marks {
    bytes: [b',', b'=', b' '],
    written: [b',', b'=', b' '],
};

/// What is escaped in a text between double quotes.
const TEXT_MARKS: Marks = Marks {
    bytes: [b'"', b'\\', b'\\'],
    written: [b'"', b'\\', b'\\'],
};

/// A byte, or a space in place of a newline or a carriage return.
fn spaced(byte: u8) -> u8
    ensures { result ≡ spaced byte }
{
    if byte == b'\n' || byte == b'\r' {
        b' '
    } else {
        byte
    }
}

/// Does a text have no end of a line?
fn is_one_line(text: &[u8]) -> bool
    ensures { result ≡ list_all (λ b. not (ends_line b)) text.now }
{
    text.iter().all(|byte| *byte != b'\n' && *byte != b'\r')
}

/// Appends a text in one line with its marks escaped.
fn append_in_line(out: &mut TextBuffer, marks: &Marks, text: &[u8]) -> Result<(), OutOfMemory>
    ensures { Adds result out.old.items out.new.items
        (escaped (escapes_of marks.now) (on_one_line text.now)) }
{
    if is_one_line(text) {
        append_escaped(out, marks, text)?;
        return Ok(());
    }
    for byte in text {
        append_escaped_byte(out, marks, spaced(*byte))?;
    }
    Ok(())
}

/// Appends a part of a text in one line with its marks escaped. Of a plain text the part is all, and has none of them.
#[inline(always)]
fn append_part(
    out: &mut TextBuffer,
    marks: &Marks,
    text: &Text,
    part: &[u8],
) -> Result<(), OutOfMemory>
    requires { list_all is_plain text.now ≡ true
        → escaped (escapes_of marks.now) (on_one_line part.now) ≡ text.now }
    ensures { Adds result out.old.items out.new.items
        (escaped (escapes_of marks.now) (on_one_line part.now)) }
{
    if text.is_known_plain() {
        return text.append(out);
    }
    append_in_line(out, marks, part)
}
