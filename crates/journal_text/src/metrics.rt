//! The text of a metric.
ghost use Rattle.std.specs.Prelude.{◌≡◌, ◌++◌, ◌∷◌, [], ◌<◌, ◌≤◌, false, OnOk, length, codes};
ghost use Rattle.std.specs.List.{flat_map, prefix_len};
ghost use Rattle.text_parts.specs.Adds.{Adds};
ghost use Rattle.metric.specs.Plain.{is_plain};
ghost use Rattle.journal_text.specs.MetricText.{hex_digit, byte_text, escaped, value_text};
ghost use Rattle.journal_text.specs.MetricText.{tag_text, field_text, fields_text, metric_text};

use fixed_num::OutOfMemory;
use metric::{Metric, Text, Value, is_plain};
use std::alloc::Global;
use text_buffer::TextBuffer;
use text_parts::{append_signed, append_unsigned, append_words};

// An upper-case hexadecimal digit.
#[tactic(auto, unfolding(crate::specs::MetricText::hex_digit))]
fn hex_digit(n: u8) -> u8
    requires { n < 16 }
    ensures { result ≡ hex_digit n }
{
    if n < 10 { b'0' + n } else { b'A' - 10 + n }
}

// Appends a byte.
#[inline(always)]
pub fn append_byte(out: &mut TextBuffer, byte: u8) -> Result<(), OutOfMemory>
    ensures { Adds result out.old.items out.new.items (byte ∷ []) }
{
    out.push(byte)?;
    Ok(())
}

// Appends `%` and the two hexadecimal digits of a byte that isn't plain.
#[cold]
#[inline(never)]
#[tactic(auto, unfolding(crate::specs::MetricText::byte_text))]
fn append_escape(out: &mut TextBuffer, b: u8) -> Result<(), OutOfMemory>
    requires { is_plain b ≡ false }
    ensures { Adds result out.old.items out.new.items (byte_text b) }
{
    out.extend_from_slice(&[b'%', hex_digit(b / 16), hex_digit(b % 16)])?;
    Ok(())
}

// How many plain bytes stand at the front.
fn plain_len(bytes: &[u8]) -> usize
    ensures plain { result ≡ prefix_len is_plain bytes.now }
    ensures within { result ≤ length bytes.now }
{
    bytes.iter().take_while(|b| is_plain(**b)).count()
}

// Appends bytes: plain ones as they are, others escaped.
#[inline(never)]
fn append_escaped(out: &mut TextBuffer, bytes: &[u8]) -> Result<(), OutOfMemory>
    ensures { Adds result out.old.items out.new.items (escaped bytes.now) }
{
    let mut rest = bytes;
    loop {
        let (front, back) = rest.split_at(plain_len(rest));
        out.extend_from_slice(front)?;
        match back.split_first() {
            None => return Ok(()),
            Some((b, others)) => {
                append_escape(out, *b)?;
                rest = others;
            }
        }
    }
}

// Appends a name, a key or a text. Most are plain.
fn append_text(out: &mut TextBuffer, text: &Text) -> Result<(), OutOfMemory>
    ensures { Adds result out.old.items out.new.items (escaped text.now) }
{
    if text.is_known_plain() {
        return text.append(out);
    }
    append_escaped(out, text.as_str().as_bytes())
}

// Appends a value: a letter that tells its type, and what it is.
#[tactic(auto, unfolding(crate::specs::MetricText::value_text))]
fn append_value(alloc: Global, out: &mut TextBuffer, value: &Value) -> Result<(), OutOfMemory>
    ensures { Adds result out.old.items out.new.items (value_text value.now) }
{
    match value {
        Value::Int(n) => append_signed(out, "i", n),
        Value::Uint(n) => append_unsigned(out, "u", *n),
        Value::Fixed(x) => {
            append_words(out, "f")?;
            x.append(alloc, out)?;
            Ok(())
        }
        Value::Bool(true) => append_words(out, "bt"),
        Value::Bool(false) => append_words(out, "bf"),
        Value::Text(text) => {
            append_words(out, "s")?;
            append_text(out, text)?;
            Ok(())
        }
    }
}

// Appends a tag, behind a semicolon.
#[tactic(auto, unfolding(crate::specs::MetricText::tag_text))]
fn append_tag(out: &mut TextBuffer, key: &Text, value: &Text) -> Result<(), OutOfMemory>
    ensures { Adds result out.old.items out.new.items (tag_text (key.now, value.now)) }
{
    append_byte(out, b';')?;
    append_text(out, key)?;
    append_byte(out, b'=')?;
    append_text(out, value)?;
    Ok(())
}

// Appends a field.
#[tactic(auto, unfolding(crate::specs::MetricText::field_text))]
fn append_field(
    alloc: Global,
    out: &mut TextBuffer,
    key: &Text,
    value: &Value,
) -> Result<(), OutOfMemory>
    ensures { Adds result out.old.items out.new.items (field_text (key.now, value.now)) }
{
    append_text(out, key)?;
    append_byte(out, b'=')?;
    append_value(alloc, out, value)?;
    Ok(())
}

// Appends tags, each behind a semicolon.
fn append_tags(out: &mut TextBuffer, tags: &[(Text, Text)]) -> Result<(), OutOfMemory>
    ensures { Adds result out.old.items out.new.items (flat_map tag_text tags.now) }
{
    for (key, value) in tags {
        append_tag(out, key, value)?;
    }
    Ok(())
}

// Appends fields, each behind a semicolon.
fn append_other_fields(
    alloc: Global,
    out: &mut TextBuffer,
    fields: &[(Text, Value)],
) -> Result<(), OutOfMemory>
    ensures { Adds result out.old.items out.new.items
        (flat_map (λ other. codes ";" ++ field_text other) fields.now) }
{
    for (key, value) in fields {
        append_byte(out, b';')?;
        append_field(alloc, out, key, value)?;
    }
    Ok(())
}

// Appends fields with semicolons between them.
#[tactic(auto, unfolding(crate::specs::MetricText::fields_text))]
fn append_fields(
    alloc: Global,
    out: &mut TextBuffer,
    fields: &[(Text, Value)],
) -> Result<(), OutOfMemory>
    ensures { Adds result out.old.items out.new.items (fields_text fields.now) }
{
    if let [(key, value), others @ ..] = fields {
        append_field(alloc, out, key, value)?;
        append_other_fields(alloc, out, others)?;
    }
    Ok(())
}

// Appends a metric: its name with its tags, its fields and its time.
#[tactic(auto, unfolding(crate::specs::MetricText::metric_text))]
pub fn append_metric(
    alloc: Global,
    out: &mut TextBuffer,
    metric: &Metric,
) -> Result<(), OutOfMemory>
    ensures { Adds result out.old.items out.new.items (metric_text metric.now) }
{
    append_text(out, metric.name())?;
    append_tags(out, metric.tags())?;
    append_byte(out, b'|')?;
    append_fields(alloc, out, metric.fields())?;
    append_signed(out, "|", &metric.time())?;
    Ok(())
}
