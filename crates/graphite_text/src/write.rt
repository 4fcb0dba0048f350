//! Metrics as lines.
ghost use Rattle.std.specs.Prelude.{◌≡◌, ◌++◌, ◌||◌, ◌==◌, [], ◌∷◌, ℤ, not, map, flat_map, codes, OnOk};
ghost use Rattle.std.specs.Prelude.{OnErr, ◌≤◌, drop, length, take};
ghost use Rattle.std.specs.Prelude.{if◌then◌else◌};
ghost use Rattle.text_parts.specs.Adds.{Adds};
ghost use Rattle.metric.specs.Draft.{Tag, Field};
ghost use Rattle.metric.specs.Numbers.{number_text};
ghost use Rattle.graphite_text.specs.Writing.{value_part, name_part};
ghost use Rattle.graphite_text.specs.Writing.{is_host, is_no_host, path_text, seconds_of};
ghost use Rattle.graphite_text.specs.Writing.{line_text, field_text, metric_text};
ghost use Rattle.graphite_text.specs.Pieces.{key_text, host_text, other_text};

use fixed_num::{Moment, OutOfMemory};
use metric::{Metric, Text, Value};
use std::alloc::Global;
use text_buffer::TextBuffer;
use text_parts::{append_signed, append_words, settle};

/// Each byte as it stands in the value of a tag: a letter, a digit, `_` or `-`, or `_` for another.
static VALUE_BYTES: [u8; 256] = *b"\
    ________________________________\
    _____________-__0123456789______\
    _ABCDEFGHIJKLMNOPQRSTUVWXYZ_____\
    _abcdefghijklmnopqrstuvwxyz_____\
    ________________________________\
    ________________________________\
    ________________________________\
    ________________________________";

/// Each byte as it stands in a name or a key: the same, and the dot.
static NAME_BYTES: [u8; 256] = *b"\
    ________________________________\
    _____________-._0123456789______\
    _ABCDEFGHIJKLMNOPQRSTUVWXYZ_____\
    _abcdefghijklmnopqrstuvwxyz_____\
    ________________________________\
    ________________________________\
    ________________________________\
    ________________________________";

/// Puts each byte from an index on as it stands in the value of a tag.
fn clean_value(out: &mut TextBuffer, start: usize)
    requires { start ≤ length out.old.items }
    ensures { out.new.items ≡ take start out.old.items ++ value_part (drop start out.old.items) }
{
    out.translate(start, &VALUE_BYTES);
}

/// Puts each byte from an index on as it stands in a name or a key.
fn clean_name(out: &mut TextBuffer, start: usize)
    requires { start ≤ length out.old.items }
    ensures { out.new.items ≡ take start out.old.items ++ name_part (drop start out.old.items) }
{
    out.translate(start, &NAME_BYTES);
}

/// Appends the value of a tag.
fn append_value(out: &mut TextBuffer, text: &str) -> Result<(), OutOfMemory>
    ensures { Adds result out.old.items out.new.items (value_part text.now) }
{
    let start = out.len();
    out.extend_from_slice(text.as_bytes())?;
    clean_value(out, start);
    Ok(())
}

/// Appends a name or a key.
fn append_name(out: &mut TextBuffer, text: &str) -> Result<(), OutOfMemory>
    ensures { Adds result out.old.items out.new.items (name_part text.now) }
{
    let start = out.len();
    out.extend_from_slice(text.as_bytes())?;
    clean_name(out, start);
    Ok(())
}

/// Whether a tag is that of the host.
fn is_host(tag: &(Text, Text)) -> bool
    ensures { result ≡ is_host tag.now }
{
    tag.0.as_str() == "host"
}

/// Appends the value of a tag and a dot, where it is that of the host.
fn append_host(out: &mut TextBuffer, tag: &(Text, Text)) -> Result<(), OutOfMemory>
    ensures { Adds result out.old.items out.new.items (host_text tag.now) }
{
    if !is_host(tag) {
        return Ok(());
    }
    append_value(out, tag.1.as_str())?;
    out.push(b'.')?;
    Ok(())
}

/// Appends the value of a tag and a dot, where it is not that of the host.
fn append_other(out: &mut TextBuffer, tag: &(Text, Text)) -> Result<(), OutOfMemory>
    ensures { Adds result out.old.items out.new.items (other_text tag.now) }
{
    if is_host(tag) {
        return Ok(());
    }
    append_value(out, tag.1.as_str())?;
    out.push(b'.')?;
    Ok(())
}

/// Appends the values of tags, each with a dot, that of the host first.
fn append_hosts(out: &mut TextBuffer, tags: &[(Text, Text)]) -> Result<(), OutOfMemory>
    ensures { Adds result out.old.items out.new.items (flat_map host_text tags.now) }
{
    for tag in tags {
        append_host(out, tag)?;
    }
    Ok(())
}

/// Appends the values of the tags other than that of the host, each with a dot.
fn append_others(out: &mut TextBuffer, tags: &[(Text, Text)]) -> Result<(), OutOfMemory>
    ensures { Adds result out.old.items out.new.items (flat_map other_text tags.now) }
{
    for tag in tags {
        append_other(out, tag)?;
    }
    Ok(())
}

/// Appends a dot and a field's key, unless it is `value`.
fn append_key(out: &mut TextBuffer, key: &str) -> Result<(), OutOfMemory>
    ensures { Adds result out.old.items out.new.items (key_text key.now) }
{
    if key == "value" {
        return Ok(());
    }
    out.push(b'.')?;
    append_name(out, key)?;
    Ok(())
}

/// Appends the parts of a path.
fn append_parts(out: &mut TextBuffer, metric: &Metric, key: &str) -> Result<(), OutOfMemory>
    ensures { Adds result out.old.items out.new.items
        (flat_map host_text metric.now.tags ++ flat_map other_text metric.now.tags
        ++ name_part metric.now.name ++ key_text key.now) }
{
    append_hosts(out, metric.tags())?;
    append_others(out, metric.tags())?;
    append_name(out, metric.name().as_str())?;
    append_key(out, key)?;
    Ok(())
}

/// Appends a path.
fn append_path(out: &mut TextBuffer, metric: &Metric, key: &str) -> Result<(), OutOfMemory>
    ensures { Adds result out.old.items out.new.items (path_text metric.now key.now) }
{
    append_parts(out, metric, key)?;
    Ok(())
}

/// The seconds of a time, rounded down.
fn seconds_of(time: Moment) -> i64
    ensures { result ≡ seconds_of time }
{
    time.div_euclid(1_000_000_000)
}

/// Appends a path and a number.
fn append_numbered(
    alloc: Global,
    out: &mut TextBuffer,
    metric: &Metric,
    field: &(Text, Value),
) -> Result<(), OutOfMemory>
    ensures { Adds result out.old.items out.new.items
        (path_text metric.now field.now.0 ++ codes " " ++ number_text field.now.1) }
{
    append_path(out, metric, field.0.as_str())?;
    append_words(out, " ")?;
    field.1.append_number(alloc, out)?;
    Ok(())
}

/// Appends a line without its newline.
#[tactic(auto, unfolding(crate::specs::Writing::line_text))]
fn append_line(
    alloc: Global,
    out: &mut TextBuffer,
    metric: &Metric,
    field: &(Text, Value),
) -> Result<(), OutOfMemory>
    ensures { Adds result out.old.items out.new.items (line_text metric.now field.now) }
{
    append_numbered(alloc, out, metric, field)?;
    append_signed(out, " ", &seconds_of(metric.time()))?;
    Ok(())
}

/// Appends the line of a field, which a text has not.
fn append_field(
    alloc: Global,
    out: &mut TextBuffer,
    metric: &Metric,
    field: &(Text, Value),
) -> Result<(), OutOfMemory>
    ensures { Adds result out.old.items out.new.items (field_text metric.now field.now) }
{
    if field.1.is_text() {
        return Ok(());
    }
    append_line(alloc, out, metric, field)?;
    append_words(out, "\n")?;
    Ok(())
}

/// Appends the lines of fields.
fn append_fields(
    alloc: Global,
    out: &mut TextBuffer,
    metric: &Metric,
    fields: &[(Text, Value)],
) -> Result<(), OutOfMemory>
    ensures { Adds result out.old.items out.new.items (flat_map (field_text metric.now) fields.now) }
{
    for field in fields {
        append_field(alloc, out, metric, field)?;
    }
    Ok(())
}

/// Bytes for which room is made before a metric is written, so that most of them grow the text once at most.
const LIKELY: usize = 256;

/// Appends the lines of a metric.
#[tactic(auto, unfolding(crate::specs::Writing::metric_text))]
fn append_metric(alloc: Global, out: &mut TextBuffer, metric: &Metric) -> Result<(), OutOfMemory>
    ensures { Adds result out.old.items out.new.items (metric_text metric.now) }
{
    out.reserve(LIKELY)?;
    append_fields(alloc, out, metric, metric.fields())?;
    Ok(())
}

/// Appends a line for each field that is no text, in order: `path value seconds` and a newline, as Graphite's
/// plaintext protocol has it. The path is, with dots between them, the value of the tag `host` where there is
/// one, the values of the other tags in the order of their keys, the measurement, and the field's key unless
/// it is `value`. Each byte of them other than a letter, a digit, `_` or `-` is written as `_`, but a `.` of
/// the measurement and of the key stays. A truth value is 1 or 0. The seconds are those since 1970, rounded
/// down. After OutOfMemory `out` is as before.
pub fn write_metric(alloc: Global, metric: &Metric, out: &mut TextBuffer) -> Result<(), OutOfMemory>
    ensures ok { OnOk result (out.new.items ≡ out.old.items ++ metric_text metric.now) }
    ensures err { OnErr result (out.new.items ≡ out.old.items) }
{
    let before = out.len();
    let written = append_metric(alloc, out, metric);
    settle(out, before, written)
}
