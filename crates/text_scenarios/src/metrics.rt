//! Metrics, globs and filters.
use crate::configurations::config_of;
use crate::pieces::{cut, put, setting};
use crate::written::metrics_of;
use fixed_num::{Fixed, Seq};
use line_proto::write_line;
use metric::{Builder, Glob, Metric, Text, Value, are_filled};
use scenario_tables::Row;
use std::alloc::Global;
use std::test::Fail;
use text_buffer::TextBuffer;

/// A whole number, or a number of so many billionths.
fn number_of(kind: &str, number: i64) -> Result<Value, Fail> {
    if kind == "int" {
        return Ok(Value::Int(number));
    }
    match Fixed::of_billionths(i128::from(number)) {
        Some(number) => Ok(Value::Fixed(number)),
        None => Err(Fail::new("no number")),
    }
}

/// The value of a field, by its kind.
fn value_of(alloc: Global, kind: &str, value: &str) -> Result<Value, Fail> {
    match kind {
        "uint" => Ok(Value::Uint(value.parse()?)),
        "bool" => Ok(Value::Bool(value == "true")),
        "text" => Ok(Value::Text(Text::of(alloc, value)?)),
        _ => number_of(kind, value.parse()?),
    }
}

/// What a metric is made of: its name, what lines say of its tags and fields, and its time.
pub fn built(alloc: Global, text: &str, between: &str) -> Result<(Builder, i64), Fail> {
    let (name, rest) = cut(text, between)?;
    let (lines, time) = rest.rsplit_once(between).ok_or("no time")?;
    let mut builder = Builder::new(alloc, name)?;
    for line in lines.split(between) {
        let (words, value) = cut(line, ":=")?;
        let (kind, key) = cut(words, " ")?;
        if kind == "tag" {
            builder.tag(key, value)?;
        } else {
            builder.field(key, value_of(alloc, kind, value)?)?;
        }
    }
    Ok((builder, time.parse()?))
}

/// Appends how a metric that lines say compares with its copy and with another.
pub fn append_metric(
    alloc: Global,
    row: &Row,
    text: &str,
    out: &mut TextBuffer,
) -> Result<(), Fail> {
    let (builder, time) = built(alloc, text, "\n")?;
    let (tags, fields) = (builder.tag_count(), builder.field_count());
    put(out, format_args!("tags {tags}, fields {fields}\n"))?;
    match builder.finish(time) {
        Ok(metric) => append_seen(alloc, row, metric, out),
        Err(fault) => put(out, format_args!("{fault:?}\n")),
    }
}

/// The tag of a line `KEY:=VALUE`.
fn tag_of(alloc: Global, line: &str) -> Result<(Text, Text), Fail> {
    let (key, value) = cut(line, ":=")?;
    let key = Text::of(alloc, key)?;
    let value = Text::of(alloc, value)?;
    Ok((key, value))
}

/// The tags of lines.
fn tags_of(alloc: Global, lines: &str) -> Result<Seq<(Text, Text)>, Fail> {
    let mut tags = Seq::of(Vec::new(alloc));
    for line in lines.lines() {
        tags.push(alloc, tag_of(alloc, line)?)?;
    }
    Ok(tags)
}

/// Appends whether two metrics are equal, and whether they are the same.
fn append_same(
    name: &str,
    metric: &Metric,
    other: &Metric,
    out: &mut TextBuffer,
) -> Result<(), Fail> {
    let (equal, same) = (metric == other, metric.same_as(other));
    put(out, format_args!("{name}: equal {equal}, same {same}\n"))
}

/// Appends the line of a metric with the tags that the row gives it, and how it compares with its copy; the values of
/// the tags that the row asks for, and how the metric compares with another one where the row has it.
fn append_seen(alloc: Global, row: &Row, metric: Metric, out: &mut TextBuffer) -> Result<(), Fail> {
    let given = tags_of(alloc, setting(alloc, row, "given")?.as_str())?;
    if !are_filled(given.as_slice()) {
        return Err(Fail::new("an empty tag is given"));
    }
    let metric = metric.with_tags(alloc, given.as_slice())?;
    write_line(alloc, &metric, out)?;
    append_same("copy", &metric.copy()?, &metric, out)?;
    for key in setting(alloc, row, "asked")?.as_str().lines() {
        let value = metric.tag(key).map_or("none", |value| value.as_str());
        put(out, format_args!("{key}: {value}\n"))?;
    }
    if let Some(other) = setting(alloc, row, "other")?.as_str().strip_suffix('\n') {
        let (builder, time) = built(alloc, other, "\n")?;
        append_same("other", &builder.finish(time)?, &metric, out)?;
    }
    Ok(())
}

/// Appends whether a glob matches a text, with a bar between them, or why it is none.
pub fn append_glob(alloc: Global, text: &str, out: &mut TextBuffer) -> Result<(), Fail> {
    let (glob, text) = cut(text, "|")?;
    match Glob::read(alloc, glob) {
        Ok(glob) if glob.matches(text) => put(out, "matches\n"),
        Ok(_) => put(out, "differs\n"),
        Err(fault) => put(out, format_args!("{fault:?}\n")),
    }
}

/// Appends what the filters of the row's inputs leave of metrics.
pub fn append_filtered(
    alloc: Global,
    row: &Row,
    lines: &str,
    out: &mut TextBuffer,
) -> Result<(), Fail> {
    let metrics = metrics_of(alloc, lines)?;
    let config = config_of(alloc, row)?;
    for input in config.inputs.as_slice() {
        for metric in &metrics {
            if let Some(kept) = input.filter.apply(metric)? {
                write_line(alloc, kept.metric(), out)?;
            }
        }
    }
    Ok(())
}

/// Appends what the tests of fields and tags of the row's inputs leave of metrics, whether or not they pass.
pub fn append_left(alloc: Global, row: &Row, text: &str, out: &mut TextBuffer) -> Result<(), Fail> {
    let config = config_of(alloc, row)?;
    let metrics = metrics_of(alloc, text)?;
    for input in config.inputs.as_slice() {
        for metric in &metrics {
            if let Some(kept) = input.filter.left_of(metric.copy()?)? {
                write_line(alloc, kept.metric(), out)?;
            }
        }
    }
    Ok(())
}
