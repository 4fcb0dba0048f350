//! Metrics that are changed, and their series.
use crate::pieces::{cut, put};
use crate::processors::part_of;
use crate::written::metrics_of;
use line_proto::write_line;
use metric::{Metric, Part, Series, Value};
use std::alloc::Global;
use std::hash::{DefaultHasher, Hash, Hasher};
use std::test::Fail;
use text_buffer::TextBuffer;

/// Sets a part of a metric: the name to the value, or a tag or a field of the key, which takes a whole number.
fn set_part(
    alloc: Global,
    metric: &mut Metric,
    part: Part,
    key: &str,
    value: &str,
) -> Result<(), Fail> {
    if key.is_empty() || value.is_empty() {
        return Err(Fail::new("an empty word"));
    }
    match part {
        Part::Measurement => metric.set_name(alloc, value)?,
        Part::Tag => metric.set_tag(alloc, key, value)?,
        Part::Field => metric.set_field(alloc, key, Value::Int(value.parse()?))?,
    }
    Ok(())
}

/// Drops a tag or a field, and says whether it was there and is gone.
fn drop_part(alloc: Global, metric: &mut Metric, part: Part, key: &str) -> Result<bool, Fail> {
    match part {
        Part::Measurement => Err(Fail::new("a name isn't dropped")),
        Part::Tag => Ok(metric.drop_tag(alloc, key)?),
        Part::Field => Ok(metric.drop_field(alloc, key)?),
    }
}

/// Changes a metric as a line says, and appends what a drop answers.
fn change(
    alloc: Global,
    metric: &mut Metric,
    line: &str,
    out: &mut TextBuffer,
) -> Result<(), Fail> {
    let (verb, words) = cut(line, " ")?;
    let (word, key) = cut(words, " ")?;
    let part = part_of(word)?;
    if verb == "drop" {
        let gone = drop_part(alloc, metric, part, key)?;
        return put(out, format_args!("{part:?} {key} gone: {gone}\n"));
    }
    let (key, value) = cut(key, "=")?;
    set_part(alloc, metric, part, key, value)
}

/// Makes changes of a metric, one for each line, and appends its line behind them.
fn append_after(
    alloc: Global,
    metric: &mut Metric,
    changes: &str,
    out: &mut TextBuffer,
) -> Result<(), Fail> {
    for line in changes.lines() {
        change(alloc, metric, line, out)?;
    }
    write_line(alloc, metric, out)?;
    Ok(())
}

/// The metric of a line in line protocol.
fn metric_of(alloc: Global, line: &str) -> Result<Metric, Fail> {
    Ok(metrics_of(alloc, line)?.pop().ok_or("no metric")?)
}

/// Appends what is left of the metric of the first line after the changes of the others: where nothing shares its
/// content, and where a copy does, with the copy behind it.
pub fn append_changed(alloc: Global, text: &str, out: &mut TextBuffer) -> Result<(), Fail> {
    let (line, changes) = cut(text, "\n")?;
    let mut alone = metric_of(alloc, line)?;
    append_after(alloc, &mut alone, changes, out)?;
    let mut shared = metric_of(alloc, line)?;
    let copy = shared.copy()?;
    append_after(alloc, &mut shared, changes, out)?;
    write_line(alloc, &copy, out)?;
    Ok(())
}

/// What a series gives a hasher, as one number.
fn hash_of(series: &Series) -> u64 {
    let mut hasher = DefaultHasher::new();
    series.hash(&mut hasher);
    hasher.finish()
}

/// Appends how the series of two metrics compare: whether they are equal and hashed alike, and their order.
pub fn append_series(alloc: Global, lines: &str, out: &mut TextBuffer) -> Result<(), Fail> {
    let metrics = metrics_of(alloc, lines)?;
    let [first, second] = metrics.as_slice() else {
        return Err(Fail::new("no two metrics"));
    };
    let (first, second) = (first.series()?, second.series()?);
    let (equal, alike) = (first == second, hash_of(&first) == hash_of(&second));
    let order = first.cmp(&second);
    put(
        out,
        format_args!("equal {equal}, hashed alike {alike}, {order:?}\n"),
    )
}
