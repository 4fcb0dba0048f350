//! How metrics are written.
use crate::metrics::built;
use line_proto::{read_line, write_line, write_untimed};
use metric::Metric;
use scenario_tables::Row;
use std::alloc::Global;
use std::test::Fail;
use text_buffer::TextBuffer;

/// What stands in a text before a call appends to it.
const OLD: &[u8] = b"old ";

/// Appends the line in line protocol of a metric that is made of what lines say, or of what stands between the marks
/// that the row says.
pub fn append_made(alloc: Global, row: &Row, text: &str, out: &mut TextBuffer) -> Result<(), Fail> {
    let between = row.part("between").map_or("\n", |part| part.value);
    let (builder, time) = built(alloc, text, between)?;
    let metric = builder.finish(time)?;
    write_line(alloc, &metric, out)?;
    Ok(())
}

/// The metrics of lines in line protocol.
pub fn metrics_of(alloc: Global, lines: &str) -> Result<Vec<Metric>, Fail> {
    let mut metrics = Vec::new(alloc);
    for line in lines.lines() {
        let Some(metric) = read_line(alloc, line.as_bytes(), 50)? else {
            return Err(Fail::new(format_args!("no metric: {line}")));
        };
        metrics.push(metric)?;
    }
    Ok(metrics)
}

/// Appends a text without what stood in it before.
fn append_new(text: &[u8], out: &mut TextBuffer) -> Result<(), Fail> {
    match text.strip_prefix(OLD) {
        Some(new) => out.extend_from_slice(new)?,
        None => out.extend_from_slice(b"the old text is gone\n")?,
    }
    Ok(())
}

/// Appends the lines of metrics without their times.
pub fn append_untimed(alloc: Global, lines: &str, out: &mut TextBuffer) -> Result<(), Fail> {
    let mut text = TextBuffer::of(Vec::from_slice(alloc, OLD)?);
    for metric in &metrics_of(alloc, lines)? {
        write_untimed(alloc, metric, &mut text)?;
    }
    append_new(text.as_slice(), out)
}

/// Appends the lines of Graphite of metrics.
pub fn append_lines(alloc: Global, lines: &str, out: &mut TextBuffer) -> Result<(), Fail> {
    let mut text = TextBuffer::of(Vec::from_slice(alloc, OLD)?);
    for metric in &metrics_of(alloc, lines)? {
        graphite_text::write_metric(alloc, metric, &mut text)?;
    }
    append_new(text.as_slice(), out)
}

/// Appends the exposition of a batch of metrics.
pub fn append_batch(alloc: Global, lines: &str, out: &mut TextBuffer) -> Result<(), Fail> {
    let mut text = TextBuffer::of(Vec::from_slice(alloc, OLD)?);
    let metrics = metrics_of(alloc, lines)?;
    openmetrics_text::write_batch(alloc, metrics.as_slice(), &mut text)?;
    append_new(text.as_slice(), out)
}
