//! The text of a batch in a format.
ghost use Rattle.std.specs.Prelude.{◌≡◌, ◌++◌, IfOk, OnOk};
ghost use Rattle.std.specs.List.{flat_map};
ghost use Rattle.openmetrics_text.specs.Writing as exposition;
ghost use Rattle.formats.specs.Batches.{batch_text};
ghost use Rattle.formats.specs.Lines.{lines_in};

use crate::Metrics;
use fixed_num::OutOfMemory;
use format_words::OutFormat;
use graphite_text::write_metric;
use line_proto::write_line;
use metric::Metric;
use std::alloc::Global;
use text_buffer::TextBuffer;

/// The formats in which each metric has lines of its own.
#[derive(Clone, Copy, Debug)]
enum LineFormat {
    /// InfluxDB line protocol.
    Influx,
    /// Graphite plaintext.
    Graphite,
}

/// Appends the lines of a metric.
#[inline(always)]
fn append_lines(
    alloc: Global,
    format: LineFormat,
    metric: &Metric,
    out: &mut TextBuffer,
) -> Result<(), OutOfMemory>
    ensures ok { OnOk result (out.new.items ≡ out.old.items ++ lines_in format metric.now) }
{
    match format {
        LineFormat::Influx => write_line(alloc, metric, out),
        LineFormat::Graphite => write_metric(alloc, metric, out),
    }
}

/// Writes the lines of metrics, in order, in place of what `out` held.
fn write_lines<'a, M: Metrics<'a>>(
    alloc: Global,
    format: LineFormat,
    metrics: &M,
    out: &mut TextBuffer,
) -> Result<(), OutOfMemory>
    ensures ok { OnOk result (out.new.items ≡ flat_map (lines_in format) (M.all metrics.now)) }
{
    out.clear();
    for i in 0..metrics.count() {
        append_lines(alloc, format, metrics.at(i), out)?;
    }
    Ok(())
}

/// Copies of metrics, in order.
fn copies_of<'a, M: Metrics<'a>>(alloc: Global, metrics: &M) -> Result<Vec<Metric>, OutOfMemory>
    ensures { IfOk result (λ copies. copies.items ≡ M.all metrics.now) }
{
    let count = metrics.count();
    let mut copies = Vec::with_capacity(alloc, count)?;
    for i in 0..count {
        copies.push(metrics.at(i).copy()?)?;
    }
    Ok(copies)
}

/// Writes the exposition of metrics, in place of what `out` held. Its writer goes over them several times, and takes a list.
fn write_exposition<'a, M: Metrics<'a>>(
    alloc: Global,
    metrics: &M,
    out: &mut TextBuffer,
) -> Result<(), OutOfMemory>
    ensures ok { OnOk result (out.new.items ≡ exposition.batch_text (M.all metrics.now)) }
{
    let copies = copies_of(alloc, metrics)?;
    out.clear();
    openmetrics_text::write_batch(alloc, copies.as_slice(), out)
}

/// The text of a batch in a format, in place of what `out` held.
pub fn write_batch<'a, M: Metrics<'a>>(
    alloc: Global,
    format: OutFormat,
    metrics: &M,
    out: &mut TextBuffer,
) -> Result<(), OutOfMemory>
    ensures ok { OnOk result (out.new.items ≡ batch_text format (M.all metrics.now)) }
{
    match format {
        OutFormat::Influx => write_lines(alloc, LineFormat::Influx, metrics, out),
        OutFormat::Graphite => write_lines(alloc, LineFormat::Graphite, metrics, out),
        OutFormat::Openmetrics => write_exposition(alloc, metrics, out),
    }
}
