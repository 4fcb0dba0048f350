//! What pieces of each format are read as.
ghost use Rattle.statsd_text.specs.Views.{IsWholeLine};

use crate::configurations::config_of;
use crate::pieces::{put, setting};
use format_words::{InFormat, Template};
use line_proto::write_line;
use metric::{Builder, Metric};
use openmetrics_text::{Exposition, read_exposition};
use scenario_tables::Row;
use statsd_text::{LineSaid, part_tags, read_said};
use std::alloc::Global;
use std::fmt::Debug;
use std::test::Fail;
use text_buffer::TextBuffer;

/// Appends the lines of metrics in line protocol.
fn append_metrics(alloc: Global, metrics: &[Metric], out: &mut TextBuffer) -> Result<(), Fail> {
    for metric in metrics {
        write_line(alloc, metric, out)?;
    }
    Ok(())
}

/// Appends the kind of a fault, and its offset.
fn append_fault<K: Debug + Drop>(kind: K, offset: usize, out: &mut TextBuffer) -> Result<(), Fail> {
    put(out, format_args!("{kind:?} {offset}\n"))
}

/// Appends what a piece of line protocol is read as, at the moment 7.
pub fn append_influx(alloc: Global, piece: &[u8], out: &mut TextBuffer) -> Result<(), Fail> {
    match line_proto::read_line(alloc, piece, 7) {
        Ok(Some(metric)) => write_line(alloc, &metric, out)?,
        Ok(None) => put(out, "none\n")?,
        Err(fault) => append_fault(fault.kind, fault.offset, out)?,
    }
    Ok(())
}

/// Appends what a line of StatsD is read as, at the moment 50.
pub fn append_statsd(alloc: Global, piece: &[u8], out: &mut TextBuffer) -> Result<(), Fail> {
    match statsd_text::read_line(alloc, piece, 50) {
        Ok(metrics) => append_metrics(alloc, metrics.as_slice(), out)?,
        Err(fault) => append_fault(fault.kind, fault.offset, out)?,
    }
    Ok(())
}

/// Appends the metrics at the moment 50 that are made of what the parts of a line say.
fn append_line(alloc: Global, line: &LineSaid, out: &mut TextBuffer) -> Result<(), Fail>
    requires { IsWholeLine line.now }
{
    for said in line.said.as_slice() {
        let mut builder = Builder::of(alloc, line.name.copy()?);
        let tags = part_tags(alloc, line.tags.as_slice(), said.metric_type)?;
        for (key, value) in tags.as_slice() {
            builder.tag_of(key.copy()?, value.copy()?)?;
        }
        builder.field(said.field.text(), said.value.copy()?)?;
        write_line(alloc, &builder.finish(50)?, out)?;
    }
    Ok(())
}

/// Appends what a line of StatsD says, before metrics are made of it, as metrics that are made of that here.
pub fn append_said(alloc: Global, piece: &[u8], out: &mut TextBuffer) -> Result<(), Fail> {
    match read_said(alloc, piece) {
        Ok(Some(line)) => append_line(alloc, &line, out)?,
        Ok(None) => put(out, "not said\n")?,
        Err(fault) => append_fault(fault.kind, fault.offset, out)?,
    }
    Ok(())
}

/// Appends how many samples of an exposition are passed over, and how many of these are out of range, where there are
/// such.
fn append_passed(exposition: &Exposition, out: &mut TextBuffer) -> Result<(), Fail> {
    let (passed, out_of_range) = (exposition.passed, exposition.out_of_range);
    if out_of_range == 0 {
        return put(out, format_args!("passed {passed}\n"));
    }
    put(
        out,
        format_args!("passed {passed}, out of range {out_of_range}\n"),
    )
}

/// Appends what an exposition of OpenMetrics is read as, at the moment 50, how many samples are passed over, and how
/// many of these are out of range, where there are such.
pub fn append_exposition(
    alloc: Global,
    row: &Row,
    piece: &[u8],
    out: &mut TextBuffer,
) -> Result<(), Fail> {
    let type_tag = row.part("type_tag").is_some();
    let passing = row.part("pass_out_of_range").is_some();
    match read_exposition(alloc, piece, 50, type_tag, passing) {
        Ok(exposition) => {
            append_metrics(alloc, exposition.metrics.as_slice(), out)?;
            append_passed(&exposition, out)?;
        }
        Err(fault) => append_fault(fault.kind, fault.offset, out)?,
    }
    Ok(())
}

/// Appends whether a text is a template of Graphite.
pub fn append_template(alloc: Global, text: &str, out: &mut TextBuffer) -> Result<(), Fail> {
    match Template::read(alloc, text) {
        Ok(_) => put(out, "template\n"),
        Err(fault) => put(out, format_args!("{fault:?}\n")),
    }
}

/// The templates of lines.
fn templates_of(alloc: Global, lines: &str) -> Result<Vec<Template>, Fail> {
    let mut templates = Vec::new(alloc);
    for line in lines.lines() {
        templates.push(Template::read(alloc, line)?)?;
    }
    Ok(templates)
}

/// Appends what a line of Graphite is read as, at the moment 50, by the templates and the separator that the row says,
/// or by those of the inputs of its configuration.
pub fn append_graphite(
    alloc: Global,
    row: &Row,
    piece: &[u8],
    out: &mut TextBuffer,
) -> Result<(), Fail> {
    let is_counted = row.part("counted").is_some();
    let Some(part) = row.part("separator") else {
        return append_configured(alloc, row, piece, out);
    };
    let templates = templates_of(alloc, setting(alloc, row, "templates")?.as_str())?;
    append_graphite_line(
        alloc,
        templates.as_slice(),
        part.value,
        piece,
        is_counted,
        out,
    )
}

/// Appends what a line of Graphite is read as by the inputs of the row's configuration.
fn append_configured(
    alloc: Global,
    row: &Row,
    piece: &[u8],
    out: &mut TextBuffer,
) -> Result<(), Fail> {
    let config = config_of(alloc, row)?;
    for input in config.inputs.as_slice() {
        if let InFormat::Graphite {
            templates,
            separator,
        } = &input.format
        {
            let templates = templates.as_slice();
            append_graphite_line(alloc, templates, separator.as_str(), piece, false, out)?;
        }
    }
    Ok(())
}

/// Appends how many tags a metric has, where they are counted, or its line in line protocol.
fn append_counted(
    alloc: Global,
    metric: &Metric,
    is_counted: bool,
    out: &mut TextBuffer,
) -> Result<(), Fail> {
    if is_counted {
        return put(out, format_args!("tags {}\n", metric.tags().len()));
    }
    write_line(alloc, metric, out)?;
    Ok(())
}

/// Appends what a line of Graphite is read as by templates and a separator; how many tags it has where they are
/// counted.
fn append_graphite_line(
    alloc: Global,
    templates: &[Template],
    separator: &str,
    piece: &[u8],
    is_counted: bool,
    out: &mut TextBuffer,
) -> Result<(), Fail> {
    match graphite_text::read_line(alloc, templates, separator, piece, 50) {
        Ok(Some(metric)) => append_counted(alloc, &metric, is_counted, out),
        Ok(None) => Ok(()),
        Err(fault) => append_fault(fault.kind, fault.offset, out),
    }
}
