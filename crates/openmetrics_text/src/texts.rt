//! The texts of the samples of a batch, one behind the other.
ghost use Rattle.std.specs.Prelude.{◌≡◌, [], ◌∷◌, length, map, IfOk, OnOk, All};
ghost use Rattle.openmetrics_text.specs.Groups.{by_family};
ghost use Rattle.openmetrics_text.specs.Writing.{Point};
ghost use Rattle.openmetrics_text.specs.WriteViews.{line_view, groups_view};
ghost use Rattle.openmetrics_text.specs.Texts.{IsWithin, written_in};

use crate::groups::{Groups, SampleLine};
use fixed_num::{Moment, OutOfMemory};
use std::alloc::Global;
use text_buffer::TextBuffer;

/// Where a text stands among others.
#[derive(Clone, Copy, Debug)]
pub(crate) struct Extent {
    /// Where it begins.
    pub(crate) from: usize,
    /// The offset behind it.
    pub(crate) to: usize,
}

/// Where the texts of a sample stand.
#[derive(Clone, Copy, Debug)]
pub(crate) struct Row {
    /// How many bytes at the front of its line are its family.
    pub(crate) family: usize,
    /// What stands for the set of its labels.
    pub(crate) series: Extent,
    /// Its time: nanoseconds since 1970.
    pub(crate) time: Moment,
    /// Its line, with the newline.
    pub(crate) line: Extent,
}

/// The texts of samples: of each metric what stands for the set of its labels, and the lines of its samples.
#[derive(Debug, Drop)]
pub(crate) struct Texts {
    /// The texts, one behind the other.
    pub(crate) bytes: TextBuffer,
    /// Where those of each sample stand.
    pub(crate) rows: Vec<Row>,
}

impl Texts {
    /// There is no sample.
    pub(crate) fn new(alloc: Global) -> Texts
        ensures { result.rows.items ≡ [] }
    {
        Texts {
            bytes: TextBuffer::new(alloc),
            rows: Vec::new(alloc),
        }
    }
}

/// The sample whose texts stand at some extents.
fn sample_at<'a>(bytes: &'a [u8], row: &Row) -> SampleLine<'a>
    requires { IsWithin bytes.now row.now }
    ensures { line_view result ≡ written_in bytes.now row.now }
{
    let text = &bytes[row.line.from..row.line.to];
    SampleLine {
        family: &text[..row.family],
        series: &bytes[row.series.from..row.series.to],
        time: row.time,
        text,
    }
}

/// Samples by their families.
pub(crate) fn families_of<'a>(
    alloc: Global,
    bytes: &'a [u8],
    rows: &[Row],
) -> Result<Groups<'a>, OutOfMemory>
    requires { All (IsWithin bytes.now) rows.now }
    ensures { IfOk result
        (λ groups. groups_view groups ≡ by_family (map (written_in bytes.now) rows.now)) }
{
    let mut groups = Groups::new(alloc);
    for row in rows {
        let sample = sample_at(bytes, row);
        groups.put(alloc, sample.family, sample)?;
    }
    Ok(groups)
}
