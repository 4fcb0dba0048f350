//! Samples, gathered by family, series and time.
ghost use Rattle.std.specs.Prelude.{◌≡◌, ◌++◌, map, flat_map, IfOk, OnOk};
ghost use Rattle.text_parts.specs.Adds.{Adds};
ghost use Rattle.openmetrics_text.specs.Groups.{by_series, by_time, put_line, lines_text, series_text};
ghost use Rattle.openmetrics_text.specs.Groups.{series_group, samples_text, family_group};
ghost use Rattle.openmetrics_text.specs.Writing.{type_text};
ghost use Rattle.openmetrics_text.specs.WriteViews.{line_view, lines_view, group_view, groups_view};

use crate::groups::{Group, Groups, SampleLine};
use fixed_num::{Moment, OutOfMemory};
use std::alloc::Global;
use std::collections::BTreeMap;
use text_buffer::TextBuffer;
use text_parts::{append_bytes, append_words};

/// Lines by their times.
type Lines<'a> = BTreeMap<Moment, &'a [u8]>;

/// Puts the line of a sample among lines, in place of one of its time.
fn add_line<'a>(lines: &mut Lines<'a>, line: SampleLine<'a>) -> Result<(), OutOfMemory>
    ensures { OnOk result
        (lines_view lines.new ≡ put_line line.entry.time line.entry.text.now (lines_view lines.old)) }
{
    lines.insert(line.time, line.text)?;
    Ok(())
}

/// The lines of samples by their times, of two with one time the last.
fn lines_of<'a>(alloc: Global, samples: &[SampleLine<'a>]) -> Result<Lines<'a>, OutOfMemory>
    ensures { IfOk result (λ lines. lines_view lines ≡ by_time (map line_view samples.now)) }
{
    let mut lines = BTreeMap::new(alloc);
    for sample in samples {
        add_line(&mut lines, *sample)?;
    }
    Ok(lines)
}

/// Appends lines.
fn append_all(out: &mut TextBuffer, lines: &Lines) -> Result<(), OutOfMemory>
    ensures { Adds result out.old.items out.new.items (lines_text (lines_view lines.now)) }
{
    for (_time, line) in lines.iter() {
        append_bytes(out, line)?;
    }
    Ok(())
}

/// Appends the lines of the samples of a series by their times. Most series of a batch have one.
fn append_series(
    alloc: Global,
    out: &mut TextBuffer,
    samples: &[SampleLine],
) -> Result<(), OutOfMemory>
    ensures { Adds result out.old.items out.new.items (series_text (map line_view samples.now)) }
{
    if let [sample] = samples {
        return append_bytes(out, sample.text);
    }
    let lines = lines_of(alloc, samples)?;
    append_all(out, &lines)?;
    Ok(())
}

/// The samples of a family by their series.
fn series_of<'a>(alloc: Global, samples: &[SampleLine<'a>]) -> Result<Groups<'a>, OutOfMemory>
    ensures { IfOk result (λ groups. groups_view groups ≡ by_series (map line_view samples.now)) }
{
    let mut groups = Groups::new(alloc);
    for sample in samples {
        groups.put(alloc, sample.series, *sample)?;
    }
    Ok(groups)
}

/// Appends the lines of series.
fn append_each_series(
    alloc: Global,
    out: &mut TextBuffer,
    groups: &[Group],
) -> Result<(), OutOfMemory>
    ensures { Adds result out.old.items out.new.items (flat_map series_group (map group_view groups.now)) }
{
    for group in groups {
        append_series(alloc, out, group.samples.as_slice())?;
    }
    Ok(())
}

/// Appends the lines of a family, series by series. Most families have one sample.
fn append_samples(alloc: Global, out: &mut TextBuffer, family: &Group) -> Result<(), OutOfMemory>
    ensures { Adds result out.old.items out.new.items (samples_text (group_view family.now).1) }
{
    let samples = family.samples.as_slice();
    if let [sample] = samples {
        return append_bytes(out, sample.text);
    }
    let groups = series_of(alloc, samples)?;
    append_each_series(alloc, out, groups.as_slice())?;
    Ok(())
}

/// Appends the line of a family's type.
fn append_type(out: &mut TextBuffer, name: &[u8]) -> Result<(), OutOfMemory>
    ensures { Adds result out.old.items out.new.items (type_text name.now) }
{
    append_words(out, "# TYPE ")?;
    append_bytes(out, name)?;
    append_words(out, " unknown\n")?;
    Ok(())
}

/// Appends a family.
fn append_family(alloc: Global, out: &mut TextBuffer, group: &Group) -> Result<(), OutOfMemory>
    ensures { Adds result out.old.items out.new.items (family_group (group_view group.now)) }
{
    append_type(out, group.key)?;
    append_samples(alloc, out, group)?;
    Ok(())
}

/// Appends families.
pub(crate) fn append_families(
    alloc: Global,
    out: &mut TextBuffer,
    groups: &[Group],
) -> Result<(), OutOfMemory>
    ensures { Adds result out.old.items out.new.items (flat_map family_group (map group_view groups.now)) }
{
    for group in groups {
        append_family(alloc, out, group)?;
    }
    Ok(())
}
