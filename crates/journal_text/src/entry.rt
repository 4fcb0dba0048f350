//! The entries of a journal, and its end.
ghost use Rattle.std.specs.Prelude.{◌≡◌, ◌++◌, OnOk, OnErr, codes, decimal, if◌then◌else◌};
ghost use Rattle.text_parts.specs.Adds.{Adds};
ghost use Rattle.account.specs.Items.{named_by};
ghost use Rattle.account.specs.Says.{gather_of, reports_of};
ghost use Rattle.journal_text.specs.JournalText.{metric_line, metric_lines};
ghost use Rattle.journal_text.specs.JournalText.{report_line, report_lines, group_text, spaced, gather_line};
ghost use Rattle.journal_text.specs.JournalText.{gather_head, made_line, entry_text};
ghost use Rattle.journal_text.specs.JournalText.{end_text, HasItem, IsWholeOrRemoved};
ghost use Rattle.journal_text.specs.Known.{head_as};

use crate::known::Known;
use crate::metrics::{append_byte, append_metric};
use crate::route::{Outcome, append_routed};
use account::{Entry, Report};
use fixed_num::{Moment, OutOfMemory};
use metric::Metric;
use std::alloc::Global;
use text_buffer::TextBuffer;
use text_parts::{
    append_bytes, append_line, append_numbers, append_signed, append_unsigned, append_words, settle,
};

// Appends the line of a metric.
fn append_metric_line(
    alloc: Global,
    out: &mut TextBuffer,
    metric: &Metric,
) -> Result<(), OutOfMemory>
    ensures { Adds result out.old.items out.new.items (metric_line metric.now) }
{
    append_words(out, "m ")?;
    append_metric(alloc, out, metric)?;
    append_byte(out, b'\n')?;
    Ok(())
}

// Appends the lines of metrics.
fn append_metric_lines(
    alloc: Global,
    out: &mut TextBuffer,
    metrics: &[Metric],
) -> Result<(), OutOfMemory>
    ensures { Adds result out.old.items out.new.items (metric_lines metrics.now) }
{
    for metric in metrics {
        append_metric_line(alloc, out, metric)?;
    }
    Ok(())
}

// How the line of a report ends.
fn report_ending(delivered: bool) -> &'static str
    ensures { result.now ≡ (if delivered then codes " delivered\n" else codes " rejected\n") }
{
    if delivered {
        " delivered\n"
    } else {
        " rejected\n"
    }
}

// Appends the lines of reports.
#[tactic(auto, unfolding(crate::specs::JournalText::report_line))]
fn append_reports(out: &mut TextBuffer, reports: &[Report]) -> Result<(), OutOfMemory>
    ensures { Adds result out.old.items out.new.items (report_lines reports.now) }
{
    for report in reports {
        append_numbers(
            out,
            &[("report ", report.group)],
            report_ending(report.delivered),
        )?;
    }
    Ok(())
}

// The number of a group, and what follows it in the line of a Gather.
fn append_group(out: &mut TextBuffer, group: Option<u64>) -> Result<(), OutOfMemory>
    ensures { Adds result out.old.items out.new.items (codes " " ++ group_text group ++ codes "\n") }
{
    match group {
        None => {
            append_words(out, " -\n")?;
            Ok(())
        }
        Some(group) => {
            append_line(out, " ", group)?;
            Ok(())
        }
    }
}

// Appends numbers, each behind a space.
fn append_spaced(out: &mut TextBuffer, numbers: &[u64]) -> Result<(), OutOfMemory>
    ensures { Adds result out.old.items out.new.items (spaced numbers.now) }
{
    for n in numbers {
        append_unsigned(out, " ", *n)?;
    }
    Ok(())
}

// Appends the line of a Gather.
#[tactic(auto, unfolding(crate::specs::JournalText::gather_line))]
fn append_gather_line(
    out: &mut TextBuffer,
    input: u32,
    moment: &Moment,
    numbers: &[u64],
    group: Option<u64>,
) -> Result<(), OutOfMemory>
    ensures { Adds result out.old.items out.new.items (gather_line input moment.now numbers.now group) }
{
    append_unsigned(out, "gather ", u64::from(input))?;
    append_signed(out, " ", moment)?;
    append_spaced(out, numbers)?;
    append_group(out, group)?;
    Ok(())
}

// Appends the line of a Tick or a Stop: its word, the moment, and how many metrics were made.
fn append_made(
    out: &mut TextBuffer,
    word: &str,
    moment: &Moment,
    made: usize,
) -> Result<(), OutOfMemory>
    ensures { Adds result out.old.items out.new.items (made_line word.now moment.now made) }
{
    append_signed(out, word, moment)?;
    append_line(out, " ", made as u64)?;
    Ok(())
}

// How the line of a Done ends.
fn done_ending(ok: bool) -> &'static str
    ensures { result.now ≡ (if ok then codes " ok\n" else codes " failed\n") }
{
    if ok { " ok\n" } else { " failed\n" }
}

// Appends the line of a Gather. Another entry adds nothing.
#[tactic(auto, unfolding(crate::specs::JournalText::gather_head))]
fn append_gather(e: &Entry, out: &mut TextBuffer) -> Result<(), OutOfMemory>
    ensures { Adds result out.old.items out.new.items (gather_head (gather_of e.now)) }
{
    let Entry::Gather {
        input,
        moment,
        pieces,
        refused,
        passed,
        filtered,
        metrics,
        group,
        ..
    } = e
    else {
        return Ok(());
    };
    let numbers = [
        u64::from(*pieces),
        u64::from(*refused),
        u64::from(*passed),
        u64::from(*filtered),
        metrics.as_slice().len() as u64,
    ];
    append_gather_line(out, *input, moment, &numbers, *group)?;
    Ok(())
}

// Appends a Begin: its output and its positions.
fn append_begin(out: &mut TextBuffer, output: u32, from: u64, to: u64) -> Result<(), OutOfMemory>
    ensures { Adds result out.old.items out.new.items
        (codes "begin " ++ decimal output ++ codes " " ++ decimal from ++ codes " " ++ decimal to
        ++ codes "\n") }
{
    let output = u64::from(output);
    append_numbers(out, &[("begin ", output), (" ", from), (" ", to)], "\n")?;
    Ok(())
}

// Appends the line of a Done: its output, and how it ended.
fn append_done(out: &mut TextBuffer, output: u32, ok: bool) -> Result<(), OutOfMemory>
    ensures { Adds result out.old.items out.new.items
        (codes "done " ++ decimal output ++ (if ok then codes " ok\n" else codes " failed\n")) }
{
    append_numbers(out, &[("done ", u64::from(output))], done_ending(ok))?;
    Ok(())
}

// Appends the line of an entry, or a front of it.
#[tactic(auto, unfolding(crate::specs::JournalText::head_text, crate::specs::JournalText::gather_head, crate::specs::Known::head_as))]
fn append_head(
    alloc: Global,
    known: Known,
    item: &[Metric],
    e: &Entry,
    out: &mut TextBuffer,
) -> Result<(), OutOfMemory>
    ensures { Adds result out.old.items out.new.items (head_as known item.now e.now) }
{
    match e {
        Entry::Gather { .. } => append_gather(e, out),
        Entry::Ended { input } => {
            append_line(out, "ended ", u64::from(*input))?;
            Ok(())
        }
        Entry::Take { item } => {
            append_line(out, "take ", *item)?;
            Ok(())
        }
        Entry::Route {
            item: number,
            whole,
            verdict,
            aggs,
            outs,
            ..
        } => {
            let outcome = Outcome::of(*verdict, aggs, outs);
            append_unsigned(out, "route ", *number)?;
            append_routed(alloc, out, known, item, whole, &outcome)?;
            Ok(())
        }
        Entry::Tick { moment, made } => append_made(out, "tick ", moment, made.as_slice().len()),
        Entry::Stop { moment, made } => append_made(out, "stop ", moment, made.as_slice().len()),
        Entry::Begin { output, from, to } => append_begin(out, *output, *from, *to),
        Entry::Done { output, ok, .. } => append_done(out, *output, *ok),
    }
}

/// The metrics that an entry names, whose lines stand behind its own.
pub fn named_by(e: &Entry) -> &[Metric]
    ensures { result.now ≡ named_by e.now }
{
    match e {
        Entry::Gather { metrics, .. } => metrics.as_slice(),
        Entry::Tick { made, .. } => made.as_slice(),
        Entry::Stop { made, .. } => made.as_slice(),
        _ => &[],
    }
}

// The groups that an entry says settled by it, whose lines are its last ones.
fn reports_of(e: &Entry) -> &[Report]
    ensures { result.now ≡ reports_of e.now }
{
    match e {
        Entry::Gather { reports, .. } => reports.as_slice(),
        Entry::Route { reports, .. } => reports.as_slice(),
        Entry::Done { reports, .. } => reports.as_slice(),
        _ => &[],
    }
}

// Appends an entry, or a front of it.
#[tactic(auto, unfolding(crate::specs::JournalText::entry_text))]
fn append_entry(
    alloc: Global,
    item: &[Metric],
    e: &Entry,
    out: &mut TextBuffer,
) -> Result<(), OutOfMemory>
    ensures { Adds result out.old.items out.new.items (entry_text item.now e.now) }
{
    append_head(alloc, Known::nothing(), item, e, out)?;
    append_metric_lines(alloc, out, named_by(e))?;
    append_reports(out, reports_of(e))?;
    Ok(())
}

/// Appends an entry: its line, its metrics and its reports, in the order of the list. A Route is
/// written beside its item: `=` stands for a whole that equals the item, and for a view that equals
/// the whole. `OutOfMemory` leaves `out` as it was.
pub fn write_entry(
    alloc: Global,
    metrics: &[Metric],
    e: &Entry,
    out: &mut TextBuffer,
) -> Result<(), OutOfMemory>
    requires item { HasItem metrics.now e.now }
    requires whole { IsWholeOrRemoved e.now }
    ensures ok { OnOk result (out.new.items ≡ out.old.items ++ entry_text metrics.now e.now) }
    ensures err { OnErr result (out.new.items ≡ out.old.items) }
{
    let len = out.len();
    let written = append_entry(alloc, metrics, e, out);
    settle(out, len, written)
}

/// Appends the line of an entry. Behind it stand the lines of the metrics that it names (`write_metric`) and of its
/// reports (`write_reports`), and so it is an entry. A Route is written beside its item, with what is known of it, which
/// isn't looked for: where it is so this is the line that the entry has (`known_stays`). `OutOfMemory` leaves `out` as it
/// was.
#[inline(always)]
pub fn write_head(
    alloc: Global,
    known: Known,
    metrics: &[Metric],
    e: &Entry,
    out: &mut TextBuffer,
) -> Result<(), OutOfMemory>
    requires item { HasItem metrics.now e.now }
    requires whole { IsWholeOrRemoved e.now }
    ensures ok { OnOk result (out.new.items ≡ out.old.items ++ head_as known metrics.now e.now) }
    ensures err { OnErr result (out.new.items ≡ out.old.items) }
{
    let len = out.len();
    let written = append_head(alloc, known, metrics, e, out);
    settle(out, len, written)
}

/// Appends the line of a metric that an entry names. `OutOfMemory` leaves `out` as it was.
pub fn write_metric(alloc: Global, metric: &Metric, out: &mut TextBuffer) -> Result<(), OutOfMemory>
    ensures ok { OnOk result (out.new.items ≡ out.old.items ++ metric_line metric.now) }
    ensures err { OnErr result (out.new.items ≡ out.old.items) }
{
    let len = out.len();
    let written = append_metric_line(alloc, out, metric);
    settle(out, len, written)
}

/// Appends the lines of an entry's reports. `OutOfMemory` leaves `out` as it was.
pub fn write_reports(e: &Entry, out: &mut TextBuffer) -> Result<(), OutOfMemory>
    ensures ok { OnOk result (out.new.items ≡ out.old.items ++ report_lines (reports_of e.now)) }
    ensures err { OnErr result (out.new.items ≡ out.old.items) }
{
    let len = out.len();
    let written = append_reports(out, reports_of(e));
    settle(out, len, written)
}

// Appends the end, or a front of it.
#[tactic(auto, unfolding(crate::specs::JournalText::end_text))]
fn append_end(account: &[u8], entries: u64, out: &mut TextBuffer) -> Result<(), OutOfMemory>
    ensures { Adds result out.old.items out.new.items (end_text account.now entries) }
{
    append_bytes(out, account)?;
    append_line(out, "end ", entries)?;
    Ok(())
}

/// Appends the end of a journal: the account's text and the number of entries. `OutOfMemory` leaves `out` as
/// it was.
pub fn write_end(
    _alloc: Global,
    account: &[u8],
    entries: u64,
    out: &mut TextBuffer,
) -> Result<(), OutOfMemory>
    ensures ok { OnOk result (out.new.items ≡ out.old.items ++ end_text account.now entries) }
    ensures err { OnErr result (out.new.items ≡ out.old.items) }
{
    let len = out.len();
    let written = append_end(account, entries, out);
    settle(out, len, written)
}
