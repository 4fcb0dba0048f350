//! What a journal is read as.
use account::{Entry, Report};
use fixed_num::OutOfMemory;
use journal_reader::{Journal, JournalFault, JournalKind, read_journal, write_journal};
use journal_text::named_by;
use std::alloc::Global;
use text_buffer::TextBuffer;

/// What is written of a journal.
#[derive(Clone, Copy, Debug, PartialEq, Eq)]
pub(crate) enum Told {
    /// The journal.
    Journal,
    /// How many of each thing it has.
    Count,
    /// Its reports.
    Reports,
}

/// What a word asks for.
pub(crate) fn told_of(word: &str) -> Option<Told> {
    match word {
        "journal" => Some(Told::Journal),
        "count" => Some(Told::Count),
        "reports" => Some(Told::Reports),
        _ => None,
    }
}

/// The groups that an entry says settled by it.
fn reports_of(e: &Entry) -> &[Report] {
    match e {
        Entry::Gather { reports, .. } => reports.as_slice(),
        Entry::Route { reports, .. } => reports.as_slice(),
        Entry::Done { reports, .. } => reports.as_slice(),
        _ => &[],
    }
}

/// How many views a Route has.
fn views_of(e: &Entry) -> usize {
    match e {
        Entry::Route { aggs, outs, .. } => aggs
            .as_slice()
            .len()
            .saturating_add(outs.as_slice().len()),
        _ => 0,
    }
}

/// The line of numbers.
fn counts(alloc: Global, j: &Journal) -> Result<Vec<u8>, OutOfMemory> {
    let mut items: usize = 0;
    let mut views: usize = 0;
    let mut reports: usize = 0;
    for e in j.entries.as_slice() {
        items = items.saturating_add(named_by(e).len());
        views = views.saturating_add(views_of(e));
        reports = reports.saturating_add(reports_of(e).len());
    }
    let inputs = j.setup.inputs.as_slice().len();
    let aggs = j.setup.aggs.as_slice().len();
    let outputs = j.setup.outputs.as_slice().len();
    let entries = j.entries.as_slice().len();
    let line = format!(in alloc;
        "inputs {inputs} aggregators {aggs} outputs {outputs} entries {entries} items {items} views {views} \
        reports {reports}\n"
    )?;
    Ok(line.into_bytes())
}

/// A line for each report.
fn reports(alloc: Global, j: &Journal) -> Result<Vec<u8>, OutOfMemory> {
    let mut out = Vec::new(alloc);
    for (entry, e) in j.entries.as_slice().iter().enumerate() {
        for report in reports_of(e) {
            let fate = if report.delivered {
                "delivered"
            } else {
                "rejected"
            };
            let line = format!(in alloc; "{entry} {} {} {fate}\n", report.group, report.input)?;
            out.extend_from_slice(line.as_bytes())?;
        }
    }
    Ok(out)
}

/// The line of a fault.
fn refusal(alloc: Global, fault: JournalFault) -> Result<Vec<u8>, OutOfMemory> {
    if fault.kind == JournalKind::OutOfMemory {
        return Err(OutOfMemory);
    }
    let line = format!(in alloc; "{:?} {}\n", fault.kind, fault.place)?;
    Ok(line.into_bytes())
}

/// What is asked for of a text: of the journal that it is, or its first fault.
pub(crate) fn answer(alloc: Global, told: Told, text: &[u8]) -> Result<Vec<u8>, OutOfMemory> {
    let j = match read_journal(alloc, text) {
        Ok(j) => j,
        Err(fault) => return refusal(alloc, fault),
    };
    match told {
        Told::Count => counts(alloc, &j),
        Told::Reports => reports(alloc, &j),
        Told::Journal => {
            let mut out = TextBuffer::new(alloc);
            write_journal(alloc, &j, &mut out)?;
            Ok(out.into_vec())
        }
    }
}
