//! Writing a journal.
ghost use Rattle.std.specs.Prelude.{◌≡◌, ◌≢◌, ◌++◌, [], IfOk, OnOk, OnErr};
ghost use Rattle.std.specs.List.{AllByRecursion};
ghost use Rattle.text_parts.specs.Adds.{Adds};
ghost use Rattle.account.specs.Items.{named_by};
ghost use Rattle.journal_text.specs.JournalText.{item_of, entry_text, entries_text, journal_text, IsWholeOrRemoved};

use crate::read::Journal;
use account::Entry;
use fixed_num::OutOfMemory;
use journal_text::{named_by, write_end, write_entry, write_reports, write_setup};
use metric::Metric;
use std::alloc::Global;
use text_buffer::TextBuffer;
use text_parts::{append_unsigned, append_words, settle};

/// The item of an entry among these: that of a Route, where it is there.
fn item_of<'a>(known: &'a [Metric], e: &Entry) -> &'a [Metric]
    ensures { result.now ≡ item_of known.now e.now }
{
    let Entry::Route { item, .. } = e else {
        return &[];
    };
    let at = *item as usize;
    if at < known.len() {
        &known[at..at + 1]
    } else {
        &[]
    }
}

/// Another metric than this one.
fn another(alloc: Global, m: &Metric) -> Result<Metric, OutOfMemory>
    ensures { IfOk result (λ other. m.now ≢ other) }
{
    let mut other = m.copy()?;
    let name = if m.name().as_str() == "m" { "n" } else { "m" };
    other.set_name(alloc, name)?;
    Ok(other)
}

/// Appends an entry that is written beside no item.
#[tactic(auto, unfolding(journal_text::specs::JournalText::entry_text))]
fn append_alone(alloc: Global, e: &Entry, out: &mut TextBuffer) -> Result<(), OutOfMemory>
    requires { IsWholeOrRemoved e.now }
    ensures { Adds result out.old.items out.new.items (entry_text [] e.now) }
{
    match e {
        Entry::Route { item, whole, .. } => match whole {
            // Beside a metric that it doesn't equal the whole is written out.
            Some(whole) => {
                let other = another(alloc, whole)?;
                write_entry(alloc, &[other], e, out)
            }
            None => {
                append_unsigned(out, "route ", *item)?;
                append_words(out, " - removed\n")?;
                write_reports(e, out)
            }
        },
        _ => write_entry(alloc, &[], e, out),
    }
}

/// Appends an entry, where these items are known.
fn append_entry(
    alloc: Global,
    known: &[Metric],
    e: &Entry,
    out: &mut TextBuffer,
) -> Result<(), OutOfMemory>
    requires { IsWholeOrRemoved e.now }
    ensures { Adds result out.old.items out.new.items (entry_text (item_of known.now e.now) e.now) }
{
    let item = item_of(known, e);
    if item.is_empty() {
        return append_alone(alloc, e, out);
    }
    write_entry(alloc, item, e, out)
}

/// Puts the metrics that an entry names behind those that are known.
fn add_known(known: &mut Vec<Metric>, e: &Entry) -> Result<(), OutOfMemory>
    ensures { OnOk result (known.new.items ≡ known.old.items ++ named_by e.now) }
{
    let items = named_by(e);
    for m in items {
        known.push(m.copy()?)?;
    }
    Ok(())
}

/// Appends entries.
fn append_entries(alloc: Global, entries: &[Entry], out: &mut TextBuffer) -> Result<(), OutOfMemory>
    requires { AllByRecursion IsWholeOrRemoved entries.now }
    ensures { Adds result out.old.items out.new.items (entries_text [] entries.now) }
{
    let mut known = Vec::new(alloc);
    for e in entries {
        append_entry(alloc, known.as_slice(), e, out)?;
        add_known(&mut known, e)?;
    }
    Ok(())
}

/// Appends a journal, or a front of it.
#[tactic(auto, unfolding(journal_text::specs::JournalText::journal_text))]
fn append_journal(alloc: Global, j: &Journal, out: &mut TextBuffer) -> Result<(), OutOfMemory>
    requires { AllByRecursion IsWholeOrRemoved j.now.entries }
    ensures { Adds result out.old.items out.new.items
        (journal_text j.now.setup j.now.entries j.now.account) }
{
    let entries = j.entries.as_slice();
    write_setup(alloc, &j.setup, out)?;
    append_entries(alloc, entries, out)?;
    write_end(alloc, j.account.as_slice(), entries.len() as u64, out)?;
    Ok(())
}

/// Appends the text of a journal. A Route has no whole exactly where its item was removed, and then no view, as in each
/// journal that was read. `OutOfMemory` leaves `out` as it was.
pub fn write_journal(alloc: Global, j: &Journal, out: &mut TextBuffer) -> Result<(), OutOfMemory>
    requires { AllByRecursion IsWholeOrRemoved j.now.entries }
    ensures ok { OnOk result
        (out.new.items ≡ out.old.items ++ journal_text j.now.setup j.now.entries j.now.account) }
    ensures err { OnErr result (out.new.items ≡ out.old.items) }
{
    let len = out.len();
    let written = append_journal(alloc, j, out);
    settle(out, len, written)
}
