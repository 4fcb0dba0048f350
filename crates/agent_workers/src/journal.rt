//! The journal's part of a run: it puts the text of the entries as they come.
ghost use Rattle.std.specs.Prelude.{◌≡◌, ◌≢◌, ◌++◌, ◌∷◌, [], drop, false, length, All, IfOk, OnOk};
ghost use Rattle.std.specs.Option.{option_to_list};
ghost use Rattle.account.specs.Items.{named_by, routes_by};
ghost use Rattle.journal_text.specs.JournalText.{metric_lines, HasItem, IsWholeOrRemoved};
ghost use Rattle.journal_text.specs.Known.{entry_as, known_of};
ghost use Rattle.pipeline_core.specs.CoreState.{CoreState};
ghost use Rattle.pipeline_core.specs.Steps.{after_cut};
ghost use Rattle.agent_workers.specs.Noted.{part_of, IsPartPut, GoesOut, SpellsOut, NotesOn, EndsOn};
ghost use Rattle.agent_workers.specs.Progress.{NotesRun};
ghost use Rattle.agent_workers.specs.Run.{carried_change};
ghost use Rattle.agent_workers.specs.Running.{IsAtRest};
ghost use Rattle.journal_text.specs.SoFar.{front_text};

use crate::output::put_failed;
use account::Entry;
use agent_base::Sink;
use fixed_num::{OutOfMemory, Seq};
use journal_text::{
    JournalSetup, Known, named_by, write_end, write_head, write_metric, write_reports, write_setup,
};
use metric::Metric;
use pipeline_core::{Core, CutAnswer};
use std::alloc::Global;
use std::collections::VecDeque;
use std::mem;
use text_buffer::TextBuffer;

/// How many bytes of text wait at most behind a line that is whole: those of 1 MiB are put.
const FULL: usize = 1 << 20;

/// How many bytes of room are kept for text from one put to the next: 4 MiB.
const MOST_ROOM: usize = 1 << 22;

/// The journal's part of a run: what the journal is about, where its text goes, and what is needed to go on
/// with it. What is known of a Route isn't looked for as it is spelled.
///
/// The text goes out in parts, one put each, which end behind a line. The first part begins with the set-up,
/// and the last one ends with the account and the number of entries. After a put that failed nothing more is
/// put; the entries are still counted.
#[derive(Drop)]
pub struct JournalJob<K: Drop, C: Drop> {
    pub setup: JournalSetup,
    pub sink: K,
    /// Its clock, which is asked for no moment yet.
    pub clock: C,
    /// The items that have no spelled Route yet, oldest first.
    pub kept: VecDeque<Metric>,
    /// What is known of the Routes that aren't spelled yet, oldest first.
    pub known: VecDeque<Known>,
    /// How many entries there were.
    pub entries: u64,
    /// Whether a put failed.
    pub failed: bool,
}

impl<K: Sink + Drop, C: Drop> JournalJob<K, C> {
    /// The part of a journal without an entry: nothing is put.
    pub fn new(alloc: Global, setup: JournalSetup, sink: K, clock: C) -> JournalJob<K, C>
        ensures setup { result.setup ≡ setup }
        ensures sink { result.sink ≡ sink }
        ensures kept { result.kept.items ≡ [] }
        ensures known { result.known.items ≡ [] }
        ensures entries { result.entries ≡ 0 }
        ensures going { result.failed ≡ false }
    {
        JournalJob {
            setup,
            sink,
            clock,
            kept: VecDeque::new(alloc),
            known: VecDeque::new(alloc),
            entries: 0,
            failed: false,
        }
    }

    /// Puts the text of some entries, which follow those that came before, and counts them. Each Route among
    /// them names the first item that has no Route yet. The text is built in `text`, in place of what it
    /// held, and goes out in puts of at least 1 MiB and a last one, none of them empty.
    pub fn take(
        &mut self,
        alloc: Global,
        entries: Vec<Entry>,
        text: &mut TextBuffer,
    ) -> Result<(), OutOfMemory>
        requires whole { All IsWholeOrRemoved entries.items }
        requires some { length entries.items ≢ 0 }
        ensures { OnOk result (NotesOn entries.items
            (part_of K.told self.old) (part_of K.told self.new)) }
    {
        self.spell(alloc, entries, text)?;
        self.put_text(text)?;
        Ok(())
    }

    /// Puts the text of the last entries, of the account, and of the last line.
    pub fn end(
        &mut self,
        alloc: Global,
        entries: Vec<Entry>,
        account: &[u8],
        text: &mut TextBuffer,
    ) -> Result<(), OutOfMemory>
        requires { All IsWholeOrRemoved entries.items }
        ensures { OnOk result (EndsOn entries.items account.now
            (part_of K.told self.old) (part_of K.told self.new)) }
    {
        self.spell(alloc, entries, text)?;
        write_end(alloc, account, self.entries, text)?;
        self.put_text(text)?;
        Ok(())
    }

    // Spells entries, behind the set-up where they are the first, counts them, and keeps their items. `text`
    // holds what isn't put yet then.
    fn spell(
        &mut self,
        alloc: Global,
        entries: Vec<Entry>,
        text: &mut TextBuffer,
    ) -> Result<(), OutOfMemory>
        requires { All IsWholeOrRemoved entries.items }
        ensures { OnOk result (SpellsOut entries.items
            (part_of K.told self.old) (part_of K.told self.new)
            (front_text self.old.setup self.old.entries) text.new.items) }
    {
        write_front(alloc, &self.setup, self.entries, text)?;
        self.write_entries(alloc, entries, text)?;
        Ok(())
    }

    // Spells entries behind a text.
    fn write_entries(
        &mut self,
        alloc: Global,
        mut entries: Vec<Entry>,
        text: &mut TextBuffer,
    ) -> Result<(), OutOfMemory>
        requires { All IsWholeOrRemoved entries.items }
        ensures { OnOk result (SpellsOut entries.items
            (part_of K.told self.old) (part_of K.told self.new)
            text.old.items text.new.items) }
    {
        for entry in entries.iter_mut() {
            self.write_one(alloc, entry, text)?;
        }
        Ok(())
    }

    // Spells an entry behind a text. Its metrics are taken out of it.
    fn write_one(
        &mut self,
        alloc: Global,
        entry: &mut Entry,
        text: &mut TextBuffer,
    ) -> Result<(), OutOfMemory>
        requires { IsWholeOrRemoved entry.old }
        ensures { OnOk result (SpellsOut (entry.old ∷ [])
            (part_of K.told self.old) (part_of K.told self.new)
            text.old.items text.new.items) }
    {
        let item = item_of(&mut self.kept, entry)?;
        let known = known_of(&mut self.known, entry);
        self.write_lines(alloc, known, entry, item.as_slice(), text)?;
        keep_named(alloc, &mut self.kept, entry)?;
        self.entries = self.entries.checked_add(1).ok_or(OutOfMemory)?;
        Ok(())
    }

    // Adds the lines of an entry to a text, with the item of a Route and what is known of it.
    fn write_lines(
        &mut self,
        alloc: Global,
        known: Known,
        entry: &Entry,
        item: &[Metric],
        text: &mut TextBuffer,
    ) -> Result<(), OutOfMemory>
        requires item { HasItem item.now entry.now }
        requires whole { IsWholeOrRemoved entry.now }
        ensures { OnOk result (GoesOut
            (part_of K.told self.old) (part_of K.told self.new)
            text.old.items (entry_as known item.now entry.now) text.new.items) }
    {
        write_head(alloc, known, item, entry, text)?;
        self.write_metrics(alloc, named_by(entry), text)?;
        write_reports(entry, text)?;
        self.put_full(text)?;
        Ok(())
    }

    // Adds the lines of metrics to a text.
    fn write_metrics(
        &mut self,
        alloc: Global,
        metrics: &[Metric],
        text: &mut TextBuffer,
    ) -> Result<(), OutOfMemory>
        ensures { OnOk result (GoesOut
            (part_of K.told self.old) (part_of K.told self.new)
            text.old.items (metric_lines metrics.now) text.new.items) }
    {
        for metric in metrics {
            write_metric(alloc, metric, text)?;
            self.put_full(text)?;
        }
        Ok(())
    }

    // Puts a text that has come to 1 MiB, all of it.
    #[inline(always)]
    fn put_full(&mut self, text: &mut TextBuffer) -> Result<(), OutOfMemory>
        ensures { OnOk result (GoesOut
            (part_of K.told self.old) (part_of K.told self.new)
            text.old.items [] text.new.items) }
    {
        if text.len() < FULL {
            return Ok(());
        }
        self.put_text(text)?;
        Ok(())
    }

    // Puts a text, unless it is empty or a put failed before. It is empty then.
    #[inline(never)]
    fn put_text(&mut self, text: &mut TextBuffer) -> Result<(), OutOfMemory>
        ensures goes { OnOk result (GoesOut
            (part_of K.told self.old) (part_of K.told self.new)
            text.old.items [] text.new.items) }
        ensures all { OnOk result (text.new.items ≡ []) }
    {
        self.failed = put_part(&mut self.sink, self.failed, text.as_slice())?;
        empty(text);
        Ok(())
    }
}

// Begins the text of a part, in place of what it held: with the set-up where no entry came before.
fn write_front(
    alloc: Global,
    setup: &JournalSetup,
    entries: u64,
    text: &mut TextBuffer,
) -> Result<(), OutOfMemory>
    ensures { OnOk result (text.new.items ≡ front_text setup.now entries) }
{
    empty(text);
    if entries == 0 {
        write_setup(alloc, setup, text)?;
    }
    Ok(())
}

// Empties a text. Some of its room is kept.
fn empty(text: &mut TextBuffer)
    ensures { text.new.items ≡ [] }
{
    text.clear();
    text.shrink_to(MOST_ROOM);
}

// Puts the text of a part, unless it is empty or a put failed before, and says whether one failed.
fn put_part<K: Sink>(sink: &mut K, failed: bool, text: &[u8]) -> Result<bool, OutOfMemory>
    ensures { IfOk result
        (λ now. IsPartPut failed now (carried_change (K.told sink.old) (K.told sink.new)) text.now) }
{
    if failed {
        return Ok(true);
    }
    let now = put_failed(sink, text)?;
    Ok(now)
}

// The item of a Route, the first of those that weren't routed.
fn item_of(
    unrouted_items: &mut VecDeque<Metric>,
    entry: &Entry,
) -> Result<Option<Metric>, OutOfMemory>
    ensures one { IfOk result (λ item. HasItem (option_to_list item) entry.now) }
    ensures rest { IfOk result
        (λ item. unrouted_items.old.items ≡ option_to_list item ++ unrouted_items.new.items) }
{
    match entry {
        Entry::Route { .. } => match unrouted_items.pop_front() {
            Some(item) => Ok(Some(item)),
            None => Err(OutOfMemory),
        },
        Entry::Gather { .. } => Ok(None),
        Entry::Ended { .. } => Ok(None),
        Entry::Take { .. } => Ok(None),
        Entry::Begin { .. } => Ok(None),
        Entry::Done { .. } => Ok(None),
        Entry::Tick { .. } => Ok(None),
        Entry::Stop { .. } => Ok(None),
    }
}

// What is known of an entry: of a Route the first of what is known of those that aren't spelled yet.
fn known_of(known: &mut VecDeque<Known>, entry: &Entry) -> Known
    ensures first { result ≡ known_of known.old.items entry.now }
    ensures rest { known.new.items ≡ drop (routes_by entry.now) known.old.items }
{
    match entry {
        Entry::Route { .. } => known.pop_front().unwrap_or(Known::nothing()),
        _ => Known::nothing(),
    }
}

// Keeps the metrics that an entry names until they are routed, which are taken out of it.
fn keep_named(
    alloc: Global,
    unrouted_items: &mut VecDeque<Metric>,
    entry: &mut Entry,
) -> Result<(), OutOfMemory>
    ensures { OnOk result (unrouted_items.new.items ≡ unrouted_items.old.items ++ named_by entry.old) }
{
    match entry {
        Entry::Gather { metrics, .. } => keep(alloc, unrouted_items, taken(alloc, metrics)),
        Entry::Tick { made, .. } => keep(alloc, unrouted_items, taken(alloc, made)),
        Entry::Stop { made, .. } => keep(alloc, unrouted_items, taken(alloc, made)),
        Entry::Route { .. } => Ok(()),
        Entry::Ended { .. } => Ok(()),
        Entry::Take { .. } => Ok(()),
        Entry::Begin { .. } => Ok(()),
        Entry::Done { .. } => Ok(()),
    }
}

// Takes metrics out of their list.
fn taken(alloc: Global, metrics: &mut Seq<Metric>) -> Seq<Metric>
    ensures { result ≡ metrics.old }
{
    mem::replace(metrics, Seq::of(Vec::new(alloc)))
}

// Keeps items until they are routed.
fn keep(
    alloc: Global,
    unrouted_items: &mut VecDeque<Metric>,
    metrics: Seq<Metric>,
) -> Result<(), OutOfMemory>
    ensures { OnOk result (unrouted_items.new.items ≡ unrouted_items.old.items ++ metrics) }
{
    let mut items = VecDeque::from_vec(metrics.into_vec(alloc)?);
    unrouted_items.append(&mut items)?;
    Ok(())
}

/// Puts the text of the entries since the last cut, where there are any.
pub fn note<K: Sink + Drop, C: Drop>(
    alloc: Global,
    core: &mut Core,
    text: &mut TextBuffer,
    journal: &mut JournalJob<K, C>,
) -> Result<(), OutOfMemory>
    requires rests { IsAtRest core.old }
    ensures rests { OnOk result (IsAtRest core.new) }
    ensures noted { OnOk result (core.new ≡ after_cut core.old) }
    ensures notes { OnOk result
        (NotesRun core.old core.new (part_of K.told journal.old)
        (part_of K.told journal.new)) }
{
    match core.cut() {
        Ok(entries) => {
            journal.take(alloc, entries, text)?;
            Ok(())
        }
        Err(CutAnswer::NothingNew) => Ok(()),
        Err(CutAnswer::OutOfMemory) => Err(OutOfMemory),
    }
}

/// The entries since the last cut.
pub fn last_entries(alloc: Global, core: &mut Core) -> Result<Vec<Entry>, OutOfMemory>
    ensures entries { IfOk result (λ entries. entries.items ≡ core.old.stored) }
    ensures cut { OnOk result (core.new ≡ after_cut core.old) }
{
    match core.cut() {
        Ok(entries) => Ok(entries),
        Err(CutAnswer::NothingNew) => Ok(Vec::new(alloc)),
        Err(CutAnswer::OutOfMemory) => Err(OutOfMemory),
    }
}
