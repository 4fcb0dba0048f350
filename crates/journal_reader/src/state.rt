//! What was read so far.
ghost use Rattle.std.specs.Prelude.{◌≡◌, ◌++◌, [], codes, OnOk};
ghost use Rattle.std.specs.Ordering.{nat_cmp};
ghost use Rattle.journal_reader.specs.States.{beginning, with_metric, is_above, risen, reported, with_group};
ghost use Rattle.journal_reader.specs.States.{input_of, last_with, last_reported, Tries};
ghost use Rattle.std.specs.BTreeMap.{insert_entry};

use crate::account_lines::Form;
use account::{Entry, Report};
use fixed_num::{OutOfMemory, Seq};
use journal_text::JournalSetup;
use metric::Metric;
use std::alloc::Global;
use std::collections::BTreeMap;
use std::marker::Model;

/// Which lines may come.
#[derive(Clone, Copy, Debug, PartialEq, Eq)]
pub(crate) enum Stage {
    /// The moment of the start.
    Starting,
    /// Lines of the set-up, or what follows it.
    Setting,
    /// What follows an entry.
    Telling,
    /// Further lines of the account, and the end.
    Counting,
    /// None.
    Over,
}

/// The inputs of groups that were gathered.
#[derive(Drop)]
pub(crate) struct Groups {
    inputs: BTreeMap<u64, u32>,
}

impl Model for Groups {
    ghost use Rattle.std.specs.Prelude.{List, ℕ};

    ghost Value = { List (ℕ × ℕ) };

    ghost view = { λ g. g.inputs.entries };
}

impl Groups {
    /// No group was gathered.
    fn new(alloc: Global) -> Groups
        ensures { result ≡ [] }
    {
        Groups {
            inputs: BTreeMap::new(alloc),
        }
    }

    /// The input that gathered a group last.
    #[tactic(auto, unfolding(crate::specs::States::input_of))]
    pub(crate) fn input_of(&self, group: u64) -> Option<u32>
        ensures { result ≡ input_of self.now group }
    {
        self.inputs.get(&group).copied()
    }

    /// An input gathered a group.
    fn put(&mut self, group: u64, input: u32) -> Result<(), OutOfMemory>
        ensures { OnOk result (self.new ≡ insert_entry nat_cmp self.old group input) }
    {
        self.inputs.insert(group, input)?;
        Ok(())
    }

    /// An entry was begun, which may be a Gather of a group.
    #[tactic(auto, unfolding(crate::specs::States::with_group))]
    pub(crate) fn put_group_of(&mut self, e: &Entry) -> Result<(), OutOfMemory>
        ensures { OnOk result (self.new ≡ with_group self.old e.now) }
    {
        match e {
            Entry::Gather { input, group, .. } => match group {
                Some(group) => self.put(*group, *input),
                None => Ok(()),
            },
            Entry::Ended { .. } => Ok(()),
            Entry::Take { .. } => Ok(()),
            Entry::Route { .. } => Ok(()),
            Entry::Tick { .. } => Ok(()),
            Entry::Stop { .. } => Ok(()),
            Entry::Begin { .. } => Ok(()),
            Entry::Done { .. } => Ok(()),
        }
    }
}

/// Lines that were read.
#[derive(Drop)]
pub(crate) struct Bytes {
    bytes: Vec<u8>,
}

impl Model for Bytes {
    ghost use Rattle.std.specs.Prelude.{List, ℕ};

    ghost Value = { List ℕ };

    ghost view = { λ b. b.bytes.items };
}

impl Bytes {
    /// None.
    fn new(alloc: Global) -> Bytes
        ensures { result ≡ [] }
    {
        Bytes {
            bytes: Vec::new(alloc),
        }
    }

    /// One more line, with its newline.
    pub(crate) fn put_line(&mut self, line: &[u8]) -> Result<(), OutOfMemory>
        ensures { OnOk result (self.new ≡ self.old ++ line.now ++ codes "\n") }
    {
        self.bytes.extend_from_slice(line)?;
        self.bytes.push(b'\n')?;
        Ok(())
    }

    /// The lines as a list.
    pub(crate) fn into_seq(self) -> Seq<u8>
        ensures { result ≡ self }
    {
        let Bytes { bytes } = self;
        Seq::of(bytes)
    }
}

/// What was read so far.
#[derive(Drop)]
pub(crate) struct State {
    /// Which lines may come.
    pub stage: Stage,
    /// The set-up, as far as it was read.
    pub setup: JournalSetup,
    /// The entries before the last one.
    pub entries: Seq<Entry>,
    /// The last entry, to which lines may be added.
    pub last: Option<Entry>,
    /// How many metrics the last entry still owes.
    pub owed: u64,
    /// The items that were named.
    pub known: Seq<Metric>,
    /// The groups that were gathered.
    pub groups: Groups,
    /// The lines of the account.
    pub forms: Seq<Form>,
    /// How many lines of the account were read.
    pub counted: usize,
    /// Their text.
    pub account: Bytes,
}

/// Nothing but the version was read.
pub(crate) fn beginning(alloc: Global) -> State
    ensures { result ≡ beginning }
{
    State {
        stage: Stage::Starting,
        setup: JournalSetup {
            start: 0,
            inputs: Seq::of(Vec::new(alloc)),
            aggs: Seq::of(Vec::new(alloc)),
            outputs: Seq::of(Vec::new(alloc)),
        },
        entries: Seq::of(Vec::new(alloc)),
        last: None,
        owed: 0,
        known: Seq::of(Vec::new(alloc)),
        groups: Groups::new(alloc),
        forms: Seq::of(Vec::new(alloc)),
        counted: 0,
        account: Bytes::new(alloc),
    }
}

/// Puts a metric behind those of an entry that names some.
#[tactic(auto, unfolding(crate::specs::States::with_metric))]
fn put_metric(alloc: Global, e: &mut Entry, m: Metric) -> Result<(), OutOfMemory>
    ensures { OnOk result (e.new ≡ with_metric e.old m) }
{
    match e {
        Entry::Gather { metrics, .. } => metrics.push(alloc, m),
        Entry::Tick { made, .. } => made.push(alloc, m),
        Entry::Stop { made, .. } => made.push(alloc, m),
        _ => Ok(()),
    }
}

/// Whether a group comes behind those of reports.
fn is_above(reports: &[Report], group: u64) -> bool
    ensures { result ≡ is_above reports.now group }
{
    match reports {
        [.., last] => last.group < group,
        [] => true,
    }
}

/// Puts a report behind those of an entry, where it has some and the group comes behind theirs.
#[tactic(auto, unfolding(crate::specs::States::risen))]
fn put_behind(alloc: Global, reports: &mut Seq<Report>, report: Report) -> Result<bool, OutOfMemory>
    ensures { Tries result (risen reports.old report) reports.old reports.new }
{
    if !is_above(reports.as_slice(), report.group) {
        return Ok(false);
    }
    reports.push(alloc, report)?;
    Ok(true)
}

/// Puts a metric behind those of the last entry, where there is one.
pub(crate) fn put_last(
    alloc: Global,
    last: &mut Option<Entry>,
    m: Metric,
) -> Result<(), OutOfMemory>
    ensures { OnOk result (last.new ≡ last_with last.old m) }
{
    match last {
        Some(e) => put_metric(alloc, e, m),
        None => Ok(()),
    }
}

/// Puts a report behind those of an entry. False where it has none, or where groups wouldn't rise: then the entry is
/// as before.
#[tactic(auto, unfolding(crate::specs::States::reported))]
fn put_report(alloc: Global, e: &mut Entry, report: Report) -> Result<bool, OutOfMemory>
    ensures { Tries result (reported e.old report) e.old e.new }
{
    match e {
        Entry::Gather { reports, .. } => put_behind(alloc, reports, report),
        Entry::Route { reports, .. } => put_behind(alloc, reports, report),
        Entry::Done { reports, .. } => put_behind(alloc, reports, report),
        _ => Ok(false),
    }
}

/// Puts a report behind those of the last entry. False where there is none, or where that can't have it: then it is as
/// before.
#[tactic(auto, unfolding(crate::specs::States::last_reported))]
pub(crate) fn report_last(
    alloc: Global,
    last: &mut Option<Entry>,
    report: Report,
) -> Result<bool, OutOfMemory>
    ensures { Tries result (last_reported last.old report) last.old last.new }
{
    match last {
        Some(e) => put_report(alloc, e, report),
        None => Ok(false),
    }
}
