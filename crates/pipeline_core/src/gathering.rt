//! Metrics come in, and are taken in hand.
ghost use Rattle.std.specs.Prelude.{◌≡◌, ◌<◌, ◌≤◌, ◌⊎◌, ◌+◌, IsTrue, ◌^◌, ◌↔◌, [], true, false, length};
ghost use Rattle.std.specs.Prelude.{slice_get, IfOk, OnOk, OnErr, IsSome, IsNone, ℕ, IfSome, map, slice_index};
ghost use Rattle.std.specs.Prelude.{slice_index_or, vec_capacity};
ghost use Rattle.account.specs.Numbers.{AreBelow, input_numbers, with_input};
ghost use Rattle.track_groups.specs.Tracker.{IsTracker, live_of};
ghost use Rattle.pipeline_core.specs.ToldView.{no_reports, reports_in};
ghost use Rattle.account.specs.declared.entry.Entry.TheVariants as entries;
ghost use Rattle.pipeline_core.specs.Stands.{Continues};
ghost use Rattle.pipeline_core.specs.Steps.{gather_entry, after_gather, after_ended, after_take};
ghost use Rattle.pipeline_core.specs.Steps.{IsGatherAnswer, HasGroup, IsAdmitted, gathered_too, most_of};
ghost use Rattle.pipeline_core.specs.Steps.{next_number, reports_started, start_group};
ghost use Rattle.pipeline_core.specs.declared.gathering.GatherRefused.TheVariants as refused;

use crate::room::{line_up, make_room, make_room_for, queue_of};
use crate::settling::tell;
use crate::state::Core;
use crate::told::Told;
use account::{Account, Entry, Report};
use fixed_num::{Moment, OutOfMemory, Seq};
use metric::Metric;
use std::alloc::AllocError;
use track_groups::{GroupRef, Tracker};

/// What was read of an input.
#[derive(Drop)]
pub struct Gathered {
    /// The input.
    pub input: u32,
    /// The moment at which it was read: nanoseconds since 1970.
    pub moment: Moment,
    /// How many pieces there were.
    pub pieces: u32,
    /// How many of them were refused.
    pub refused: u32,
    /// How many samples were passed over.
    pub passed: u32,
    /// How many readings the input's filter kept out.
    pub filtered: u32,
    /// The readings, in order.
    pub metrics: Seq<Metric>,
}

/// An item in hand.
#[derive(Drop)]
pub struct Item {
    /// Its number: items are counted from 0.
    pub number: u64,
    /// Whether an aggregator made it.
    pub made: bool,
    /// The metric.
    pub metric: Metric,
}

/// Why nothing was gathered.
#[derive(Drop)]
pub enum GatherRefused {
    /// No memory was left.
    OutOfMemory,
    /// A run gathers fewer than 2^32 metrics, and with these it would have as many.
    RunFull(Gathered),
    /// The input has as many undelivered groups as it may have.
    HeldUndelivered(Gathered),
    /// Items wait to be taken, and with these they would be more than 10,000.
    HeldRaw(Gathered),
}

// Whether metrics may come, and why not.
#[derive(Clone, Copy, PartialEq, Eq)]
pub(crate) enum Admission {
    Admitted,
    // A run would gather 2^32 of them.
    RunFull,
    // The input has as many live groups as it may have.
    HeldUndelivered,
    // Too many items would be raw.
    HeldRaw,
    // Numbers would leave their ranges.
    TooMany,
}

impl From<OutOfMemory> for GatherRefused {
    ghost from_gives = { λ _ e. e ≡ refused.OutOfMemory };

    fn from(_fault: OutOfMemory) -> GatherRefused {
        GatherRefused::OutOfMemory
    }
}

impl From<AllocError> for GatherRefused {
    ghost from_gives = { λ _ e. e ≡ refused.OutOfMemory };

    fn from(_fault: AllocError) -> GatherRefused {
        GatherRefused::OutOfMemory
    }
}

/// Why no item was taken in hand.
#[derive(Clone, Copy, Debug, PartialEq, Eq)]
pub enum TakeAnswer {
    /// No memory was left.
    OutOfMemory,
    /// An item is in hand already.
    InHand,
    /// No item is raw.
    Empty,
}

// The most items that wait to be taken, where more than one group has come.
const MOST_RAW: usize = 10_000;

// A run gathers fewer metrics than this, 2^32, so that their number fits in a `u32`.
const GATHERED_LIMIT: usize = 1 << 32;

// A run has fewer items than this, 2^63.
const ITEM_LIMIT: u64 = 1 << 63;

impl Core {
    /// Counts what was read of an input; its metrics become items. A refusal leaves all as it was.
    #[tactic(auto, unfolding(crate::specs::Steps::gather_entry))]
    pub fn gather(&mut self, g: Gathered) -> Result<(), GatherRefused>
        requires reading { slice_get self.old.ended g.input ≡ Some false }
        requires going { self.old.stopped ≡ false }
        ensures answer { IsGatherAnswer self.old g result }
        ensures ok { OnOk result (self.new ≡ after_gather self.old g) }
        ensures stands { OnOk result (Continues self.old self.new (gather_entry self.old g)) }
        ensures err { OnErr result (self.new ≡ self.old) }
    {
        let count = g.metrics.as_slice().len();
        match self.admits(g.input, count) {
            Admission::Admitted => {}
            Admission::RunFull => return Err(GatherRefused::RunFull(g)),
            Admission::HeldUndelivered => return Err(GatherRefused::HeldUndelivered(g)),
            Admission::HeldRaw => return Err(GatherRefused::HeldRaw(g)),
            Admission::TooMany => return Err(GatherRefused::OutOfMemory),
        }
        let most = self.most_live(g.input);
        let copies = queue_of(self.alloc, g.metrics.as_slice())?;
        let mut reports = Vec::with_capacity(self.alloc, usize::from(count == 0))?;
        make_room_for(&mut self.stored, self.outputs.len(), count)?;
        self.unrouted.reserve()?;
        make_place(&mut self.told, &self.tracker, g.input)?;
        line_up(&mut self.raw, copies)?;
        self.gathered += count as u32;
        let group = start(&mut self.tracker, most, g.input, count as u32, &mut reports);
        self.unrouted.push(false, &group, count);
        count_gathered(&mut self.account, &g, most.is_some());
        tell(&mut self.account, &mut self.told, reports.as_slice());
        self.stored.push_reserved(Entry::Gather {
            input: g.input,
            moment: g.moment,
            pieces: g.pieces,
            refused: g.refused,
            passed: g.passed,
            filtered: g.filtered,
            metrics: g.metrics,
            group: number_of(&group),
            reports: Seq::of(reports),
        });
        Ok(())
    }

    // Whether so many metrics of an input may come now.
    fn admits(&self, input: u32, count: usize) -> Admission
        requires { input < length self.now.setup.inputs }
        ensures { IsAdmitted self.now input count result }
    {
        if count >= GATHERED_LIMIT - self.gathered as usize {
            return Admission::RunFull;
        }
        if !self.may_start(input) {
            return Admission::HeldUndelivered;
        }
        if !fits_raw(self.raw.len(), count) {
            return Admission::HeldRaw;
        }
        if !has_numbers(self.taken, self.raw.len(), count)
            || !self.account.has_room()
            || !self.tracker.has_room()
        {
            return Admission::TooMany;
        }
        Admission::Admitted
    }

    // The most groups of an input that may be live, where it is tracked.
    fn most_live(&self, input: u32) -> Option<u32>
        requires { input < length self.now.setup.inputs }
        ensures { result ≡ most_of self.now input }
    {
        let input = self.setup.inputs.as_slice()[input as usize];
        if input.tracked {
            Some(input.max_undelivered)
        } else {
            None
        }
    }

    // Whether the input isn't tracked, or has fewer live groups than it may have.
    fn may_start(&self, input: u32) -> bool
        requires { input < length self.now.setup.inputs }
        ensures { IsTrue result ↔ HasGroup self.now input }
    {
        match self.most_live(input) {
            Some(most) => self.tracker.undelivered(input) < most,
            None => true,
        }
    }

    /// Notes that an input was read to its end. Without memory all stays as it was.
    pub fn ended(&mut self, input: u32) -> Result<(), OutOfMemory>
        requires reading { slice_get self.old.ended input ≡ Some false }
        requires going { self.old.stopped ≡ false }
        ensures ok { OnOk result (self.new ≡ after_ended self.old input) }
        ensures stands { OnOk result (Continues self.old self.new (entries.Ended input)) }
        ensures err { OnErr result (self.new ≡ self.old) }
    {
        make_room(&mut self.stored, self.outputs.len())?;
        self.account.ended(input);
        self.ended[input as usize] = true;
        self.stored.push_reserved(Entry::Ended { input });
        Ok(())
    }

    /// Takes the oldest raw item in hand. An error leaves all as it was.
    pub fn take(&mut self) -> Result<Item, TakeAnswer>
        ensures in_hand { (result ≡ Err TakeAnswer.InHand) ↔ IsSome self.old.held }
        ensures empty { (result ≡ Err TakeAnswer.Empty) ↔ (IsNone self.old.held × (self.old.raw ≡ [])) }
        ensures item { IfOk result (λ item. (item.number ≡ self.old.taken)
            × (slice_get self.old.made 0 ≡ Some item.made) × (slice_get self.old.raw 0 ≡ Some item.metric)) }
        ensures ok { OnOk result (self.new ≡ after_take self.old) }
        ensures stands { OnOk result (Continues self.old self.new (entries.Take self.old.taken)) }
        ensures err { OnErr result (self.new ≡ self.old) }
    {
        if self.held.is_some() {
            return Err(TakeAnswer::InHand);
        }
        if self.raw.is_empty() {
            return Err(TakeAnswer::Empty);
        }
        let Ok(()) = make_room(&mut self.stored, self.outputs.len()) else {
            return Err(TakeAnswer::OutOfMemory);
        };
        let metric = self.raw.pop_front().unwrap();
        let made = self.unrouted.is_first_made();
        let number = self.taken;
        self.held = Some(number);
        self.taken += 1;
        self.stored.push_reserved(Entry::Take { item: number });
        Ok(Item {
            number,
            made,
            metric,
        })
    }
}

// Makes a place for the report of one group more of an input. Without memory all stays as it was.
fn make_place(told: &mut Vec<Told>, tracker: &Tracker, input: u32) -> Result<(), OutOfMemory>
    requires { input < length told.old.items }
    ensures reports { map reports_in told.new.items ≡ map reports_in told.old.items }
    ensures kept { (other : ℕ) → other < length told.old.items →
        (slice_index_or told.old.items other no_reports).places
        ≤ (slice_index_or told.new.items other no_reports).places }
    ensures place { OnOk result (length (slice_index_or told.new.items input no_reports).reports
        + (live_of tracker.now input + 1) ≤ (slice_index_or told.new.items input no_reports).places) }
{
    let live = tracker.undelivered(input) as usize;
    told[input as usize].reserve(live + 1)
}

// Starts a group of an input with so many copies, where the input is tracked. Without copies it settles at once.
fn start(
    tracker: &mut Tracker,
    most: Option<u32>,
    input: u32,
    copies: u32,
    reports: &mut Vec<Report>,
) -> Option<GroupRef>
    requires tracks { IsTracker tracker.old }
    requires input { input < length tracker.old.limits }
    requires limit { IfSome most (λ most. live_of tracker.old input < slice_index tracker.old.limits input) }
    requires few { tracker.old.started < 2 ^ 63 }
    requires none { reports.old.items ≡ [] }
    requires room { copies ≡ 0 → 0 < vec_capacity reports.old }
    ensures group { result ≡ next_number most tracker.old.started }
    ensures state { tracker.new ≡ start_group tracker.old result input copies }
    ensures reports { reports.new.items ≡ reports_started tracker.old result input copies }
    ensures stands { IsTracker tracker.new }
{
    most?;
    let (group, report) = tracker.start(input, copies);
    if let Some(report) = report {
        reports.push_reserved(report);
    }
    Some(group)
}

// The number of a group, where there is one.
fn number_of(group: &Option<GroupRef>) -> Option<u64>
    ensures { result ≡ group.now }
{
    match group {
        Some(group) => Some(group.number()),
        None => None,
    }
}

// Counts what was gathered, and its group, where the input is tracked.
fn count_gathered(account: &mut Account, g: &Gathered, tracked: bool)
    requires within { g.now.input < length account.old.inputs }
    requires few { AreBelow (2 ^ 63) account.old }
    requires numbered { length g.now.metrics < 2 ^ 32 }
    ensures { account.new ≡ with_input account.old g.now.input
        (gathered_too (input_numbers account.old g.now.input) g.now tracked) }
{
    let count = g.metrics.as_slice().len();
    account.gathered(
        g.input,
        g.pieces,
        g.refused,
        g.passed,
        g.filtered,
        count as u32,
    );
    if tracked {
        account.group_started(g.input);
    }
}

/// Whether there are fewer than 2^63 items with so many more, where so many were taken and are raw.
pub(crate) fn has_numbers(taken: u64, raw: usize, count: usize) -> bool
    ensures { IsTrue result ↔ (taken + raw + count < 2 ^ 63) }
{
    taken < ITEM_LIMIT
        && (raw as u64) < ITEM_LIMIT - taken
        && (count as u64) < ITEM_LIMIT - taken - raw as u64
}

// Whether so many metrics may come where so many items are raw.
fn fits_raw(raw: usize, count: usize) -> bool
    ensures { IsTrue result ↔ ((raw ≡ 0) ⊎ (raw + count ≤ 10000)) }
{
    raw == 0 || (raw <= MOST_RAW && count <= MOST_RAW - raw)
}
