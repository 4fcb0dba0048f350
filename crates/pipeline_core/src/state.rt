//! What a core keeps, and its entries.
ghost use Rattle.std.specs.Prelude.{◌≡◌, ◌≤◌, ◌<◌, ◌+◌, [], length, map, true, false, IfOk, OnOk, OnErr, ◌↔◌};
ghost use Rattle.std.specs.Prelude.{List, IsTrue, IsSome, slice_get, replicate, if◌then◌else◌};
ghost use Rattle.std.specs.List.{All, list_any};
ghost use Rattle.pipeline_core.specs.CoreState.{first_state, lane_of, lane_at, is_tracked, marked_of, told_at};
ghost use Rattle.pipeline_core.specs.CoreState.{most_undelivered};
ghost use Rattle.pipeline_core.specs.ToldView.{reports_in};
ghost use Rattle.pipeline_core.specs.Tracked.{most_live, tracker_after};
ghost use Rattle.account.specs.declared.entry.Entry.{Entry};
ghost use Rattle.pipeline_core.specs.Stands.{Stands, Continues};
ghost use Rattle.pipeline_core.specs.Totals.{totals};
ghost use Rattle.account.specs.AggLines.{IsLine};
ghost use Rattle.pipeline_core.specs.Steps.{after_cut, after_told};
ghost use Rattle.account.specs.Numbers.{output_numbers};

use crate::marked::Marked;
use crate::output::Output;
use crate::setup::{CoreSetup, InSetup, OutSetup};
use crate::told::Told;
use crate::unrouted::Unrouted;
use account::{Account, Entry, Report};
use agg_bank::Bank;
use fixed_num::{Moment, OutOfMemory};
use metric::Metric;
use std::alloc::Global;
use std::collections::VecDeque;
use std::marker::Model;
use std::mem;
use track_groups::Tracker;

/// Why no entries came.
#[derive(Clone, Copy, Debug, PartialEq, Eq)]
pub enum CutAnswer {
    /// No memory was left.
    OutOfMemory,
    /// There is no entry since the last cut.
    NothingNew,
}

/// Decides what becomes of every metric: gathered metrics are items, each is taken in hand and routed,
/// and its views wait at the outputs, which take them in batches. Each change is an entry of the journal.
#[derive(Drop)]
pub struct Core {
    pub(crate) alloc: Global,
    pub(crate) setup: CoreSetup,
    pub(crate) raw: VecDeque<Metric>,
    pub(crate) taken: u64,
    pub(crate) held: Option<u64>,
    pub(crate) unrouted: Unrouted,
    pub(crate) tracker: Tracker,
    pub(crate) bank: Bank,
    pub(crate) outputs: Vec<Output>,
    // Empty where no input is tracked.
    pub(crate) marked: Vec<Marked>,
    pub(crate) told: Vec<Told>,
    pub(crate) account: Account,
    pub(crate) stored: Vec<Entry>,
    pub(crate) gathered: u32,
    pub(crate) counted: Moment,
    pub(crate) ended: Vec<bool>,
    pub(crate) stopped: bool,
}

impl Model for Core {
    ghost use Rattle.pipeline_core.specs.CoreState.{CoreState};

    ghost Value = { CoreState };

    ghost use Rattle.pipeline_core.specs.CoreView.{core_state, IsKept};

    ghost view = { core_state };

    ghost invariant = { IsKept };
}

impl Core {
    /// Makes a core in which nothing happened.
    pub fn new(alloc: Global, setup: CoreSetup) -> Result<Core, OutOfMemory>
        requires inputs { length setup.inputs ≤ 16 }
        requires aggregators { length setup.aggs ≤ 16 }
        requires outputs { length setup.outputs ≤ 16 }
        requires lines { All IsLine setup.aggs }
        requires limits { All (λ x. x.tracked ≡ true → 1 ≤ x.max_undelivered) setup.inputs }
        requires sizes { All (λ x. (1 ≤ x.batch) × (x.batch ≤ x.limit)) setup.outputs }
        ensures ok { IfOk result (λ core. core ≡ first_state setup core.bank) }
        ensures stands { IfOk result (λ core. Stands core []) }
    {
        let inputs = setup.inputs.as_slice().len();
        let ended = vec![in alloc; false; inputs]?;
        let tracked = tracked_flags(alloc, setup.inputs.as_slice())?;
        let limits = group_limits(alloc, setup.inputs.as_slice())?;
        let tracker = Tracker::new(alloc, limits.as_slice())?;
        let told = empty_told(alloc, inputs)?;
        let outputs = empty_outputs(alloc, setup.outputs.as_slice())?;
        let tracking = tracks_any(setup.inputs.as_slice());
        let marked = empty_marked(alloc, tracking, setup.outputs.as_slice())?;
        let bank = Bank::new(alloc, setup.aggs.as_slice(), setup.start)?;
        let account = Account::new(alloc, tracked.as_slice(), outputs.len() as u32)?;
        let counted = setup.start;
        Ok(Core {
            alloc,
            setup,
            raw: VecDeque::new(alloc),
            taken: 0,
            held: None,
            unrouted: Unrouted::new(alloc),
            tracker,
            bank,
            outputs,
            marked,
            told,
            account,
            stored: Vec::new(alloc),
            gathered: 0,
            counted,
            ended,
            stopped: false,
        })
    }

    /// Takes the entries since the last cut, in order.
    pub fn cut(&mut self) -> Result<Vec<Entry>, CutAnswer>
        ensures ok { IfOk result
            (λ entries. (entries.items ≡ self.old.stored) × (self.new ≡ after_cut self.old)) }
        ensures nothing { (result ≡ Err CutAnswer.NothingNew) ↔ (self.old.stored ≡ []) }
        ensures stands { (journal : List Entry) → Stands self.old journal → Stands self.new journal }
        ensures err { OnErr result (self.new ≡ self.old) }
    {
        if self.stored.is_empty() {
            return Err(CutAnswer::NothingNew);
        }
        let Ok(fresh) = Vec::with_capacity(self.alloc, self.outputs.len()) else {
            return Err(CutAnswer::OutOfMemory);
        };
        Ok(mem::replace(&mut self.stored, fresh))
    }

    /// Whether the input is one of the core's and hasn't ended.
    pub fn is_reading(&self, input: u32) -> bool
        ensures { IsTrue result ↔ (slice_get self.now.ended input ≡ Some false) }
    {
        match self.ended.get(input as usize) {
            Some(ended) => !*ended,
            None => false,
        }
    }

    /// Whether no more is gathered.
    pub fn is_stopped(&self) -> bool
        ensures { result ≡ self.now.stopped }
    {
        self.stopped
    }

    /// The item in hand.
    pub fn held(&self) -> Option<u64>
        ensures { result ≡ self.now.held }
    {
        self.held
    }

    /// Whether an item is raw.
    pub fn has_raw(&self) -> bool
        ensures { IsTrue result ↔ (0 < length self.now.raw) }
    {
        !self.raw.is_empty()
    }

    /// How many outputs there are.
    pub fn output_count(&self) -> usize
        ensures { result ≡ length self.now.setup.outputs }
    {
        self.outputs.len()
    }

    /// How many aggregators there are.
    pub fn aggregator_count(&self) -> usize
        ensures { result ≡ length self.now.setup.aggs }
    {
        self.setup.aggs.as_slice().len()
    }

    /// Whether the output is one of the core's and its batch is in flight.
    pub fn is_in_flight(&self, output: u32) -> bool
        ensures { IsTrue result
            ↔ ((output < length self.now.setup.outputs) × IsSome (lane_at self.now.lanes output).flight) }
    {
        match self.outputs.get(output as usize) {
            Some(output) => output.is_in_flight(),
            None => false,
        }
    }

    /// How many metrics are buffered at an output: those that wait, and those of its batch in flight.
    pub fn buffered(&self, output: u32) -> u64
        requires { output < length self.now.setup.outputs }
        ensures { result ≡ (output_numbers self.now.numbers output).buffered }
    {
        self.outputs[output as usize].buffered()
    }

    /// Hands out the oldest report of an input that wasn't handed out yet: one of its groups settled. None where there
    /// is none. It is no event of the journal.
    pub fn next_report(&mut self, input: u32) -> Option<Report>
        requires { input < length self.old.setup.inputs }
        ensures oldest { result ≡ slice_get (told_at self.old.told input) 0 }
        ensures after { self.new ≡ after_told self.old input }
        ensures stands { (journal : List Entry) → Stands self.old journal → Stands self.new journal }
    {
        self.told[input as usize].next()
    }

    /// The groups that are live.
    pub fn tracker(&self) -> &Tracker
        ensures tracker { result.now ≡ self.now.tracker }
        ensures live { (journal : List Entry) → Stands self.now journal →
            result.now ≡ tracker_after self.now.setup journal }
    {
        &self.tracker
    }

    /// What was counted.
    pub fn account(&self) -> &Account
        ensures numbers { result.now ≡ self.now.numbers }
        ensures totals { (journal : List Entry) → Stands self.now journal →
            result.now ≡ totals self.now.setup journal }
    {
        &self.account
    }
}

// Whether each input is tracked, in order.
fn tracked_flags(alloc: Global, inputs: &[InSetup]) -> Result<Vec<bool>, OutOfMemory>
    ensures { IfOk result (λ flags. flags.items ≡ map is_tracked inputs.now) }
{
    let flags = inputs
        .iter()
        .map(|input| input.tracked)
        .collect::<Vec<bool>>(alloc)?;
    Ok(flags)
}

// Outputs of these sizes, in order, at which nothing waits.
fn empty_outputs(alloc: Global, sizes: &[OutSetup]) -> Result<Vec<Output>, OutOfMemory>
    requires { All (λ x. (1 ≤ x.batch) × (x.batch ≤ x.limit)) sizes.now }
    ensures { IfOk result (λ outputs. outputs.items ≡ map lane_of sizes.now) }
{
    let mut outputs = Vec::with_capacity(alloc, sizes.len())?;
    for size in sizes {
        outputs.push(Output::new(alloc, size.batch, size.limit)?)?;
    }
    Ok(outputs)
}

// Whether an input is tracked.
fn tracks_any(inputs: &[InSetup]) -> bool
    ensures { result ≡ list_any is_tracked inputs.now }
{
    inputs.iter().any(|input| input.tracked)
}

// The most groups of each input that may be live, in order: 0 where it isn't tracked.
fn group_limits(alloc: Global, inputs: &[InSetup]) -> Result<Vec<u32>, OutOfMemory>
    ensures { IfOk result (λ limits. limits.items ≡ map (λ x. most_live (most_undelivered x)) inputs.now) }
{
    let limits = inputs
        .iter()
        .map(|input| {
            if input.tracked {
                input.max_undelivered
            } else {
                0
            }
        })
        .collect::<Vec<u32>>(alloc)?;
    Ok(limits)
}

// Of each input no reports.
fn empty_told(alloc: Global, inputs: usize) -> Result<Vec<Told>, OutOfMemory>
    ensures { IfOk result (λ told. map reports_in told.items ≡ replicate inputs []) }
{
    let mut told = Vec::with_capacity(alloc, inputs)?;
    for _input in 0..inputs {
        told.push(Told::new(alloc))?;
    }
    Ok(told)
}

// At each output no groups, where an input is tracked; none at all where none is.
fn empty_marked(
    alloc: Global,
    tracking: bool,
    sizes: &[OutSetup],
) -> Result<Vec<Marked>, OutOfMemory>
    requires { All (λ x. (1 ≤ x.batch) × (x.batch ≤ x.limit)) sizes.now }
    ensures { IfOk result (λ marked. marked.items ≡ (if tracking then map marked_of sizes.now else [])) }
{
    if !tracking {
        return Ok(Vec::new(alloc));
    }
    let mut marked = Vec::with_capacity(alloc, sizes.len())?;
    for size in sizes {
        marked.push(Marked::new(alloc, size.batch, size.limit)?)?;
    }
    Ok(marked)
}
