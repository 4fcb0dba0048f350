//! What waits at an output, and its batch in flight.
ghost use Rattle.std.specs.Prelude.{◌≡◌, ◌≢◌, ◌<◌, ◌≤◌, ◌+◌, ◌^◌, ◌==◌, ◌↔◌, [], true, false, length};
ghost use Rattle.std.specs.Prelude.{slice_set, IfOk, OnOk, OnErr, IsSome, IsTrue};
ghost use Rattle.out_lane.specs.Lane.{empty_lane, after_push, after_begin, flying};
ghost use Rattle.pipeline_core.specs.Steps.{IsBatchOf, lane_done, count_done};

use crate::batches::{Batch, BeginAnswer};
use fixed_num::OutOfMemory;
use metric::Metric;
use out_lane::Lane;
use std::alloc::Global;
use std::marker::Model;

/// What an item offers to an output.
#[derive(Drop)]
pub struct Offer {
    /// The item: items are counted from 0.
    pub item: u64,
    /// Its view at the output.
    pub view: Metric,
}

/// What waits at an output, its batch in flight, and the room for what comes back of that batch.
#[derive(Drop)]
pub(crate) struct Output {
    lane: Lane<Offer>,
    batch: u32,
    back: Vec<Offer>,
}

impl Model for Output {
    ghost use Rattle.out_lane.specs.Lane.{LaneState};
    ghost use Rattle.pipeline_core.specs.declared.output.Offer.{Offer};

    ghost Value = { LaneState Offer };

    ghost use Rattle.pipeline_core.specs.OutputView.{output_state, IsOutputKept};

    ghost view = { output_state };

    ghost invariant = { IsOutputKept };
}

impl Output {
    /// Makes an output at which nothing waits.
    pub(crate) fn new(alloc: Global, batch: u32, limit: u32) -> Result<Output, OutOfMemory>
        requires some { 1 ≤ batch }
        requires fits { batch ≤ limit }
        ensures { IfOk result (λ output. output ≡ empty_lane batch limit) }
    {
        Ok(Output {
            lane: Lane::new(alloc, batch, limit)?,
            batch,
            back: Vec::new(alloc),
        })
    }

    /// Lets an offer wait, and tells whether the oldest one that waited was dropped for it.
    pub(crate) fn push(&mut self, offer: Offer) -> bool
        requires { self.old.pushed < 2 ^ 63 }
        ensures lane { self.new ≡ after_push self.old offer }
        ensures dropped { result ≡ (length self.old.waiting == self.old.limit) }
    {
        self.lane.push(offer).is_some()
    }

    /// Whether a batch is in flight.
    pub(crate) fn is_in_flight(&self) -> bool
        ensures { IsTrue result ↔ IsSome self.now.flight }
    {
        self.lane.is_in_flight()
    }

    /// How many views wait or are in flight.
    pub(crate) fn buffered(&self) -> u64
        requires flies { length (flying self.now) ≤ self.now.batch }
        ensures { result ≡ length (flying self.now) + length self.now.waiting }
    {
        self.lane.flight().len() as u64 + u64::from(self.lane.waiting())
    }

    /// Why no batch may be begun, if none may.
    pub(crate) fn ready(&self) -> Result<(), BeginAnswer>
        ensures in_flight { (result ≡ Err BeginAnswer.InFlight) ↔ IsSome self.now.flight }
        ensures nothing { (result ≡ Err BeginAnswer.NothingWaiting)
            ↔ ((self.now.flight ≡ None) × (length self.now.waiting ≡ 0)) }
        ensures ok { OnOk result ((self.now.flight ≡ None) × (0 < length self.now.waiting)) }
        ensures memory { result ≢ Err BeginAnswer.OutOfMemory }
    {
        if self.lane.is_in_flight() {
            return Err(BeginAnswer::InFlight);
        }
        if self.lane.waiting() == 0 {
            return Err(BeginAnswer::NothingWaiting);
        }
        Ok(())
    }

    /// Begins a batch of the oldest waiting views. Without memory all stays as it was.
    pub(crate) fn begin(&mut self, alloc: Global) -> Result<Batch, OutOfMemory>
        requires none { self.old.flight ≡ None }
        requires some { 0 < length self.old.waiting }
        ensures batch { IfOk result (IsBatchOf self.old) }
        ensures ok { OnOk result (self.new ≡ after_begin self.old) }
        ensures err { OnErr result (self.new ≡ self.old) }
    {
        let back = Vec::with_capacity(alloc, self.batch as usize)?;
        let Ok((from, to)) = self.lane.begin() else {
            unreachable!();
        };
        self.back = back;
        Ok(Batch { from, to })
    }

    /// The offers of the batch in flight, oldest first; none where no batch is.
    pub(crate) fn flight(&self) -> &[Offer]
        ensures { result.now ≡ flying self.now }
    {
        self.lane.flight()
    }

    /// Ends the batch in flight, accepted or failed, and answers how many views leave by it.
    pub(crate) fn done(&mut self, ok: bool) -> u32
        requires begun { IsSome self.old.flight }
        requires flies { length (flying self.old) ≤ self.old.batch }
        ensures lane { self.new ≡ lane_done ok self.old }
        ensures count { result ≡ count_done ok self.old }
    {
        if ok {
            self.lane.accept(&mut self.back);
        } else {
            self.lane.fail(&mut self.back);
        }
        let count = self.back.len();
        self.back.clear();
        count as u32
    }
}
