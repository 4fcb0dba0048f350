//! An output: sending the batches.
ghost use Rattle.std.specs.Prelude.{◌&&◌, ◌||◌, true, false};
ghost use Rattle.std.specs.Prelude.{◌≡◌, ◌≢◌, ◌<◌, ◌≤◌, ◌+◌, ◌-◌, ◌^◌, ℕ, [], Ok, IfOk, OnOk, length, map};
ghost use Rattle.std.specs.Prelude.{min, None, IfSome};
ghost use Rattle.std.specs.Option.{IfNone};
ghost use Rattle.pipeline_core.specs.CoreState.{lane_at};
ghost use Rattle.pipeline_core.specs.Offers.{offered_views};
ghost use Rattle.formats.specs.Batches.{batch_text};
ghost use Rattle.agent_workers.specs.Output.{out_of, outs_of, after_put, anew, AreOutputs};
ghost use Rattle.agent_workers.specs.Progress.{SendsAt, SendsOn, still_flushed, still_sent};
ghost use Rattle.agent_workers.specs.Run.{carried_change, IsPut};
ghost use Rattle.agent_workers.specs.Running.{BeginsNext, IsAtRest, IsSentOn, IsSentAt};
ghost use Rattle.agent_workers.specs.Running.{HasFlushed, HasNothing, HasSwept, AreLeft, waiting_at};

use agent_base::{PutFault, Sink};
use fixed_num::OutOfMemory;
use format_words::OutFormat;
use formats::{Metrics, write_batch};
use metric::Metric;
use pipeline_core::{Batch, BeginAnswer, Core, Offer};
use std::alloc::Global;
use text_buffer::TextBuffer;

/// An output of a run.
#[derive(Drop)]
pub struct OutJob<K: Drop, C: Drop> {
    /// Its number: its index among the outputs.
    pub output: u32,
    /// Where its batches are put.
    pub sink: K,
    /// The format of its batches.
    pub format: OutFormat,
    /// Its clock, which is asked for no moment yet.
    pub clock: C,
    /// How many of its last batches failed; it stands still at its highest number.
    pub failed: u32,
    /// How many of them failed since the items of this round were routed, or the run was stopped.
    pub failed_since: u32,
}

/// What came of a batch.
#[derive(Clone, Copy, Debug, PartialEq, Eq)]
pub enum Sending {
    /// It was accepted.
    Accepted,
    /// Its put failed.
    Failed,
    /// There was none: nothing waits.
    Nothing,
}

/// How far batches were sent.
#[derive(Clone, Copy, Debug, PartialEq, Eq)]
pub struct Flush {
    /// Whether nothing waits any more.
    pub emptied: bool,
    /// Whether a batch was accepted.
    pub accepted: bool,
}

impl Flush {
    /// How far the batches of these outputs and of one more were sent.
    fn and(self, more: Flush) -> Flush
        ensures emptied { result.emptied ≡ (self.emptied && more.emptied) }
        ensures accepted { result.accepted ≡ (self.accepted || more.accepted) }
    {
        Flush {
            emptied: self.emptied && more.emptied,
            accepted: self.accepted || more.accepted,
        }
    }
}

/// Begins to count anew how many batches of each output failed.
pub fn begin_anew<K: Sink + Drop, C: Drop>(outputs: &mut [OutJob<K, C>])
    ensures fresh { outs_of K.told outputs.new ≡ map anew (outs_of K.told outputs.old) }
    ensures count { length outputs.new ≡ length outputs.old }
{
    for job in outputs.iter_mut() {
        job.failed_since = 0;
    }
}

/// Begins the next batch of an output, where a metric waits there.
#[inline(always)]
fn begin_next(core: &mut Core, output: u32) -> Result<Option<Batch>, OutOfMemory>
    requires known { output < length core.old.setup.outputs }
    requires landed { (lane_at core.old.lanes output).flight ≡ None }
    ensures none { IfOk result (λ next. IfNone next ((core.new ≡ core.old) × HasNothing output core.old)) }
    ensures some { IfOk result (λ next. IfSome next (BeginsNext output core.old core.new)) }
{
    match core.begin(output) {
        Ok(batch) => Ok(Some(batch)),
        Err(BeginAnswer::NothingWaiting) => Ok(None),
        Err(BeginAnswer::InFlight) => unreachable!(),
        Err(BeginAnswer::OutOfMemory) => Err(OutOfMemory),
    }
}

/// Puts a text, and says whether that failed. Of an empty text no put is made.
pub fn put_failed<K: Sink>(sink: &mut K, text: &[u8]) -> Result<bool, OutOfMemory>
    ensures { IfOk result (λ failed. IsPut failed (carried_change (K.told sink.old) (K.told sink.new)) text.now) }
{
    if text.is_empty() {
        return Ok(false);
    }
    match sink.put(text) {
        Ok(()) => Ok(false),
        Err(PutFault::Failed) => Ok(true),
        Err(PutFault::OutOfMemory) => Err(OutOfMemory),
    }
}

/// The views of a batch in flight, as its core lends them.
#[derive(Clone, Copy)]
struct InFlight<'a> {
    offers: &'a [Offer],
}

impl<'a> Metrics<'a> for InFlight<'a> {
    ghost use Rattle.pipeline_core.specs.Offers.{offered_views};

    ghost all = { λ flight. offered_views flight.offers.now };

    fn count(&self) -> usize {
        self.offers.len()
    }

    fn at(&self, index: usize) -> &'a Metric {
        let offers = self.offers;
        &offers[index].view
    }
}

/// Puts the views of a batch in its output's format, and says whether that failed. A batch whose text is empty, as one of
/// texts alone is in Graphite, is accepted without a put.
fn put_batch<K: Sink>(
    alloc: Global,
    sink: &mut K,
    format: OutFormat,
    offers: &[Offer],
    text: &mut TextBuffer,
) -> Result<bool, OutOfMemory>
    ensures { IfOk result (λ failed. IsPut failed (carried_change (K.told sink.old) (K.told sink.new))
        (batch_text format (offered_views offers.now))) }
{
    write_batch(alloc, format, &InFlight { offers }, text)?;
    let failed = put_failed(sink, text.as_slice())?;
    Ok(failed)
}

/// Counts a batch whose put failed, or was accepted.
fn count_put<K: Sink + Drop, C: Drop>(job: &mut OutJob<K, C>, failed: bool)
    ensures { out_of K.told job.new ≡ after_put failed (K.told job.old.sink) (out_of K.told job.old) }
{
    if failed {
        job.failed = job.failed.saturating_add(1);
        job.failed_since = job.failed_since.saturating_add(1);
    } else {
        job.failed = 0;
        job.failed_since = 0;
    }
}

/// Sends the next batch of an output.
fn send_next<K: Sink + Drop, C: Drop>(
    alloc: Global,
    core: &mut Core,
    text: &mut TextBuffer,
    job: &mut OutJob<K, C>,
) -> Result<Sending, OutOfMemory>
    requires rests { IsAtRest core.old }
    requires known { job.old.output < length core.old.setup.outputs }
    requires routed { core.old.raw ≡ [] }
    ensures rests { OnOk result (IsAtRest core.new) }
    ensures kept { OnOk result (IsSentAt job.old.output core.old core.new) }
    ensures nothing { result ≡ Ok Sending.Nothing → HasNothing job.old.output core.new }
    ensures fewer { result ≡ Ok Sending.Accepted
        → waiting_at core.new job.old.output < waiting_at core.old job.old.output }
    ensures failed { result ≡ Ok Sending.Failed → (waiting_at core.old job.old.output ≢ 0)
        × (job.new.failed_since ≡ min (job.old.failed_since + 1) (2 ^ 32 - 1)) }
    ensures quiet { IfOk result (λ sending. (sending ≢ Sending.Accepted) → core.new.tracker ≡ core.old.tracker) }
    ensures number { job.new.output ≡ job.old.output }
    ensures sends { IfOk result (λ sending. SendsAt (still_sent sending) core.old core.new
        (out_of K.told job.old) (out_of K.told job.new)) }
{
    let Some(batch) = begin_next(core, job.output)? else {
        return Ok(Sending::Nothing);
    };
    let offers = core.flight(job.output);
    let failed = put_batch(alloc, &mut job.sink, job.format, offers, text)?;
    core.done(job.output, !failed);
    count_put(job, failed);
    Ok(if failed {
        Sending::Failed
    } else {
        Sending::Accepted
    })
}

/// Sends batches of an output until nothing waits or a put fails.
pub fn send_all<K: Sink + Drop, C: Drop>(
    alloc: Global,
    core: &mut Core,
    text: &mut TextBuffer,
    job: &mut OutJob<K, C>,
) -> Result<Flush, OutOfMemory>
    requires rests { IsAtRest core.old }
    requires known { job.old.output < length core.old.setup.outputs }
    requires routed { core.old.raw ≡ [] }
    ensures rests { OnOk result (IsAtRest core.new) }
    ensures kept { OnOk result (IsSentAt job.old.output core.old core.new) }
    ensures flushed { IfOk result (λ flush. HasFlushed flush job.old.output core.old core.new
        job.old.failed_since job.new.failed_since) }
    ensures quiet { IfOk result (λ flush. flush.accepted ≡ false → core.new.tracker ≡ core.old.tracker) }
    ensures number { job.new.output ≡ job.old.output }
    ensures sends { IfOk result (λ flush. SendsAt (still_flushed flush) core.old core.new
        (out_of K.told job.old) (out_of K.told job.new)) }
{
    for batch in 0..u64::MAX {
        match send_next(alloc, core, text, job)? {
            Sending::Accepted => {}
            Sending::Failed => {
                return Ok(Flush {
                    emptied: false,
                    accepted: batch != 0,
                });
            }
            Sending::Nothing => {
                return Ok(Flush {
                    emptied: true,
                    accepted: batch != 0,
                });
            }
        }
    }
    Err(OutOfMemory)
}

/// Sends batches of each output in order, until nothing waits there or a put fails. A failed put of one
/// output keeps no other from its batches.
pub fn send_each<K: Sink + Drop, C: Drop>(
    alloc: Global,
    core: &mut Core,
    text: &mut TextBuffer,
    outputs: &mut [OutJob<K, C>],
) -> Result<Flush, OutOfMemory>
    requires rests { IsAtRest core.old }
    requires outputs { AreOutputs (length core.old.setup.outputs) (outs_of K.told outputs.old) }
    requires routed { core.old.raw ≡ [] }
    ensures rests { OnOk result (IsAtRest core.new) }
    ensures kept { OnOk result (IsSentOn core.old core.new) }
    ensures outputs { OnOk result
        (AreOutputs (length core.old.setup.outputs) (outs_of K.told outputs.new)) }
    ensures swept { IfOk result (λ sweep. HasSwept sweep core.old core.new
        (outs_of K.told outputs.old) (outs_of K.told outputs.new)) }
    ensures quiet { IfOk result (λ sweep. sweep.accepted ≡ false → core.new.tracker ≡ core.old.tracker) }
    ensures count { length outputs.new ≡ length outputs.old }
    ensures sends { IfOk result (λ sweep. SendsOn (still_flushed sweep) core.old core.new (outs_of K.told outputs.old)
        (outs_of K.told outputs.new)) }
{
    let mut sweep = Flush {
        emptied: true,
        accepted: false,
    };
    for job in outputs.iter_mut() {
        let flush = send_all(alloc, core, text, job)?;
        sweep = sweep.and(flush);
    }
    Ok(sweep)
}

/// How many times in succession something didn't come on, once it did, or didn't, after so many times.
pub fn tries_after(tries: u32, came_on: bool, final_tries: u32) -> u32
    requires { tries < final_tries }
    ensures none { came_on ≡ false → result ≡ tries + 1 }
    ensures some { came_on ≡ true → result ≡ 0 }
    ensures few { result ≤ final_tries }
{
    if came_on { 0 } else { tries + 1 }
}

/// Sends what is buffered at the end of a run: batches of each output until nothing waits there or a put
/// fails, again and again until nothing is buffered anywhere, or so many repeats in succession had no batch
/// accepted at any output.
pub fn send_rest<K: Sink + Drop, C: Drop>(
    alloc: Global,
    core: &mut Core,
    text: &mut TextBuffer,
    outputs: &mut [OutJob<K, C>],
    final_tries: u32,
) -> Result<(), OutOfMemory>
    requires rests { IsAtRest core.old }
    requires outputs { AreOutputs (length core.old.setup.outputs) (outs_of K.told outputs.old) }
    requires routed { core.old.raw ≡ [] }
    requires some { 1 ≤ final_tries }
    ensures rests { OnOk result (IsAtRest core.new) }
    ensures kept { OnOk result (IsSentOn core.old core.new) }
    ensures outputs { OnOk result
        (AreOutputs (length core.old.setup.outputs) (outs_of K.told outputs.new)) }
    ensures rest { OnOk result
        (AreLeft final_tries core.new (outs_of K.told outputs.new)) }
    ensures count { length outputs.new ≡ length outputs.old }
    ensures sends { OnOk result (SendsOn (λ still. 0) core.old core.new (outs_of K.told outputs.old)
        (outs_of K.told outputs.new)) }
{
    let mut tries = 0;
    for _repeat in 0..u64::MAX {
        let sweep = send_each(alloc, core, text, outputs)?;
        if sweep.emptied {
            return Ok(());
        }
        tries = tries_after(tries, sweep.accepted, final_tries);
        if tries == final_tries {
            return Ok(());
        }
    }
    Err(OutOfMemory)
}
