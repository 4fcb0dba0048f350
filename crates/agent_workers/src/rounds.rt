//! A run as it goes on: its rounds, its ticks, its stop and its end.
ghost use Rattle.std.specs.Prelude.{◌≡◌, ◌≢◌, ◌<◌, ◌≤◌, ◌⊎◌, ℕ, ℤ, [], List, Option, length};
ghost use Rattle.std.specs.Prelude.{IfOk, IfSome, OnOk, false, not, true, ◌||◌};
ghost use Rattle.account.specs.AccountText.{account_text};
ghost use Rattle.account.specs.declared.entry.Entry.{Entry};
ghost use Rattle.agent_base.specs.Moments.{Waits};
ghost use Rattle.pipeline_core.specs.CoreState.{told_at};
ghost use Rattle.pipeline_core.specs.Stands.{Stands};
ghost use Rattle.pipeline_core.specs.Steps.{after_cut};
ghost use Rattle.agent_workers.specs.Finished.{FinishesSo};
ghost use Rattle.agent_workers.specs.Inputs.{ins_of, AreInputs, AreOut, AreSameInputs};
ghost use Rattle.agent_workers.specs.Item.{proc_of, IsSameProc};
ghost use Rattle.agent_workers.specs.Job.{Job};
ghost use Rattle.agent_workers.specs.Noted.{part_of, EndsOn};
ghost use Rattle.agent_workers.specs.Progress.{routing, RoutesOn, RoutesWhere, RunsOn, StopsAt, TellsOn, TicksOn};
ghost use Rattle.agent_workers.specs.Rounds.{still_behind, AreSameParts, HasNoReports, HasRounded, HasSent, HasStopped};
ghost use Rattle.agent_workers.specs.Rounds.{IsOver};
ghost use Rattle.agent_workers.specs.RunState.{state_of, AreFit, IsAboutSame, IsProcFit};
ghost use Rattle.agent_workers.specs.Running.{IsAtRest, SomeIsBuffered, IsQuiet, IsRoutable, IsRunning};

use crate::ends::{InputEnd, ends_of};
use crate::input::{InJob, Turns, are_out, gather_each, is_one_in};
use crate::item::{ProcJob, ROUTED_AT_ONCE, route_all, route_some};
use crate::journal::{JournalJob, last_entries, note};
use crate::output::{Flush, begin_anew, send_each, send_rest, tries_after};
use crate::parts::Parts;
use agent_base::{Clock, Sink, Source};
use fixed_num::{Moment, OutOfMemory};
use formats::InState;
use pipeline_core::Core;
use std::alloc::Global;
use text_buffer::TextBuffer;

/// How a run came to its end.
#[derive(Drop)]
pub struct Ending {
    /// The text of the account.
    pub account: Vec<u8>,
    /// Whether a limit was reached: of the bytes of an input, or of the metrics of the run.
    pub limit: bool,
    /// Whether a put of the journal failed.
    pub journal_fault: bool,
    /// Whether a read of an input failed.
    pub read_fault: bool,
    /// Whether a metric is still buffered at an output, or an input isn't read to its end since what it holds wasn't
    /// accepted.
    pub left: bool,
    /// What is told of each input beside the account, in their order; of fewer where no memory was left for it.
    pub inputs: Vec<InputEnd>,
}

/// What a round came to.
#[derive(Clone, Copy, Debug, PartialEq, Eq)]
pub struct Round {
    /// Whether the run is full.
    pub full: bool,
    /// Whether the run came on: a gather was accepted, an item was taken, or a batch was accepted.
    pub moved: bool,
    /// Whether a put failed at an output where metrics wait still.
    pub left: bool,
}

impl Round {
    /// What a round came to, by the turns of its inputs, whether items were taken before its tick and behind it, and how far
    /// its batches were sent.
    fn of(turns: Turns, routed: bool, made: bool, sweep: Flush) -> Round
        ensures full { result.full ≡ turns.full }
        ensures moved { result.moved ≡ (turns.accepted || routed || made || sweep.accepted) }
        ensures left { result.left ≡ not sweep.emptied }
    {
        Round {
            full: turns.full,
            moved: turns.accepted || routed || made || sweep.accepted,
            left: !sweep.emptied,
        }
    }
}

impl<'a, S: Source + Drop, K: Sink + Drop, C: Clock + Drop> Parts<'a, S, K, C> {
    /// A round: it reads the inputs, routes, closes windows once its items are routed, sends what is buffered, and puts the
    /// entries. What a failed put left is tried again in the next round.
    fn round(
        &mut self,
        alloc: Global,
        core: &mut Core,
        text: &mut TextBuffer,
    ) -> Result<Round, OutOfMemory>
        requires running { IsRunning core.old }
        requires fit { AreFit (state_of S.told K.told C.told core.old self.old) }
        ensures parts { AreSameParts self.old self.new }
        ensures running { OnOk result (IsRunning core.new) }
        ensures fit { OnOk result (AreFit (state_of S.told K.told C.told core.new self.new)) }
        ensures about { OnOk result
            (IsAboutSame (state_of S.told K.told C.told core.old self.old) (state_of S.told K.told C.told core.new self.new)) }
        ensures sent { OnOk result (HasSent (state_of S.told K.told C.told core.new self.new)) }
        ensures rounded { IfOk result (λ round. HasRounded round (state_of S.told K.told C.told core.new self.new)) }
        ensures runs { IfOk result (λ round. RunsOn (still_behind round)
            (state_of S.told K.told C.told core.old self.old) (state_of S.told K.told C.told core.new self.new)) }
    {
        let turns = gather_each(alloc, core, &mut self.inputs)?;
        begin_anew(&mut self.outputs);
        let routed = route_where_raw(alloc, core, text, &mut self.proc, &mut self.journal)?;
        let made = tick_noted(
            alloc,
            core,
            text,
            &mut self.timer,
            &mut self.proc,
            &mut self.journal,
        )?;
        let sweep = send_each(alloc, core, text, &mut self.outputs)?;
        note(alloc, core, text, &mut self.journal)?;
        let_reports_go(core, &self.inputs);
        Ok(Round::of(turns, routed, made, sweep))
    }

    /// Rounds, until each input is read no more and holds nothing, the run is full, or as many in succession as are tried
    /// didn't come on: then says how many. The timer is waited for behind one that didn't. The last one, too, sends what is
    /// buffered.
    fn rounds(
        &mut self,
        alloc: Global,
        core: &mut Core,
        text: &mut TextBuffer,
    ) -> Result<u32, OutOfMemory>
        requires running { IsRunning core.old }
        requires fit { AreFit (state_of S.told K.told C.told core.old self.old) }
        requires some { 1 ≤ self.old.final_tries }
        ensures parts { AreSameParts self.old self.new }
        ensures running { OnOk result (IsRunning core.new) }
        ensures fit { OnOk result (AreFit (state_of S.told K.told C.told core.new self.new)) }
        ensures about { OnOk result
            (IsAboutSame (state_of S.told K.told C.told core.old self.old) (state_of S.told K.told C.told core.new self.new)) }
        ensures over { IfOk result (λ idle. IsOver self.old.final_tries idle
            (state_of S.told K.told C.told core.new self.new)) }
        ensures sent { OnOk result (HasSent (state_of S.told K.told C.told core.new self.new)) }
        ensures runs { IfOk result (λ idle. RunsOn (λ still. idle)
            (state_of S.told K.told C.told core.old self.old) (state_of S.told K.told C.told core.new self.new)) }
    {
        let mut idle = 0;
        for _round in 0..u64::MAX {
            let round = self.round(alloc, core, text)?;
            if is_over(round.full, &self.inputs) {
                return Ok(0);
            }
            idle = tries_after(idle, round.moved, self.final_tries);
            if idle == self.final_tries {
                return Ok(idle);
            }
            wait_unless(round.moved, &mut self.timer);
        }
        Err(OutOfMemory)
    }

    /// Stops the gathering at a moment, and sends what is buffered.
    fn stop(
        &mut self,
        alloc: Global,
        core: &mut Core,
        text: &mut TextBuffer,
        moment: Moment,
    ) -> Result<(), OutOfMemory>
        requires running { IsRunning core.old }
        requires fit { AreFit (state_of S.told K.told C.told core.old self.old) }
        requires sent { HasSent (state_of S.told K.told C.told core.old self.old) }
        requires some { 1 ≤ self.old.final_tries }
        ensures parts { AreSameParts self.old self.new }
        ensures rests { OnOk result (IsAtRest core.new) }
        ensures fit { OnOk result (AreFit (state_of S.told K.told C.told core.new self.new)) }
        ensures about { OnOk result
            (IsAboutSame (state_of S.told K.told C.told core.old self.old) (state_of S.told K.told C.told core.new self.new)) }
        ensures stopped { OnOk result (HasStopped self.old.final_tries
            (state_of S.told K.told C.told core.old self.old) (state_of S.told K.told C.told core.new self.new)) }
        ensures stops { OnOk result (StopsAt moment
            (state_of S.told K.told C.told core.old self.old) (state_of S.told K.told C.told core.new self.new)) }
    {
        begin_anew(&mut self.outputs);
        core.stop(moment)?;
        route_all(alloc, core, &mut self.proc, &mut self.journal.known)?;
        send_rest(alloc, core, text, &mut self.outputs, self.final_tries)?;
        let_reports_go(core, &self.inputs);
        Ok(())
    }
}

/// Comes to the end of a run, whatever its core and its jobs have come to: rounds, each of which puts the
/// entries that it made, until each input is read no more and holds nothing; the stop, and what is buffered is
/// sent; and the end of the journal.
///
/// It always returns. Where memory ran out the core and the jobs are as the calls made until then left them.
pub fn finish<S: Source + Drop, K: Sink + Drop, C: Clock + Drop>(
    alloc: Global,
    core: &mut Core,
    parts: &mut Parts<'_, S, K, C>,
) -> Result<Ending, OutOfMemory>
    requires few { length core.old.setup.outputs ≤ 16 }
    requires running { IsRunning core.old }
    requires fit { AreFit (state_of S.told K.told C.told core.old parts.old) }
    requires some { 1 ≤ parts.old.final_tries }
    ensures parts { AreSameParts parts.old parts.new }
    ensures same { OnOk result (AreSameInputs (ins_of S.told C.told parts.old.inputs.items)
        (ins_of S.told C.told parts.new.inputs.items)) }
    ensures finished { IfOk result (λ ending. (job : Job) → job.tries ≡ parts.old.final_tries
        → FinishesSo job ending (state_of S.told K.told C.told core.old parts.old)
        (state_of S.told K.told C.told core.new parts.new)) }
{
    let mut text = TextBuffer::new(alloc);
    let _idle = parts.rounds(alloc, core, &mut text)?;
    let moment = parts.timer.now();
    parts.stop(alloc, core, &mut text, moment)?;
    let outputs = parts.outputs.len() as u32;
    let (account, buffered) = end_journal(alloc, core, &mut text, outputs, &mut parts.journal)?;
    let reading = is_one_in(&parts.inputs, InState::Reading);
    Ok(Ending {
        account,
        limit: is_one_in(&parts.inputs, InState::LimitReached),
        journal_fault: parts.journal.failed,
        read_fault: is_one_in(&parts.inputs, InState::Faulted),
        left: is_one_of(buffered, reading),
        inputs: ends_of(alloc, &parts.inputs),
    })
}

/// Routes all raw items, and puts the journal's entries each time that many were routed: so they needn't all be held.
fn route_noted<K: Sink + Drop, C: Drop>(
    alloc: Global,
    core: &mut Core,
    text: &mut TextBuffer,
    proc: &mut ProcJob<'_, C>,
    journal: &mut JournalJob<K, C>,
) -> Result<(), OutOfMemory>
    requires rests { IsAtRest core.old }
    requires fit { IsProcFit core.old (proc_of proc.old) }
    ensures rests { OnOk result (IsAtRest core.new) }
    ensures kept { OnOk result (IsRoutable core.old core.new) }
    ensures none { OnOk result (core.new.raw ≡ []) }
    ensures same { IsSameProc (proc_of proc.old) (proc_of proc.new) }
    ensures routes { OnOk result (RoutesOn
        (routing core.old (proc_of proc.old) (part_of K.told journal.old))
        (routing core.new (proc_of proc.new) (part_of K.told journal.new))) }
{
    for _part in 0..u64::MAX {
        if !route_some(alloc, core, proc, &mut journal.known, ROUTED_AT_ONCE)? {
            return Ok(());
        }
        note(alloc, core, text, journal)?;
    }
    Err(OutOfMemory)
}

/// Routes all raw items, and puts the journal's entries, where an item is raw; and says whether one was.
fn route_where_raw<K: Sink + Drop, C: Drop>(
    alloc: Global,
    core: &mut Core,
    text: &mut TextBuffer,
    proc: &mut ProcJob<'_, C>,
    journal: &mut JournalJob<K, C>,
) -> Result<bool, OutOfMemory>
    requires rests { IsAtRest core.old }
    requires fit { IsProcFit core.old (proc_of proc.old) }
    ensures rests { OnOk result (IsAtRest core.new) }
    ensures kept { OnOk result (IsRoutable core.old core.new) }
    ensures none { OnOk result (core.new.raw ≡ []) }
    ensures quiet { IfOk result (λ routed. routed ≡ false → IsQuiet core.old core.new) }
    ensures same { IsSameProc (proc_of proc.old) (proc_of proc.new) }
    ensures routes { IfOk result (λ routed. RoutesWhere routed
        (routing core.old (proc_of proc.old) (part_of K.told journal.old))
        (routing core.new (proc_of proc.new) (part_of K.told journal.new))) }
{
    if !core.has_raw() {
        return Ok(false);
    }
    route_noted(alloc, core, text, proc, journal)?;
    Ok(true)
}

/// Where there are aggregators, closes the windows that are due at a moment of the timer, and routes what they make; and
/// says whether they made something.
fn tick_noted<K: Sink + Drop, C: Clock + Drop>(
    alloc: Global,
    core: &mut Core,
    text: &mut TextBuffer,
    timer: &mut C,
    proc: &mut ProcJob<'_, C>,
    journal: &mut JournalJob<K, C>,
) -> Result<bool, OutOfMemory>
    requires running { IsRunning core.old }
    requires fit { IsProcFit core.old (proc_of proc.old) }
    requires none { core.old.raw ≡ [] }
    ensures running { OnOk result (IsRunning core.new) }
    ensures kept { OnOk result (IsRoutable core.old core.new) }
    ensures none { OnOk result (core.new.raw ≡ []) }
    ensures same { IsSameProc (proc_of proc.old) (proc_of proc.new) }
    ensures timer { (C.told timer.new).moments ≡ (C.told timer.old).moments }
    ensures quiet { IfOk result (λ made. made ≡ false → IsQuiet core.old core.new) }
    ensures ticks { IfOk result (λ made. TicksOn made (routing core.old (proc_of proc.old) (part_of K.told journal.old))
        (routing core.new (proc_of proc.new) (part_of K.told journal.new)) (C.told timer.old) (C.told timer.new)) }
{
    if proc.aggs.is_empty() {
        return Ok(false);
    }
    let moment = timer.now();
    core.tick(moment)?;
    let made = route_where_raw(alloc, core, text, proc, journal)?;
    Ok(made)
}

/// Takes the reports of an input out of the core, and lets them go: nobody asks for them.
fn let_reports_of(core: &mut Core, input: u32)
    requires { input < length core.old.setup.inputs }
    ensures gone { told_at core.new.told input ≡ [] }
    ensures others { (k : ℕ) → k ≢ input → told_at core.new.told k ≡ told_at core.old.told k }
    ensures same { core.new ≡ record core.old { told = core.new.told } }
    ensures stands { (journal : List Entry) → Stands core.old journal → Stands core.new journal }
{
    while core.next_report(input).is_some() {}
}

/// Takes the reports of all inputs out of the core, and lets them go.
fn let_reports_go<S: Source + Drop, C: Clock + Drop>(core: &mut Core, inputs: &[InJob<'_, S, C>])
    requires { AreInputs (length core.old.setup.inputs) core.old.ended (ins_of S.told C.told inputs.now) }
    ensures gone { HasNoReports core.new }
    ensures same { core.new ≡ record core.old { told = core.new.told } }
    ensures tells { TellsOn core.old core.new }
    ensures stands { (journal : List Entry) → Stands core.old journal → Stands core.new journal }
{
    for job in inputs {
        let_reports_of(core, job.input);
    }
}

/// Waits for a clock where the run didn't come on. The moment that it gives isn't looked at.
fn wait_unless<C: Clock>(moved: bool, clock: &mut C)
    ensures list { (C.told clock.new).moments ≡ (C.told clock.old).moments }
    ensures later { IfSome (C.told clock.old).moments
        (λ moments. (C.told clock.old).next ≤ (C.told clock.new).next) }
    ensures waits { moved ≡ false → (given : Option ℤ)
        × Waits (C.told clock.old).moments (C.told clock.old).next (C.told clock.new).next (C.stopped clock.old)
        (C.stopped clock.new) (C.waits clock.old) (C.waits clock.new) given }
    ensures stays { moved ≡ true → clock.new ≡ clock.old }
{
    if !moved {
        let _ = clock.wait();
    }
}

/// Whether no round follows: the run is full, or each input is read no more and holds nothing.
fn is_over<S: Source + Drop, C: Clock + Drop>(full: bool, inputs: &[InJob<'_, S, C>]) -> bool
    ensures over { result ≡ true → (full ≡ true) ⊎ AreOut (ins_of S.told C.told inputs.now) }
    ensures on { result ≡ false → (full ≡ true) ⊎ AreOut (ins_of S.told C.told inputs.now) → ⊥ }
{
    full || are_out(inputs)
}

/// Whether one of two things is so.
fn is_one_of(one: bool, other: bool) -> bool
    ensures { result ≡ (one || other) }
{
    one || other
}

/// Whether a metric is buffered at one of so many outputs.
fn is_left(core: &Core, outputs: u32) -> bool
    requires { outputs ≡ length core.now.setup.outputs }
    ensures { SomeIsBuffered result core.now }
{
    for output in 0..outputs {
        if core.buffered(output) != 0 {
            return true;
        }
    }
    false
}

/// Ends the journal: its last entries, its account and its last line are put. Says whether metrics are left.
fn end_journal<K: Sink + Drop, C: Drop>(
    alloc: Global,
    core: &mut Core,
    text: &mut TextBuffer,
    outputs: u32,
    journal: &mut JournalJob<K, C>,
) -> Result<(Vec<u8>, bool), OutOfMemory>
    requires rests { IsAtRest core.old }
    requires outputs { outputs ≡ length core.old.setup.outputs }
    ensures left { IfOk result (λ end. SomeIsBuffered end.1 core.old) }
    ensures account { IfOk result (λ end. end.0.items ≡ account_text core.old.numbers) }
    ensures cut { OnOk result (core.new ≡ after_cut core.old) }
    ensures ends { OnOk result
        (EndsOn core.old.stored (account_text core.old.numbers) (part_of K.told journal.old)
        (part_of K.told journal.new)) }
{
    let mut account = TextBuffer::new(alloc);
    core.account().text(&mut account)?;
    let left = is_left(core, outputs);
    let entries = last_entries(alloc, core)?;
    journal.end(alloc, entries, account.as_slice(), text)?;
    Ok((account.into_vec(), left))
}
