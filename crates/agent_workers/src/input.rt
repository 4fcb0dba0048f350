//! An input: what is read of it is offered to the core.
ghost use Rattle.std.specs.Prelude.{◌≡◌, ◌≢◌, ◌<◌, ◌≤◌, ◌+◌, ◌^◌, ◌∷◌, ℤ, [], length, IfOk, OnOk, ◌⊎◌, Ok};
ghost use Rattle.std.specs.Prelude.{Some, None, false, true, ◌-◌, All, IsTrue, ◌↔◌, ◌||◌};
ghost use Rattle.metric.specs.Metric.{IsFilledTag};
ghost use Rattle.pipeline_core.specs.CoreState.{CoreState};
ghost use Rattle.agent_workers.specs.Inputs.{gathered_of, read_state};
ghost use Rattle.agent_workers.specs.Inputs.{in_of, ins_of, is_ended, IsSameInput, AreSameInputs, HoldsOwn, HoldsNoEnd};
ghost use Rattle.agent_workers.specs.Inputs.{FitsInput, AreInputs, IsCutBy, IsOut, AreOut, IsMoved, HasMetEnd};
ghost use Rattle.agent_workers.specs.Inputs.{IsOffered, IsFullOf, IsReadable, OneIsFull, IsOneIn, rule_of, is_accepted};
ghost use Rattle.agent_workers.specs.Running.{HasOffered};
ghost use Rattle.agent_workers.specs.Progress.{ReadsAt, GathersAt, EndsAt, GathersOn};
ghost use Rattle.agent_workers.specs.Running.{IsRunning, IsGathered, IsGatheredAt};
ghost use Rattle.agent_workers.specs.Running.{AreQuietTurns, IsQuiet, IsQuietTurn};

use crate::ends::PieceNotes;
use agent_base::{Clock, Pieces, Source};
use fixed_num::{Moment, OutOfMemory, Seq};
use format_words::InFormat;
use formats::{Group, InState, ReadRule, read_group};
use metric::Text;
use metric_filter::Filter;
use pipeline_core::{Core, GatherRefused, Gathered};
use std::alloc::Global;

/// A group as the core gathers it, where it has a piece.
fn gathered_of(input: u32, moment: Moment, group: Group) -> Option<Gathered>
    ensures none { group.pieces ≡ 0 → result ≡ None }
    ensures some { 0 < group.pieces → result ≡ Some (gathered_of input moment group) }
{
    if group.pieces == 0 {
        return None;
    }
    Some(Gathered {
        input,
        moment,
        pieces: group.pieces,
        refused: group.refused,
        passed: group.passed,
        filtered: group.filtered,
        metrics: Seq::of(group.metrics),
    })
}

/// Whether an input is read on after a read. That its end was met isn't remembered: the next read meets it
/// again.
fn read_state(state: InState) -> InState
    ensures { result ≡ read_state state }
{
    match state {
        InState::Reading => InState::Reading,
        InState::Ended => InState::Reading,
        InState::Faulted => InState::Faulted,
        InState::LimitReached => InState::LimitReached,
    }
}

/// An input of a run.
#[derive(Drop)]
pub struct InJob<'a, S: Drop, C: Drop> {
    /// Its number: its index among the inputs.
    pub input: u32,
    /// What is read.
    pub source: S,
    /// What was taken of it and isn't given yet.
    pub pieces: Pieces,
    /// Its format.
    pub format: &'a InFormat,
    /// The tags that each metric gets that lacks them.
    pub globals: &'a [(Text, Text)],
    /// How many pieces one gather has at most.
    pub gather_pieces: u32,
    /// What is kept of its metrics, once they have these tags.
    pub filter: &'a Filter,
    /// What gives the moments of its gathers.
    pub clock: C,
    /// The most groups that it has undelivered; none where it isn't tracked.
    pub limit: Option<u32>,
    /// What was read and isn't gathered yet.
    pub held: Option<Gathered>,
    /// Whether it is read on.
    pub state: InState,
    /// What people are told of its pieces.
    pub notes: PieceNotes,
}

/// Reads the next group of an input that holds nothing. It is held then, where it has a piece. Says whether the
/// end was met.
fn read_on<S: Source + Drop, C: Clock + Drop>(
    alloc: Global,
    job: &mut InJob<'_, S, C>,
) -> Result<bool, OutOfMemory>
    requires readable { IsReadable (rule_of job.old) }
    requires cut_by { IsCutBy (in_of S.told C.told job.old) }
    requires reading { job.old.state ≡ InState.Reading }
    requires free { job.old.held ≡ None }
    ensures reads { OnOk result ((core : CoreState) → ReadsAt core core (in_of S.told C.told job.old) (in_of S.told C.told job.new)) }
    ensures met { IfOk result (λ met. met ≡ true → HasMetEnd (in_of S.told C.told job.old) (in_of S.told C.told job.new)) }
    ensures moved { IfOk result (λ met. met ≡ false → IsMoved (in_of S.told C.told job.new)) }
    ensures own { OnOk result (HoldsOwn (in_of S.told C.told job.new)) }
    ensures cut_by { OnOk result (IsCutBy (in_of S.told C.told job.new)) }
    ensures unended { OnOk result (job.new.state ≢ InState.Ended) }
    ensures same { IsSameInput (in_of S.told C.told job.old) (in_of S.told C.told job.new) }
{
    let moment = job.clock.now();
    let notes = job.notes.first.is_none();
    let rule = ReadRule::new(
        job.format,
        job.globals,
        job.filter,
        job.gather_pieces,
        notes,
    );
    let (mut group, state) = read_group(alloc, &rule, &mut job.pieces, &mut job.source, moment)?;
    job.notes.add(&mut group);
    job.held = gathered_of(job.input, moment, group);
    job.state = read_state(state);
    Ok(state == InState::Ended)
}

/// Reads the next group of an input that is read on and holds nothing, and says whether the end was met.
fn read_where_free<S: Source + Drop, C: Clock + Drop>(
    alloc: Global,
    job: &mut InJob<'_, S, C>,
) -> Result<bool, OutOfMemory>
    requires readable { IsReadable (rule_of job.old) }
    requires cut_by { IsCutBy (in_of S.told C.told job.old) }
    requires own { HoldsOwn (in_of S.told C.told job.old) }
    requires none_held { HoldsNoEnd job.old.state job.old.held }
    ensures reads { OnOk result ((core : CoreState) → ReadsAt core core (in_of S.told C.told job.old) (in_of S.told C.told job.new)) }
    ensures met { IfOk result (λ met. met ≡ true → HasMetEnd (in_of S.told C.told job.old) (in_of S.told C.told job.new)) }
    ensures moved { IfOk result (λ met. met ≡ false → IsMoved (in_of S.told C.told job.new)) }
    ensures own { OnOk result (HoldsOwn (in_of S.told C.told job.new)) }
    ensures cut_by { OnOk result (IsCutBy (in_of S.told C.told job.new)) }
    ensures none_held { OnOk result (HoldsNoEnd job.new.state job.new.held) }
    ensures ended { OnOk result (is_ended job.new.state ≡ is_ended job.old.state) }
    ensures same { IsSameInput (in_of S.told C.told job.old) (in_of S.told C.told job.new) }
{
    if job.state != InState::Reading || job.held.is_some() {
        return Ok(false);
    }
    read_on(alloc, job)
}

/// What came of an offer to the core.
#[derive(Clone, Copy, Debug, PartialEq, Eq)]
enum Offered {
    /// The input held nothing.
    Nothing,
    /// What it held was gathered.
    Accepted,
    /// It holds it still: items are raw, or as many of its groups are live as may be.
    Held,
    /// The run is full.
    Full,
}

/// Offers what an input holds to the core. It holds it still, where it wasn't accepted; and where the run is full it
/// is read no more.
fn offer<S: Source + Drop, C: Clock + Drop>(
    core: &mut Core,
    job: &mut InJob<'_, S, C>,
) -> Result<Offered, OutOfMemory>
    requires running { IsRunning core.old }
    requires fits { FitsInput job.old.input core.old.ended (in_of S.told C.told job.old) }
    ensures running { OnOk result (IsRunning core.new) }
    ensures kept { OnOk result (IsGatheredAt job.old.input core.old core.new) }
    ensures ended { OnOk result (core.new.ended ≡ core.old.ended) }
    ensures part { OnOk result (IsOffered (in_of S.told C.told job.old) (in_of S.told C.told job.new)) }
    ensures fits { OnOk result (FitsInput job.old.input core.new.ended (in_of S.told C.told job.new)) }
    ensures offered { IfOk result (λ offered. HasOffered offered core.old core.new (in_of S.told C.told job.old)
        (in_of S.told C.told job.new)) }
    ensures same { IsSameInput (in_of S.told C.told job.old) (in_of S.told C.told job.new) }
    ensures gathers { IfOk result (λ offered. GathersAt (is_accepted offered) core.old core.new
        (in_of S.told C.told job.old) (in_of S.told C.told job.new)) }
{
    let gathered = match job.held.take() {
        Some(gathered) => gathered,
        None => return Ok(Offered::Nothing),
    };
    match core.gather(gathered) {
        Ok(()) => Ok(Offered::Accepted),
        Err(GatherRefused::OutOfMemory) => Err(OutOfMemory),
        Err(GatherRefused::RunFull(back)) => {
            job.held = Some(back);
            job.state = InState::LimitReached;
            Ok(Offered::Full)
        }
        Err(GatherRefused::HeldUndelivered(back)) => {
            job.held = Some(back);
            Ok(Offered::Held)
        }
        Err(GatherRefused::HeldRaw(back)) => {
            job.held = Some(back);
            Ok(Offered::Held)
        }
    }
}

/// Notes the end of an input, where it was met and nothing is held.
fn end_where_met<S: Source + Drop, C: Clock + Drop>(
    core: &mut Core,
    job: &mut InJob<'_, S, C>,
    met: bool,
) -> Result<(), OutOfMemory>
    requires running { IsRunning core.old }
    requires fits { FitsInput job.old.input core.old.ended (in_of S.told C.told job.old) }
    ensures running { OnOk result (IsRunning core.new) }
    ensures kept { OnOk result (IsGatheredAt job.old.input core.old core.new) }
    ensures fits { OnOk result (FitsInput job.old.input core.new.ended (in_of S.told C.told job.new)) }
    ensures held { job.new.held ≡ job.old.held }
    ensures quiet { OnOk result (IsQuiet core.old core.new) }
    ensures ends { OnOk result (EndsAt met core.old core.new (in_of S.told C.told job.old) (in_of S.told C.told job.new)) }
    ensures out { OnOk result (met ≡ true → job.old.held ≡ None → job.old.state ≡ InState.Reading
        → job.new.state ≡ InState.Ended) }
    ensures unmet { OnOk result (met ≡ false → job.new.state ≡ job.old.state) }
    ensures same { IsSameInput (in_of S.told C.told job.old) (in_of S.told C.told job.new) }
{
    if !met || job.held.is_some() || job.state != InState::Reading {
        return Ok(());
    }
    core.ended(job.input)?;
    job.state = InState::Ended;
    Ok(())
}

/// What came of turns of inputs.
#[derive(Clone, Copy, Debug, PartialEq, Eq)]
pub struct Turns {
    /// Whether the run is full.
    pub full: bool,
    /// Whether a gather was accepted.
    pub accepted: bool,
}

impl Turns {
    /// What came of an input's turn, by what came of its offer.
    fn of(offered: Offered) -> Turns
        ensures full { IsTrue result.full ↔ (offered ≡ Offered.Full) }
        ensures accepted { result.accepted ≡ is_accepted offered }
    {
        Turns {
            full: offered == Offered::Full,
            accepted: offered == Offered::Accepted,
        }
    }

    /// What came of these turns and then of another one.
    fn then(self, more: Turns) -> Turns
        ensures full { result.full ≡ more.full }
        ensures accepted { result.accepted ≡ (self.accepted || more.accepted) }
    {
        Turns {
            full: more.full,
            accepted: self.accepted || more.accepted,
        }
    }
}

/// The turn of an input in a round. Where it is read on and holds nothing, it is read; what it holds is offered;
/// and where this turn met the end and nothing is held, the end is noted.
fn turn<S: Source + Drop, C: Clock + Drop>(
    alloc: Global,
    core: &mut Core,
    job: &mut InJob<'_, S, C>,
) -> Result<Turns, OutOfMemory>
    requires running { IsRunning core.old }
    requires fits { FitsInput job.old.input core.old.ended (in_of S.told C.told job.old) }
    ensures running { OnOk result (IsRunning core.new) }
    ensures kept { OnOk result (IsGatheredAt job.old.input core.old core.new) }
    ensures fits { OnOk result (FitsInput job.old.input core.new.ended (in_of S.told C.told job.new)) }
    ensures full { IfOk result (λ turn. turn.full ≡ true → IsFullOf core.new.gathered
        (in_of S.told C.told job.new)) }
    ensures quiet { IfOk result (λ turn. turn.full ≡ false → turn.accepted ≡ false
        → IsQuietTurn core.old core.new (in_of S.told C.told job.new)) }
    ensures gathers { IfOk result (λ turn. GathersAt turn.accepted core.old core.new
        (in_of S.told C.told job.old) (in_of S.told C.told job.new)) }
    ensures same { IsSameInput (in_of S.told C.told job.old) (in_of S.told C.told job.new) }
{
    let met = read_where_free(alloc, job)?;
    let offered = offer(core, job)?;
    let turn = Turns::of(offered);
    if turn.full {
        return Ok(turn);
    }
    end_where_met(core, job, met)?;
    Ok(turn)
}

/// One turn of each input in order, until the run is full. Turns in which no gather was accepted leave each input out,
/// or held back: items are raw, or as many of its groups are live as may be.
pub fn gather_each<S: Source + Drop, C: Clock + Drop>(
    alloc: Global,
    core: &mut Core,
    inputs: &mut [InJob<'_, S, C>],
) -> Result<Turns, OutOfMemory>
    requires running { IsRunning core.old }
    requires inputs { AreInputs (length core.old.setup.inputs) core.old.ended
        (ins_of S.told C.told inputs.old) }
    ensures running { OnOk result (IsRunning core.new) }
    ensures kept { OnOk result (IsGathered core.old core.new) }
    ensures inputs { OnOk result (AreInputs (length core.old.setup.inputs) core.new.ended
        (ins_of S.told C.told inputs.new)) }
    ensures full { IfOk result (λ turns. turns.full ≡ true → OneIsFull core.new.gathered
        (ins_of S.told C.told inputs.new)) }
    ensures gathers { IfOk result (λ turns. GathersOn turns.accepted core.old core.new
        (ins_of S.told C.told inputs.old)
        (ins_of S.told C.told inputs.new)) }
    ensures quiet { IfOk result (λ turns. turns.full ≡ false → turns.accepted ≡ false
        → AreQuietTurns core.old core.new (ins_of S.told C.told inputs.new)) }
    ensures same { OnOk result (AreSameInputs (ins_of S.told C.told inputs.old)
        (ins_of S.told C.told inputs.new)) }
    ensures count { length inputs.new ≡ length inputs.old }
{
    let mut turns = Turns {
        full: false,
        accepted: false,
    };
    for job in inputs.iter_mut() {
        let more = turn(alloc, core, job)?;
        turns = turns.then(more);
        if more.full {
            return Ok(turns);
        }
    }
    Ok(turns)
}

/// Whether each input is read no more and holds nothing.
pub fn are_out<S: Source + Drop, C: Clock + Drop>(inputs: &[InJob<'_, S, C>]) -> bool
    ensures out { result ≡ true → AreOut (ins_of S.told C.told inputs.now) }
    ensures some { result ≡ false → AreOut (ins_of S.told C.told inputs.now) → ⊥ }
{
    for job in inputs {
        if job.state == InState::Reading || job.held.is_some() {
            return false;
        }
    }
    true
}

/// Whether one of the inputs is in a state.
pub fn is_one_in<S: Source + Drop, C: Clock + Drop>(
    inputs: &[InJob<'_, S, C>],
    state: InState,
) -> bool
    ensures { IsOneIn state (ins_of S.told C.told inputs.now) result }
{
    for job in inputs {
        if job.state == state {
            return true;
        }
    }
    false
}
