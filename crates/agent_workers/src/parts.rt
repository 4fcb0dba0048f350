//! The jobs of a run: what they are made of, and what they leave.
ghost use Rattle.std.specs.Prelude.{◌≡◌, ◌≤◌, ◌<◌, ◌^◌, [], length, map, All, IfOk, IfErr, vec_len, vec_capacity};
ghost use Rattle.agent_base.specs.Carried.{Timed};
ghost use Rattle.agent_base.specs.Hand.{empty_hand};
ghost use Rattle.agent_config.specs.Sound.{IsSound};
ghost use Rattle.agent_workers.specs.Inputs.{in_of, ins_of};
ghost use Rattle.agent_workers.specs.Job.{job_of, journal_setup_of, setup_of};
ghost use Rattle.agent_workers.specs.Opened.{carried_by, timed_by, empty_hands, in_carried, out_carried};
ghost use Rattle.agent_workers.specs.Opened.{fresh_in, fresh_ins, fresh_out, fresh_outs};
ghost use Rattle.agent_workers.specs.Opened.{AreFor, HasRoom, HasRoomFor, IsMadeOf, IsNewCore};
ghost use Rattle.agent_workers.specs.Output.{out_of, outs_of};
ghost use Rattle.agent_workers.specs.RunState.{state_of};
ghost use Rattle.formats.specs.Reader.{cut_of};
ghost use Rattle.proc_chain.specs.Chain.{IsBehind};

use crate::ends::PieceNotes;
use crate::input::InJob;
use crate::item::ProcJob;
use crate::journal::JournalJob;
use crate::output::OutJob;
use crate::setup::{journal_setup, limit_by, new_core};
use agent_base::{Clock, Pieces, Sink, Source};
use agent_config::{Config, InputConf, OutputConf};
use fixed_num::{Moment, OutOfMemory};
use formats::{InState, cut_of};
use journal_text::JournalSetup;
use pipeline_core::Core;
use proc_chain::Chain;
use std::alloc::Global;

/// The opened parts of a run.
#[derive(Drop)]
pub struct Opened<S: Drop, K: Drop> {
    /// What is read, input by input.
    pub inputs: Vec<S>,
    /// Where batches are put, output by output.
    pub outputs: Vec<K>,
    /// Where the journal is put.
    pub journal: K,
}

/// The clocks of a run.
#[derive(Drop)]
pub struct Clocks<C: Drop> {
    /// What gives the moments of the start, of the ticks and of the stop.
    pub timer: C,
    /// That of the processors.
    pub proc: C,
    /// That of the journal.
    pub journal: C,
    /// What gives the moments of an input's gathers, input by input.
    pub inputs: Vec<C>,
    /// Those of the outputs, output by output.
    pub outputs: Vec<C>,
}

/// Empty lists with room for the sources and the sinks of a run: they are given back in these, which takes no memory.
#[derive(Drop)]
pub struct Back<S: Drop, K: Drop> {
    pub sources: Vec<S>,
    pub sinks: Vec<K>,
}

/// The jobs of a run. They borrow the steps, the filters and the global tags of its configuration.
#[derive(Drop)]
pub struct Parts<'a, S: Drop, K: Drop, C: Drop> {
    /// Its inputs, by their numbers.
    pub inputs: Vec<InJob<'a, S, C>>,
    /// The clock that gives the moments of the ticks and of the stop.
    pub timer: C,
    pub proc: ProcJob<'a, C>,
    /// Its outputs, by their numbers.
    pub outputs: Vec<OutJob<K, C>>,
    pub journal: JournalJob<K, C>,
    /// How often in succession a repeat that had no batch accepted is tried at the end.
    pub final_tries: u32,
    /// The lists in which its sources and sinks are given back.
    pub back: Back<S, K>,
}

/// All that a run takes memory for at its begin: its core, what its journal is about, and room for its jobs.
#[derive(Drop)]
struct Room<'a, S: Drop, K: Drop, C: Drop> {
    core: Core,
    chain: Chain<'a>,
    about: JournalSetup,
    pieces: Vec<Pieces>,
    inputs: Vec<InJob<'a, S, C>>,
    outputs: Vec<OutJob<K, C>>,
    back: Back<S, K>,
}

/// What was taken of inputs of which nothing was read.
fn empty_pieces(alloc: Global, confs: &[InputConf]) -> Result<Vec<Pieces>, OutOfMemory>
    ensures { IfOk result (λ pieces. pieces.items ≡ empty_hands confs.now) }
{
    let mut pieces = Vec::with_capacity(alloc, confs.len())?;
    for conf in confs {
        pieces.push(Pieces::new(alloc, cut_of(&conf.format))?)?;
    }
    Ok(pieces)
}

/// Takes the memory of a run that begins at a moment.
fn make_room<'a, S: Source + Drop, K: Sink + Drop, C: Clock + Drop>(
    alloc: Global,
    config: &'a Config,
    start: Moment,
) -> Result<Room<'a, S, K, C>, OutOfMemory>
    requires sound { IsSound config.now }
    ensures core { IfOk result (λ room. IsNewCore config.now start room.core) }
    ensures chain { IfOk result (λ room. IsBehind config.now.steps [] room.chain) }
    ensures about { IfOk result (λ room. room.about ≡ journal_setup_of (setup_of (job_of config.now) start)) }
    ensures pieces { IfOk result (λ room. room.pieces.items ≡ empty_hands config.now.inputs) }
    ensures inputs { IfOk result (λ room. room.inputs.items ≡ []) }
    ensures in_room { IfOk result (λ room. length config.now.inputs ≤ vec_capacity room.inputs) }
    ensures outputs { IfOk result (λ room. room.outputs.items ≡ []) }
    ensures out_room { IfOk result (λ room. length config.now.outputs ≤ vec_capacity room.outputs) }
    ensures back { IfOk result (λ room. HasRoomFor config.now room.back) }
{
    let core = new_core(alloc, config, start)?;
    let chain = Chain::new(alloc, config.steps.as_slice())?;
    let about = journal_setup(alloc, config, start)?;
    let pieces = empty_pieces(alloc, config.inputs.as_slice())?;
    let (in_count, out_count) = (
        config.inputs.as_slice().len(),
        config.outputs.as_slice().len(),
    );
    let back = Back {
        sources: Vec::with_capacity(alloc, in_count)?,
        sinks: Vec::with_capacity(alloc, out_count)?,
    };
    Ok(Room {
        core,
        chain,
        about,
        pieces,
        inputs: Vec::with_capacity(alloc, in_count)?,
        outputs: Vec::with_capacity(alloc, out_count)?,
        back,
    })
}

/// The job of an input of which nothing was read.
fn in_job<'a, S: Source + Drop, C: Clock + Drop>(
    config: &'a Config,
    conf: &'a InputConf,
    input: usize,
    source: S,
    pieces: Pieces,
    clock: C,
) -> InJob<'a, S, C>
    requires few { input < 2 ^ 32 }
    requires none_read { pieces ≡ empty_hand (cut_of conf.now.format) }
    ensures { in_of S.told C.told result
        ≡ fresh_in config.now input conf.now (S.told source) (C.told clock) }
{
    InJob {
        input: input as u32,
        source,
        pieces,
        format: &conf.format,
        globals: config.globals.as_slice(),
        gather_pieces: config.agent.gather_pieces,
        filter: &conf.filter,
        clock,
        limit: limit_by(conf),
        held: None,
        state: InState::Reading,
        notes: PieceNotes::none(),
    }
}

/// Makes the job of each input, of its source, its clock and what is taken of it, in their order.
fn fill_inputs<'a, S: Source + Drop, C: Clock + Drop>(
    config: &'a Config,
    pieces: Vec<Pieces>,
    sources: Vec<S>,
    clocks: Vec<C>,
    jobs: &mut Vec<InJob<'a, S, C>>,
)
    requires sound { IsSound config.now }
    requires pieces { pieces.items ≡ empty_hands config.now.inputs }
    requires sources { vec_len sources ≡ length config.now.inputs }
    requires clocks { vec_len clocks ≡ length config.now.inputs }
    requires none { jobs.old.items ≡ [] }
    requires room { length config.now.inputs ≤ vec_capacity jobs.old }
    ensures { ins_of S.told C.told jobs.new.items ≡ fresh_ins config.now 0 config.now.inputs
        (map S.told sources.items) (map C.told clocks.items) }
{
    let mut pieces = pieces.into_iter();
    let mut sources = sources.into_iter();
    let mut clocks = clocks.into_iter();
    for conf in config.inputs.as_slice() {
        let Some(taken) = pieces.next() else {
            unreachable!()
        };
        let Some(source) = sources.next() else {
            unreachable!()
        };
        let Some(clock) = clocks.next() else {
            unreachable!()
        };
        let input = jobs.len();
        jobs.push_reserved(in_job(config, conf, input, source, taken, clock));
    }
}

/// The job of an output to which nothing was put.
fn out_job<K: Sink + Drop, C: Drop>(
    conf: &OutputConf,
    output: usize,
    sink: K,
    clock: C,
) -> OutJob<K, C>
    requires few { output < 2 ^ 32 }
    ensures { out_of K.told result ≡ fresh_out output conf.now (K.told sink) }
{
    OutJob {
        output: output as u32,
        sink,
        format: conf.format,
        clock,
        failed: 0,
        failed_since: 0,
    }
}

/// Makes the job of each output, of its sink and its clock, in their order.
fn fill_outputs<K: Sink + Drop, C: Drop>(
    config: &Config,
    sinks: Vec<K>,
    clocks: Vec<C>,
    jobs: &mut Vec<OutJob<K, C>>,
)
    requires sound { IsSound config.now }
    requires sinks { vec_len sinks ≡ length config.now.outputs }
    requires clocks { vec_len clocks ≡ length config.now.outputs }
    requires none { jobs.old.items ≡ [] }
    requires room { length config.now.outputs ≤ vec_capacity jobs.old }
    ensures { outs_of K.told jobs.new.items ≡ fresh_outs 0 config.now.outputs (map K.told sinks.items) }
{
    let mut sinks = sinks.into_iter();
    let mut clocks = clocks.into_iter();
    for conf in config.outputs.as_slice() {
        let Some(sink) = sinks.next() else {
            unreachable!()
        };
        let Some(clock) = clocks.next() else {
            unreachable!()
        };
        let output = jobs.len();
        jobs.push_reserved(out_job(conf, output, sink, clock));
    }
}

/// A core in which nothing happened, and the jobs of a run that begins with it at a moment, made of its opened parts and
/// its clocks. All memory is taken before one of the parts is moved: where it was short they are handed back.
pub fn set_up<'a, S: Source + Drop, K: Sink + Drop, C: Clock + Drop>(
    alloc: Global,
    config: &'a Config,
    start: Moment,
    opened: Opened<S, K>,
    clocks: Clocks<C>,
) -> Result<(Core, Parts<'a, S, K, C>), Opened<S, K>>
    requires sound { IsSound config.now }
    requires parts { AreFor config.now opened clocks }
    requires first { All (λ (clock : Timed). clock.next ≡ 0) (map C.told clocks.inputs.items) }
    ensures made { IfOk result (λ made. IsMadeOf config.now start (carried_by S.told K.told opened)
        (timed_by C.told clocks) (state_of S.told K.told C.told made.0 made.1)) }
    ensures tries { IfOk result (λ made. made.1.final_tries ≡ config.now.agent.final_tries) }
    ensures room { IfOk result (λ made. HasRoom made.1) }
    ensures back { IfErr result (λ back. back ≡ opened) }
{
    let Room {
        core,
        chain,
        about,
        pieces,
        inputs: mut in_jobs,
        outputs: mut out_jobs,
        back,
    } = match make_room(alloc, config, start) {
        Ok(room) => room,
        Err(_) => return Err(opened),
    };
    let Opened {
        inputs: sources,
        outputs: sinks,
        journal,
    } = opened;
    let Clocks {
        timer,
        proc,
        journal: journal_clock,
        inputs: in_clocks,
        outputs: out_clocks,
    } = clocks;
    fill_inputs(config, pieces, sources, in_clocks, &mut in_jobs);
    fill_outputs(config, sinks, out_clocks, &mut out_jobs);
    let parts = Parts {
        inputs: in_jobs,
        timer,
        proc: ProcJob {
            chain,
            skip: config.agent.skip_second,
            aggs: config.aggs.as_slice(),
            outs: config.outputs.as_slice(),
            clock: proc,
        },
        outputs: out_jobs,
        journal: JournalJob::new(alloc, about, journal, journal_clock),
        final_tries: config.agent.final_tries,
        back,
    };
    Ok((core, parts))
}

/// Takes the sources out of the jobs of inputs, in their order.
fn empty_inputs<S: Source + Drop, C: Clock + Drop>(jobs: Vec<InJob<'_, S, C>>, sources: &mut Vec<S>)
    requires none { sources.old.items ≡ [] }
    requires room { vec_len jobs ≤ vec_capacity sources.old }
    ensures { map S.told sources.new.items
        ≡ map in_carried (ins_of S.told C.told jobs.entry.items) }
{
    for job in jobs {
        sources.push_reserved(job.source);
    }
}

/// Takes the sinks out of the jobs of outputs, in their order.
fn empty_outputs<K: Sink + Drop, C: Drop>(jobs: Vec<OutJob<K, C>>, sinks: &mut Vec<K>)
    requires none { sinks.old.items ≡ [] }
    requires room { vec_len jobs ≤ vec_capacity sinks.old }
    ensures { map K.told sinks.new.items ≡ map out_carried (outs_of K.told jobs.items) }
{
    for job in jobs {
        sinks.push_reserved(job.sink);
    }
}

impl<'a, S: Source + Drop, K: Sink + Drop, C: Clock + Drop> Parts<'a, S, K, C> {
    /// Takes the parts out of the jobs, in their order.
    pub fn take_apart(self) -> Opened<S, K>
        requires { HasRoom self }
        ensures sources { map S.told result.inputs.items
            ≡ map in_carried (ins_of S.told C.told self.entry.inputs.items) }
        ensures sinks { map K.told result.outputs.items
            ≡ map out_carried (outs_of K.told self.entry.outputs.items) }
        ensures journal { result.journal ≡ self.entry.journal.sink }
    {
        let Parts {
            inputs: in_jobs,
            outputs: out_jobs,
            journal,
            back,
            ..
        } = self;
        let Back {
            mut sources,
            mut sinks,
        } = back;
        empty_inputs(in_jobs, &mut sources);
        empty_outputs(out_jobs, &mut sinks);
        Opened {
            inputs: sources,
            outputs: sinks,
            journal: journal.sink,
        }
    }
}
