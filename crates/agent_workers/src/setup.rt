//! What a run and its journal are about.
ghost use Rattle.std.specs.Prelude.{◌≡◌, map, IfOk};
ghost use Rattle.agent_config.specs.Sound.{IsSound};
ghost use Rattle.pipeline_core.specs.CoreState.{setup_of as core_setup_of};
ghost use Rattle.agent_workers.specs.Job.{job_of, journal_setup_of, limit_by, line_of, setup_of};
ghost use Rattle.agent_workers.specs.Job.{sizes_by};
ghost use Rattle.agent_workers.specs.Opened.{in_setup, out_setup, IsNewCore};

use account::AggLine;
use agent_config::{AggConf, Config, InputConf, OutputConf};
use fixed_num::{Moment, OutOfMemory, Seq};
use journal_text::JournalSetup;
use pipeline_core::{Core, CoreSetup, InSetup, OutSetup};
use std::alloc::Global;

/// How many groups of each input may be undelivered at most, where it is tracked.
fn limits_of(alloc: Global, inputs: &[InputConf]) -> Result<Vec<Option<u32>>, OutOfMemory>
    ensures { IfOk result (λ limits. limits.items ≡ map limit_by inputs.now) }
{
    let mut limits = Vec::with_capacity(alloc, inputs.len())?;
    for input in inputs {
        limits.push(limit_by(input))?;
    }
    Ok(limits)
}

/// How many groups of an input may be undelivered at most, where it is tracked.
pub fn limit_by(conf: &InputConf) -> Option<u32>
    ensures { result ≡ limit_by conf.now }
{
    if conf.tracked {
        Some(conf.max_undelivered)
    } else {
        None
    }
}

/// The line of each aggregator.
fn lines_of(alloc: Global, aggs: &[AggConf]) -> Result<Vec<AggLine>, OutOfMemory>
    ensures { IfOk result (λ lines. lines.items ≡ map line_of aggs.now) }
{
    let mut lines = Vec::with_capacity(alloc, aggs.len())?;
    for agg in aggs {
        lines.push(agg.line)?;
    }
    Ok(lines)
}

/// The sizes of each output: its batch size and its buffer limit.
fn output_sizes(alloc: Global, outputs: &[OutputConf]) -> Result<Vec<(u32, u32)>, OutOfMemory>
    ensures { IfOk result (λ pairs. pairs.items ≡ map sizes_by outputs.now) }
{
    let mut pairs = Vec::with_capacity(alloc, outputs.len())?;
    for output in outputs {
        pairs.push((output.batch, output.limit))?;
    }
    Ok(pairs)
}

/// With what the core is set up of each input.
fn in_setups(alloc: Global, inputs: &[InputConf]) -> Result<Vec<InSetup>, OutOfMemory>
    ensures { IfOk result (λ setups. setups.items ≡ map in_setup inputs.now) }
{
    let mut setups = Vec::with_capacity(alloc, inputs.len())?;
    for input in inputs {
        setups.push(InSetup {
            tracked: input.tracked,
            max_undelivered: input.max_undelivered,
        })?;
    }
    Ok(setups)
}

/// With what the core is set up of each output.
fn out_setups(alloc: Global, outputs: &[OutputConf]) -> Result<Vec<OutSetup>, OutOfMemory>
    ensures { IfOk result (λ setups. setups.items ≡ map out_setup outputs.now) }
{
    let mut setups = Vec::with_capacity(alloc, outputs.len())?;
    for output in outputs {
        setups.push(OutSetup {
            batch: output.batch,
            limit: output.limit,
        })?;
    }
    Ok(setups)
}

/// What the journal of a configuration's run is about, which begins at a moment.
pub fn journal_setup(
    alloc: Global,
    config: &Config,
    start: Moment,
) -> Result<JournalSetup, OutOfMemory>
    ensures { IfOk result (λ setup. setup ≡ journal_setup_of (setup_of (job_of config.now) start)) }
{
    Ok(JournalSetup {
        start,
        inputs: Seq::of(limits_of(alloc, config.inputs.as_slice())?),
        aggs: Seq::of(lines_of(alloc, config.aggs.as_slice())?),
        outputs: Seq::of(output_sizes(alloc, config.outputs.as_slice())?),
    })
}

/// The set-up of the core.
fn core_setup(alloc: Global, config: &Config, start: Moment) -> Result<CoreSetup, OutOfMemory>
    ensures setup { IfOk result (λ setup. core_setup_of setup ≡ setup_of (job_of config.now) start) }
    ensures inputs { IfOk result (λ setup. setup.inputs ≡ map in_setup config.now.inputs) }
    ensures aggs { IfOk result (λ setup. setup.aggs ≡ map line_of config.now.aggs) }
    ensures outputs { IfOk result (λ setup. setup.outputs ≡ map out_setup config.now.outputs) }
{
    Ok(CoreSetup {
        inputs: Seq::of(in_setups(alloc, config.inputs.as_slice())?),
        aggs: Seq::of(lines_of(alloc, config.aggs.as_slice())?),
        outputs: Seq::of(out_setups(alloc, config.outputs.as_slice())?),
        start,
    })
}

/// A core in which nothing happened.
pub fn new_core(alloc: Global, config: &Config, start: Moment) -> Result<Core, OutOfMemory>
    requires sound { IsSound config.now }
    ensures { IfOk result (λ core. IsNewCore config.now start core) }
{
    let setup = core_setup(alloc, config, start)?;
    let core = Core::new(alloc, setup)?;
    Ok(core)
}
