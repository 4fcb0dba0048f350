//! Running a configuration over inputs that are generated.
ghost use Rattle.std.specs.Prelude.{◌≡◌, ◌≢◌, ◌⊎◌, IfOk, length, map, vec_len};
ghost use Rattle.agent_base.specs.Places.{AreHome};
ghost use Rattle.agent_config.specs.Sound.{IsSound};
ghost use Rattle.agent_run.specs.Generating.{EndsGenerated, IsOutRefusedBy, SaysGen};
ghost use Rattle.agent_run.specs.Generating.{clock_given, clocks_given, lines_given, sources_given};
ghost use Rattle.agent_run.specs.Headline.{NothingRose};
ghost use Rattle.agent_run.specs.Running.{IsOpenedSame, OnlyWritten};

use crate::generated::Generated;
use crate::places::{Unopened, open_written};
use crate::reporting::report_open_fault;
use crate::running::{config_to_run, run_opened};
use crate::status::Status;
use crate::ticking::Ticking;
use agent_base::{Clock, Source, World};
use agent_config::{Config, InputConf};
use agent_workers::{Clocks, Opened};
use fixed_num::OutOfMemory;
use format_words::InFormat;
use std::alloc::Global;

/// How many lines an input of a format is given, where so many are wanted: none, if it isn't line protocol.
fn lines_given(lines: u32, format: &InFormat) -> u32
    ensures { result ≡ lines_given lines format.now }
{
    match format {
        InFormat::Influx => lines,
        _ => 0,
    }
}

/// The sources of inputs, in order, over so many lines.
fn sources_given(
    alloc: Global,
    lines: u32,
    confs: &[InputConf],
) -> Result<Vec<Generated>, OutOfMemory>
    ensures { IfOk result (λ sources. map ⟦<Generated as Source>⟧.told sources.items
        ≡ sources_given lines confs.now) }
{
    let mut sources = Vec::with_capacity(alloc, confs.len())?;
    for conf in confs {
        sources.push(Generated::new(alloc, lines_given(lines, &conf.format))?)?;
    }
    Ok(sources)
}

/// A clock for each of some parts.
fn clocks_given<T>(alloc: Global, parts: &[T]) -> Result<Vec<Ticking>, OutOfMemory>
    ensures { IfOk result (λ clocks. map ⟦<Ticking as Clock>⟧.told clocks.items ≡ clocks_given parts.now) }
{
    let mut clocks = Vec::with_capacity(alloc, parts.len())?;
    for _part in parts {
        clocks.push(Ticking::new())?;
    }
    Ok(clocks)
}

/// The clocks of a configuration.
fn all_clocks_given(alloc: Global, config: &Config) -> Result<Clocks<Ticking>, OutOfMemory>
    ensures timer { IfOk result (λ clocks. ⟦<Ticking as Clock>⟧.told clocks.timer ≡ clock_given) }
    ensures inputs { IfOk result (λ clocks. map ⟦<Ticking as Clock>⟧.told clocks.inputs.items
        ≡ clocks_given config.now.inputs) }
    ensures outputs { IfOk result (λ clocks. vec_len clocks.outputs ≡ length config.now.outputs) }
{
    Ok(Clocks {
        timer: Ticking::new(),
        proc: Ticking::new(),
        journal: Ticking::new(),
        inputs: clocks_given(alloc, config.inputs.as_slice())?,
        outputs: clocks_given(alloc, config.outputs.as_slice())?,
    })
}

/// Runs a configuration over so many generated lines: makes its sources and its clocks, opens the places that it
/// writes, and runs it over them. Where a place isn't opened it is named in the report, and nothing is run. All parts
/// are given back.
fn gen_config<W: World>(alloc: Global, config: &Config, lines: u32, world: &mut W) -> Status
    requires sound { IsSound config.now }
    requires outs { AreHome (W.view world.old).outs }
    ensures open { result ≡ Status.OpenFault → IsOutRefusedBy config.now (W.view world.old) (W.view world.new) }
    ensures ends { (result ≢ Status.OpenFault)
        → EndsGenerated config.now lines (W.view world.old) (W.view world.new) result }
    ensures only { OnlyWritten config.now (W.view world.old) (W.view world.new) }
    ensures opened { (result ≢ Status.OpenFault) → (result ≢ Status.OutOfMemory)
        → IsOpenedSame (W.view world.old) (W.view world.new) }
    ensures home { AreHome (W.view world.new).outs }
{
    let Ok(inputs) = sources_given(alloc, lines, config.inputs.as_slice()) else {
        return Status::OutOfMemory;
    };
    let Ok(clocks) = all_clocks_given(alloc, config) else {
        return Status::OutOfMemory;
    };
    let Ok(outputs) = Vec::with_capacity(alloc, config.outputs.as_slice().len()) else {
        return Status::OutOfMemory;
    };
    match open_written(world, config, outputs) {
        Ok((outputs, journal)) => {
            let opened = Opened {
                inputs,
                outputs,
                journal,
            };
            let (_left, status) = run_opened(alloc, config, opened, clocks, world);
            status
        }
        Err(Unopened::Failed(place)) => report_open_fault(alloc, world, place),
        Err(Unopened::OutOfMemory) => Status::OutOfMemory,
    }
}

/// Runs the configuration at a place over so many generated lines: reads it, gives its part back, and runs it. No other
/// input place is opened, and no clock of the world is taken. Where it isn't read the report says why, as it does of a
/// check.
pub(crate) fn gen_call<W: World>(alloc: Global, world: &mut W, lines: u32, place: &str) -> Status
    requires ins { AreHome (W.view world.old).ins }
    requires outs { AreHome (W.view world.old).outs }
    ensures ran { SaysGen result lines place.now (W.view world.old) (W.view world.new) }
    ensures complete { NothingRose (W.view world.old) (W.view world.new) → (result ≢ Status.Limit)
        → (result ≢ Status.Config) → (result ≡ Status.Done) ⊎ (result ≡ Status.OutOfMemory) }
    ensures ins_home { AreHome (W.view world.new).ins }
    ensures outs_home { AreHome (W.view world.new).outs }
{
    match config_to_run(alloc, world, place) {
        Ok(config) => gen_config(alloc, &config, lines, world),
        Err(status) => status,
    }
}
