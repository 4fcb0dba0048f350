//! Runs of commands, and of a configuration over its parts: each leaves its outputs in the world, and gives how it
//! ended.
ghost use Rattle.std.specs.Prelude.{◌≡◌, All, IfOk, map};
ghost use Rattle.agent_base.specs.Places.{AreHome};
ghost use Rattle.agent_base.specs.Carried.{Timed};

use crate::to_run::{config_of, opened_by, report_fails, words_of};
use crate::told::ToldWorld;
use agent_base::{Clock, MemClock, World};
use agent_config::Config;
use agent_run::{Status, agent};
use agent_workers::{Clocks, Ending, run};
use scenario_tables::Part;
use std::alloc::{AllocError, Global};
use std::test::Fail;

/// How the row's run ended: the status of a command, or what the ending of a run over parts tells.
pub fn run_row(alloc: Global, parts: &[Part<'_>], world: &mut ToldWorld) -> Result<String, Fail>
    requires ins { AreHome (⟦<ToldWorld as World>⟧.view world.old).ins }
    requires outs { AreHome (⟦<ToldWorld as World>⟧.view world.old).outs }
{
    match words_of(alloc, parts)? {
        Some(words) => {
            let is_told = report_fails(alloc, parts)?;
            let status = status_of(alloc, words.as_slice(), is_told, world);
            Ok(format!(in alloc; "{}", status.code())?)
        }
        None => run_parts(alloc, parts, world),
    }
}

/// Runs the command that the words are, over the world, or over its parts alone where its report doesn't fail.
fn status_of(alloc: Global, words: &[String], is_told: bool, world: &mut ToldWorld) -> Status
    requires ins { AreHome (⟦<ToldWorld as World>⟧.view world.old).ins }
    requires outs { AreHome (⟦<ToldWorld as World>⟧.view world.old).outs }
{
    if is_told {
        agent(alloc, words, world)
    } else {
        agent(alloc, words, &mut world.parts)
    }
}

/// Runs the configuration that stands at the place of `parts`, over the parts at the places that it names.
fn run_parts(alloc: Global, parts: &[Part<'_>], world: &mut ToldWorld) -> Result<String, Fail> {
    let config = config_of(alloc, parts)?;
    let opened = opened_by(alloc, parts, &config)?;
    let clocks = clocks_by(alloc, &config)?;
    if opened.inputs.len() != config.inputs.as_slice().len()
        || opened.outputs.len() != config.outputs.as_slice().len()
        || clocks.inputs.len() != config.inputs.as_slice().len()
        || clocks.outputs.len() != config.outputs.as_slice().len()
    {
        return Err(Fail::new("another number of parts or clocks"));
    }
    let (left, ran) = run(alloc, &config, opened, clocks);
    for (output, sink) in config.outputs.as_slice().iter().zip(left.outputs) {
        world.parts.add_out(output.place.as_str(), sink)?;
    }
    world
        .parts
        .add_out(config.agent.journal.as_str(), left.journal)?;
    Ok(ending_words(alloc, &ran?)?)
}

/// A clock without moments.
fn clock_of(alloc: Global) -> MemClock
    ensures { (⟦<MemClock as Clock>⟧.told result).next ≡ 0 }
{
    MemClock::new(alloc, Vec::new(alloc))
}

/// One clock, or two.
fn clocks_of(alloc: Global, two: bool) -> Result<Vec<MemClock>, AllocError>
    ensures first { IfOk result (λ clocks. All (λ (clock : Timed). clock.next ≡ 0)
        (map ⟦<MemClock as Clock>⟧.told clocks.items)) }
{
    let mut clocks = Vec::new(alloc);
    clocks.push(clock_of(alloc))?;
    if two {
        clocks.push(clock_of(alloc))?;
    }
    Ok(clocks)
}

/// The clocks of a configuration of one or two inputs and outputs.
fn clocks_by(alloc: Global, config: &Config) -> Result<Clocks<MemClock>, AllocError>
    ensures timer { IfOk result (λ clocks. (⟦<MemClock as Clock>⟧.told clocks.timer).next ≡ 0) }
    ensures first { IfOk result (λ clocks. All (λ (clock : Timed). clock.next ≡ 0)
        (map ⟦<MemClock as Clock>⟧.told clocks.inputs.items)) }
{
    let inputs = clocks_of(alloc, config.inputs.as_slice().len() == 2)?;
    let outputs = clocks_of(alloc, config.outputs.as_slice().len() == 2)?;
    Ok(Clocks {
        timer: clock_of(alloc),
        proc: clock_of(alloc),
        journal: clock_of(alloc),
        inputs,
        outputs,
    })
}

/// What an ending tells, each in its word, or that the run is done.
fn ending_words(alloc: Global, ending: &Ending) -> Result<String, AllocError> {
    let mut words = String::new(alloc);
    words.push_str(if ending.limit { " limit" } else { "" })?;
    words.push_str(if ending.journal_fault {
        " journal_fault"
    } else {
        ""
    })?;
    words.push_str(if ending.read_fault { " read_fault" } else { "" })?;
    words.push_str(if ending.left { " left" } else { "" })?;
    String::from_str(
        alloc,
        match words.as_str().trim_start() {
            "" => "done",
            words => words,
        },
    )
}
