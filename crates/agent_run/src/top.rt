//! The top call.
ghost use Rattle.std.specs.Prelude.{◌≡◌, ◌≢◌, ◌≤◌, ◌⊎◌, ℕ, List};
ghost use Rattle.agent_base.specs.Places.{AreHome};
ghost use Rattle.agent_run.specs.Agent.{SaysFaulty, SaysRuns, SaysUnopened, SaysUsage};
ghost use Rattle.agent_run.specs.Checking.{HasChecked};
ghost use Rattle.agent_run.specs.Command.{IsCheck, IsNoCommand, IsPipe, journal_place, pipe_config};
ghost use Rattle.agent_run.specs.Configured.{IsRunUnread, RunEnds};
ghost use Rattle.agent_run.specs.Generating.{GenEnds};
ghost use Rattle.agent_run.specs.Headline.{Ends, NothingRose, PipeEnds, world_change};
ghost use Rattle.agent_run.specs.Running.{IsOpenedSame, IsRefusedBy, OnlyNamed};

use crate::checking::check_call;
use crate::command::{Command, Pipe, read_command};
use crate::generating::gen_call;
use crate::pipe::pipe_config;
use crate::reporting::report_line;
use crate::running::{run_call, run_config};
use crate::status::Status;
use agent_base::World;
use std::alloc::Global;

/// Runs a pipe, as the configuration that it is.
fn run_pipe<W: World>(alloc: Global, pipe: &Pipe<'_>, world: &mut W) -> Status
    requires ins { AreHome (W.view world.old).ins }
    requires outs { AreHome (W.view world.old).outs }
    requires apart { pipe.now.output.now ≢ journal_place }
    requires some { 1 ≤ pipe.now.batch }
    requires ordered { pipe.now.batch ≤ pipe.now.limit }
    requires most { pipe.now.limit ≤ 10000 }
    ensures open { result ≡ Status.OpenFault
        → IsRefusedBy (pipe_config pipe.now.input.now pipe.now.output.now pipe.now.batch pipe.now.limit)
        (W.view world.old) (W.view world.new) }
    ensures ends { (result ≢ Status.OpenFault)
        → Ends (pipe_config pipe.now.input.now pipe.now.output.now pipe.now.batch pipe.now.limit)
        (world_change (pipe_config pipe.now.input.now pipe.now.output.now pipe.now.batch pipe.now.limit)
        (W.view world.old) (W.view world.new)) result }
    ensures only { OnlyNamed (pipe_config pipe.now.input.now pipe.now.output.now pipe.now.batch pipe.now.limit)
        (W.view world.old) (W.view world.new) }
    ensures opened { (result ≢ Status.OpenFault) → (result ≢ Status.OutOfMemory)
        → IsOpenedSame (W.view world.old) (W.view world.new) }
    ensures ins_home { AreHome (W.view world.new).ins }
    ensures outs_home { AreHome (W.view world.new).outs }
{
    match pipe_config(alloc, pipe) {
        Ok(config) => run_config(alloc, &config, world),
        Err(_) => Status::OutOfMemory,
    }
}

/// Runs the command that the words are, over a world of which no part is out, and gives all parts back.
///
/// `pipe IN OUT BATCH LIMIT` reads line protocol at IN and writes it to OUT in batches of at most BATCH
/// metrics, of which at most LIMIT wait; it writes the journal to `agent.journal`, and reports the account.
/// `run CONFIG` reads a configuration at CONFIG, gives that place back, and runs it: it reads its inputs, writes
/// its outputs and the journal at `agent.journal`'s value, and reports the account.
/// `gen N CONFIG` is `run CONFIG`, but that each input of line protocol has N generated lines, and every other nothing:
/// no place of an input is opened, and no clock of the world is asked.
/// `check CONFIG` reads a configuration at CONFIG, and reports `ok`, or its first fault as
/// `config: KIND CLASS NUMBER`. It always returns.
///
/// At the end of a run people are told, line by line, what was refused, passed over, dropped and left, and why it ended
/// so; of that the contract says nothing.
pub fn agent<W: World>(alloc: Global, words: &[String], world: &mut W) -> Status
    requires ins { AreHome (W.view world.old).ins }
    requires outs { AreHome (W.view world.old).outs }

    // Usage comes exactly where the words are no command, but for want of memory; such words change nothing but the report.
    ensures usage { SaysUsage result words.now (W.view world.old) (W.view world.new) }

    // A check of a configuration: each status says what it says, and all else but the report is as before.
    ensures check { (place : List ℕ) → IsCheck words.now place
        → HasChecked result place (W.view world.old) (W.view world.new) }

    // A run of a configuration, over its own inputs or over generated ones: each status says what it says, and no
    // place changed that the configuration doesn't name, and no clock that it doesn't take; over generated ones no
    // input place but that of the configuration, and no clock.
    ensures runs { SaysRuns result words.now (W.view world.old) (W.view world.new) }

    // Config comes only of a check or a run, where the configuration has a fault. A command on a configuration with a
    // fault comes to it, where neither opening nor reading its place failed.
    ensures faulty { SaysFaulty result words.now (W.view world.old) (W.view world.new) }

    // OpenFault of a pipe comes only where one of its three places wasn't opened: that is counted there, and
    // all else is as before. What it says of a check and of a run stands there.
    ensures open { SaysUnopened result words.now (W.view world.old) (W.view world.new) }

    // The headline: what a run that ended with one of the other statuses left behind.
    ensures headline { ((place : List ℕ) → IsCheck words.now place → ⊥)
        → (result ≢ Status.Usage) → (result ≢ Status.Config) → (result ≢ Status.OpenFault)
        → (result ≢ Status.OutOfMemory)
        → PipeEnds result words.now (W.view world.old) (W.view world.new)
        ⊎ RunEnds result words.now (W.view world.old) (W.view world.new)
        ⊎ GenEnds result words.now (W.view world.old) (W.view world.new)
        ⊎ IsRunUnread result words.now (W.view world.old) (W.view world.new) }

    // A command, no count of the world that rose, no fault of a configuration, and no limit that was reached:
    // Done, or out of memory.
    ensures complete { (IsNoCommand words.now → ⊥) → NothingRose (W.view world.old) (W.view world.new) →
        (result ≢ Status.Limit) → (result ≢ Status.Config)
        → (result ≡ Status.Done) ⊎ (result ≡ Status.OutOfMemory) }

    // Whatever the status: a pipe leaves every place that it doesn't name and every clock that it doesn't take as it was.
    ensures pipe_leaves { (input output : List ℕ) (batch limit : ℕ) → IsPipe words.now input output batch limit
        → OnlyNamed (pipe_config input output batch limit) (W.view world.old) (W.view world.new) }

    ensures ins_home { AreHome (W.view world.new).ins }
    ensures outs_home { AreHome (W.view world.new).outs }
{
    match read_command(words) {
        Some(Command::Pipe(pipe)) => run_pipe(alloc, &pipe, world),
        Some(Command::Check(place)) => check_call(alloc, world, place),
        Some(Command::Run(place)) => run_call(alloc, world, place),
        Some(Command::Gen(wanted)) => gen_call(alloc, world, wanted.lines, wanted.place),
        None => report_line(world, b"usage\n", Status::Usage),
    }
}
