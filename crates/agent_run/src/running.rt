//! Running a configuration over a world.
ghost use Rattle.std.specs.Prelude.{◌≡◌, ◌≢◌, ◌⊎◌, All, IfErr, IfOk, OnErr, length, map};
ghost use Rattle.agent_base.specs.Carried.{Timed};
ghost use Rattle.agent_base.specs.Places.{AreHome};
ghost use Rattle.agent_base.specs.Views.{OnlyReport};
ghost use Rattle.agent_config.specs.Sound.{IsSound};
ghost use Rattle.agent_run.specs.Configured.{IsReadAt, IsUnrun, SaysRun};
ghost use Rattle.agent_run.specs.Headline.{Ends, NothingRose, report_change, world_change};
ghost use Rattle.agent_run.specs.PlaceLists.{AreHomeBut, PartsAreOut, out_places};
ghost use Rattle.agent_run.specs.Places.{AreOpensSame};
ghost use Rattle.agent_run.specs.Running.{left_with, IsOpenedSame, IsRefusedBy, OnlyNamed, OnlyWritten, ReportsEnd};
ghost use Rattle.agent_workers.specs.Opened.{carried_by, change_by, timed_by, AreFor};

use crate::checking::report_unread;
use crate::clocks::{clock_room, clocks_of};
use crate::lines::lines_of;
use crate::places::{Unopened, give_read, give_written, open_places};
use crate::reading::config_at;
use crate::reporting::{report_open_fault, say_all};
use crate::status::{Status, run_status};
use agent_base::{Clock, PutFault, Source, World};
use agent_config::Config;
use agent_workers::{Clocks, Ending, Opened, run};
use fixed_num::OutOfMemory;
use std::alloc::Global;

/// Reports the account, and says how the run ended.
fn report_account<W: World>(ending: &Ending, world: &mut W) -> Status
    ensures answer { ReportsEnd result ending.now (W.view world.old).report (W.view world.new).report }
    ensures only { OnlyReport (W.view world.old) (W.view world.new) }
{
    match world.report(&ending.account) {
        Ok(()) => run_status(ending, false),
        Err(PutFault::Failed) => run_status(ending, true),
        Err(PutFault::OutOfMemory) => Status::OutOfMemory,
    }
}

/// Reports the account, tells people what the run refused, dropped and left, and says how it ended.
fn end_run<W: World>(alloc: Global, config: &Config, ending: &Ending, world: &mut W) -> Status
    ensures answer { ReportsEnd result ending.now (W.view world.old).report (W.view world.new).report }
    ensures only { OnlyReport (W.view world.old) (W.view world.new) }
{
    let status = report_account(ending, world);
    let lines = lines_of(alloc, config, ending, status);
    say_all(alloc, world, lines.as_slice());
    status
}

/// The same of a run that came to its end, or for which memory was short.
fn end_ran<W: World>(
    alloc: Global,
    config: &Config,
    ran: Result<Ending, OutOfMemory>,
    world: &mut W,
) -> Status
    ensures answer { IfOk ran (λ ending. ReportsEnd result ending (W.view world.old).report (W.view world.new).report) }
    ensures short { OnErr ran (result ≡ Status.OutOfMemory) }
    ensures only { OnlyReport (W.view world.old) (W.view world.new) }
{
    match ran {
        Ok(ending) => end_run(alloc, config, &ending, world),
        Err(_) => Status::OutOfMemory,
    }
}

/// Runs a configuration over its opened parts, gives those back that are written, reports the account, and tells
/// people of it. The sources are handed back.
pub(crate) fn run_opened<W: World, S: Source + Drop, C: Clock + Drop>(
    alloc: Global,
    config: &Config,
    opened: Opened<S, W::Out>,
    clocks: Clocks<C>,
    world: &mut W,
) -> (Vec<S>, Status)
    requires sound { IsSound config.now }
    requires parts { AreFor config.now opened clocks }
    requires first { All (λ (clock : Timed). clock.next ≡ 0) (map C.told clocks.inputs.items) }
    requires timer_first { (C.told clocks.timer).next ≡ 0 }
    requires out { PartsAreOut (out_places config.now) (W.view world.old).outs }
    ensures ends { Ends config.now (record {
      run = change_by config.now (carried_by S.told W.Out.told opened)
          (left_with config.now (map S.told result.0.items) (W.view world.new)) (timed_by C.told clocks);
      report = report_change (W.view world.old).report (W.view world.new).report;
    }) result.1 }
    ensures count { length result.0.items ≡ length opened.inputs.items }
    ensures only { OnlyWritten config.now (W.view world.old) (W.view world.new) }
    ensures opened { AreOpensSame (W.view world.old).outs (W.view world.new).outs }
    ensures home { AreHomeBut (out_places config.now) (W.view world.old).outs → AreHome (W.view world.new).outs }
{
    let (left, ran) = run(alloc, config, opened, clocks);
    let Opened {
        inputs,
        outputs,
        journal,
    } = left;
    give_written(world, config, outputs, journal);
    (inputs, end_ran(alloc, config, ran, world))
}

/// Runs a configuration: opens its places, takes its clocks, and runs it over them. Where a place isn't opened it
/// is named in the report, and nothing is run. All parts are given back.
pub(crate) fn run_config<W: World>(alloc: Global, config: &Config, world: &mut W) -> Status
    requires sound { IsSound config.now }
    requires ins { AreHome (W.view world.old).ins }
    requires outs { AreHome (W.view world.old).outs }
    ensures open { result ≡ Status.OpenFault → IsRefusedBy config.now (W.view world.old) (W.view world.new) }
    ensures ends { (result ≢ Status.OpenFault)
        → Ends config.now (world_change config.now (W.view world.old) (W.view world.new)) result }
    ensures only { OnlyNamed config.now (W.view world.old) (W.view world.new) }
    ensures opened { (result ≢ Status.OpenFault) → (result ≢ Status.OutOfMemory)
        → IsOpenedSame (W.view world.old) (W.view world.new) }
    ensures ins_home { AreHome (W.view world.new).ins }
    ensures outs_home { AreHome (W.view world.new).outs }
{
    let Ok(room) = clock_room(alloc, config) else {
        return Status::OutOfMemory;
    };
    match open_places(alloc, world, config) {
        Ok(opened) => {
            let clocks = clocks_of(world, config, room);
            let (inputs, status) = run_opened(alloc, config, opened, clocks, world);
            give_read(world, config, inputs);
            status
        }
        Err(Unopened::Failed(place)) => report_open_fault(alloc, world, place),
        Err(Unopened::OutOfMemory) => Status::OutOfMemory,
    }
}

/// Reads the configuration at a place that is to be run, and gives its part back. Where it isn't read the report says why,
/// as it does of a check, and the status is that of the check.
pub(crate) fn config_to_run<W: World>(
    alloc: Global,
    world: &mut W,
    place: &str,
) -> Result<Config, Status>
    requires ins { AreHome (W.view world.old).ins }
    requires outs { AreHome (W.view world.old).outs }
    ensures read { IfOk result (λ config. IsReadAt place.now config (W.view world.old) (W.view world.new)) }
    ensures sound { IfOk result IsSound }
    ensures unrun { IfErr result (λ status. IsUnrun status place.now (W.view world.old) (W.view world.new)) }
    ensures ins_home { AreHome (W.view world.new).ins }
    ensures outs_home { AreHome (W.view world.new).outs }
{
    match config_at(alloc, world, place) {
        Ok(config) => Ok(config),
        Err(unread) => Err(report_unread(alloc, world, place, unread)),
    }
}

/// Runs the configuration at a place: reads it, gives its part back, and runs it. Where it isn't read the report
/// says why, as it does of a check.
pub(crate) fn run_call<W: World>(alloc: Global, world: &mut W, place: &str) -> Status
    requires ins { AreHome (W.view world.old).ins }
    requires outs { AreHome (W.view world.old).outs }
    ensures ran { SaysRun result place.now (W.view world.old) (W.view world.new) }
    ensures complete { NothingRose (W.view world.old) (W.view world.new) → (result ≢ Status.Limit)
        → (result ≢ Status.Config) → (result ≡ Status.Done) ⊎ (result ≡ Status.OutOfMemory) }
    ensures ins_home { AreHome (W.view world.new).ins }
    ensures outs_home { AreHome (W.view world.new).outs }
{
    match config_to_run(alloc, world, place) {
        Ok(config) => run_config(alloc, &config, world),
        Err(status) => status,
    }
}
