//! A whole run.
ghost use Rattle.std.specs.Prelude.{◌≡◌, length, map};
ghost use Rattle.std.specs.Prelude.{All, IfOk};
ghost use Rattle.agent_base.specs.Carried.{Timed};
ghost use Rattle.agent_config.specs.Sound.{IsSound};
ghost use Rattle.agent_workers.specs.Job.{job_of};
ghost use Rattle.agent_workers.specs.Opened.{carried_by, change_by, timed_by, AreFor};
ghost use Rattle.agent_workers.specs.Run.{Ran};

use crate::parts::{Clocks, Opened, Parts, set_up};
use crate::rounds::{Ending, finish};
use agent_base::{Clock, Sink, Source};
use agent_config::Config;
use fixed_num::OutOfMemory;
use pipeline_core::Core;
use std::alloc::Global;

/// Runs a configuration over its opened parts, from the start to the end, and gives the parts back. The start is
/// the first moment of the timer, the stop a later one; the inputs have clocks of their own, which give the
/// moments of their gathers.
///
/// It always returns. Nothing is promised where memory ran out, but that each list has as many parts as it had.
pub fn run<S: Source + Drop, K: Sink + Drop, C: Clock + Drop>(
    alloc: Global,
    config: &Config,
    opened: Opened<S, K>,
    mut clocks: Clocks<C>,
) -> (Opened<S, K>, Result<Ending, OutOfMemory>)
    requires sound { IsSound config.now }
    requires parts { AreFor config.now opened clocks }
    requires first { All (λ (clock : Timed). clock.next ≡ 0) (map C.told clocks.inputs.items) }
    requires timer_first { (C.told clocks.timer).next ≡ 0 }
    ensures ran { IfOk result.1 (λ ending. Ran (job_of config.now) ending
        (change_by config.now (carried_by S.told K.told opened) (carried_by S.told K.told result.0)
        (timed_by C.told clocks))) }
    ensures in_count { length result.0.inputs.items ≡ length opened.inputs.items }
    ensures count { length result.0.outputs.items ≡ length opened.outputs.items }
{
    let start = clocks.timer.now();
    let (mut core, mut parts) = match set_up(alloc, config, start, opened, clocks) {
        Ok(made) => made,
        Err(opened) => return (opened, Err(OutOfMemory)),
    };
    let ending = finish(alloc, &mut core, &mut parts);
    (parts.take_apart(), ending)
}
