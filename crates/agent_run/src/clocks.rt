//! Taking the clocks of a run.
ghost use Rattle.std.specs.Prelude.{◌≡◌, ◌≤◌, ◌+◌, ◌^◌, ℕ, [], length, IfOk, vec_len, vec_capacity, map};
ghost use Rattle.agent_config.specs.Sound.{IsSound};
ghost use Rattle.agent_run.specs.ClockLists.{AreTaken, HasClockRoom, HasInputClocks, OnlyClocks, clock_count};
ghost use Rattle.agent_run.specs.Headline.{run_clock};

use agent_base::World;
use agent_config::Config;
use agent_workers::Clocks;
use fixed_num::OutOfMemory;
use std::alloc::Global;

/// The number of the run's clock. Those of the processors and of the journal follow it, then those of the inputs,
/// then those of the outputs.
const RUN_CLOCK: u32 = 0;

const PROC_CLOCK: u32 = 1;

const JOURNAL_CLOCK: u32 = 2;

const FIRST_INPUT_CLOCK: u32 = 3;

/// How long a wait of a clock pauses that is neither the run's nor an output's: 10 milliseconds, in nanoseconds.
const PAUSE: i64 = 10_000_000;

/// Room for the clocks of the inputs and of the outputs.
#[derive(Drop)]
pub(crate) struct ClockRoom<C: Drop> {
    inputs: Vec<C>,
    outputs: Vec<C>,
}

/// Room for the clocks of a configuration.
pub(crate) fn clock_room<C: Drop>(
    alloc: Global,
    config: &Config,
) -> Result<ClockRoom<C>, OutOfMemory>
    ensures { IfOk result (HasClockRoom config.now) }
{
    Ok(ClockRoom {
        inputs: Vec::with_capacity(alloc, config.inputs.as_slice().len())?,
        outputs: Vec::with_capacity(alloc, config.outputs.as_slice().len())?,
    })
}

/// Takes so many clocks, with numbers from the first on, each at its first place; their waits pause so many
/// nanoseconds. It takes no memory: the list has room for them.
fn take_clocks<W: World>(
    world: &mut W,
    first: u32,
    count: u32,
    pause: i64,
    clocks: &mut Vec<W::Clk>,
)
    requires numbers { first + count ≤ 2 ^ 32 }
    requires none { clocks.old.items ≡ [] }
    requires room { count ≤ vec_capacity clocks.old }
    ensures taken { AreTaken first count
        (map W.Clk.told clocks.new.items) (W.view world.old).clocks
        (W.view world.new).clocks }
    ensures only { OnlyClocks (W.view world.old) (W.view world.new) }
{
    for k in 0..count {
        clocks.push_reserved(world.clock(first + k, pause));
    }
}

/// Takes the clocks of a configuration, each once. Waits of the run's clock and of those of outputs pause as long
/// as is between two flushes.
pub(crate) fn clocks_of<W: World>(
    world: &mut W,
    config: &Config,
    room: ClockRoom<W::Clk>,
) -> Clocks<W::Clk>
    requires sound { IsSound config.now }
    requires room { HasClockRoom config.now room }
    ensures timer_moments { (W.Clk.told result.timer).moments ≡ (W.view world.old).clocks run_clock }
    ensures timer_first { (W.Clk.told result.timer).next ≡ 0 }
    ensures inputs { HasInputClocks config.now (map W.Clk.told result.inputs.items)
        (W.view world.old).clocks }
    ensures outputs { vec_len result.outputs ≡ length config.now.outputs }
    ensures others { (who : ℕ) → clock_count config.now ≤ who → (W.view world.new).clocks who ≡ (W.view world.old).clocks who }
    ensures only { OnlyClocks (W.view world.old) (W.view world.new) }
{
    let ClockRoom {
        mut inputs,
        mut outputs,
    } = room;
    let interval = config.agent.flush_interval;
    let in_count = config.inputs.as_slice().len() as u32;
    let out_count = config.outputs.as_slice().len() as u32;
    let timer = world.clock(RUN_CLOCK, interval);
    let proc = world.clock(PROC_CLOCK, PAUSE);
    let journal = world.clock(JOURNAL_CLOCK, PAUSE);
    take_clocks(world, FIRST_INPUT_CLOCK, in_count, PAUSE, &mut inputs);
    take_clocks(
        world,
        FIRST_INPUT_CLOCK + in_count,
        out_count,
        interval,
        &mut outputs,
    );
    Clocks {
        timer,
        proc,
        journal,
        inputs,
        outputs,
    }
}
