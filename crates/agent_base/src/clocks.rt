//! Clocks in memory, by their numbers.
ghost use Rattle.std.specs.Prelude.{◌≡◌, OnOk, OnErr, Some, None};
ghost use Rattle.std.specs.List.{position};
ghost use Rattle.agent_base.specs.Clocks.{clock_at, is_of, IsClockOf};
ghost use Rattle.agent_base.specs.Places.{SameBut};

use crate::MemClock;
use crate::fresh::FreshClock;
use fixed_num::OutOfMemory;
use std::alloc::Global;
use std::mem;

// The index of the clock with a number.
fn find(clocks: &[(u32, FreshClock)], who: u32) -> Option<usize>
    ensures { result ≡ position (is_of who) clocks.now }
{
    clocks.iter().position(|clock| clock.0 == who)
}

// The clock of an empty list.
fn empty(alloc: Global) -> FreshClock
    ensures { IsClockOf None result.clock }
{
    FreshClock::new(MemClock::new(alloc, Vec::new(alloc)))
}

// Takes the clock with a number out; where there is none it is that of an empty list.
pub(crate) fn take(clocks: &mut Vec<(u32, FreshClock)>, alloc: Global, who: u32) -> FreshClock
    ensures is { IsClockOf (clock_at clocks.old.items who) result.clock }
    ensures others { SameBut who (clock_at clocks.old.items) (clock_at clocks.new.items) }
{
    match find(clocks, who) {
        Some(at) => mem::replace(&mut clocks[at].1, empty(alloc)),
        None => empty(alloc),
    }
}

// Puts a clock at a number, in place of the one that was there.
pub(crate) fn put(
    clocks: &mut Vec<(u32, FreshClock)>,
    who: u32,
    clock: FreshClock,
) -> Result<(), OutOfMemory>
    ensures kept { OnOk result (clock_at clocks.new.items who ≡ Some clock.clock) }
    ensures others { SameBut who (clock_at clocks.old.items) (clock_at clocks.new.items) }
    ensures refused { OnErr result (clocks.new.items ≡ clocks.old.items) }
{
    match find(clocks, who) {
        Some(at) => {
            clocks[at].1 = clock;
            Ok(())
        }
        None => push(clocks, who, clock),
    }
}

// Adds a clock with a number that has none.
fn push(clocks: &mut Vec<(u32, FreshClock)>, who: u32, clock: FreshClock) -> Result<(), OutOfMemory>
    requires { position (is_of who) clocks.old.items ≡ None }
    ensures kept { OnOk result (clock_at clocks.new.items who ≡ Some clock.clock) }
    ensures others { SameBut who (clock_at clocks.old.items) (clock_at clocks.new.items) }
    ensures refused { OnErr result (clocks.new.items ≡ clocks.old.items) }
{
    clocks.push((who, clock))?;
    Ok(())
}
