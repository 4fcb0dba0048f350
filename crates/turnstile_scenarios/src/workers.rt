//! Workers that put the numbers of their sources on one shelf.
ghost use Rattle.std.specs.Prelude.{◌≡◌, ℕ, ◌<◌, ◌^◌, [], length, IfOk};
ghost use Rattle.turnstile_scenarios.specs.Ended.{HasEnded};
ghost use Rattle.turnstile_scenarios.specs.Gained.{GainedPuts};
ghost use Rattle.turnstile_scenarios.specs.Shelving.{shelf_allows, shelf_next};

use crate::jobs::{Work, work_at};
use crate::shelf::{Answer, Op, Shelf};
use fixed_num::OutOfMemory;
use std::alloc::Global;
use std::sync::Wait;
use std::thread::Threads;
use turnstile::{Pass, Turnstile};

/// Gives numbers until it has none left.
pub trait Source: Drop {
    fn next(&mut self) -> Option<u64>;
}

/// Puts the numbers of a source on the shelf, until it has none left or there is no room.
pub fn put_each<T: Wait, S: Source>(
    rt: &T,
    stile: &Turnstile<Shelf>,
    pass: &mut Pass<Shelf>,
    source: &mut S,
)
    requires { pass.old.table ≡ stile.now.table }
    ensures same_table { pass.new.table ≡ pass.old.table }
    ensures number { pass.new.view.number ≡ pass.old.view.number }
    ensures gained { GainedPuts pass.old.view pass.new.view }
{
    for _ in rt.forever() {
        let Some(n) = source.next() else {
            return;
        };
        let (answer, _) = stile.call(rt, pass, Op::Put(n));
        if let Answer::Put(Err(_)) = answer {
            return;
        }
    }
    unreachable!()
}

/// The work of a source: its numbers are put on the shelf.
#[derive(Drop)]
pub struct Putting<S: Source>(pub S);

impl<S: Source> Work<Shelf> for Putting<S> {
    fn run<T: Wait>(&mut self, rt: &T, stile: &Turnstile<Shelf>, pass: &mut Pass<Shelf>) {
        put_each(rt, stile, pass, &mut self.0);
    }
}

/// Lets passes of an empty shelf do these works, each in a thread of its own. The shelf is then as one legal history of
/// their calls leaves it. Where memory is short the works are let go, and the shelf.
pub fn work_at_shelf<T: Threads + Wait + Sync, W: Work<Shelf> + Send>(
    rt: &T,
    alloc: Global,
    works: Vec<W>,
) -> Result<(Shelf, Vec<W>), OutOfMemory>
    requires { length works.items < 2 ^ 32 }
    ensures { IfOk result (λ r. HasEnded shelf_allows shelf_next (record { items = []; taken = 0 }) r.0) }
{
    work_at(rt, alloc, Shelf::new(alloc), 1, works)
}
