//! Passes that add to one sum in threads, and look at it.
ghost use Rattle.std.specs.Prelude.{◌≡◌, ℕ, ◌+◌, ◌<◌, ◌≤◌, ◌^◌, length, IfOk};
ghost use Rattle.turnstile_scenarios.specs.Ended.{HasEnded};
ghost use Rattle.turnstile_scenarios.specs.Adding.{is_added, added};

use crate::jobs::{Work, work_at};
use crate::sum::{Addend, Sum};
use fixed_num::OutOfMemory;
use std::alloc::Global;
use std::sync::Wait;
use std::thread;
use std::thread::Threads;
use turnstile::{Pass, Turnstile};

/// Adds a number so many times.
fn add<R: Wait>(
    rt: &R,
    stile: &Turnstile<Sum>,
    mut pass: Pass<Sum>,
    n: u64,
    times: u32,
) -> Pass<Sum>
    requires { pass.table ≡ stile.now.table }
    ensures { (result.table ≡ pass.table) × (result.view.number ≡ pass.view.number) }
{
    for _ in 0..times {
        stile.call(rt, &mut pass, Addend::Number(n));
    }
    pass
}

/// Two passes add 1 and 2 to a sum, each so many times, in two threads. Answers what the first pass glanced at before
/// it joined them, and the sum at the end; none where memory is short.
pub fn add_in_two<R: Threads + Wait + Sync>(
    rt: &R,
    alloc: Global,
    times: u32,
) -> Option<(u64, u64)> {
    let Ok((stile, mut first)) = Turnstile::new(alloc, Sum { total: 0 }, 1) else {
        return None;
    };
    let one = stile.split(&mut first);
    let two = stile.split(&mut first);
    let lent = &stile;
    let (one, two) = thread::join(
        rt,
        move || -> Pass<Sum>
            requires { one.table ≡ lent.now.table }
            ensures { (result.table ≡ one.table) × (result.view.number ≡ one.view.number) }
        { add(rt, lent, one, 1, times) },
        move || -> Pass<Sum>
            requires { two.table ≡ lent.now.table }
            ensures { (result.table ≡ two.table) × (result.view.number ≡ two.view.number) }
        { add(rt, lent, two, 2, times) },
    );
    let glanced = stile.glance(&mut first, 0);
    stile.join(&mut first, one);
    stile.join(&mut first, two);
    Some((glanced, stile.close(first).total))
}

/// Glances at the sum so many times, and answers it as it was last; none where it fell.
fn watch(stile: &Turnstile<Sum>, mut pass: Pass<Sum>, times: u32) -> (Pass<Sum>, Option<u64>)
    requires same_table { pass.table ≡ stile.now.table }
    requires dials { 1 ≤ stile.now.dials }
    ensures { (result.0.table ≡ pass.table) × (result.0.view.number ≡ pass.view.number) }
{
    let mut last = 0;
    let mut fell = false;
    for _ in 0..times {
        let sum = stile.glance(&mut pass, 0);
        fell = fell || sum < last;
        last = sum;
    }
    (pass, if fell { None } else { Some(last) })
}

/// A pass adds 1 to a sum so many times, and another one, in a thread of its own, glances at it as often. Answers the
/// sum as it was glanced at last, none where it fell, and the sum at the end; none where memory is short.
pub fn add_while_watched<R: Threads + Wait + Sync>(
    rt: &R,
    alloc: Global,
    times: u32,
) -> Option<(Option<u64>, u64)> {
    let Ok((stile, mut first)) = Turnstile::new(alloc, Sum { total: 0 }, 1) else {
        return None;
    };
    let one = stile.split(&mut first);
    let two = stile.split(&mut first);
    let lent = &stile;
    let (one, (two, last)) = thread::join(
        rt,
        move || -> Pass<Sum>
            requires { one.table ≡ lent.now.table }
            ensures { (result.table ≡ one.table) × (result.view.number ≡ one.view.number) }
        { add(rt, lent, one, 1, times) },
        move || -> (Pass<Sum>, Option<u64>)
            requires { (two.table ≡ lent.now.table) × (1 ≤ lent.now.dials) }
            ensures { (result.0.table ≡ two.table) × (result.0.view.number ≡ two.view.number) }
        { watch(lent, two, times) },
    );
    stile.join(&mut first, one);
    stile.join(&mut first, two);
    Some((last, stile.close(first).total))
}

/// Adds a number so many times.
#[derive(Drop)]
pub struct Adder {
    pub n: u64,
    pub times: u32,
}

impl Work<Sum> for Adder {
    fn run<T: Wait>(&mut self, rt: &T, stile: &Turnstile<Sum>, pass: &mut Pass<Sum>) {
        for _ in 0..self.times {
            stile.call(rt, pass, Addend::Number(self.n));
        }
    }
}

/// Adds 1 so many times, and keeps the numbers of its calls.
#[derive(Drop)]
pub struct Counter {
    pub times: u32,
    pub numbers: Vec<u64>,
}

impl Work<Sum> for Counter {
    fn run<T: Wait>(&mut self, rt: &T, stile: &Turnstile<Sum>, pass: &mut Pass<Sum>) {
        for _ in 0..self.times {
            let (_, number) = stile.call(rt, pass, Addend::Number(1));
            if self.numbers.push(number).is_err() {
                break;
            }
        }
    }
}

/// Lets passes of a sum that begins at 0, with so many dials, do these works, each in a thread of its own. The sum is
/// then as one legal history of their calls leaves it. Where memory is short the works are let go.
pub fn work_at_sum<T: Threads + Wait + Sync, W: Work<Sum> + Send>(
    rt: &T,
    alloc: Global,
    dials: u32,
    works: Vec<W>,
) -> Result<(Sum, Vec<W>), OutOfMemory>
    requires { length works.items < 2 ^ 32 }
    ensures { IfOk result (λ r. HasEnded is_added added (record { total = 0 }) r.0) }
{
    work_at(rt, alloc, Sum { total: 0 }, dials, works)
}
