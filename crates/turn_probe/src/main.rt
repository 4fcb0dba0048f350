//! Shows how passes take turns. `turn_probe PASSES CALLS DIALS` lets so many passes, each in a thread of its own, make so
//! many calls each, which add 1 to a sum, and prints the sum. `turn_probe silent` lets one pass add how many bytes
//! standard input has to its end, in a call, while another one waits for the turn to add 1, and prints the sum behind
//! each. The status is 2 where the words are others, and 1 where memory was wanting or nothing can be printed.
#![tactic(auto)]

ghost use Rattle.std.specs.Prelude.{◌≡◌, ℕ, ◌<◌, ◌^◌, vec_len, length};

use std::alloc::Global;
use std::io::{Error, ErrorKind, Stdin};
use std::process::ExitCode;
use std::sync::Wait;
use std::thread::Threads;
use std::time::{Clock, Duration};
use std::{env, thread};
use turnstile::{Pass, Turnstile};
use turnstile_scenarios::{Addend, Adder, Sum, Work, work_at_sum};

/// The pass that waits calls so many milliseconds after the other one.
const LATER: u64 = 100;

/// So many passes add 1 to a sum, so many times each. Answers the sum; none where memory is wanting.
fn sum_of<R: Threads + Wait + Sync>(
    rt: &R,
    alloc: Global,
    passes: u32,
    calls: u32,
    dials: u32,
) -> Option<u64> {
    let mut works = Vec::new(alloc);
    for _made in 0..passes {
        works.push(Adder { n: 1, times: calls }).ok()?;
    }
    let (sum, _) = work_at_sum(rt, alloc, dials, works).ok()?;
    Some(sum.total)
}

/// Adds to the sum once, after a while, and keeps the sum.
#[derive(Drop)]
struct AddOnce<'a, R: Clock> {
    rt: &'a R,
    after: Duration,
    addend: Option<Addend>,
    sum: u64,
}

impl<'a, R: Clock> AddOnce<'a, R> {
    /// It adds after so many milliseconds.
    fn after(rt: &'a R, millis: u64, addend: Addend) -> AddOnce<'a, R> {
        AddOnce {
            rt,
            after: Duration::from_millis(millis),
            addend: Some(addend),
            sum: 0,
        }
    }
}

impl<'a, R: Clock> Work<Sum> for AddOnce<'a, R> {
    fn run<T: Wait>(&mut self, rt: &T, stile: &Turnstile<Sum>, pass: &mut Pass<Sum>) {
        let Some(addend) = self.addend.take() else {
            return;
        };
        thread::sleep(self.rt, self.after);
        let (sum, _) = stile.call(rt, pass, addend);
        self.sum = sum;
    }
}

/// One pass adds how many bytes all of standard input has, in a call, and another one waits meanwhile to add 1. Answers
/// the sum behind each; none where memory is wanting.
fn read_while_one_waits<R: Threads + Wait + Clock + Sync>(
    rt: &R,
    alloc: Global,
    input: Stdin,
) -> Option<(u64, u64)> {
    let mut works = Vec::new(alloc);
    works
        .push(AddOnce::after(rt, 0, Addend::BytesOf(input)))
        .ok()?;
    works
        .push(AddOnce::after(rt, LATER, Addend::Number(1)))
        .ok()?;
    let (_, works) = work_at_sum(rt, alloc, 0, works).ok()?;
    match works.as_slice() {
        [read, more] => Some((read.sum, more.sum)),
        _ => None,
    }
}

/// A word as a number.
fn number_of(word: &str) -> Option<u32> {
    word.parse().ok()
}

/// What is printed for these words; the status where there is nothing to print.
fn line_of<R: Threads + Wait + Clock + Sync>(
    rt: &R,
    alloc: Global,
    input: Stdin,
    words: &[String],
) -> Result<String, u8> {
    let line = match words {
        [word] if word.as_str() == "silent" => {
            let (read, more) = read_while_one_waits(rt, alloc, input).ok_or(1)?;
            format!(in alloc; "{read} {more}")
        }
        [passes, calls, dials] => {
            let passes = number_of(passes.as_str()).ok_or(2)?;
            let calls = number_of(calls.as_str()).ok_or(2)?;
            let dials = number_of(dials.as_str()).ok_or(2)?;
            let sum = sum_of(rt, alloc, passes, calls, dials).ok_or(1)?;
            format!(in alloc; "{sum}")
        }
        _ => return Err(2),
    };
    line.map_err(|_| 1)
}

/// The status where the words of the command can't be read.
fn unread(fault: Error) -> ExitCode {
    match fault.kind() {
        ErrorKind::OutOfMemory => ExitCode::from(1),
        _ => ExitCode::from(2),
    }
}

fn main(rt: HostRuntime) -> ExitCode {
    let words = match env::args(&rt) {
        Ok(words) => words.skip(1).collect::<Vec<String>>(rt.alloc()),
        Err(fault) => return unread(fault),
    };
    let line = match &words {
        Ok(words) => line_of(&rt, rt.alloc(), rt.stdin(), words.as_slice()),
        Err(_) => Err(1),
    };
    let printed = match &line {
        Ok(line) => println!(rt; "{line}").map_err(|_| 1),
        Err(status) => Err(*status),
    };
    ExitCode::from(printed.err().unwrap_or(0))
}
