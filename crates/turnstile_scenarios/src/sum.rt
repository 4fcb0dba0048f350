//! A sum as a machine.
ghost use Rattle.std.specs.Prelude.{◌≡◌, ℕ, ◌+◌, ◌-◌, ◌^◌, ◌≤◌, min};

use std::io::{Read, Stdin};
use turnstile::Machine;

/// What is added to a sum.
#[derive(Drop)]
pub enum Addend {
    /// A number.
    Number(u64),
    /// How many bytes standard input has to its end, or until a read fails. The call that adds them lasts as long.
    BytesOf(Stdin),
}

/// A sum. An operation adds to it, and it is held at 2^64 - 1; the answer is the sum, which is dial 0.
#[derive(Drop)]
pub struct Sum {
    pub total: u64,
}

/// Reads to the end, or until a read fails, and answers how many bytes there were.
fn bytes_of(mut input: Stdin) -> u64 {
    let mut buffer = [0; 4096];
    let mut count = 0u64;
    for _ in 0..u64::MAX {
        match input.read(&mut buffer) {
            Ok(0) | Err(_) => break,
            Ok(read) => count = count.saturating_add(read as u64),
        }
    }
    count
}

impl Sum {
    /// Adds a number, and answers the sum.
    fn add(&mut self, n: u64) -> u64
        ensures rises { self.old.total ≤ result }
        ensures sum { result ≡ min (self.old.total + n) (2 ^ 64 - 1) }
        ensures after { self.new ≡ record { total = result } }
    {
        self.total = self.total.saturating_add(n);
        self.total
    }
}

impl Machine for Sum {
    ghost use Rattle.turnstile_scenarios.specs.Adding.{is_added, added, sum_dial, sum_dial-added};

    type Op = Addend;

    type Answer = u64;

    ghost allows = { is_added };

    ghost next = { added };

    ghost dial_of = { sum_dial };

    ghost dials_rise = { sum_dial-added };

    fn apply(&mut self, addend: Addend) -> u64 {
        match addend {
            Addend::Number(n) => self.add(n),
            Addend::BytesOf(input) => self.add(bytes_of(input)),
        }
    }

    fn dial(&self, n: u32) -> u64 {
        if n == 0 { self.total } else { 0 }
    }
}
