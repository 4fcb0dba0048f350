//! A shelf of numbers as a machine.
ghost use Rattle.std.specs.Prelude.{◌≡◌, ℕ, ◌≤◌, []};

use fixed_num::OutOfMemory;
use std::alloc::Global;
use std::marker::Model;
use turnstile::Machine;

/// What is done at a shelf.
#[derive(Drop)]
pub enum Op {
    /// Puts a number on it.
    Put(u64),
    /// Takes the number that was put last.
    Take,
}

/// What a shelf answers.
#[derive(Drop)]
pub enum Answer {
    /// Whether there was room for the number.
    Put(Result<(), OutOfMemory>),
    /// The number, where one was there.
    Take(Option<u64>),
    /// No more can be taken.
    Full,
}

/// A shelf of numbers. Dial 0 is how many were taken.
#[derive(Drop)]
pub struct Shelf {
    items: Vec<u64>,
    taken: u64,
}

impl Model for Shelf {
    ghost use Rattle.turnstile_scenarios.specs.Stock.{Stock};

    ghost Value = { Stock };

    ghost view = { λ s. record { items = s.items.items; taken = s.taken } };
}

impl Shelf {
    /// An empty shelf.
    pub fn new(alloc: Global) -> Shelf
        ensures { (result.items ≡ []) × (result.taken ≡ 0) }
    {
        Shelf {
            items: Vec::new(alloc),
            taken: 0,
        }
    }

    /// The numbers on it.
    pub fn into_items(self) -> Vec<u64>
        ensures { result.items ≡ self.items }
    {
        let Shelf { items, taken: _ } = self;
        items
    }
}

impl Machine for Shelf {
    ghost use Rattle.turnstile_scenarios.specs.Shelving.{shelf_allows, shelf_next, shelf_dial, shelf_dial-next};

    type Op = Op;

    type Answer = Answer;

    ghost allows = { shelf_allows };

    ghost next = { shelf_next };

    ghost dial_of = { shelf_dial };

    ghost dials_rise = { shelf_dial-next };

    fn apply(&mut self, op: Op) -> Answer {
        match op {
            Op::Put(n) => match self.items.push(n) {
                Ok(()) => Answer::Put(Ok(())),
                Err(_) => Answer::Put(Err(OutOfMemory)),
            },
            Op::Take => {
                if self.taken == u64::MAX {
                    return Answer::Full;
                }
                match self.items.pop() {
                    Some(n) => {
                        self.taken += 1;
                        Answer::Take(Some(n))
                    }
                    None => Answer::Take(None),
                }
            }
        }
    }

    fn dial(&self, n: u32) -> u64 {
        if n == 0 { self.taken } else { 0 }
    }
}
