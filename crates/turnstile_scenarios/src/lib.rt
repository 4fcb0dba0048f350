//! Machines, and passes that call them in threads of their own.
#![tactic(auto)]

mod adders;
mod jobs;
mod shelf;
mod sum;
#[cfg(test)]
mod tests;
mod workers;

pub use adders::{Adder, Counter, add_in_two, add_while_watched, work_at_sum};
pub use jobs::{Job, Work, done, join_each, split_each, work_at};
pub use shelf::{Answer, Op, Shelf};
pub use sum::{Addend, Sum};
pub use workers::{Putting, Source, put_each, work_at_shelf};
