//! The events of a run, and what is counted of them.
#![tactic(auto)]

mod account;
mod entry;
mod laws;
mod numbers;
mod setup;
mod text;

pub use account::Account;
pub use entry::{Entry, Report, Verdict};
pub use laws::{moves_keep_the_sum, origins_match};
pub use numbers::{InputNumbers, OutputNumbers};
pub use setup::{AggLine, AggWord};
