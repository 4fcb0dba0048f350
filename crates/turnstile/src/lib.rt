//! Turns at a shared machine: passes of any number of threads call it, and there is one history of their calls.
#![tactic(auto)]

mod history;
mod machine;
mod passes;
mod rule;
mod steps;
mod waiting;

pub use history::{Call, Phase, View};
pub use machine::Machine;
pub use passes::{Pass, Turnstile};
