//! Processors in order: the steps of a configuration, and what they make of the metrics that are pushed.
#![tactic(auto)]

mod chain;
mod laws;
mod rewriter;
mod stage;
mod step;

pub use chain::Chain;
pub use laws::{passed_in_turn, results_stay, without_steps};
pub use step::{Step, StepWork};
