//! Runs a command over a world: a configuration of inputs and outputs, with a journal of every event.
#![tactic(auto)]

mod checking;
mod clocks;
mod command;
mod fault_words;
mod faults;
mod generated;
mod generating;
mod lines;
mod pipe;
mod places;
mod reading;
mod reporting;
mod running;
mod shown;
mod status;
mod telegraf;
mod ticking;
mod top;

pub use shown::Shown;
pub use status::Status;
pub use top::agent;
