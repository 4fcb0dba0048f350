//! A bank of aggregators: it takes what is theirs of each item, folds it in windows of time, and gives what the windows
//! make as they close.
#![tactic(auto)]

mod aggregator;
mod bank;
mod fold;
mod laws;
mod window;

pub use bank::Bank;
pub use laws::calls_bank;
