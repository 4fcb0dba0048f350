//! Groups of gathered metrics: of each, how many copies of its metrics still wait, and whether one was dropped.
#![tactic(auto)]

mod group;
mod laws;
mod reports;
mod tracker;

pub use group::GroupRef;
pub use laws::{law_copies, law_gone, law_told};
pub use tracker::Tracker;
