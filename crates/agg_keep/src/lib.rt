//! Aggregators that keep metrics: merge and final.
#![tactic(auto)]

mod closing;
mod due;
mod fields;
mod final_map;
mod finals;
mod keyed;
mod laws;
mod merge;
mod merge_map;
mod spot;

pub use closing::Closing;
pub use finals::Final;
pub use laws::{calls_final, calls_merge};
pub use merge::Merge;
