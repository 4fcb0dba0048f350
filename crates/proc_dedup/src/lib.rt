//! A processor that removes metrics which repeat what was said before.
#![tactic(auto)]

mod dedup;
mod map;
mod sight;

pub use dedup::Dedup;
pub use sight::{Fresh, Sight};
