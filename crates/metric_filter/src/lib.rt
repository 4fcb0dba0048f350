//! Filters: which metrics pass, and which of their fields and tags are left.
#![tactic(auto)]

mod filter;
mod kept;
mod left;
mod rules;

pub use filter::Filter;
pub use kept::Kept;
pub use rules::FilterRules;
