//! Aggregators that fold the numbers of each series: minmax and basicstats.
#![tactic(auto)]

mod give;
mod kind;
mod laws;
mod row;
mod series_map;
mod stats;
mod summary;

pub use kind::StatsKind;
pub use laws::calls_fold;
pub use stats::Stats;
