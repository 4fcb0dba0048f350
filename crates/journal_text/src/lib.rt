//! The text of a journal: its head, its entries and its end.
#![tactic(auto)]

mod entry;
mod known;
mod laws;
mod metrics;
mod route;
mod setup;

pub use account::{AggLine, AggWord};
pub use entry::{named_by, write_end, write_entry, write_head, write_metric, write_reports};
pub use known::Known;
pub use laws::{equal_are_same, known_stays, text_grows};
pub use setup::{JournalSetup, write_setup};
