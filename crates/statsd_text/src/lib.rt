//! StatsD lines: readings of lines, a metric for each part.
#![tactic(auto)]

mod fault;
mod laws;
mod metrics;
mod read;
mod said;
mod sections;
mod tags;

pub use fault::{StatsdFault, StatsdKind};
pub use laws::{fault_is_within, fault_says, read_is_written, says_at_most, written_is_read};
pub use metrics::part_tags;
pub use read::{LineSaid, read_line, read_said};
pub use said::{FieldName, MetricType, Said};
