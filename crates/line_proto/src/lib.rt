//! InfluxDB line protocol: readings of lines, and the lines of metrics.
#![tactic(auto)]

mod fault;
mod laws;
mod read;
mod read_items;
mod read_parts;
mod read_value;
mod write;

pub use fault::{LineFault, LineKind};
pub use laws::{
    fault_is_within, fault_says, metric_is_one_line, metric_is_read_back, read_is_plain,
    read_is_written, says_at_most, untimed_is_read_back, written_is_read,
};
pub use read::read_line;
pub use write::{write_line, write_untimed};
