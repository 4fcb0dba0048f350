//! Graphite's plaintext lines: read with templates, and written as paths.
#![tactic(auto)]

mod applied;
mod collected;
mod fault;
mod laws;
mod line;
mod path;
mod read;
mod write;

pub use fault::{GraphiteFault, GraphiteKind};
pub use laws::{
    fault_is_within, fault_says, read_is_written, says_at_most, written_is_read,
    written_is_read_back,
};
pub use read::read_line;
pub use write::write_metric;
