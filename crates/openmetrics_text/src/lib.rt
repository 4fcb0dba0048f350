//! OpenMetrics 1.0: expositions are read, and batches are written as expositions.
#![tactic(auto)]

mod clean;
mod collected;
mod exposition;
mod families;
mod fault;
mod groups;
mod label_texts;
mod labels;
mod laws;
mod line;
mod names;
mod number;
mod read;
mod sample;
mod texts;
mod types;
mod write;

pub use exposition::Exposition;
pub use fault::{ExpositionFault, ExpositionKind};
pub use laws::{
    fault_says, in_range_is_same, passed_over, read_is_written, says_at_most, written_is_read,
    written_is_read_back,
};
pub use read::read_exposition;
pub use write::write_batch;
