//! All formats behind one call: what the next pieces of an input say and what is kept of it, and the text of a batch.
#![tactic(auto)]

mod metrics;
mod pieces;
mod reading;
mod refusal;
mod writing;

pub use metrics::Metrics;
pub use pieces::{InState, cut_of, read_group};
pub use reading::{Group, ReadRule};
pub use refusal::{Refusal, Refused, why_refused};
pub use writing::write_batch;
