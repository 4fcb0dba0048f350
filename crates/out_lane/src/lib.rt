//! The views that wait at an output, and the batch in flight.
#![tactic(auto)]

mod lane;
mod laws;
mod moves;

pub use lane::Lane;
pub use laws::{
    law_accept, law_begin, law_calls, law_counts, law_fail, law_fates, law_new, law_order,
    law_push, positions_buffered,
};

/// Why no batch was begun.
#[derive(Clone, Copy, Debug, PartialEq, Eq)]
pub enum BeginAnswer {
    /// A batch is in flight.
    InFlight,
    /// No item waits.
    NothingWaiting,
}
