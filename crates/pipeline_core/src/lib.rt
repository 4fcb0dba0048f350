//! The state machine that decides what becomes of every metric.
#![tactic(auto)]

mod batches;
mod gathering;
mod laws;
mod marked;
mod output;
mod room;
mod routing;
mod settling;
mod setup;
mod state;
mod told;
mod unrouted;
mod windows;

pub use batches::{Batch, BeginAnswer};
pub use gathering::{GatherRefused, Gathered, Item, TakeAnswer};
pub use laws::{
    entries_have_shape, fates_add_up, groups_counted, nothing_aggregates, removed_has_no_whole,
    reported_once, settled_stays, untracked_has_no_groups,
};
pub use output::Offer;
pub use routing::Routed;
pub use setup::{CoreSetup, InSetup, OutSetup};
pub use state::{Core, CutAnswer};
