//! Journals, read back and written.
#![tactic(auto)]

mod account_lines;
mod entry;
mod fault;
mod laws;
mod metrics;
mod parts;
mod read;
mod setup;
mod state;
mod steps;
mod tags;
mod views;
mod words;
mod write;

pub use fault::{JournalFault, JournalKind};
pub use journal_text::JournalSetup;
pub use laws::{
    fault_is_within, faults_are_final, faults_stay, fronts_are_torn, read_is_written, torn_goes_on,
    written_is_read,
};
pub use read::{Journal, read_journal};
pub use write::write_journal;
