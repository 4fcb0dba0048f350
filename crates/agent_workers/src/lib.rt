//! One serial run: what an input gives is gathered, routed and sent to any number of outputs, with a journal
//! of every event.
#![tactic(auto)]

mod ends;
mod input;
mod item;
mod journal;
mod output;
mod parts;
mod rounds;
mod serial;
mod setup;

pub use ends::{InputEnd, Limit, PieceNotes};
pub use input::InJob;
pub use item::ProcJob;
pub use journal::JournalJob;
pub use output::OutJob;
pub use parts::{Clocks, Opened, Parts, set_up};
pub use rounds::{Ending, finish};
pub use serial::run;
