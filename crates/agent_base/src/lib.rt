//! The outside of the agent: what is read, written and waited for, and the lines that are read.
#![tactic(auto)]

mod buffer;
mod clocks;
mod either;
mod fresh;
mod laws;
mod mem_world;
mod memory;
mod outside;
mod piece;
mod pieces;
mod slots;
mod standard;
mod world;

pub use either::Either;
pub use laws::{clocked_joins, counted_joins};
pub use mem_world::MemWorld;
pub use memory::{MemClock, MemSink, MemSource};
pub use outside::{Clock, Failed, PutFault, ReadRefused, Sink, Source};
pub use piece::{CutKind, Piece, PieceFault};
pub use pieces::{Pieces, cuts_expositions, cuts_lines, has_expositions};
pub use slots::Slots;
pub use standard::{StdSink, StdSource};
pub use world::{OpenFault, World};
