//! A text of bytes that grows in room made ready ahead, so that most appends ask for no memory.
#![tactic(auto)]

mod buffer;
mod digits;
mod place;
mod table;

pub use buffer::TextBuffer;
pub use place::WINDOW;
