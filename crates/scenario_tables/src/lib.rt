//! Tables of rows that a person reads as examples, and the tally of how many of them held.
//!
//! A table is a text file. Its lines up to the first row are for people: what the table shows, and where what is
//! wanted comes from. `=== NAME` begins a row. `--- KEY VALUE` begins a part of it, whose text are the lines up to
//! the next mark; lines before a row's first part are the text of a part without a key. An empty line before a row's
//! mark is no part of a text. Nothing is escaped, unless the line of the part ends in the word `escaped`: then its
//! text has `\xHH`, `\n`, `\r`, `\t` and `\\`.
#![tactic(auto)]

mod table;
mod tally;

pub use table::{Part, Piece, Row, Table};
pub use tally::Tally;
