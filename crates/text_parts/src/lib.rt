//! What readers and writers of text formats share: parts that end before given bytes, with escapes, parts
//! between separators, words between spaces, the chain of first faults and its answer, and writing by appending.
#![tactic(auto)]

mod append;
mod error;
mod escapes;
mod laws;
mod part;
mod reading;
mod span;
mod split;
mod stops;
mod words;

pub use append::{
    append_bytes, append_int, append_line, append_numbers, append_signed, append_uint,
    append_unsigned, append_words, settle,
};
pub use error::ReadError;
pub use escapes::{Marks, append_escaped, append_escaped_byte};
pub use laws::{
    escaped_is_part, part_is_read, parts_are_split, read_is_part, text_is_cut, words_are_spaced,
};
pub use part::{Part, part_len, part_text, plain_bytes};
pub use reading::{answer, utf8_text};
pub use span::{Span, span_at, span_text};
pub use split::{Placed, Separated, first_part};
pub use stops::first_of;
pub use words::Words;
