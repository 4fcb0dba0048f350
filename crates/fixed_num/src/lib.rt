//! Numbers in values, and the lists that values hold.
#![tactic(auto)]

mod fixed;
mod grammar;
mod half_even;
mod laws;
mod memory;
mod plain;
mod quotient;
mod seq;
mod text;
mod value;
mod whole;

pub use fixed::{Fixed, NumFault};
pub use laws::{
    reads_canonical, reads_ints, reads_spelled, reads_uints, rounds_to_nearest, spelled_is_read,
};
pub use memory::OutOfMemory;
pub use seq::Seq;
pub use whole::{read_int, read_uint};

/// A moment: nanoseconds since the first of January 1970, UTC.
pub type Moment = i64;
