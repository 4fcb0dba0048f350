//! What an exposition says.
use fixed_num::Seq;
use metric::Metric;

/// What an exposition says.
#[derive(Debug, Drop)]
pub struct Exposition {
    /// A metric for each sample whose number is a decimal and isn't passed over, in order.
    pub metrics: Seq<Metric>,
    /// How many samples are passed over: those whose number is no decimal, and those that are out of range; the
    /// count stands still at 2^32 - 1.
    pub passed: u32,
    /// How many of these are out of range, in their number or in their time; the count stands still at 2^32 - 1.
    pub out_of_range: u32,
}
