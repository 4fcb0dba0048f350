//! What a core is set up with.
use account::AggLine;
use fixed_num::{Moment, Seq};

/// What a core is set up with.
#[derive(Drop, Debug)]
pub struct CoreSetup {
    /// The inputs.
    pub inputs: Seq<InSetup>,
    /// The aggregators.
    pub aggs: Seq<AggLine>,
    /// The outputs.
    pub outputs: Seq<OutSetup>,
    /// The moment at which the run begins: nanoseconds since 1970.
    pub start: Moment,
}

/// An input.
#[derive(Clone, Copy, Debug, PartialEq, Eq)]
pub struct InSetup {
    /// Whether its groups are tracked until they are delivered or rejected.
    pub tracked: bool,
    /// The most groups that may be undelivered, where it is tracked.
    pub max_undelivered: u32,
}

/// An output.
#[derive(Clone, Copy, Debug, PartialEq, Eq)]
pub struct OutSetup {
    /// The most metrics that a batch has.
    pub batch: u32,
    /// The most metrics that wait.
    pub limit: u32,
}
