//! The aggregators of a run, as a journal names them.

/// An aggregator.
#[derive(Clone, Copy, Debug, PartialEq, Eq)]
pub struct AggLine {
    /// Its kind.
    pub kind: AggWord,
    /// The length of its windows, in nanoseconds.
    pub period: i64,
    /// How long it waits after a window's end before the window closes, in nanoseconds.
    pub delay: i64,
    /// How long it still takes metrics after a window closed, in nanoseconds.
    pub grace: i64,
    /// Whether it keeps the metrics that it takes from the outputs.
    pub dropping: bool,
}

/// The kind of an aggregator.
#[derive(Clone, Copy, Debug, PartialEq, Eq)]
pub enum AggWord {
    /// The least and the greatest value of each field.
    MinMax,
    /// Statistics of each field.
    Basic {
        /// Is the sum among them?
        sum: bool,
        /// Is the count among them?
        count: bool,
        /// Is the least value among them?
        min: bool,
        /// Is the greatest value among them?
        max: bool,
    },
    /// The fields of metrics of one series and time, in one metric.
    Merge,
    /// The last metric of a series, once none came for so many nanoseconds.
    Final(i64),
}
