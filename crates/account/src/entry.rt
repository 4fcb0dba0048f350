//! The events of a run.
use fixed_num::{Moment, Seq};
use metric::Metric;

/// What became of an item as it was routed.
#[derive(Clone, Copy, Debug, PartialEq, Eq)]
pub enum Verdict {
    /// It goes to the outputs.
    Passes,
    /// An aggregator took it, and keeps it from the outputs.
    Consumed,
    /// It came too late for its window.
    Late,
    /// The processors removed it.
    Removed,
}

/// What is told of a group of a tracked input that settled.
#[derive(Clone, Copy, Debug, PartialEq, Eq)]
pub struct Report {
    /// The group's number, counted from 0 over all inputs.
    pub group: u64,
    /// The input that gathered it.
    pub input: u32,
    /// Whether no metric of it was dropped.
    pub delivered: bool,
}

/// An event of a run. Inputs and outputs go by their numbers in the set-up, items by the order in
/// which they came, positions by the order of the views at an output; all are counted from 0.
#[derive(Drop)]
pub enum Entry {
    /// An input's next pieces were read; the readings are items.
    Gather {
        /// The input.
        input: u32,
        /// The moment at which they were read: nanoseconds since 1970.
        moment: Moment,
        /// How many pieces there were.
        pieces: u32,
        /// How many of them were refused.
        refused: u32,
        /// How many samples were passed over.
        passed: u32,
        /// How many readings the input's filter kept out.
        filtered: u32,
        /// The readings, in order.
        metrics: Seq<Metric>,
        /// The group, where the input is tracked.
        group: Option<u64>,
        /// The groups that settled by this.
        reports: Seq<Report>,
    },
    /// An input was read to its end.
    Ended {
        /// The input.
        input: u32,
    },
    /// The oldest raw item was taken in hand.
    Take {
        /// The item.
        item: u64,
    },
    /// The item in hand was routed.
    Route {
        /// The item.
        item: u64,
        /// What the processors made of it; None where they removed it.
        whole: Option<Metric>,
        /// What became of it.
        verdict: Verdict,
        /// What each aggregator sees of it.
        aggs: Seq<Option<Metric>>,
        /// What each output sees of it.
        outs: Seq<Option<Metric>>,
        /// The groups that settled by this.
        reports: Seq<Report>,
    },
    /// Time went on, and windows of aggregators may have closed.
    Tick {
        /// The moment: nanoseconds since 1970.
        moment: Moment,
        /// The metrics that were made; they are items.
        made: Seq<Metric>,
    },
    /// No more is gathered, and all windows closed.
    Stop {
        /// The moment: nanoseconds since 1970.
        moment: Moment,
        /// The metrics that were made; they are items.
        made: Seq<Metric>,
    },
    /// An output's next batch was begun.
    Begin {
        /// The output.
        output: u32,
        /// The position of its first view.
        from: u64,
        /// One past the position of its last view.
        to: u64,
    },
    /// The output's batch was accepted, or failed.
    Done {
        /// The output.
        output: u32,
        /// Whether it was accepted.
        ok: bool,
        /// The groups that settled by this.
        reports: Seq<Report>,
    },
}
