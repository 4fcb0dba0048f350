//! What a configuration says.
use account::AggLine;
use fixed_num::Seq;
use format_words::{InFormat, OutFormat};
use metric::Text;
use metric_filter::Filter;
use proc_chain::Step;

/// What holds for the whole run.
#[derive(Debug, Drop)]
pub struct AgentConf {
    /// At most so many pieces are gathered at once.
    pub gather_pieces: u32,
    /// So many rounds in succession may accept no batch at the end.
    pub final_tries: u32,
    /// Nanoseconds between two flushes.
    pub flush_interval: i64,
    /// Do metrics that aggregators make pass the processors by?
    pub skip_second: bool,
    /// May inputs be read side by side?
    pub workers: bool,
    /// Where the journal goes.
    pub journal: Text,
}

/// An input.
#[derive(Debug, Drop)]
pub struct InputConf {
    /// What is read: the place of a file, or `udp ADDRESS PACKETS QUIET` of a server that listens on UDP.
    pub place: Text,
    /// Its format.
    pub format: InFormat,
    /// Is each of its groups of metrics followed until it is delivered?
    pub tracked: bool,
    /// At most so many groups are undelivered at once.
    pub max_undelivered: u32,
    /// What passes of it.
    pub filter: Filter,
}

/// An output.
#[derive(Debug, Drop)]
pub struct OutputConf {
    /// Where it is written.
    pub place: Text,
    /// Its format.
    pub format: OutFormat,
    /// At most so many metrics go out at once.
    pub batch: u32,
    /// At most so many metrics are buffered.
    pub limit: u32,
    /// What passes to it.
    pub filter: Filter,
}

/// An aggregator.
#[derive(Debug, Drop)]
pub struct AggConf {
    /// What it sees of a metric.
    pub filter: Filter,
    /// Its kind and its windows, as the head of a journal has them.
    pub line: AggLine,
}

/// A configuration.
#[derive(Debug, Drop)]
pub struct Config {
    /// What holds for the whole run.
    pub agent: AgentConf,
    /// The tags that each metric gets that lacks them, in the order of their keys; no value is empty.
    pub globals: Seq<(Text, Text)>,
    /// The inputs, in the order of their numbers.
    pub inputs: Seq<InputConf>,
    /// The steps that each metric goes through, in order.
    pub steps: Seq<Step>,
    /// The aggregators, in the order of their numbers.
    pub aggs: Seq<AggConf>,
    /// The outputs, in the order of their numbers.
    pub outputs: Seq<OutputConf>,
}
