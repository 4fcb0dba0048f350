//! The formats that are read and written.
use crate::template::Template;
use fixed_num::Seq;
use metric::Text;

/// A format that is read.
#[derive(Debug, Drop)]
pub enum InFormat {
    /// InfluxDB line protocol.
    Influx,
    /// StatsD lines.
    Statsd,
    /// Graphite's plaintext lines.
    Graphite {
        /// What the segments of a path are, by the first that serves it.
        templates: Seq<Template>,
        /// What stands between segments that are joined.
        separator: Text,
    },
    /// Expositions of OpenMetrics 1.0.
    Openmetrics {
        /// Does each metric get the type of its family as the tag `om_type`?
        type_tag: bool,
        /// Is a sample passed over whose number or whose time is out of range, where it refuses its exposition else?
        pass_out_of_range: bool,
    },
}

/// A format that is written.
#[derive(Clone, Copy, Debug, PartialEq, Eq)]
pub enum OutFormat {
    /// InfluxDB line protocol.
    Influx,
    /// Graphite's plaintext lines.
    Graphite,
    /// Expositions of OpenMetrics 1.0.
    Openmetrics,
}
