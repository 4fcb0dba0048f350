//! Calls of aggregators.
use crate::{Calls, metric, next};
use agg_keep::{Final, Merge};
use agg_stats::{Stats, StatsKind};
use fixed_num::{Moment, OutOfMemory};
use line_proto::write_line;
use metric::Metric;
use scenario_tables::Row;
use std::alloc::Global;
use std::test::Fail;
use text_buffer::TextBuffer;

/// An aggregator.
#[derive(Drop)]
enum Aggregator {
    Stats(Stats),
    Merge(Merge),
    Final(Final),
}

impl Aggregator {
    /// Adds a metric.
    fn add(&mut self, m: &Metric) -> Result<(), OutOfMemory> {
        match self {
            Aggregator::Stats(stats) => stats.add(m),
            Aggregator::Merge(merge) => merge.add(m),
            Aggregator::Final(last) => last.add(m),
        }
    }

    /// Adds a metric in two steps.
    fn add_in_steps(&mut self, m: &Metric) -> Result<(), OutOfMemory> {
        match self {
            Aggregator::Stats(stats) => {
                stats.prepare(m)?;
                stats.add_prepared();
            }
            Aggregator::Merge(merge) => {
                merge.prepare(m)?;
                merge.add_prepared();
            }
            Aggregator::Final(last) => {
                last.prepare(m)?;
                last.add_prepared();
            }
        }
        Ok(())
    }

    /// What it gives at a moment, or of all series where that is asked for.
    fn emit(&mut self, moment: Moment, all: bool) -> Result<Vec<Metric>, OutOfMemory> {
        match self {
            Aggregator::Stats(stats) => stats.emit(moment),
            Aggregator::Merge(merge) => merge.emit(),
            Aggregator::Final(last) => last.emit(moment, all),
        }
    }

    /// The same in two steps.
    fn emit_in_steps(&mut self, moment: Moment, all: bool) -> Result<Vec<Metric>, OutOfMemory> {
        let metrics = match self {
            Aggregator::Stats(stats) => stats.made(moment)?,
            Aggregator::Merge(merge) => merge.made()?,
            Aggregator::Final(last) => last.made(moment, all)?,
        };
        match self {
            Aggregator::Stats(stats) => stats.forget(),
            Aggregator::Merge(merge) => merge.forget(),
            Aggregator::Final(last) => last.forget(moment, all),
        }
        Ok(metrics)
    }
}

/// The lines of metrics, with none behind the last.
pub(crate) fn lines_of(alloc: Global, metrics: &[Metric]) -> Result<String, Fail> {
    let mut lines = TextBuffer::new(alloc);
    for metric in metrics {
        write_line(alloc, metric, &mut lines)?;
    }
    lines.truncate(lines.len().saturating_sub(1));
    Ok(String::from_utf8(lines.into_vec())?)
}

/// What the words of a row ask for: `minmax`, or those of basicstats.
fn kind_of(words: &str) -> StatsKind {
    if words == "minmax" {
        return StatsKind::MinMax;
    }
    StatsKind::Basic {
        sum: words.contains("sum"),
        count: words.contains("count"),
        min: words.contains("min"),
        max: words.contains("max"),
    }
}

/// The aggregator that a row asks for.
fn aggregator_of(alloc: Global, row: &Row<'_>) -> Aggregator {
    match row.value("kind") {
        "merge" => Aggregator::Merge(Merge::new(alloc)),
        "final" => {
            let timeout = next(&mut row.value("timeout").split_whitespace());
            Aggregator::Final(Final::new(alloc, timeout))
        }
        words => Aggregator::Stats(Stats::new(alloc, kind_of(words))),
    }
}

/// An aggregator, and whether calls are made in two steps each.
#[derive(Drop)]
pub struct AggCalls {
    aggregator: Aggregator,
    in_steps: bool,
}

impl AggCalls {
    /// Adds a metric.
    fn add(&mut self, m: &Metric) -> Result<(), OutOfMemory> {
        if self.in_steps {
            self.aggregator.add_in_steps(m)
        } else {
            self.aggregator.add(m)
        }
    }

    /// What the aggregator gives at what words say.
    fn emit(&mut self, words: &str) -> Result<Vec<Metric>, OutOfMemory> {
        let mut words = words.split_whitespace();
        let moment = next(&mut words);
        let all = words.next() == Some("all");
        if self.in_steps {
            self.aggregator.emit_in_steps(moment, all)
        } else {
            self.aggregator.emit(moment, all)
        }
    }
}

impl Calls for AggCalls {
    fn begin(alloc: Global, row: &Row<'_>, word: &str) -> Result<AggCalls, Fail> {
        Ok(AggCalls {
            aggregator: aggregator_of(alloc, row),
            in_steps: word == "steps",
        })
    }

    /// Adds the metrics of lines in order, and says what a line `emit` with its words gives.
    fn make(&mut self, alloc: Global, call: &str) -> Result<String, Fail> {
        let mut given = String::new(alloc);
        for line in call.lines() {
            if let Some(words) = line.strip_prefix("emit") {
                given = lines_of(alloc, self.emit(words)?.as_slice())?;
            } else if let Some(metric) = metric(alloc, line)? {
                self.add(&metric)?;
            } else {
                return Err(Fail::new(format_args!("no metric: {line}")));
            }
        }
        Ok(given)
    }
}
