//! The aggregators minmax and basicstats.
ghost use Rattle.std.specs.Prelude.{◌≡◌, ◌<◌, ◌++◌, ◌∷◌, [], List, IfOk, OnOk, OnErr, None, length};
ghost use Rattle.metric.specs.declared.metric.Content.{Content};
ghost use Rattle.agg_stats.specs.Folds.{stats_of};
ghost use Rattle.agg_stats.specs.Kept.{CanAdd, IsReady, StandsFor};
ghost use Rattle.agg_stats.specs.declared.kind.StatsKind.{StatsKind as Kind};

use crate::StatsKind;
use crate::kind::Asked;
use crate::row::Row;
use crate::series_map::{Kept, Ready, add, made};
use fixed_num::{Moment, OutOfMemory};
use metric::Metric;
use std::alloc::Global;
use std::marker::Model;

/// Folds the numbers of the fields of each series (as Telegraf's aggregators minmax and basicstats do). The members are
/// the metrics that were added since the last emit. It keeps a summary for each series and field, and of each series
/// the content of its first member.
#[derive(Drop)]
pub struct Stats {
    alloc: Global,
    asked: Asked,
    kept: Kept,
    rows: Vec<Row>,
    ready: Option<Ready>,
}

impl Model for Stats {
    ghost use Rattle.agg_stats.specs.Kept.{Memory};

    ghost Value = { Memory };

    ghost use Rattle.agg_stats.specs.StatsView.{memory_of};

    ghost view = { memory_of };
}

impl Stats {
    /// There is no member yet.
    pub fn new(alloc: Global, kind: StatsKind) -> Stats
        ensures { StandsFor kind [] result }
    {
        Stats {
            alloc,
            asked: Asked::of(kind),
            kept: Kept::new(alloc),
            rows: Vec::new(alloc),
            ready: None,
        }
    }

    /// One more member, of fewer than 2^32 before. After an error the members are as before.
    pub fn add(&mut self, m: &Metric) -> Result<(), OutOfMemory>
        ensures ok { (kind : Kind) (members : List Content) → StandsFor kind members self.old
            → length members < 4294967296 → OnOk result (StandsFor kind (members ++ m.now ∷ []) self.new) }
        ensures err { (kind : Kind) (members : List Content) → StandsFor kind members self.old
            → OnErr result (StandsFor kind members self.new) }
    {
        self.prepare(m)?;
        self.add_prepared();
        Ok(())
    }

    /// Makes room for a metric: it may want memory. The members stay.
    pub fn prepare(&mut self, m: &Metric) -> Result<(), OutOfMemory>
        ensures stands { (kind : Kind) (members : List Content) → StandsFor kind members self.old
            → StandsFor kind members self.new }
        ensures ready { OnOk result (IsReady m.now self.new) }
    {
        m.shows_metric();
        self.ready = None;
        let ready = Ready::make(self.alloc, &mut self.kept, &mut self.rows, m)?;
        self.ready = Some(ready);
        Ok(())
    }

    /// The metric that was prepared last is a member, of fewer than 2^32 before: it takes no memory. Nothing changes
    /// where none was prepared since the last call of this kind.
    pub fn add_prepared(&mut self)
        requires { CanAdd self.old self.old.ready }
        ensures { (kind : Kind) (members : List Content) (m : Content) → StandsFor kind members self.old
            → IsReady m self.old → length members < 4294967296
            → StandsFor kind (members ++ m ∷ []) self.new }
    {
        match self.ready.take() {
            Some(ready) => add(&mut self.rows, ready),
            None => {}
        }
    }

    /// The metrics that the members make, at a time. Nothing changes.
    pub fn made(&self, time: Moment) -> Result<Vec<Metric>, OutOfMemory>
        ensures { (kind : Kind) (members : List Content) → StandsFor kind members self.now
            → IfOk result (λ made. made.items ≡ stats_of kind time members) }
    {
        Ok(made(self.alloc, self.asked, time, self.rows.as_slice())?)
    }

    /// Forgets the members. It takes no memory.
    pub fn forget(&mut self)
        ensures { (kind : Kind) (members : List Content) → StandsFor kind members self.old
            → StandsFor kind [] self.new }
    {
        self.kept.clear();
        self.rows.clear();
        self.ready = None;
    }

    /// The metrics that the members make, at a time, and forgets the members. After an error they are as before.
    pub fn emit(&mut self, time: Moment) -> Result<Vec<Metric>, OutOfMemory>
        ensures made { (kind : Kind) (members : List Content) → StandsFor kind members self.old
            → IfOk result (λ made. made.items ≡ stats_of kind time members) }
        ensures ok { (kind : Kind) (members : List Content) → StandsFor kind members self.old
            → OnOk result (StandsFor kind [] self.new) }
        ensures err { (kind : Kind) (members : List Content) → StandsFor kind members self.old
            → OnErr result (StandsFor kind members self.new) }
    {
        let made = self.made(time)?;
        self.forget();
        Ok(made)
    }
}
