//! The aggregator merge.
ghost use Rattle.std.specs.Prelude.{◌≡◌, ◌++◌, ◌∷◌, [], List, IfOk, OnOk, OnErr};
ghost use Rattle.metric.specs.declared.metric.Content.{Content};
ghost use Rattle.agg_keep.specs.Merge.{merge_of};
ghost use Rattle.agg_keep.specs.MergeKept.{CanMerge, IsMergeReady, MergeStandsFor};

use crate::keyed::{Kept, Ready, make_room, put};
use crate::merge_map::{made, merged};
use crate::spot::Spot;
use fixed_num::OutOfMemory;
use metric::Metric;
use std::alloc::Global;
use std::marker::Model;

/// Merges the metrics of each series and time into one (as Telegraf's aggregator merge does). The members are the
/// metrics that were added since the last emit. It keeps one metric for each series and time.
#[derive(Drop)]
pub struct Merge {
    alloc: Global,
    kept: Kept<Spot>,
    order: Vec<Spot>,
    ready: Option<Ready<Spot>>,
}

impl Model for Merge {
    ghost use Rattle.agg_keep.specs.MergeKept.{MergeMemory};

    ghost Value = { MergeMemory };

    ghost use Rattle.agg_keep.specs.MergeView.{merge_memory};

    ghost view = { merge_memory };
}

impl Merge {
    /// There is no member yet.
    pub fn new(alloc: Global) -> Merge
        ensures { MergeStandsFor [] result }
    {
        Merge {
            alloc,
            kept: Kept::new(alloc),
            order: Vec::new(alloc),
            ready: None,
        }
    }

    /// One more member. After an error the members are as before.
    pub fn add(&mut self, m: &Metric) -> Result<(), OutOfMemory>
        ensures ok { (members : List Content) → MergeStandsFor members self.old
            → OnOk result (MergeStandsFor (members ++ m.now ∷ []) self.new) }
        ensures err { (members : List Content) → MergeStandsFor members self.old
            → OnErr result (MergeStandsFor members self.new) }
    {
        self.prepare(m)?;
        self.add_prepared();
        Ok(())
    }

    /// Makes room for a metric: it may want memory. The members stay.
    pub fn prepare(&mut self, m: &Metric) -> Result<(), OutOfMemory>
        ensures stands { (members : List Content) → MergeStandsFor members self.old
            → MergeStandsFor members self.new }
        ensures ready { OnOk result (IsMergeReady m.now self.new) }
    {
        m.shows_metric();
        self.ready = None;
        make_room(&mut self.kept, m)?;
        self.order.reserve(1)?;
        self.ready = Some(Ready::of(merged(self.alloc, &self.kept, m)?)?);
        Ok(())
    }

    /// The metric that was prepared last is a member: it takes no memory. Nothing changes where none was prepared since
    /// the last call of this kind.
    pub fn add_prepared(&mut self)
        requires { CanMerge self.old self.old.ready }
        ensures { (members : List Content) (m : Content) → MergeStandsFor members self.old → IsMergeReady m self.old
            → MergeStandsFor (members ++ m ∷ []) self.new }
    {
        match self.ready.take() {
            Some(ready) => put(&mut self.kept, &mut self.order, ready),
            None => {}
        }
    }

    /// The metrics that the members make. Nothing changes.
    pub fn made(&self) -> Result<Vec<Metric>, OutOfMemory>
        ensures { (members : List Content) → MergeStandsFor members self.now
            → IfOk result (λ made. made.items ≡ merge_of members) }
    {
        let order = self.order.as_slice();
        Ok(made(self.alloc, &self.kept, order)?)
    }

    /// Forgets the members. It takes no memory.
    pub fn forget(&mut self)
        ensures { (members : List Content) → MergeStandsFor members self.old → MergeStandsFor [] self.new }
    {
        self.kept.clear();
        self.order.clear();
        self.ready = None;
    }

    /// The metrics that the members make, and forgets the members. After an error they are as before.
    pub fn emit(&mut self) -> Result<Vec<Metric>, OutOfMemory>
        ensures made { (members : List Content) → MergeStandsFor members self.old
            → IfOk result (λ made. made.items ≡ merge_of members) }
        ensures ok { (members : List Content) → MergeStandsFor members self.old
            → OnOk result (MergeStandsFor [] self.new) }
        ensures err { (members : List Content) → MergeStandsFor members self.old
            → OnErr result (MergeStandsFor members self.new) }
    {
        let made = self.made()?;
        self.forget();
        Ok(made)
    }
}
