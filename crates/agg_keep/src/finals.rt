//! The aggregator final.
ghost use Rattle.std.specs.Prelude.{◌≡◌, ◌++◌, ◌∷◌, [], ℤ, List, IfOk, OnOk, OnErr};
ghost use Rattle.metric.specs.declared.metric.Content.{Content};
ghost use Rattle.agg_keep.specs.Final.{finals_of, left_of};
ghost use Rattle.agg_keep.specs.FinalKept.{CanAdd, FinalStandsFor, IsFinalReady};

use crate::closing::Closing;
use crate::final_map::{drop_given, keep_held, made};
use crate::keyed::{Kept, Ready, make_room, put};
use fixed_num::{Moment, OutOfMemory};
use metric::{Metric, Series};
use std::alloc::Global;
use std::marker::Model;

/// Gives the last metric of each series once it is old enough (as Telegraf's aggregator final does). The members are
/// the metrics that were added, but those of series that were given since. It keeps one metric for each series.
#[derive(Drop)]
pub struct Final {
    alloc: Global,
    timeout: i64,
    kept: Kept<Series>,
    order: Vec<Series>,
    ready: Option<Ready<Series>>,
}

impl Model for Final {
    ghost use Rattle.agg_keep.specs.FinalKept.{FinalMemory};

    ghost Value = { FinalMemory };

    ghost use Rattle.agg_keep.specs.FinalView.{final_memory};

    ghost view = { final_memory };
}

impl Final {
    /// There is no member yet. A series is given once the time of its last metric and `timeout` nanoseconds are over.
    pub fn new(alloc: Global, timeout: i64) -> Final
        ensures { FinalStandsFor timeout [] result }
    {
        Final {
            alloc,
            timeout,
            kept: Kept::new(alloc),
            order: Vec::new(alloc),
            ready: None,
        }
    }

    /// One more member. After an error the members are as before.
    pub fn add(&mut self, m: &Metric) -> Result<(), OutOfMemory>
        ensures ok { (timeout : ℤ) (members : List Content) → FinalStandsFor timeout members self.old
            → OnOk result (FinalStandsFor timeout (members ++ m.now ∷ []) self.new) }
        ensures err { (timeout : ℤ) (members : List Content) → FinalStandsFor timeout members self.old
            → OnErr result (FinalStandsFor timeout members self.new) }
    {
        self.prepare(m)?;
        self.add_prepared();
        Ok(())
    }

    /// Makes room for a metric: it may want memory. The members stay.
    pub fn prepare(&mut self, m: &Metric) -> Result<(), OutOfMemory>
        ensures stands { (timeout : ℤ) (members : List Content) → FinalStandsFor timeout members self.old
            → FinalStandsFor timeout members self.new }
        ensures ready { OnOk result (IsFinalReady m.now self.new) }
    {
        self.ready = None;
        make_room(&mut self.kept, m)?;
        self.order.reserve(1)?;
        self.ready = Some(Ready::of(m.copy()?)?);
        Ok(())
    }

    /// The metric that was prepared last is a member: it takes no memory. Nothing changes where none was prepared since
    /// the last call of this kind.
    pub fn add_prepared(&mut self)
        requires { CanAdd self.old self.old.ready }
        ensures { (timeout : ℤ) (members : List Content) (m : Content) → FinalStandsFor timeout members self.old
            → IsFinalReady m self.old → FinalStandsFor timeout (members ++ m ∷ []) self.new }
    {
        match self.ready.take() {
            Some(ready) => put(&mut self.kept, &mut self.order, ready),
            None => {}
        }
    }

    /// The metrics that a closing at a moment gives, of all series or of those that are old enough. Nothing changes.
    pub fn made(&self, moment: Moment, all: bool) -> Result<Vec<Metric>, OutOfMemory>
        ensures { (timeout : ℤ) (members : List Content) → FinalStandsFor timeout members self.now
            → IfOk result (λ made. made.items ≡ finals_of timeout (record { moment = moment; all = all }) members) }
    {
        let closing = Closing { moment, all };
        let order = self.order.as_slice();
        Ok(made(self.alloc, self.timeout, closing, &self.kept, order)?)
    }

    /// Forgets the members of the series that a closing gives. It takes no memory.
    pub fn forget(&mut self, moment: Moment, all: bool)
        ensures { (timeout : ℤ) (members : List Content) → FinalStandsFor timeout members self.old
            → FinalStandsFor timeout (left_of timeout (record { moment = moment; all = all }) members) self.new }
    {
        let closing = Closing { moment, all };
        drop_given(self.timeout, closing, &mut self.kept, self.order.as_slice());
        keep_held(&self.kept, &mut self.order);
        self.ready = None;
    }

    /// The metrics that a closing gives, and forgets the members of their series. After an error the members are as
    /// before.
    pub fn emit(&mut self, moment: Moment, all: bool) -> Result<Vec<Metric>, OutOfMemory>
        ensures made { (timeout : ℤ) (members : List Content) → FinalStandsFor timeout members self.old
            → IfOk result (λ made. made.items ≡ finals_of timeout (record { moment = moment; all = all }) members) }
        ensures ok { (timeout : ℤ) (members : List Content) → FinalStandsFor timeout members self.old
            → OnOk result
            (FinalStandsFor timeout (left_of timeout (record { moment = moment; all = all }) members) self.new) }
        ensures err { (timeout : ℤ) (members : List Content) → FinalStandsFor timeout members self.old
            → OnErr result (FinalStandsFor timeout members self.new) }
    {
        let made = self.made(moment, all)?;
        self.forget(moment, all);
        Ok(made)
    }
}
