//! What is kept of members, by the kind of the aggregator.
ghost use Rattle.std.specs.Prelude.{◌≡◌, ◌<◌, ◌++◌, ◌∷◌, [], ℤ, List, IfOk, OnOk, length};
ghost use Rattle.account.specs.declared.setup.AggWord.{AggWord as Word};
ghost use Rattle.metric.specs.declared.metric.Content.{Content};
ghost use Rattle.agg_bank.specs.Bank.{FoldStands};
ghost use Rattle.agg_bank.specs.Fold.{memory_of};
ghost use Rattle.agg_bank.specs.Made.{folded};
ghost use Rattle.agg_bank.specs.Members.{left, left_by};
ghost use Rattle.agg_bank.specs.Ready.{closing_if, FoldCanAdd, FoldIsReady};

use account::AggWord;
use agg_keep::{Closing, Final, Merge};
use agg_stats::{Stats, StatsKind};
use fixed_num::{Moment, OutOfMemory};
use metric::Metric;
use std::alloc::Global;

/// What is kept of members, by the kind of the aggregator.
#[derive(Drop)]
pub(crate) enum Fold {
    /// By minmax and basicstats.
    Stats(Stats),
    /// By merge.
    Merge(Merge),
    /// By final.
    Final(Final),
}

impl Fold {
    /// Of no member.
    pub(crate) fn new(alloc: Global, kind: AggWord) -> Fold
        ensures { FoldStands kind [] (memory_of result) }
    {
        match kind {
            AggWord::MinMax => Fold::Stats(Stats::new(alloc, StatsKind::MinMax)),
            AggWord::Basic {
                sum,
                count,
                min,
                max,
            } => {
                let basic = StatsKind::Basic {
                    sum,
                    count,
                    min,
                    max,
                };
                Fold::Stats(Stats::new(alloc, basic))
            }
            AggWord::Merge => Fold::Merge(Merge::new(alloc)),
            AggWord::Final(timeout) => Fold::Final(Final::new(alloc, timeout)),
        }
    }

    /// Makes room for a metric: it may want memory. The members stay.
    pub(crate) fn prepare(&mut self, m: &Metric) -> Result<(), OutOfMemory>
        ensures stands { (kind : Word) (members : List Content) → FoldStands kind members (memory_of self.old)
            → FoldStands kind members (memory_of self.new) }
        ensures ready { OnOk result (FoldIsReady m.now (memory_of self.new)) }
    {
        match self {
            Fold::Stats(stats) => stats.prepare(m),
            Fold::Merge(merge) => merge.prepare(m),
            Fold::Final(last) => last.prepare(m),
        }
    }

    /// The metric that was prepared last is a member, of fewer than 2^32 before: it takes no memory.
    pub(crate) fn add_prepared(&mut self)
        requires { FoldCanAdd (memory_of self.old) }
        ensures { (kind : Word) (members : List Content) (m : Content)
            → FoldStands kind members (memory_of self.old) → FoldIsReady m (memory_of self.old)
            → length members < 4294967296 → FoldStands kind (members ++ m ∷ []) (memory_of self.new) }
    {
        match self {
            Fold::Stats(stats) => stats.add_prepared(),
            Fold::Merge(merge) => merge.add_prepared(),
            Fold::Final(last) => last.add_prepared(),
        }
    }

    /// The metrics that the members make at a closing: minmax and basicstats give them a time. Nothing changes.
    pub(crate) fn made(&self, time: Moment, closing: Closing) -> Result<Vec<Metric>, OutOfMemory>
        ensures { (kind : Word) (members : List Content) → FoldStands kind members (memory_of self.now)
            → IfOk result (λ made. made.items ≡ folded kind time closing members) }
    {
        match self {
            Fold::Stats(stats) => stats.made(time),
            Fold::Merge(merge) => merge.made(),
            Fold::Final(last) => last.made(closing.moment, closing.all),
        }
    }

    /// Forgets the members that a closing gives, where there is one. It takes no memory.
    pub(crate) fn forget_where(&mut self, closes: bool, closing: Closing)
        ensures { (kind : Word) (members : List Content) → FoldStands kind members (memory_of self.old)
            → FoldStands kind (left kind (closing_if closes closing.moment closing.all) members) (memory_of self.new) }
    {
        if !closes {
            return;
        }
        self.forget(closing);
    }

    /// Forgets the members that a closing gives. It takes no memory.
    fn forget(&mut self, closing: Closing)
        ensures { (kind : Word) (members : List Content) → FoldStands kind members (memory_of self.old)
            → FoldStands kind (left_by kind closing members) (memory_of self.new) }
    {
        match self {
            Fold::Stats(stats) => stats.forget(),
            Fold::Merge(merge) => merge.forget(),
            Fold::Final(last) => last.forget(closing.moment, closing.all),
        }
    }
}
