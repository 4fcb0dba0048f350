//! A step of a chain, with what it remembers.
ghost use Rattle.std.specs.Prelude.{◌≡◌, ℤ, true, [], List, Some, IfOk, IfSome};
ghost use Rattle.std.specs.Option.{option_map};
ghost use Rattle.metric.specs.declared.metric.Content.{Content};
ghost use Rattle.metric_filter.specs.Filter.{keeps_all, left, with_fields};
ghost use Rattle.metric_filter.specs.Kept.{metric_of};
ghost use Rattle.proc_chain.specs.Chain.{CanBeKept, StageStands, StageWillStand, WorkStands};
ghost use Rattle.proc_chain.specs.Chain.{WorkWillStand};
ghost use Rattle.proc_chain.specs.Seen.{passing, CanKeep, GoesOn, StageSees, WorkSees};
ghost use Rattle.proc_chain.specs.Stage.{memory_of, work_of};
ghost use Rattle.proc_chain.specs.Steps.{leaves_as_is, only_removes};
ghost use Rattle.proc_chain.specs.declared.step.StepWork.TheVariants as said;
ghost use Rattle.proc_dedup.specs.Dedup.{StandsFor};
ghost use Rattle.proc_regex.specs.Rewrite.{all_rewritten};

use crate::rewriter::Rewriter;
use crate::step::{Step, StepWork};
use fixed_num::OutOfMemory;
use metric::Metric;
use metric_filter::{Filter, Kept};
use proc_dedup::{Dedup, Fresh, Sight};
use proc_edit::{Convert, Rename};
use proc_regex::Rewrite;
use std::alloc::Global;
use std::marker::Model;

/// What a step does with a metric, with what it remembers.
#[derive(Drop)]
pub(crate) enum StageWork<'a> {
    /// It renames.
    Rename(&'a Rename),
    /// It converts.
    Convert(&'a Convert),
    /// It removes what is repeated within an interval.
    Dedup(i64, Dedup),
    /// It rewrites.
    Regex(Vec<Rewriter<'a>>),
}

/// A step of a chain, with what it remembers.
#[derive(Drop)]
pub(crate) struct Stage<'a> {
    filter: &'a Filter,
    work: StageWork<'a>,
}

impl<'a> Model for Stage<'a> {
    ghost use Rattle.proc_chain.specs.Chain.{StageState};
    ghost use Rattle.proc_chain.specs.Stage.{memory_of, work_of};

    ghost Value = { StageState };

    ghost view = { λ s. record {
      step = record { filter = s.filter.now; work = work_of s.work };
      memory = memory_of s.work;
    } };
}

/// What is seen of a metric that reaches a step.
#[derive(Drop)]
pub(crate) enum Seen {
    /// It is removed.
    Removed,
    /// This passes on.
    Passes(Kept),
    /// This passes on, and that is to be kept.
    Fresh(Kept, Fresh),
}

impl<'a> Stage<'a> {
    /// A step that no metric has reached yet.
    #[tactic(auto, unfolding(crate::specs::Steps::given))]
    pub(crate) fn of(alloc: Global, step: &'a Step) -> Result<Stage<'a>, OutOfMemory>
        ensures step { IfOk result (λ stage. stage.step ≡ step.now) }
        ensures stands { IfOk result (λ stage. StageStands stage []) }
    {
        let work = begun(alloc, &step.work)?;
        Ok(Stage {
            filter: &step.filter,
            work,
        })
    }

    /// What the step makes of a metric that reaches it, which is given up. Nothing changes by it but that there is room
    /// for what is to be kept.
    pub(crate) fn look(&mut self, m: Kept) -> Result<Seen, OutOfMemory>
        ensures step { self.new.step ≡ self.old.step }
        ensures stands { (list : List Content) → StageStands self.old list → StageStands self.new list }
        ensures sees { (list : List Content) → StageStands self.old list
            → IfOk result (λ seen. StageSees self.old list (metric_of m) seen self.new) }
        ensures goes_on { IfOk result (λ seen.
            IfSome (passing seen) (GoesOn (leaves_as_is self.old.step (metric_of m)) m)) }
        ensures room { IfOk result (CanKeep self.new.memory) }
    {
        if !self.filter.selects(m.metric()) {
            return Ok(Seen::Passes(m));
        }
        let Some(m) = left_of(self.filter, m)? else {
            return Ok(Seen::Removed);
        };
        look(&mut self.work, m)
    }

    /// Keeps what is to be kept of a metric, once there is room for it: it takes no memory.
    pub(crate) fn keep(&mut self, fresh: Fresh)
        requires { CanBeKept self.old.memory fresh }
        ensures step { self.new.step ≡ self.old.step }
        ensures stands { (list : List Content) → StageWillStand self.old list fresh → StageStands self.new list }
    {
        keep(&mut self.work, fresh);
    }
}

/// What a step does, before any metric.
fn begun<'a>(alloc: Global, work: &'a StepWork) -> Result<StageWork<'a>, OutOfMemory>
    ensures work { IfOk result (λ begun. work_of begun ≡ work.now) }
    ensures stands { IfOk result (λ begun. WorkStands work.now [] (memory_of begun)) }
{
    match work {
        StepWork::Rename(rename) => Ok(StageWork::Rename(rename)),
        StepWork::Convert(convert) => Ok(StageWork::Convert(convert)),
        StepWork::Dedup(interval) => Ok(StageWork::Dedup(*interval, Dedup::new(alloc, *interval))),
        StepWork::Regex(rules) => Ok(StageWork::Regex(rewriters(alloc, rules.as_slice())?)),
    }
}

/// What rewrites by rules.
fn rewriters<'a>(alloc: Global, rules: &'a [Rewrite]) -> Result<Vec<Rewriter<'a>>, OutOfMemory>
    ensures { IfOk result (λ all. all.items ≡ rules.now) }
{
    let mut all = Vec::with_capacity(alloc, rules.len())?;
    for rule in rules {
        all.push(Rewriter::of(alloc, rule)?)?;
    }
    Ok(all)
}

/// What a filter leaves of a metric. It is the one that was pushed where the filter leaves each part of one that was.
fn left_of(filter: &Filter, m: Kept) -> Result<Option<Kept>, OutOfMemory>
    ensures answer { IfOk result (λ answer.
        option_map metric_of answer ≡ with_fields (left filter.now (metric_of m))) }
    ensures goes_on { IfOk result (λ answer.
        IfSome answer (GoesOn (keeps_all filter.now (metric_of m)) m)) }
{
    match m {
        Kept::Same(m) => filter.left_of(m),
        Kept::Changed(m) => match filter.left_of(m)? {
            Some(left) => Ok(Some(Kept::Changed(left.into_metric()))),
            None => Ok(None),
        },
    }
}

/// What is made of a metric.
fn look(work: &mut StageWork<'_>, m: Kept) -> Result<Seen, OutOfMemory>
    ensures work { work_of work.new ≡ work_of work.old }
    ensures stands { (list : List Content) → WorkStands (work_of work.old) list (memory_of work.old)
        → WorkStands (work_of work.new) list (memory_of work.new) }
    ensures sees { (list : List Content) → WorkStands (work_of work.old) list (memory_of work.old)
        → IfOk result (λ seen. WorkSees (work_of work.old) list (metric_of m) seen (memory_of work.new)) }
    ensures goes_on { IfOk result (λ seen. IfSome (passing seen) (GoesOn (only_removes (work_of work.old)) m)) }
    ensures room { IfOk result (CanKeep (memory_of work.new)) }
{
    match work {
        StageWork::Rename(rename) => {
            let renamed = rename.apply(m.into_metric())?;
            Ok(Seen::Passes(Kept::Changed(renamed)))
        }
        StageWork::Convert(convert) => {
            let converted = convert.apply(m.into_metric())?;
            Ok(Seen::Passes(Kept::Changed(converted)))
        }
        StageWork::Dedup(_, dedup) => look_back(dedup, m),
        StageWork::Regex(rules) => {
            let rewritten = rewrite_by_all(rules, m.into_metric())?;
            Ok(Seen::Passes(Kept::Changed(rewritten)))
        }
    }
}

/// Whether a metric is repeated, and else what is to be kept of it.
fn look_back(dedup: &mut Dedup, m: Kept) -> Result<Seen, OutOfMemory>
    ensures stands { (interval : ℤ) (list : List Content) → StandsFor interval list dedup.old
        → StandsFor interval list dedup.new }
    ensures sees { (interval : ℤ) (list : List Content) → StandsFor interval list dedup.old
        → IfOk result (λ seen. WorkSees (said.Dedup interval) list (metric_of m) seen (Some dedup.new)) }
    ensures goes_on { IfOk result (λ seen. IfSome (passing seen) (GoesOn true m)) }
    ensures room { IfOk result (CanKeep (Some dedup.new)) }
{
    match dedup.look(m.metric())? {
        Sight::Repeated => Ok(Seen::Removed),
        Sight::Fresh(fresh) => Ok(Seen::Fresh(m, fresh)),
    }
}

/// A metric rewritten by one rule after the other.
fn rewrite_by_all(rules: &mut Vec<Rewriter<'_>>, m: Metric) -> Result<Metric, OutOfMemory>
    ensures answer { IfOk result (λ answer. answer ≡ all_rewritten rules.old.items m) }
    ensures same { rules.new.items ≡ rules.old.items }
{
    let mut m = m;
    'rules: for index in 0..rules.len() {
        m = rules[index].apply(m)?;
    }
    Ok(m)
}

/// Keeps what is to be kept.
fn keep(work: &mut StageWork<'_>, fresh: Fresh)
    requires { CanBeKept (memory_of work.old) fresh }
    ensures work { work_of work.new ≡ work_of work.old }
    ensures stands { (list : List Content) → WorkWillStand (work_of work.old) list (memory_of work.old) fresh
        → WorkStands (work_of work.new) list (memory_of work.new) }
{
    match work {
        StageWork::Dedup(_, dedup) => dedup.keep(fresh),
        _ => {}
    }
}
