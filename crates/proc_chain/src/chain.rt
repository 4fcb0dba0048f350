//! Steps in order.
ghost use Rattle.std.specs.Prelude.{◌≡◌, ◌++◌, ◌∷◌, ◌≤◌, [], List, drop, length, IfOk, IfSome, OnErr, OnOk};
ghost use Rattle.std.specs.Option.{option_map};
ghost use Rattle.metric.specs.declared.metric.Content.{Content};
ghost use Rattle.metric_filter.specs.Kept.{is_same, metric_of, IsKeptOf};
ghost use Rattle.proc_chain.specs.Chain.{steps_of, IsBehind};
ghost use Rattle.proc_chain.specs.Seen.{GoesOn, PushesFrom};
ghost use Rattle.proc_chain.specs.Steps.{leave_as_is, whole};
ghost use Rattle.proc_chain.specs.declared.step.Step.{Step};

use crate::stage::{Seen, Stage};
use crate::step::Step;
use fixed_num::OutOfMemory;
use metric::Metric;
use metric_filter::Kept;
use std::alloc::Global;
use std::marker::Model;

/// Processors in order, with what they remember of the metrics that were pushed.
#[derive(Drop)]
pub struct Chain<'a> {
    stages: Vec<Stage<'a>>,
}

impl<'a> Model for Chain<'a> {
    ghost use Rattle.std.specs.Prelude.{List};
    ghost use Rattle.proc_chain.specs.Chain.{StageState};

    ghost Value = { List StageState };

    ghost view = { λ c. c.stages.items };
}

impl<'a> Chain<'a> {
    /// The chain of these steps, to which nothing was pushed yet.
    pub fn new(alloc: Global, steps: &'a [Step]) -> Result<Chain<'a>, OutOfMemory>
        ensures { IfOk result (IsBehind steps.now []) }
    {
        let mut stages = Vec::with_capacity(alloc, steps.len())?;
        for step in steps {
            stages.push(Stage::of(alloc, step)?)?;
        }
        Ok(Chain { stages })
    }

    /// What the steps make of the next metric, one after the other: None exactly where one of them removes it. A step
    /// works on the metrics that its filter selects, and on what that leaves of them; one of which no field is left is
    /// removed. What passes is `Same` exactly where no step that selects it edits it, be it without effect, or leaves a
    /// part of it out: then it is the metric that was pushed. After an error all is as if the metric hadn't come.
    pub fn push(&mut self, m: Metric) -> Result<Option<Kept>, OutOfMemory>
        ensures answer { (steps : List Step) (list : List Content) → IsBehind steps list self.old
            → IfOk result (λ answer. option_map metric_of answer ≡ whole steps (list ++ m ∷ [])) }
        ensures same { IfOk result (λ answer.
            IfSome answer (λ kept. is_same kept ≡ leave_as_is (steps_of self.old) m)) }
        ensures itself { IfOk result (λ answer. IfSome answer (IsKeptOf m)) }
        ensures stands { (steps : List Step) (list : List Content) → IsBehind steps list self.old
            → OnOk result (IsBehind steps (list ++ m ∷ []) self.new) }
        ensures err { (steps : List Step) (list : List Content) → IsBehind steps list self.old
            → OnErr result (IsBehind steps list self.new) }
        ensures steps { steps_of self.new ≡ steps_of self.old }
    {
        push_all(&mut self.stages, Kept::Same(m))
    }
}

/// What all stages make of the next metric. Most chains have none.
#[inline(always)]
fn push_all(stages: &mut Vec<Stage<'_>>, m: Kept) -> Result<Option<Kept>, OutOfMemory>
    ensures pushes { PushesFrom 0 stages.old.items (metric_of m) result stages.new.items }
    ensures goes_on { IfOk result (λ answer. IfSome answer
        (GoesOn (leave_as_is (steps_of stages.old.items) (metric_of m)) m)) }
{
    if stages.is_empty() {
        return Ok(Some(m));
    }
    push_from(stages, 0, m)
}

/// What the stages from an index on make of the next metric, one after the other. What is to be kept is kept once all
/// of them have looked.
fn push_from(stages: &mut Vec<Stage<'_>>, at: usize, m: Kept) -> Result<Option<Kept>, OutOfMemory>
    requires { at ≤ length stages.old.items }
    ensures pushes { PushesFrom at stages.old.items (metric_of m) result stages.new.items }
    ensures goes_on { IfOk result (λ answer. IfSome answer
        (GoesOn (leave_as_is (steps_of (drop at stages.old.items)) (metric_of m)) m)) }
{
    if at == stages.len() {
        return Ok(Some(m));
    }
    match stages[at].look(m)? {
        Seen::Removed => Ok(None),
        Seen::Passes(left) => push_from(stages, at + 1, left),
        Seen::Fresh(left, fresh) => {
            let answer = push_from(stages, at + 1, left)?;
            stages[at].keep(fresh);
            Ok(answer)
        }
    }
}
