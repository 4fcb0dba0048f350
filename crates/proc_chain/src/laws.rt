//! What the results of steps mean.
ghost use Rattle.std.specs.Prelude.{◌≡◌, ◌++◌, [], List, length, take};
ghost use Rattle.std.specs.List.{last_or};
ghost use Rattle.std.specs.Prelude.{None};
ghost use Rattle.metric.specs.declared.metric.Content.{Content};
ghost use Rattle.proc_chain.specs.Steps.{chain_results, left_in, passed_by_all, whole};
ghost use Rattle.proc_chain.specs.declared.step.Step.{Step};

/// More pushes never change an earlier result, and each metric has one.
pub fn results_stay()
    ensures stay { (steps : List Step) (list more : List Content)
        → take (length list) (chain_results steps (list ++ more)) ≡ chain_results steps list }
    ensures one_each { (steps : List Step) (list : List Content)
        → length (chain_results steps list) ≡ length list }
{}

/// What isn't removed is what one step after the other passes on: the first of all metrics, each other one of what the
/// step before it passes on.
pub fn passed_in_turn()
    ensures { (steps : List Step) (list : List Content)
        → left_in (chain_results steps list) ≡ passed_by_all steps list }
{}

/// Without steps each metric is its own result.
pub fn without_steps()
    ensures { (list : List Content) → whole [] list ≡ last_or None list }
{}
