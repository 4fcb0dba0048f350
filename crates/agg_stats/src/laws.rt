//! What lists of calls do. The body is empty; the contract is the law.
ghost use Rattle.agg_stats.specs.Laws.{CallsFold};

/// In every list of adds and emits that answered Ok, each emit gives the fold of its members: the metrics that were
/// added since the one before.
pub fn calls_fold()
    ensures { CallsFold }
{}
