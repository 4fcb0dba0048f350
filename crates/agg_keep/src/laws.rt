//! What lists of calls do. The bodies are empty; each contract is a law.
ghost use Rattle.agg_keep.specs.FinalLaws.{CallsFinal};
ghost use Rattle.agg_keep.specs.MergeLaws.{CallsMerge};

/// In every list of adds and emits of a `Merge` that answered Ok, each emit gives the merge of its members: the metrics
/// that were added since the one before.
pub fn calls_merge()
    ensures { CallsMerge }
{}

/// In every list of adds and emits of a `Final` that answered Ok, each emit gives what its closing gives of its
/// members: the metrics that were added, but those of series that were given since.
pub fn calls_final()
    ensures { CallsFinal }
{}
