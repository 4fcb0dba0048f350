//! What lists of calls do. The body is empty; the contract is the law.
ghost use Rattle.agg_bank.specs.Laws.{CallsBank};

/// In every list of offers, ticks and stops of a `Bank` that answered Ok, each verdict is the one on the item that was
/// offered, and each closing gives the folds of its members: the metrics that were taken since the one before.
pub fn calls_bank()
    ensures { CallsBank }
{}
