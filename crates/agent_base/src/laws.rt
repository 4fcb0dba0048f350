//! Laws of the moments that clocks give.
ghost use Rattle.agent_base.specs.Clocked.{ClockedJoins, CountedJoins};

/// Moments up to an index and moments from it on are moments one after another.
pub fn clocked_joins()
    ensures { ClockedJoins }
{}

/// The same where each counts as no earlier than the one before it.
pub fn counted_joins()
    ensures { CountedJoins }
{}
