//! Laws of configurations.
ghost use Rattle.agent_config.specs.Written.{WrittenCounts};

/// Where a text has no fault, a number or a time that is written there is the one that its configuration has, and so are the
/// address and the numbers of a server in its place.
pub fn written_counts()
    ensures { WrittenCounts }
{}
