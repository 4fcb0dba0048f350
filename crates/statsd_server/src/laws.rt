//! What lists of calls do, and what groups are. Each body is empty; the contract is the law.
ghost use Rattle.statsd_server.specs.GroupLaws.{GroupsHold};
ghost use Rattle.statsd_server.specs.Laws.{CallsServe};

/// In every list of packets and gathers that answered Ok, each gather gives what is served of the packets that came
/// since the one before, behind the earlier groups.
pub fn calls_serve()
    ensures { CallsServe }
{}

/// Each group has at least one packet and no more than the rule says, and all packets stand in the groups, in their
/// order, but for those that aren't received, which stand behind the others.
pub fn groups_hold()
    ensures { GroupsHold }
{}
