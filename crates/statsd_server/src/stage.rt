//! Where the receiving of a group stands.
ghost use Rattle.std.specs.Prelude.{◌≡◌, ◌<◌, ◌≤◌, ◌+◌, ◌==◌, nat_lt, if◌then◌else◌};
ghost use Rattle.statsd_server.specs.Stages.{behind_end, behind_packet, behind_quiet};

/// Where the receiving of a group stands.
#[derive(Clone, Copy, Debug, PartialEq, Eq)]
pub(crate) enum Stage {
    /// A group has begun, or may begin behind so many quiets.
    Open(u32),
    /// A packet of so many bytes was received, which isn't in hand yet.
    Pending(usize),
    /// The group in hand is whole.
    Complete,
    /// Nothing more is received.
    Ended,
}

/// Behind a packet, with which so many are in hand.
pub(crate) fn behind_packet(in_hand: u64, packets: u32) -> Stage
    ensures { result ≡ behind_packet packets in_hand }
{
    if in_hand < u64::from(packets) {
        Stage::Open(0)
    } else {
        Stage::Complete
    }
}

/// Behind a quiet, where so many packets are in hand and so many quiets were counted.
pub(crate) fn behind_quiet(in_hand: u64, quiets: u32, limit: u32) -> Stage
    requires { quiets < limit }
    ensures { result ≡ behind_quiet limit in_hand quiets }
{
    if in_hand != 0 {
        Stage::Complete
    } else if quiets + 1 < limit {
        Stage::Open(quiets + 1)
    } else {
        Stage::Ended
    }
}

/// At the end, where so many packets are in hand.
pub(crate) fn behind_end(in_hand: u64) -> Stage
    ensures { result ≡ behind_end in_hand }
{
    if in_hand != 0 {
        Stage::Complete
    } else {
        Stage::Ended
    }
}
