//! A server, with the text that it serves of what is to come.
ghost use Rattle.std.specs.Prelude.{◌≡◌, ◌≤◌, ◌<◌, ◌+◌, [], length, IfOk, OnOk, OnErr};
ghost use Rattle.statsd_server.specs.Groups.{groups_of, lines_text, served_text, Coming};
ghost use Rattle.statsd_server.specs.Serving.{Serving, serving_prop};
ghost use Rattle.statsd_server.specs.Standing.{HasGathered, HasTaken, IsAsBefore};

use crate::server::Server;
use fixed_num::OutOfMemory;
use metric::Metric;
use std::alloc::Global;

/// A server; `serving` is the text that it serves of whatever is to come.
#[derive(Drop)]
pub(crate) struct Standing {
    server: Server,
    pub ghost serving: { Serving server } by { serving_prop server },
}

impl Standing {
    /// There was no packet yet.
    pub(crate) fn new(alloc: Global) -> Result<Standing, OutOfMemory>
        ensures { IfOk result (λ s. (coming : Coming)
            → s.serving.0 coming ≡ served_text [] (groups_of coming [])) }
    {
        let server = Server::new(alloc)?;
        Ok(Standing { server })
    }

    /// How many packets are in hand.
    pub(crate) fn packets(&self) -> u64
        ensures { result ≡ self.now.server.packets }
    {
        self.server.packets()
    }

    /// A packet more in hand. After `OutOfMemory` none is.
    pub(crate) fn packet(&mut self, bytes: &[u8]) -> Result<(), OutOfMemory>
        requires { length bytes.now ≤ 65535 }
        ensures taken { OnOk result
            (HasTaken self.old.serving.0 self.new.serving.0 bytes.now self.new.server.packets) }
        ensures count { OnOk result (self.new.server.packets ≡ self.old.server.packets + 1) }
        ensures err { OnErr result (IsAsBefore self.old.serving.0 self.new.serving.0) }
        ensures stays { OnErr result (self.new.server.packets ≡ self.old.server.packets) }
    {
        self.server.packet(bytes)
    }

    /// What is served of the packets in hand, of which there are none then. After `OutOfMemory` they are in hand still.
    pub(crate) fn gather(&mut self) -> Result<Vec<Metric>, OutOfMemory>
        ensures given { IfOk result
            (λ metrics. HasGathered self.old.serving.0 self.new.serving.0 metrics.items) }
        ensures some { IfOk result (λ metrics. 0 < length (lines_text metrics.items)) }
        ensures err { OnErr result (IsAsBefore self.old.serving.0 self.new.serving.0) }
    {
        self.server.gather()
    }
}
