//! The server.
ghost use Rattle.std.specs.Prelude.{◌≡◌, ◌≤◌, ◌<◌, ◌+◌, ◌^◌, ◌↔◌, ◌∷◌, ◌++◌, [], List, length, IfOk, IsTrue, OnErr};
ghost use Rattle.std.specs.Prelude.{OnOk};
ghost use Rattle.statsd_server.specs.Packets.{Packet};
ghost use Rattle.statsd_server.specs.Served.{served};
ghost use Rattle.statsd_server.specs.Server.{StandsFor};

use crate::reading::{Reading, read_packet};
use crate::served::made_of;
use crate::tags::TypeTags;
use crate::tally::Tally;
use fixed_num::OutOfMemory;
use metric::Metric;
use std::alloc::Global;
use std::marker::Model;

/// What a StatsD server makes of the packets that it gets, group by group. It keeps the level of each gauge since the
/// start; of the group in hand it keeps a few numbers for each series, and the members of sets.
#[derive(Drop)]
pub struct Server {
    alloc: Global,
    types: TypeTags,
    packets: u64,
    tally: Tally,
}

impl Model for Server {
    ghost use Rattle.statsd_server.specs.Server.{ServerMemory};

    ghost Value = { ServerMemory };

    ghost use Rattle.statsd_server.specs.ServerView.{server_memory};

    ghost view = { server_memory };
}

/// Can a packet be counted? All counts of a group stay below 2^64.
fn can_count(packets: u64, tally: &Tally, reading: &Reading) -> bool
    ensures { IsTrue result ↔ ((packets + 1 < 2 ^ 64) × (tally.now.counted + tally.now.refused + reading.now.refused
        + length reading.now.parts.items < 2 ^ 64)) }
{
    let counts = tally.counted as u128 + tally.refused as u128;
    let more = reading.refused as u128 + reading.parts.len() as u128;
    packets < u64::MAX && counts + more <= u64::MAX as u128
}

impl Server {
    /// There was no packet yet.
    pub fn new(alloc: Global) -> Result<Server, OutOfMemory>
        ensures { IfOk result (StandsFor [] []) }
    {
        Ok(Server {
            alloc,
            types: TypeTags::new(alloc)?,
            packets: 0,
            tally: Tally::new(alloc),
        })
    }

    /// How many packets there are in the group in hand.
    pub fn packets(&self) -> u64
        ensures { result ≡ self.now.packets }
    {
        self.packets
    }

    /// A packet more in the group in hand, of at most 65,535 bytes. Each newline ends a line, without the carriage
    /// return right before it; what follows the last newline is a line where it isn't empty. A line is refused whole,
    /// and a part that would take a sum or a gauge out of the range of numbers is left out: both are counted. After
    /// `OutOfMemory` the server is as before; it comes too where a count of the group would reach 2^64.
    pub fn packet(&mut self, bytes: &[u8]) -> Result<(), OutOfMemory>
        requires { length bytes.now ≤ 65535 }
        ensures ok { (earlier : List (List Packet)) (hand : List Packet) → StandsFor earlier hand self.old
            → OnOk result (StandsFor earlier (hand ++ bytes.now ∷ []) self.new) }
        ensures err { (earlier : List (List Packet)) (hand : List Packet) → StandsFor earlier hand self.old
            → OnErr result (StandsFor earlier hand self.new) }
    {
        let reading = read_packet(self.alloc, &self.types, bytes)?;
        if !can_count(self.packets, &self.tally, &reading) {
            return Err(OutOfMemory);
        }
        let placed = self.tally.place_all(self.alloc, reading.parts)?;
        self.packets += 1;
        self.tally.add_reading(placed, reading.refused as u64);
        Ok(())
    }

    /// What is served of the packets since the last call of this kind, at the time 0; then a new group begins. The
    /// metric `statsd` comes first, with the fields `packets` and `refused` (how many lines were refused and parts left
    /// out). Behind it each series with a part that counts has a metric, in the order of their first such parts: a
    /// counter its sum as `value`, a gauge its level since the start as `value`, a timing `count`, `lower`, `upper` and
    /// `sum`, a set the `count` of its distinct members. After `OutOfMemory` the server is as before.
    pub fn gather(&mut self) -> Result<Vec<Metric>, OutOfMemory>
        ensures served { (earlier : List (List Packet)) (hand : List Packet) → StandsFor earlier hand self.old
            → IfOk result (λ metrics. metrics.items ≡ served earlier hand) }
        ensures ok { (earlier : List (List Packet)) (hand : List Packet) → StandsFor earlier hand self.old
            → OnOk result (StandsFor (earlier ++ hand ∷ []) [] self.new) }
        ensures err { (earlier : List (List Packet)) (hand : List Packet) → StandsFor earlier hand self.old
            → OnErr result (StandsFor earlier hand self.new) }
    {
        let metrics = made_of(self.alloc, self.packets, &self.tally)?;
        self.packets = 0;
        self.tally.clear();
        Ok(metrics)
    }
}
