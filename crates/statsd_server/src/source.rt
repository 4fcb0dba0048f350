//! What a server serves of datagrams, as line protocol text.
ghost use Rattle.std.specs.Prelude.{◌≡◌, ◌≤◌, ◌+◌, [], IfOk, OnOk};
ghost use Rattle.std.specs.Io.{ReadsAtMost};
ghost use Rattle.std.specs.Io.KnownBytes.{IsAtEnd, Keeps, ReadConsumes};
ghost use Rattle.agent_base.specs.Reads.{ReadHasCause};
ghost use Rattle.std.specs.Option.{option_map};
ghost use Rattle.statsd_server.specs.Datagrams.{TakesAtMost};
ghost use Rattle.statsd_server.specs.Groups.{groups, served_text};

use crate::datagrams::Datagrams;
use crate::outgoing::Outgoing;
use crate::receiving::Receiving;
use agent_base::{ReadRefused, Source};
use fixed_num::OutOfMemory;
use std::alloc::Global;

/// What a server serves of datagrams, group by group, as lines of line protocol without times.
///
/// A group is so many packets. A quiet, or the end, behind fewer closes it with these. Nothing more is received from
/// the end on, and from the last of `quiet_limit` quiets in succession before a group on. A read that is refused for
/// want of memory loses nothing: the packet that had no room waits for the next read, and so do the packets in hand and
/// the text of a group.
#[derive(Drop)]
pub struct StatsdSource<D> {
    datagrams: D,
    receiving: Receiving,
    outgoing: Outgoing,
}

impl<D: Datagrams + Drop> StatsdSource<D> {
    ghost use Rattle.statsd_server.specs.Receiving.{CallHasCause};
    ghost use Rattle.statsd_server.specs.Outgoing.{text_in};
    ghost use Rattle.statsd_server.specs.Source.{arriving_of, bytes_of, most_taken};

    /// Groups of so many packets each, which end with so many quiets in succession; both are at least 1. It takes a
    /// buffer of 65,535 bytes, into which all packets are received.
    pub fn new(
        alloc: Global,
        datagrams: D,
        packets: u32,
        quiet_limit: u32,
    ) -> Result<StatsdSource<D>, OutOfMemory>
        requires packets { 1 ≤ packets }
        requires limit { 1 ≤ quiet_limit }
        ensures bytes { IfOk result (λ source. (⟦<StatsdSource<D> as Source>⟧.told source).bytes
            ≡ option_map (λ left. served_text []
            (groups (record { packets = packets; quiet_limit = quiet_limit }) [] 0 left))
            (D.told datagrams).left) }
        ensures faults { IfOk result (λ source. (⟦<StatsdSource<D> as Source>⟧.told source).faults
            ≡ (D.told datagrams).faults) }
        ensures arriving { IfOk result (λ source. arriving_of D.told source ≡ D.told datagrams) }
        ensures most { IfOk result (λ source. most_taken source ≡ packets + quiet_limit) }
    {
        let receiving = Receiving::new(alloc, packets, quiet_limit)?;
        Ok(StatsdSource {
            datagrams,
            receiving,
            outgoing: Outgoing::new(alloc),
        })
    }

    /// Has text in hand, unless nothing more is served.
    fn make_ready(&mut self) -> Result<(), ReadRefused>
        ensures same { Keeps (bytes_of D.told self.old) (bytes_of D.told self.new) }
        ensures cause { CallHasCause (D.told self.old.datagrams).faults (D.told self.new.datagrams).faults result }
        ensures ready { OnOk result (text_in self.new.outgoing ≡ [] → IsAtEnd (bytes_of D.told self.new)) }
        ensures few { TakesAtMost (most_taken self.old) (D.told self.old.datagrams).left
            (D.told self.new.datagrams).left }
        ensures most { most_taken self.new ≡ most_taken self.old }
    {
        if !self.outgoing.is_empty() {
            return Ok(());
        }
        self.receiving.receive(&mut self.datagrams)?;
        match self.receiving.gathered()? {
            Some(metrics) => {
                self.outgoing.accept(metrics);
                Ok(())
            }
            None => Ok(()),
        }
    }

    /// The next read, as `read` of `Source`; it takes at most so many datagrams as a group has packets and the quiet
    /// limit together.
    pub fn read_next(&mut self, buf: &mut [u8]) -> Result<usize, ReadRefused>
        ensures bound { ReadsAtMost result buf.new }
        ensures bytes { ReadConsumes (bytes_of D.told self.old) (bytes_of D.told self.new) result buf.new }
        ensures cause { ReadHasCause (arriving_of D.told self.old).faults (arriving_of D.told self.new).faults result }
        ensures few { TakesAtMost (most_taken self.old) (arriving_of D.told self.old).left
            (arriving_of D.told self.new).left }
        ensures most { most_taken self.new ≡ most_taken self.old }
    {
        if buf.is_empty() {
            return Ok(0);
        }
        self.make_ready()?;
        match self.outgoing.give(buf) {
            Ok(count) => Ok(count),
            Err(OutOfMemory) => Err(ReadRefused::OutOfMemory),
        }
    }
}

impl<D: Datagrams + Drop> Source for StatsdSource<D> {
    ghost use Rattle.statsd_server.specs.Source.{source_told};

    ghost told = { source_told D.told };

    fn read(&mut self, buf: &mut [u8]) -> Result<usize, ReadRefused> {
        self.read_next(buf)
    }
}
