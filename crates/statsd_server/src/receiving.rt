//! Groups of packets that are received.
ghost use Rattle.std.specs.Prelude.{◌≡◌, ◌≤◌, ◌<◌, ◌+◌, ◌++◌, [], ℕ, List, length, vec_len, IfOk, IfSome, OnOk, OnErr};
ghost use Rattle.std.specs.Prelude.{MatchOption};
ghost use Rattle.std.specs.Io.KnownBytes.{Keeps};
ghost use Rattle.statsd_server.specs.declared.datagrams.Dgram.{Dgram as DgramSeen};
ghost use Rattle.statsd_server.specs.Datagrams.{size_of, Receives, ReceiveHasCause, TakesAtMost};
ghost use Rattle.statsd_server.specs.Groups.{groups, lines_text, served_text};
ghost use Rattle.statsd_server.specs.Stages.{pending_in, quiets_in, IsClear, IsSettled};

use crate::datagrams::{Datagrams, Got};
use crate::stage::{Stage, behind_end, behind_packet, behind_quiet};
use crate::standing::Standing;
use agent_base::{Failed, ReadRefused};
use fixed_num::OutOfMemory;
use metric::Metric;
use std::alloc::Global;

/// How many bytes a packet has at most.
const MOST: usize = 65_535;

/// Groups that are received, each of so many packets, or of fewer, at least one, where a quiet or the end comes behind
/// them. Nothing more is received from the end on, and from the last of so many quiets in succession before a group on.
#[derive(Drop)]
pub(crate) struct Receiving {
    standing: Standing,
    buffer: Vec<u8>,
    packets: u32,
    quiet_limit: u32,
    stage: Stage,
    ghost room: { vec_len buffer ≡ 65535 },
    ghost some: { 1 ≤ packets },
    ghost counted: { quiets_in stage < quiet_limit },
    ghost pending: { pending_in stage ≤ 65535 },
}

/// Receives into a buffer.
fn receive_into<D: Datagrams>(buffer: &mut Vec<u8>, datagrams: &mut D) -> Result<Got, Failed>
    requires { vec_len buffer.old ≡ 65535 }
    ensures room { vec_len buffer.new ≡ 65535 }
    ensures short { IfOk result (λ got. size_of got ≤ 65535) }
    ensures takes { Receives (D.told datagrams.old).left (D.told datagrams.new).left result buffer.new.items }
    ensures cause { ReceiveHasCause (D.told datagrams.old).faults (D.told datagrams.new).faults result }
{
    datagrams.recv(buffer.as_mut_slice())
}

impl Receiving {
    ghost use Rattle.statsd_server.specs.declared.stage.Stage.TheVariants.{Open, Pending};
    ghost use Rattle.statsd_server.specs.Receiving.{rule_of, text_of, told_text, turns_of, CallHasCause};

    /// No packet was received yet.
    pub(crate) fn new(
        alloc: Global,
        packets: u32,
        quiet_limit: u32,
    ) -> Result<Receiving, OutOfMemory>
        requires packets { 1 ≤ packets }
        requires limit { 1 ≤ quiet_limit }
        ensures text { IfOk result (λ r. (left : List DgramSeen) → text_of r left ≡ served_text []
            (groups (record { packets = packets; quiet_limit = quiet_limit }) [] 0 left)) }
        ensures rule { IfOk result
            (λ r. rule_of r ≡ record { packets = packets; quiet_limit = quiet_limit }) }
    {
        let standing = Standing::new(alloc)?;
        let buffer = vec![in alloc; 0u8; MOST]?;
        Ok(Receiving {
            standing,
            buffer,
            packets,
            quiet_limit,
            stage: Stage::Open(0),
        })
    }

    /// Takes in a packet that was received, where one waits. After an error it waits still.
    fn take_pending(&mut self) -> Result<(), ReadRefused>
        ensures same { (left : List DgramSeen) → text_of self.new left ≡ text_of self.old left }
        ensures clear { OnOk result (IsClear self.new.stage) }
        ensures short { OnErr result (result ≡ Err ReadRefused.OutOfMemory) }
        ensures rule { rule_of self.new ≡ rule_of self.old }
        ensures turns { turns_of self.new ≤ turns_of self.old }
    {
        let Stage::Pending(size) = self.stage else {
            return Ok(());
        };
        match self.standing.packet(&self.buffer[..size]) {
            Ok(()) => {
                self.stage = behind_packet(self.standing.packets(), self.packets);
                Ok(())
            }
            Err(OutOfMemory) => Err(ReadRefused::OutOfMemory),
        }
    }

    /// Receives once.
    fn step<D: Datagrams>(&mut self, quiets: u32, datagrams: &mut D) -> Result<(), ReadRefused>
        requires { self.old.stage ≡ Open quiets }
        ensures same { Keeps (told_text self.old (D.told datagrams.old).left)
            (told_text self.new (D.told datagrams.new).left) }
        ensures cause { CallHasCause (D.told datagrams.old).faults (D.told datagrams.new).faults result }
        ensures clear { OnOk result (IsClear self.new.stage) }
        ensures turns { OnOk result (turns_of self.new < turns_of self.old) }
        ensures few { TakesAtMost 1 (D.told datagrams.old).left (D.told datagrams.new).left }
        ensures rule { rule_of self.new ≡ rule_of self.old }
    {
        match receive_into(&mut self.buffer, datagrams) {
            Ok(Got::Packet(size)) => {
                self.stage = Stage::Pending(size);
                self.take_pending()
            }
            Ok(Got::Quiet) => {
                self.stage = behind_quiet(self.standing.packets(), quiets, self.quiet_limit);
                Ok(())
            }
            Ok(Got::End) => {
                self.stage = behind_end(self.standing.packets());
                Ok(())
            }
            Err(Failed) => Err(ReadRefused::Failed),
        }
    }

    /// Receives until a group is whole or nothing more is received.
    pub(crate) fn receive<D: Datagrams>(&mut self, datagrams: &mut D) -> Result<(), ReadRefused>
        ensures same { Keeps (told_text self.old (D.told datagrams.old).left)
            (told_text self.new (D.told datagrams.new).left) }
        ensures cause { CallHasCause (D.told datagrams.old).faults (D.told datagrams.new).faults result }
        ensures settled { OnOk result (IsSettled self.new.stage) }
        ensures few { TakesAtMost (self.old.packets + self.old.quiet_limit)
            (D.told datagrams.old).left (D.told datagrams.new).left }
        ensures rule { rule_of self.new ≡ rule_of self.old }
    {
        self.take_pending()?;
        while let Stage::Open(quiets) = self.stage {
            self.step(quiets, datagrams)?;
        }
        Ok(())
    }

    /// What is served of the group in hand, if one is whole.
    pub(crate) fn gathered(&mut self) -> Result<Option<Vec<Metric>>, ReadRefused>
        requires { IsSettled self.old.stage }
        ensures given { (left : List DgramSeen) → IfOk result (λ found. MatchOption found
            ((text_of self.old left ≡ []) × (text_of self.new left ≡ []))
            (λ metrics. text_of self.old left ≡ lines_text metrics.items ++ text_of self.new left)) }
        ensures some { IfOk result (λ found. IfSome found (λ metrics. 0 < length (lines_text metrics.items))) }
        ensures same { (left : List DgramSeen) → OnErr result (text_of self.new left ≡ text_of self.old left) }
        ensures short { OnErr result (result ≡ Err ReadRefused.OutOfMemory) }
        ensures rule { rule_of self.new ≡ rule_of self.old }
    {
        if self.stage == Stage::Ended {
            return Ok(None);
        }
        match self.standing.gather() {
            Ok(metrics) => {
                self.stage = Stage::Open(0);
                Ok(Some(metrics))
            }
            Err(OutOfMemory) => Err(ReadRefused::OutOfMemory),
        }
    }
}
