//! Reading packets.
ghost use Rattle.std.specs.Prelude.{◌≡◌, ◌<◌, ◌≤◌, ◌+◌, ◌++◌, ◌^◌, length, map, is_err, IfOk, OnOk, if◌then◌else◌};
ghost use Rattle.statsd_text.specs.declared.fault.StatsdKind.TheVariants as kinds;
ghost use Rattle.statsd_server.specs.Kept.{said_by};
ghost use Rattle.statsd_server.specs.Packets.{line_read, lines_of, parts_of_lines, parts_read, refused_lines};
ghost use Rattle.statsd_server.specs.Packets.{without_return};

use crate::part::{Part, append_line, append_metrics};
use crate::tags::TypeTags;
use fixed_num::OutOfMemory;
use statsd_text::{StatsdFault, StatsdKind, read_line, read_said};
use std::alloc::Global;

/// Few lines are shorter: by that room is taken for the parts of a packet, which may be more.
const LINE_BYTES: usize = 16;

/// What is read: the parts, with what they say, and how many lines are refused.
#[derive(Drop)]
pub(crate) struct Reading {
    pub parts: Vec<Part>,
    pub refused: usize,
}

/// A line without the carriage return at its end.
fn without_return(line: &[u8]) -> &[u8]
    ensures { result.now ≡ without_return line.now }
{
    match line {
        [front @ .., b'\r'] => front,
        _ => line,
    }
}

impl Reading {
    /// One line more.
    fn add_line(&mut self, alloc: Global, types: &TypeTags, line: &[u8]) -> Result<(), OutOfMemory>
        requires { self.old.refused + 1 < 2 ^ 64 }
        ensures parts { OnOk result
            (self.new.parts.items ≡ self.old.parts.items ++ map said_by (parts_read (line_read line.now))) }
        ensures refused { OnOk result
            (self.new.refused ≡ self.old.refused + (if is_err (line_read line.now) then 1 else 0)) }
    {
        match read_said(alloc, line) {
            Ok(Some(said)) => append_line(alloc, types, said, &mut self.parts),
            Ok(None) => self.add_metrics(alloc, line),
            Err(fault) => self.refuse(fault),
        }
    }

    /// The same for a line that is blank, or has many tags.
    #[cold]
    fn add_metrics(&mut self, alloc: Global, line: &[u8]) -> Result<(), OutOfMemory>
        requires { self.old.refused + 1 < 2 ^ 64 }
        ensures parts { OnOk result
            (self.new.parts.items ≡ self.old.parts.items ++ map said_by (parts_read (line_read line.now))) }
        ensures refused { OnOk result
            (self.new.refused ≡ self.old.refused + (if is_err (line_read line.now) then 1 else 0)) }
    {
        match read_line(alloc, line, 0) {
            Ok(metrics) => append_metrics(alloc, metrics.as_slice(), &mut self.parts),
            Err(fault) => self.refuse(fault),
        }
    }

    /// One refused line more, unless memory was short.
    fn refuse(&mut self, fault: StatsdFault) -> Result<(), OutOfMemory>
        requires { self.old.refused + 1 < 2 ^ 64 }
        ensures refused { OnOk result (self.new.refused ≡ self.old.refused + 1) }
        ensures fault { OnOk result ((fault.kind ≡ kinds.OutOfMemory) → ⊥) }
        ensures parts { self.new.parts ≡ self.old.parts }
    {
        match fault.kind {
            StatsdKind::OutOfMemory => Err(OutOfMemory),
            _ => {
                self.refused += 1;
                Ok(())
            }
        }
    }
}

/// Reads a packet.
pub(crate) fn read_packet(
    alloc: Global,
    types: &TypeTags,
    packet: &[u8],
) -> Result<Reading, OutOfMemory>
    requires { length packet.now ≤ 65535 }
    ensures parts { IfOk result (λ reading. reading.parts.items ≡ map said_by (parts_of_lines (lines_of packet.now))) }
    ensures refused { IfOk result (λ reading. reading.refused ≡ refused_lines (lines_of packet.now)) }
    ensures few { IfOk result (λ reading. reading.refused ≤ 65536) }
{
    let mut reading = Reading {
        parts: Vec::with_capacity(alloc, packet.len() / LINE_BYTES + 1)?,
        refused: 0,
    };
    let mut start = 0;
    let mut i = 0;
    while i < packet.len() {
        if packet[i] == b'\n' {
            reading.add_line(alloc, types, without_return(&packet[start..i]))?;
            i += 1;
            start = i;
        } else {
            i += 1;
        }
    }
    if start < packet.len() {
        reading.add_line(alloc, types, &packet[start..])?;
    }
    Ok(reading)
}
