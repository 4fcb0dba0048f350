//! What is read in these worlds: bytes in memory, or what a StatsD server serves of packets in memory.
ghost use Rattle.std.specs.Prelude.{◌≤◌, All, IfOk};
ghost use Rattle.statsd_server.specs.Datagrams.{bytes_in};

use crate::laid::{failing_reads, source_at};
use crate::marks::text_about;
use agent_base::{Either, MemSource};
use fixed_num::Seq;
use scenario_tables::Part;
use statsd_server::{Dgram, MemDatagrams, StatsdSource};
use std::alloc::Global;
use std::test::Fail;

/// What is read.
pub type Input = Either<MemSource, StatsdSource<MemDatagrams>>;

/// What is read at a place: a server where it begins with `udp `.
pub fn input_at(alloc: Global, parts: &[Part<'_>], place: &str) -> Result<Input, Fail> {
    if place.starts_with("udp ") {
        Ok(Either::Two(server_at(alloc, parts, place)?))
    } else {
        Ok(Either::One(source_at(alloc, parts, place)?))
    }
}

/// The server at a place `udp ADDRESS PACKETS QUIETS`, and what it receives: each line of the place's text is a packet, in
/// which `\n` stands for a newline, or `quiet`.
fn server_at(
    alloc: Global,
    parts: &[Part<'_>],
    place: &str,
) -> Result<StatsdSource<MemDatagrams>, Fail> {
    let (front, quiet_limit) = split_last(place)?;
    let (_address, packets) = split_last(front)?;
    let (packets, quiet_limit) = (packets.parse::<u32>()?, quiet_limit.parse::<u32>()?);
    let text = text_about(alloc, parts, "in", place)?;
    let list = datagrams_in(alloc, str::from_utf8(text.as_slice())?)?;
    let datagrams = MemDatagrams::new(alloc, list, failing_reads(alloc, parts, place)?);
    Ok(StatsdSource::new(
        alloc,
        datagrams,
        u32::max(packets, 1),
        u32::max(quiet_limit, 1),
    )?)
}

/// A place without its last word, and that word.
fn split_last(place: &str) -> Result<(&str, &str), Fail> {
    place
        .rsplit_once(' ')
        .ok_or_else(|| Fail::new("a place of a server has another form"))
}

/// The datagrams that lines say.
fn datagrams_in(alloc: Global, text: &str) -> Result<Vec<Dgram>, Fail>
    ensures short { IfOk result (λ list. All (λ d. bytes_in d ≤ 65535) list.items) }
{
    let mut list = Vec::new(alloc);
    for line in text.lines() {
        list.push(datagram_of(alloc, line)?)?;
    }
    Ok(list)
}

/// The datagram that a line says.
fn datagram_of(alloc: Global, line: &str) -> Result<Dgram, Fail>
    ensures short { IfOk result (λ d. bytes_in d ≤ 65535) }
{
    if line == "quiet" {
        return Ok(Dgram::Quiet);
    }
    let packet = line.replace(alloc, "\\n", "\n")?;
    if packet.len() > 65_535 {
        return Err(Fail::new("a packet has more than 65,535 bytes"));
    }
    Ok(Dgram::Packet(Seq::of(packet.into_bytes())))
}
