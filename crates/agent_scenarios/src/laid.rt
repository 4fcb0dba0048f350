//! Worlds as rows lay them.
ghost use Rattle.std.specs.Prelude.{◌≡◌, IfOk, false};
ghost use Rattle.agent_base.specs.Places.{AreHome};

use crate::marks::{failing, mark_of, text_about, unread};
use crate::serving::input_at;
use crate::told::{TellingWorld, ToldWorld};
use agent_base::{Clock, MemClock, MemSink, MemSource, MemWorld, World};
use scenario_tables::Part;
use std::alloc::Global;
use std::test::Fail;

/// A world of which no part is out.
#[derive(Drop)]
pub struct Scene {
    pub world: ToldWorld,
    ghost ins_home: { AreHome (⟦<ToldWorld as World>⟧.view world).ins },
    ghost outs_home: { AreHome (⟦<ToldWorld as World>⟧.view world).outs },
}

/// The source at a place: what it gives, its reads that fail, and how many bytes a read gives at most.
pub fn source_at(alloc: Global, parts: &[Part<'_>], place: &str) -> Result<MemSource, Fail> {
    let bytes = text_about(alloc, parts, "in", place)?;
    let reads = failing_reads(alloc, parts, place)?;
    let most = match parts.iter().find(|part| part.key == "chunks") {
        Some(part) => part.value.parse::<usize>()?,
        None => 1 << 20,
    };
    Ok(MemSource::new(alloc, bytes, reads, usize::max(most, 1)))
}

/// The numbers of the reads at a place that fail; of a server, those of the calls by which it receives.
pub fn failing_reads(alloc: Global, parts: &[Part<'_>], place: &str) -> Result<Vec<u64>, Fail> {
    let mut reads = Vec::new(alloc);
    for (number, _bytes) in failing(alloc, parts, "reads", place)?.as_slice() {
        reads.push(*number)?;
    }
    Ok(reads)
}

/// The empty sink at a place, with its puts that fail.
pub fn sink_at(alloc: Global, parts: &[Part<'_>], place: &str) -> Result<MemSink, Fail> {
    Ok(MemSink::new(alloc, failing(alloc, parts, "puts", place)?))
}

/// The places at which a row lays parts.
#[derive(Drop)]
pub struct Places<'a> {
    /// Those that are read.
    pub ins: Vec<&'a str>,
    /// Those that are written.
    pub outs: Vec<&'a str>,
}

/// The places at which a row lays parts, but those that aren't there after all.
pub fn places_laid<'a>(alloc: Global, parts: &[Part<'a>]) -> Result<Places<'a>, Fail> {
    let (mut ins, mut outs) = (Vec::new(alloc), Vec::new(alloc));
    for part in parts {
        if part.key == "in" {
            let place = mark_of(part)?.about;
            if !is_gone(parts, place) {
                ins.push(place)?;
            }
        }
        if part.key == "out" {
            for place in part.value.split(' ') {
                if !is_gone(parts, place) {
                    outs.push(place)?;
                }
            }
        }
    }
    Ok(Places { ins, outs })
}

/// Whether a place isn't there after all.
fn is_gone(parts: &[Part<'_>], place: &str) -> bool {
    parts
        .iter()
        .any(|part| part.key == "gone" && part.value == place)
}

/// A clock that gives these moments.
fn clock_of(alloc: Global, moments: &str) -> Result<MemClock, Fail>
    ensures first { IfOk result (λ clock. (⟦<MemClock as Clock>⟧.told clock).next ≡ 0) }
    ensures unstopped { IfOk result (λ clock. ⟦<MemClock as Clock>⟧.stopped clock ≡ false) }
{
    let mut list = Vec::new(alloc);
    for moment in moments.split_whitespace() {
        list.push(moment.parse::<i64>()?)?;
    }
    Ok(MemClock::new(alloc, list))
}

/// Lays what is read at a place.
fn lay_in(alloc: Global, parts: &[Part<'_>], place: &str, scene: &mut Scene) -> Result<(), Fail> {
    if is_gone(parts, place) {
        return Ok(());
    }
    scene
        .world
        .parts
        .add_in(place, input_at(alloc, parts, place)?)?;
    Ok(())
}

/// Lays the sinks at places.
fn lay_outs(
    alloc: Global,
    parts: &[Part<'_>],
    places: &str,
    scene: &mut Scene,
) -> Result<(), Fail> {
    for place in places.split(' ') {
        if !is_gone(parts, place) {
            scene
                .world
                .parts
                .add_out(place, sink_at(alloc, parts, place)?)?;
        }
    }
    Ok(())
}

/// Lays a clock: its number, and its moments.
fn lay_clock(alloc: Global, value: &str, scene: &mut Scene) -> Result<(), Fail> {
    let (who, moments) = value.split_once(' ').unwrap_or((value, ""));
    let who = who.parse::<u32>()?;
    scene.world.parts.add_clock(who, clock_of(alloc, moments)?)?;
    Ok(())
}

/// Lays what one mark says.
fn lay_part(
    alloc: Global,
    parts: &[Part<'_>],
    part: &Part<'_>,
    scene: &mut Scene,
) -> Result<(), Fail> {
    match part.key {
        "in" => lay_in(alloc, parts, mark_of(part)?.about, scene),
        "out" => lay_outs(alloc, parts, part.value, scene),
        "clock" => lay_clock(alloc, part.value, scene),
        "words" | "parts" | "gone" | "chunks" | "reads" | "puts" | "wanted" => Ok(()),
        _ => Err(unread(part)),
    }
}

/// The world that a row lays.
pub fn lay(alloc: Global, parts: &[Part<'_>]) -> Result<Scene, Fail> {
    let world = TellingWorld {
        parts: MemWorld::new(alloc),
        report: sink_at(alloc, parts, "report")?,
    };
    let mut scene = Scene { world };
    for part in parts {
        lay_part(alloc, parts, part, &mut scene)?;
    }
    Ok(scene)
}
