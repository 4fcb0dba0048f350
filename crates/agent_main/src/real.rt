//! The real world: files, the standard streams, and the clock.
ghost use Rattle.std.specs.Prelude.{◌≡◌, None};

mod clock;
mod opening;
mod serving;
mod streams;

use crate::shown::Shown;
use agent_base::{OpenFault, PutFault, Sink, Slots, Source, World};
use clock::RealClock;
pub use opening::{Refusal, StandardStreams, open_standard};
use opening::{FileIdentity, in_plain_words};
use serving::Input;
use std::alloc::Global;
use std::fs::File;
use std::io::{ErrorKind, Stderr, Stdin, Stdout, Write};
use std::net::Net;
use std::rt::{Clock, Files};
use std::thread::Threads;
use streams::Writer;

/// The runtime's handles of the standard streams.
#[derive(Clone, Copy)]
pub struct StreamHandles {
    pub input: Stdin,
    pub output: Stdout,
    pub error: Stderr,
}

/// The real world. The place `stdin` is standard input and `stdout` standard output; an input's place that begins with
/// `udp ` is a StatsD server; every other place is a file. The report goes to standard output. A part that was given back is handed out again where its place
/// is opened once more.
///
/// The file of an output place is made empty at the first put, or as its part is given back; but where the
/// run never began, since a place wasn't opened, it keeps what it has. Where it can't be made empty it keeps
/// what it has too: each put fails, and standard error says so.
#[derive(Drop)]
pub struct RealWorld<'r, R> {
    rt: &'r R,
    alloc: Global,
    streams: StreamHandles,
    standard: StandardStreams,
    /// The regular files of the places that were opened.
    places: Vec<FileIdentity>,
    ins: Slots<Input>,
    outs: Slots<Writer>,
    /// A clock was asked for, which a run does once all its places are open, and a start that is refused
    /// never does.
    has_begun: bool,
    refused: Option<Refusal>,
    report: Writer,
    reported: Vec<u8>,
}

impl<'r, R: Files<File = File> + Clock + Net + Threads + Sync> RealWorld<'r, R> {
    ghost use Rattle.agent_base.specs.Places.{AreHome};

    /// The world in which nothing is opened yet but the standard streams.
    pub fn new(
        rt: &'r R,
        alloc: Global,
        streams: StreamHandles,
        standard: StandardStreams,
    ) -> RealWorld<'r, R>
        ensures ins { AreHome (⟦<RealWorld<'r, R> as World>⟧.view result).ins }
        ensures outs { AreHome (⟦<RealWorld<'r, R> as World>⟧.view result).outs }
    {
        RealWorld {
            rt,
            alloc,
            streams,
            standard,
            places: Vec::new(alloc),
            ins: Slots::new(alloc),
            outs: Slots::new(alloc),
            has_begun: false,
            refused: None,
            report: Writer::standard(rt, streams.output, standard.output.flatten()),
            reported: Vec::new(alloc),
        }
    }

    /// What was reported, as far as there was memory to keep it.
    pub fn reported(&self) -> &[u8] {
        self.reported.as_slice()
    }

    /// Why the last place wasn't opened that was refused.
    pub fn refused(&self) -> Option<Refusal> {
        Some(in_plain_words(self.refused?))
    }
}

/// Makes the file of a part empty, or tells standard error why that can't be.
fn emptied(mut part: Writer, stderr: Stderr, place: &str) -> Writer
    ensures { result.faults ≡ part.faults }
{
    if let Err(fault) = part.make_empty() {
        let place = Shown(place);
        let _ = eprintln!(stderr; "hogzent: {place} could not be made empty: {fault}");
    }
    part
}

impl<'r, R: Files<File = File> + Clock + Net + Threads + Sync> World for RealWorld<'r, R> {
    ghost use Rattle.agent_base.specs.Slots.{places_of};

    type In = Input;

    type Out = Writer;

    type Clk = RealClock<'r, R>;

    ghost view = { λ w. record {
      ins = places_of (⟦<Input as Source>⟧.told) w.ins;
      outs = places_of (⟦<Writer as Sink>⟧.told) w.outs;
      clocks = λ who. None;
      report = record { reported = None; report_faults = w.report.faults };
    } };

    fn open_in(&mut self, place: &str) -> Result<Input, OpenFault> {
        if !self.ins.has(place) {
            match self.input_at(place) {
                Ok((part, file)) => {
                    if self.places.push(file).is_err() || self.ins.add(place, part).is_err() {
                        return Err(OpenFault::OutOfMemory);
                    }
                }
                Err(refusal) if refusal.kind() == ErrorKind::OutOfMemory => {
                    return Err(OpenFault::OutOfMemory);
                }
                Err(refusal) => self.refused = Some(refusal),
            }
        }
        self.ins.open(place)
    }

    fn open_out(&mut self, place: &str) -> Result<Writer, OpenFault> {
        if !self.outs.has(place) {
            match self.writer_at(place) {
                Ok((part, file)) => {
                    if self.places.push(file).is_err() || self.outs.add(place, part).is_err() {
                        return Err(OpenFault::OutOfMemory);
                    }
                }
                Err(refusal) => self.refused = Some(refusal),
            }
        }
        self.outs.open(place)
    }

    fn give_in(&mut self, place: &str, part: Input) {
        self.ins.give(place, part);
    }

    fn give_out(&mut self, place: &str, part: Writer) {
        if self.has_begun {
            let part = emptied(part, self.streams.error, place);
            self.outs.give(place, part);
        } else {
            self.outs.give(place, part);
        }
    }

    fn clock(&mut self, _who: u32, pause: i64) -> RealClock<'r, R> {
        self.has_begun = true;
        RealClock {
            rt: self.rt,
            pause,
            last: 0,
            waits: 0,
        }
    }

    fn report(&mut self, bytes: &[u8]) -> Result<(), PutFault> {
        self.report.put(bytes)?;
        // A copy, for what standard error is told.
        let _ = self.reported.extend_from_slice(bytes);
        Ok(())
    }

    // In one write.
    fn say(&mut self, alloc: Global, line: &str) {
        if let Ok(text) = format!(in alloc; "hogzent: {line}\n") {
            let _ = self.streams.error.write(text.as_bytes());
        }
    }
}
