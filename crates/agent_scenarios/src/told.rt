//! A world in memory whose report may fail.
use crate::serving::Input;
use agent_base::{MemClock, MemSink, MemWorld, OpenFault, PutFault, Sink, Source, World};
use std::alloc::Global;

/// A world in memory, with a sink that is told the report.
#[derive(Drop)]
pub struct TellingWorld<S> {
    pub parts: MemWorld<S>,
    pub report: MemSink,
}

/// Such a world, of what these tables read.
pub type ToldWorld = TellingWorld<Input>;

impl<S: Source + Send + Drop> World for TellingWorld<S> {
    type In = S;

    type Out = MemSink;

    type Clk = MemClock;

    ghost view = { λ w. record {
      ins = (⟦<MemWorld<S> as World>⟧.view w.parts).ins;
      outs = (⟦<MemWorld<S> as World>⟧.view w.parts).outs;
      clocks = (⟦<MemWorld<S> as World>⟧.view w.parts).clocks;
      report = record
          { reported = (⟦<MemSink as Sink>⟧.told w.report).bytes; report_faults = (⟦<MemSink as Sink>⟧.told w.report).faults };
    } };

    fn open_in(&mut self, place: &str) -> Result<S, OpenFault> {
        self.parts.open_in(place)
    }

    fn open_out(&mut self, place: &str) -> Result<MemSink, OpenFault> {
        self.parts.open_out(place)
    }

    fn give_in(&mut self, place: &str, part: S) {
        self.parts.give_in(place, part);
    }

    fn give_out(&mut self, place: &str, part: MemSink) {
        self.parts.give_out(place, part);
    }

    fn clock(&mut self, who: u32, pause: i64) -> MemClock {
        self.parts.clock(who, pause)
    }

    fn report(&mut self, bytes: &[u8]) -> Result<(), PutFault> {
        self.report.put(bytes)
    }

    fn say(&mut self, alloc: Global, line: &str) {
        self.parts.say(alloc, line);
    }
}
