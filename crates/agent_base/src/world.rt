//! A world of places.
ghost use Rattle.std.specs.Prelude.{◌≡◌, true, false, IfOk, IfErr};
ghost use Rattle.agent_base.specs.Places.{Opens, Refuses, TakesIn};
ghost use Rattle.agent_base.specs.Puts.{PutAppends, PutHasCause};
ghost use Rattle.agent_base.specs.Views.{WorldView, OnlyIn, OnlyOut, OnlyClock, OnlyReport};

use crate::{Clock, PutFault, Sink, Source};
use std::alloc::Global;

/// Why a place wasn't opened.
#[derive(Clone, Copy, Debug, PartialEq, Eq)]
pub enum OpenFault {
    /// The outside failed, or nothing is there.
    Failed,
    /// No memory was left, and the place is as before.
    OutOfMemory,
}

/// The places that are read and written, the clocks, the report, and the lines for people.
///
/// While the part of a place is out, the world tells nothing of that place's own bytes and count: the part
/// does.
pub trait World {
    /// What is read.
    type In: Source + Send + Drop;

    /// What is written.
    type Out: Sink + Send + Drop;

    /// What gives moments.
    type Clk: Clock + Send + Drop;

    /// What it tells.
    ghost view: { Self → WorldView };

    /// Moves the part of an input place out; nothing else changes.
    fn open_in(&mut self, place: &str) -> Result<Self::In, OpenFault>
        requires { ((view self.old).ins place.now).is_out ≡ false }
        ensures opened { IfOk result (λ part. Opens (Self.In.told part) ((view self.old).ins place.now)
            ((view self.new).ins place.now)) }
        ensures refused { IfErr result (λ e. Refuses e ((view self.old).ins place.now) ((view self.new).ins place.now)) }
        ensures only { OnlyIn place.now (view self.old) (view self.new) };

    /// Moves the part of an output place out; nothing else changes.
    fn open_out(&mut self, place: &str) -> Result<Self::Out, OpenFault>
        requires { ((view self.old).outs place.now).is_out ≡ false }
        ensures opened { IfOk result
            (λ part. Opens (Self.Out.told part) ((view self.old).outs place.now)
            ((view self.new).outs place.now)) }
        ensures refused { IfErr result (λ e. Refuses e ((view self.old).outs place.now) ((view self.new).outs place.now)) }
        ensures only { OnlyOut place.now (view self.old) (view self.new) };

    /// Gives the part of an input place back: the place tells what the part tells.
    fn give_in(&mut self, place: &str, part: Self::In)
        requires { ((view self.old).ins place.now).is_out ≡ true }
        ensures given { TakesIn (Self.In.told part) ((view self.old).ins place.now)
            ((view self.new).ins place.now) }
        ensures only { OnlyIn place.now (view self.old) (view self.new) };

    /// Gives the part of an output place back: the place tells what the part tells.
    fn give_out(&mut self, place: &str, part: Self::Out)
        requires { ((view self.old).outs place.now).is_out ≡ true }
        ensures given { TakesIn (Self.Out.told part) ((view self.old).outs place.now)
            ((view self.new).outs place.now) }
        ensures only { OnlyOut place.now (view self.old) (view self.new) };

    /// The clock with this number, at its first moment; its waits pause so many nanoseconds.
    fn clock(&mut self, who: u32, pause: i64) -> Self::Clk
        ensures told { (Self.Clk.told result).moments ≡ (view self.old).clocks who }
        ensures first { (Self.Clk.told result).next ≡ 0 }
        ensures unstopped { Self.Clk.stopped result ≡ false }
        ensures only { OnlyClock who (view self.old) (view self.new) };

    /// Appends to the report, as a put does.
    fn report(&mut self, bytes: &[u8]) -> Result<(), PutFault>
        ensures bytes { PutAppends (view self.old).report.reported (view self.new).report.reported bytes.now result }
        ensures cause { PutHasCause (view self.old).report.report_faults (view self.new).report.report_faults result }
        ensures only { OnlyReport (view self.old) (view self.new) };

    /// Says a line to people; what the world tells is as before. A line for which no memory is left isn't said.
    fn say(&mut self, alloc: Global, line: &str)
        ensures same { view self.new ≡ view self.old };
}
