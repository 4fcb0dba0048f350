//! A world in memory.
ghost use Rattle.std.specs.Prelude.{◌≡◌, true, false, [], Some, None, is_some, OnOk, OnErr, IfOk, IfErr};
ghost use Rattle.std.specs.Prelude.{MatchOption, List, ℕ, ◌∷◌, ◌++◌, map, string_bytes};
ghost use Rattle.std.specs.Option.{option_copied};
ghost use Rattle.agent_base.specs.Carried.{no_part};
ghost use Rattle.agent_base.specs.Memory.{moments_of};
ghost use Rattle.agent_base.specs.Places.{Opens, Refuses, SameAtAll, AreHome, TakesIn, IsTold, empty_place};
ghost use Rattle.agent_base.specs.Puts.{PutAppends, PutHasCause};
ghost use Rattle.agent_base.specs.Views.{OnlyIn, OnlyOut, OnlyClock, OnlyReport};

use crate::clocks::{put, take};
use crate::fresh::FreshClock;
use crate::slots::Slots;
use crate::{Clock, MemClock, MemSink, MemSource, OpenFault, PutFault, Sink, Source, World};
use fixed_num::OutOfMemory;
use std::alloc::{AllocError, Global};

/// A world in memory. What is added takes the place of what was there.
///
/// Opening a place that is unknown or empty fails. A clock that wasn't added is that of an empty list.
#[derive(Drop)]
pub struct MemWorld<S = MemSource, K = MemSink> {
    alloc: Global,
    ins: Slots<S>,
    outs: Slots<K>,
    clocks: Vec<(u32, FreshClock)>,
    reported: Vec<u8>,
    said: Vec<String>,
}

// Keeps a line behind those that are kept.
fn keep_line(alloc: Global, lines: &mut Vec<String>, line: &str) -> Result<(), AllocError>
    ensures kept { OnOk result
        (map string_bytes lines.new.items ≡ map string_bytes lines.old.items ++ line.now ∷ []) }
    ensures refused { OnErr result (lines.new.items ≡ lines.old.items) }
{
    let kept = String::from_str(alloc, line)?;
    lines.push(kept)?;
    Ok(())
}

impl<S: Source + Send + Drop, K: Sink + Send + Drop> MemWorld<S, K> {
    ghost use Rattle.agent_base.specs.Said.{lines_said};
    ghost use Rattle.agent_base.specs.Standing.{standing, nothing};
    ghost use Rattle.agent_base.specs.Standing.{OnlyInStands, OnlyOutStands, OnlyClockStands};

    /// A world without places and clocks, with an empty report, in which no line was said.
    pub fn new(alloc: Global) -> MemWorld<S, K>
        ensures nothing_stands { standing result ≡ nothing }
        ensures ins { (place : List ℕ) → (⟦<MemWorld<S, K> as World>⟧.view result).ins place ≡ empty_place }
        ensures outs { (place : List ℕ) → (⟦<MemWorld<S, K> as World>⟧.view result).outs place ≡ empty_place }
        ensures ins_home { AreHome ((⟦<MemWorld<S, K> as World>⟧.view result).ins) }
        ensures outs_home { AreHome ((⟦<MemWorld<S, K> as World>⟧.view result).outs) }
        ensures rest { (⟦<MemWorld<S, K> as World>⟧.view result).report ≡ record { reported = Some []; report_faults = 0 } }
        ensures moments { (who : ℕ) → (⟦<MemWorld<S, K> as World>⟧.view result).clocks who ≡ Some (moments_of []) }
        ensures said { lines_said result ≡ [] }
    {
        MemWorld {
            alloc,
            ins: Slots::new(alloc),
            outs: Slots::new(alloc),
            clocks: Vec::new(alloc),
            reported: Vec::new(alloc),
            said: Vec::new(alloc),
        }
    }

    /// Puts a source at an input place.
    pub fn add_in(&mut self, place: &str, s: S) -> Result<(), OutOfMemory>
        ensures added { OnOk result
            (TakesIn (S.told s) ((⟦<MemWorld<S, K> as World>⟧.view self.old).ins place.now)
            ((⟦<MemWorld<S, K> as World>⟧.view self.new).ins place.now)) }
        ensures refused { OnErr result
            (SameAtAll (⟦<MemWorld<S, K> as World>⟧.view self.old).ins
            (⟦<MemWorld<S, K> as World>⟧.view self.new).ins) }
        ensures only { OnlyIn place.now (⟦<MemWorld<S, K> as World>⟧.view self.old)
            (⟦<MemWorld<S, K> as World>⟧.view self.new) }
        ensures home { AreHome (⟦<MemWorld<S, K> as World>⟧.view self.old).ins
            → AreHome (⟦<MemWorld<S, K> as World>⟧.view self.new).ins }
        ensures outs_home { AreHome (⟦<MemWorld<S, K> as World>⟧.view self.old).outs
            → AreHome (⟦<MemWorld<S, K> as World>⟧.view self.new).outs }

        ensures stands { OnOk result ((standing self.new).ins place.now ≡ Some s) }
        ensures stays { OnErr result (standing self.new ≡ standing self.old) }
        ensures beside { OnlyInStands place.now (standing self.old) (standing self.new) }
        ensures said { lines_said self.new ≡ lines_said self.old }
    {
        self.ins.add(place, s)
    }

    /// Puts a sink at an output place.
    pub fn add_out(&mut self, place: &str, s: K) -> Result<(), OutOfMemory>
        ensures added { OnOk result
            (TakesIn (K.told s) ((⟦<MemWorld<S, K> as World>⟧.view self.old).outs place.now)
            ((⟦<MemWorld<S, K> as World>⟧.view self.new).outs place.now)) }
        ensures refused { OnErr result
            (SameAtAll (⟦<MemWorld<S, K> as World>⟧.view self.old).outs
            (⟦<MemWorld<S, K> as World>⟧.view self.new).outs) }
        ensures only { OnlyOut place.now (⟦<MemWorld<S, K> as World>⟧.view self.old)
            (⟦<MemWorld<S, K> as World>⟧.view self.new) }
        ensures home { AreHome (⟦<MemWorld<S, K> as World>⟧.view self.old).outs
            → AreHome (⟦<MemWorld<S, K> as World>⟧.view self.new).outs }
        ensures ins_home { AreHome (⟦<MemWorld<S, K> as World>⟧.view self.old).ins
            → AreHome (⟦<MemWorld<S, K> as World>⟧.view self.new).ins }

        ensures stands { OnOk result ((standing self.new).outs place.now ≡ Some s) }
        ensures stays { OnErr result (standing self.new ≡ standing self.old) }
        ensures beside { OnlyOutStands place.now (standing self.old) (standing self.new) }
        ensures said { lines_said self.new ≡ lines_said self.old }
    {
        self.outs.add(place, s)
    }

    /// Puts a clock that has given no moment at a number.
    pub fn add_clock(&mut self, who: u32, c: MemClock) -> Result<(), OutOfMemory>
        requires first { (⟦<MemClock as Clock>⟧.told c).next ≡ 0 }
        requires unstopped { ⟦<MemClock as Clock>⟧.stopped c ≡ false }

        ensures added { OnOk result
            ((⟦<MemWorld<S, K> as World>⟧.view self.new).clocks who ≡ (⟦<MemClock as Clock>⟧.told c).moments) }
        ensures refused { OnErr result (SameAtAll (⟦<MemWorld<S, K> as World>⟧.view self.old).clocks
            (⟦<MemWorld<S, K> as World>⟧.view self.new).clocks) }
        ensures only { OnlyClock who (⟦<MemWorld<S, K> as World>⟧.view self.old)
            (⟦<MemWorld<S, K> as World>⟧.view self.new) }
        ensures ins_home { AreHome (⟦<MemWorld<S, K> as World>⟧.view self.old).ins
            → AreHome (⟦<MemWorld<S, K> as World>⟧.view self.new).ins }
        ensures outs_home { AreHome (⟦<MemWorld<S, K> as World>⟧.view self.old).outs
            → AreHome (⟦<MemWorld<S, K> as World>⟧.view self.new).outs }

        ensures stands { OnOk result ((standing self.new).clocks who ≡ Some c) }
        ensures stays { OnErr result (standing self.new ≡ standing self.old) }
        ensures beside { OnlyClockStands who (standing self.old) (standing self.new) }
        ensures said { lines_said self.new ≡ lines_said self.old }
    {
        put(&mut self.clocks, who, FreshClock::new(c))
    }

    /// Whether a source stands at an input place. Where none does, the place tells no bytes and no faults.
    pub fn has_in(&self, place: &str) -> bool
        ensures stands { result ≡ is_some ((standing self.now).ins place.now) }
        ensures none { result ≡ false → IsTold no_part ((⟦<MemWorld<S, K> as World>⟧.view self.now).ins place.now) }
    {
        self.ins.has(place)
    }

    /// Whether a sink stands at an output place. Where none does, the place tells no bytes and no faults.
    pub fn has_out(&self, place: &str) -> bool
        ensures stands { result ≡ is_some ((standing self.now).outs place.now) }
        ensures none { result ≡ false → IsTold no_part ((⟦<MemWorld<S, K> as World>⟧.view self.now).outs place.now) }
    {
        self.outs.has(place)
    }

    /// The sink that stands at an output place, as the place tells it.
    pub fn out(&self, place: &str) -> Option<&K>
        ensures stands { option_copied result ≡ (standing self.now).outs place.now }
        ensures told { MatchOption result (((⟦<MemWorld<S, K> as World>⟧.view self.now).outs place.now).bytes ≡ None)
            (λ sink. IsTold (K.told sink.now)
            ((⟦<MemWorld<S, K> as World>⟧.view self.now).outs place.now)) }
    {
        self.outs.part(place)
    }

    /// What was reported.
    pub fn reported(&self) -> &[u8]
        ensures { Some result.now ≡ ((⟦<MemWorld<S, K> as World>⟧.view self.now).report).reported }
    {
        self.reported.as_slice()
    }

    /// The lines that were said, in their order; those for which no memory was left are missing.
    pub fn said(&self) -> &[String]
        ensures { map string_bytes result.now ≡ lines_said self.now }
    {
        self.said.as_slice()
    }
}

impl<S: Source + Send + Drop, K: Sink + Send + Drop> World for MemWorld<S, K> {
    ghost use Rattle.agent_base.specs.Clocks.{moments_at, IsClockOf};
    ghost use Rattle.agent_base.specs.Said.{lines_said, SaysLine};
    ghost use Rattle.agent_base.specs.Slots.{places_of};
    ghost use Rattle.agent_base.specs.Standing.{standing, MovesOut};
    ghost use Rattle.agent_base.specs.Standing.{OnlyInStands, OnlyOutStands, OnlyClockStands};

    type In = S;

    type Out = K;

    type Clk = MemClock;

    ghost view = { λ w. record {
      ins = places_of S.told w.ins;
      outs = places_of K.told w.outs;
      clocks = λ who. Some (moments_at w.clocks.items who);
      report = record { reported = Some w.reported.items; report_faults = 0 };
    } };

    fn open_in(&mut self, place: &str) -> Result<S, OpenFault>
        requires { ((⟦<MemWorld<S, K> as World>⟧.view self.old).ins place.now).is_out ≡ false }
        ensures opened { IfOk result
            (λ part. Opens (S.told part) ((⟦<MemWorld<S, K> as World>⟧.view self.old).ins place.now)
            ((⟦<MemWorld<S, K> as World>⟧.view self.new).ins place.now)) }
        ensures refused { IfErr result (λ e. Refuses e ((⟦<MemWorld<S, K> as World>⟧.view self.old).ins place.now)
            ((⟦<MemWorld<S, K> as World>⟧.view self.new).ins place.now)) }
        ensures only { OnlyIn place.now (⟦<MemWorld<S, K> as World>⟧.view self.old)
            (⟦<MemWorld<S, K> as World>⟧.view self.new) }

        ensures moves { MovesOut result ((standing self.old).ins place.now) ((standing self.new).ins place.now) }
        ensures beside { OnlyInStands place.now (standing self.old) (standing self.new) }
        ensures said { lines_said self.new ≡ lines_said self.old }
    {
        self.ins.open(place)
    }

    fn open_out(&mut self, place: &str) -> Result<K, OpenFault>
        requires { ((⟦<MemWorld<S, K> as World>⟧.view self.old).outs place.now).is_out ≡ false }
        ensures opened { IfOk result
            (λ part. Opens (K.told part) ((⟦<MemWorld<S, K> as World>⟧.view self.old).outs place.now)
            ((⟦<MemWorld<S, K> as World>⟧.view self.new).outs place.now)) }
        ensures refused { IfErr result (λ e. Refuses e ((⟦<MemWorld<S, K> as World>⟧.view self.old).outs place.now)
            ((⟦<MemWorld<S, K> as World>⟧.view self.new).outs place.now)) }
        ensures only { OnlyOut place.now (⟦<MemWorld<S, K> as World>⟧.view self.old)
            (⟦<MemWorld<S, K> as World>⟧.view self.new) }

        ensures moves { MovesOut result ((standing self.old).outs place.now) ((standing self.new).outs place.now) }
        ensures beside { OnlyOutStands place.now (standing self.old) (standing self.new) }
        ensures said { lines_said self.new ≡ lines_said self.old }
    {
        self.outs.open(place)
    }

    fn give_in(&mut self, place: &str, part: S)
        requires { ((⟦<MemWorld<S, K> as World>⟧.view self.old).ins place.now).is_out ≡ true }
        ensures given { TakesIn (S.told part) ((⟦<MemWorld<S, K> as World>⟧.view self.old).ins place.now)
            ((⟦<MemWorld<S, K> as World>⟧.view self.new).ins place.now) }
        ensures only { OnlyIn place.now (⟦<MemWorld<S, K> as World>⟧.view self.old)
            (⟦<MemWorld<S, K> as World>⟧.view self.new) }

        ensures stands { (standing self.new).ins place.now ≡ Some part }
        ensures beside { OnlyInStands place.now (standing self.old) (standing self.new) }
        ensures said { lines_said self.new ≡ lines_said self.old }
    {
        self.ins.give(place, part);
    }

    fn give_out(&mut self, place: &str, part: K)
        requires { ((⟦<MemWorld<S, K> as World>⟧.view self.old).outs place.now).is_out ≡ true }
        ensures given { TakesIn (K.told part) ((⟦<MemWorld<S, K> as World>⟧.view self.old).outs place.now)
            ((⟦<MemWorld<S, K> as World>⟧.view self.new).outs place.now) }
        ensures only { OnlyOut place.now (⟦<MemWorld<S, K> as World>⟧.view self.old)
            (⟦<MemWorld<S, K> as World>⟧.view self.new) }

        ensures stands { (standing self.new).outs place.now ≡ Some part }
        ensures beside { OnlyOutStands place.now (standing self.old) (standing self.new) }
        ensures said { lines_said self.new ≡ lines_said self.old }
    {
        self.outs.give(place, part);
    }

    fn clock(&mut self, who: u32, _pause: i64) -> MemClock
        ensures told { (⟦<MemClock as Clock>⟧.told result).moments ≡ (⟦<MemWorld<S, K> as World>⟧.view self.old).clocks who }
        ensures first { (⟦<MemClock as Clock>⟧.told result).next ≡ 0 }
        ensures unstopped { ⟦<MemClock as Clock>⟧.stopped result ≡ false }
        ensures only { OnlyClock who (⟦<MemWorld<S, K> as World>⟧.view self.old)
            (⟦<MemWorld<S, K> as World>⟧.view self.new) }

        ensures is { IsClockOf ((standing self.old).clocks who) result }
        ensures beside { OnlyClockStands who (standing self.old) (standing self.new) }
        ensures said { lines_said self.new ≡ lines_said self.old }
    {
        take(&mut self.clocks, self.alloc, who).into_clock()
    }

    fn report(&mut self, bytes: &[u8]) -> Result<(), PutFault>
        ensures bytes { PutAppends (⟦<MemWorld<S, K> as World>⟧.view self.old).report.reported
            (⟦<MemWorld<S, K> as World>⟧.view self.new).report.reported bytes.now result }
        ensures cause { PutHasCause (⟦<MemWorld<S, K> as World>⟧.view self.old).report.report_faults
            (⟦<MemWorld<S, K> as World>⟧.view self.new).report.report_faults result }
        ensures only { OnlyReport (⟦<MemWorld<S, K> as World>⟧.view self.old)
            (⟦<MemWorld<S, K> as World>⟧.view self.new) }

        ensures stands { standing self.new ≡ standing self.old }
        ensures said { lines_said self.new ≡ lines_said self.old }
    {
        match self.reported.extend_from_slice(bytes) {
            Ok(()) => Ok(()),
            Err(_) => Err(PutFault::OutOfMemory),
        }
    }

    fn say(&mut self, alloc: Global, line: &str)
        ensures same { ⟦<MemWorld<S, K> as World>⟧.view self.new ≡ ⟦<MemWorld<S, K> as World>⟧.view self.old }

        ensures stands { standing self.new ≡ standing self.old }
        ensures said { SaysLine line.now (lines_said self.old) (lines_said self.new) }
    {
        let _ = keep_line(alloc, &mut self.said, line);
    }
}
