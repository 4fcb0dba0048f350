//! Sources, sinks and clocks in memory.
ghost use Rattle.std.specs.Prelude.{◌≡◌, ◌≤◌, ◌-◌, ◌++◌, [], length, take, drop, min, vec_len, false, Some};
ghost use Rattle.std.specs.Prelude.{IfErr, IfOk, OnErr};
ghost use Rattle.std.specs.Io.{ReadsAtMost};
ghost use Rattle.std.specs.Io.KnownBytes.{ReadConsumes};
ghost use Rattle.std.specs.List.{position};
ghost use Rattle.agent_base.specs.declared.outside.ReadRefused.TheVariants as refusals;
ghost use Rattle.agent_base.specs.Failing.{failing_count, is_numbered};
ghost use Rattle.agent_base.specs.Puts.{PutAppends, PutHasCause};
ghost use Rattle.agent_base.specs.Reads.{ReadHasCause};

use crate::{Clock, Failed, PutFault, ReadRefused, Sink, Source};
use fixed_num::Moment;
use std::alloc::Global;
use std::marker::Model;

/// Bytes in memory, with the reads that fail.
#[derive(Debug, Drop)]
pub struct MemSource {
    bytes: Vec<u8>,
    fails: Vec<u64>,
    most: usize,
    at: usize,
    reads: u64,
    faults: u64,
}

impl Model for MemSource {
    ghost use Rattle.std.specs.Prelude.{◌≤◌, drop, vec_len};
    ghost use Rattle.agent_base.specs.Failing.{SourceState};

    ghost Value = { SourceState };

    ghost view = { λ s. record {
      left = drop s.at s.bytes.items;
      fails = s.fails.items;
      most = s.most;
      reads = s.reads;
      faults = s.faults;
    } };

    ghost invariant = { λ s. (s.at ≤ vec_len s.bytes) × (1 ≤ s.most) };
}

impl MemSource {
    ghost use Rattle.agent_base.specs.Failing.{ReadAnswers, after_read};

    /// The reads are numbered from 0; one whose number is in `fails` fails, and each other gives at most
    /// `most` bytes.
    pub fn new(_alloc: Global, bytes: Vec<u8>, fails: Vec<u64>, most: usize) -> MemSource
        requires { 1 ≤ most }
        ensures is { result ≡ record
            { left = bytes.items; fails = fails.items; most = most; reads = 0; faults = 0 } }
        ensures left { (⟦<MemSource as Source>⟧.told result).bytes ≡ Some bytes.items }
        ensures faults { (⟦<MemSource as Source>⟧.told result).faults ≡ 0 }
    {
        MemSource {
            bytes,
            fails,
            most,
            at: 0,
            reads: 0,
            faults: 0,
        }
    }

    /// The next read: it fails exactly where its number is listed, and takes nothing then.
    ///
    /// Else it moves the next bytes to the front of the buffer: all that are left and have room, but no more than a
    /// read gives at most.
    pub fn read_next(&mut self, buf: &mut [u8]) -> Result<usize, Failed>
        ensures answer { ReadAnswers self.old (length buf.old) result }
        ensures next { self.new ≡ after_read self.old result }
        ensures given { IfOk result (λ count. buf.new ≡ take count self.old.left ++ drop count buf.old) }
        ensures kept { OnErr result (buf.new ≡ buf.old) }
        ensures some { 1 ≤ self.old.most }
        ensures later { self.old.faults ≤ self.new.faults }
    {
        let number = self.reads;
        self.reads = number.saturating_add(1);
        if self.fails.contains(&number) {
            self.faults = self.faults.saturating_add(1);
            return Err(Failed);
        }
        let count = copy_front(&self.bytes[self.at..], buf, self.most);
        self.at += count;
        Ok(count)
    }
}

// Copies the front of some bytes to the front of a buffer, as many as it has room for, and at most so many.
fn copy_front(bytes: &[u8], buf: &mut [u8], most: usize) -> usize
    ensures count { result ≡ min (min (length bytes.now) (length buf.old)) most }
    ensures given { buf.new ≡ take result bytes.now ++ drop result buf.old }
{
    let count = bytes.len().min(buf.len()).min(most);
    buf[..count].copy_from_slice(&bytes[..count]);
    count
}

impl Source for MemSource {
    ghost use Rattle.agent_base.specs.Failing.{ReadAnswers, after_read};

    ghost told = { λ s. record { bytes = Some s.left; faults = s.faults } };

    fn read(&mut self, buf: &mut [u8]) -> Result<usize, ReadRefused>
        ensures bound { ReadsAtMost result buf.new }
        ensures bytes { ReadConsumes (⟦<MemSource as Source>⟧.told self.old).bytes
            (⟦<MemSource as Source>⟧.told self.new).bytes result buf.new }
        ensures cause { ReadHasCause (⟦<MemSource as Source>⟧.told self.old).faults
            (⟦<MemSource as Source>⟧.told self.new).faults result }

        // It is the next read, which takes no memory.
        ensures answer { ReadAnswers self.old (length buf.old) result }
        ensures next { self.new ≡ after_read self.old result }
        ensures given { IfOk result (λ count. buf.new ≡ take count self.old.left ++ drop count buf.old) }
        ensures kept { OnErr result (buf.new ≡ buf.old) }
        ensures failed { IfErr result (λ e. e ≡ refusals.Failed) }
    {
        match self.read_next(buf) {
            Ok(count) => Ok(count),
            Err(Failed) => Err(ReadRefused::Failed),
        }
    }
}

/// Bytes put in memory, with the puts that fail.
#[derive(Debug, Drop)]
pub struct MemSink {
    held: Vec<u8>,
    fails: Vec<(u64, usize)>,
    puts: u64,
    faults: u64,
}

impl Model for MemSink {
    ghost use Rattle.agent_base.specs.Failing.{SinkState};

    ghost Value = { SinkState };

    ghost view = { λ s. record {
      held = s.held.items;
      fails = s.fails.items;
      puts = s.puts;
      faults = s.faults;
    } };
}

impl MemSink {
    ghost use Rattle.agent_base.specs.Failing.{PutAnswers, after_put};

    /// The puts are numbered from 0; one whose number is listed appends so many bytes, or all if there are
    /// fewer, and fails. Where a number is listed twice its first place counts.
    pub fn new(alloc: Global, fails: Vec<(u64, usize)>) -> MemSink
        ensures is { result ≡ record { held = []; fails = fails.items; puts = 0; faults = 0 } }
        ensures held { (⟦<MemSink as Sink>⟧.told result).bytes ≡ Some [] }
        ensures faults { (⟦<MemSink as Sink>⟧.told result).faults ≡ 0 }
    {
        MemSink {
            held: Vec::new(alloc),
            fails,
            puts: 0,
            faults: 0,
        }
    }

    /// The bytes that are held.
    pub fn bytes(&self) -> &[u8]
        ensures { Some result.now ≡ (⟦<MemSink as Sink>⟧.told self.now).bytes }
    {
        self.held.as_slice()
    }

    /// The next put: unless memory is short it fails exactly where its number is listed, and appends so many bytes
    /// then, or all if there are fewer. Else it appends all; where memory is short, none.
    pub fn put_next(&mut self, bytes: &[u8]) -> Result<(), PutFault>
        ensures answer { PutAnswers self.old result }
        ensures next { self.new ≡ after_put self.old bytes.now result }
        ensures later { self.old.faults ≤ self.new.faults }
    {
        let number = self.puts;
        self.puts = number.saturating_add(1);
        match failing(&self.fails, number) {
            None => match self.held.extend_from_slice(bytes) {
                Ok(()) => Ok(()),
                Err(_) => Err(PutFault::OutOfMemory),
            },
            Some(count) => match self.held.extend_from_slice(front(bytes, count)) {
                Ok(()) => {
                    self.faults = self.faults.saturating_add(1);
                    Err(PutFault::Failed)
                }
                Err(_) => Err(PutFault::OutOfMemory),
            },
        }
    }
}

// The index of the first pair of a put.
fn find_put(fails: &[(u64, usize)], number: u64) -> Option<usize>
    ensures { result ≡ position (is_numbered number) fails.now }
{
    fails.iter().position(|pair| pair.0 == number)
}

// How many bytes the put with this number appends before it fails, if it does.
fn failing(fails: &[(u64, usize)], number: u64) -> Option<usize>
    ensures { result ≡ failing_count fails.now number }
{
    match find_put(fails, number) {
        Some(at) => Some(fails[at].1),
        None => None,
    }
}

// So many bytes of a put, or all if there are fewer.
fn front(bytes: &[u8], count: usize) -> &[u8]
    ensures { result.now ≡ take count bytes.now }
{
    &bytes[..count.min(bytes.len())]
}

impl Sink for MemSink {
    ghost use Rattle.agent_base.specs.Failing.{PutAnswers, after_put};

    ghost told = { λ s. record { bytes = Some s.held; faults = s.faults } };

    fn put(&mut self, bytes: &[u8]) -> Result<(), PutFault>
        ensures bytes { PutAppends (⟦<MemSink as Sink>⟧.told self.old).bytes
            (⟦<MemSink as Sink>⟧.told self.new).bytes bytes.now result }
        ensures cause { PutHasCause (⟦<MemSink as Sink>⟧.told self.old).faults
            (⟦<MemSink as Sink>⟧.told self.new).faults result }

        // It is the next put.
        ensures answer { PutAnswers self.old result }
        ensures next { self.new ≡ after_put self.old bytes.now result }
    {
        self.put_next(bytes)
    }
}

/// Moments in memory, which no wait waits for.
#[derive(Debug, Drop)]
pub struct MemClock {
    moments: Vec<Moment>,
    at: usize,
    waits: u64,
    ghost within: { at ≤ vec_len moments - 1 },
}

impl MemClock {
    ghost use Rattle.agent_base.specs.Memory.{moments_of};
    ghost use Rattle.agent_base.specs.Moments.{GivesAt};

    /// The moments are those of the list, of which the last comes again and again; 0 alone for an empty list.
    pub fn new(_alloc: Global, moments: Vec<Moment>) -> MemClock
        ensures told { (⟦<MemClock as Clock>⟧.told result).moments ≡ Some (moments_of moments.items) }
        ensures first { (⟦<MemClock as Clock>⟧.told result).next ≡ 0 }
        ensures unstopped { ⟦<MemClock as Clock>⟧.stopped result ≡ false }
        ensures waits { ⟦<MemClock as Clock>⟧.waits result ≡ 0 }
    {
        MemClock {
            moments,
            at: 0,
            waits: 0,
        }
    }

    // The next moment; moves on.
    fn give(&mut self) -> Moment
        ensures gives { GivesAt (moments_of self.old.moments.items) self.old.at self.new.at result }
        ensures moments { self.new.moments ≡ self.old.moments }
        ensures waits { self.new.waits ≡ self.old.waits }
    {
        if self.at < self.moments.len() {
            let moment = self.moments[self.at];
            if self.at + 1 < self.moments.len() {
                self.at += 1;
            }
            moment
        } else {
            0
        }
    }
}

impl Clock for MemClock {
    ghost use Rattle.agent_base.specs.Memory.{moments_of};

    ghost told = { λ c. record { moments = Some (moments_of c.moments.items); next = c.at } };

    ghost stopped = { λ _. false };

    ghost waits = { λ c. c.waits };

    fn now(&mut self) -> Moment {
        self.give()
    }

    fn wait(&mut self) -> Option<Moment> {
        self.waits = self.waits.saturating_add(1);
        Some(self.give())
    }
}
