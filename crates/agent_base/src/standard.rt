//! Sources and sinks over std's readers and writers.
ghost use Rattle.std.specs.Prelude.{◌≡◌, None, IfErr, OnErr, OnOk};
ghost use Rattle.std.specs.Io.{ReadsAtMost};
ghost use Rattle.std.specs.Io.KnownBytes.{ReadConsumes};
ghost use Rattle.agent_base.specs.declared.outside.PutFault.TheVariants as faults;
ghost use Rattle.agent_base.specs.declared.outside.ReadRefused.TheVariants as refusals;
ghost use Rattle.agent_base.specs.Failing.{one_more};
ghost use Rattle.agent_base.specs.Puts.{PutAppends, PutHasCause};
ghost use Rattle.agent_base.specs.Reads.{ReadHasCause};

use crate::{PutFault, ReadRefused, Sink, Source};
use std::io::{ErrorKind, Read, Write};

/// A source over a reader; nothing is told of its bytes.
#[derive(Drop)]
pub struct StdSource<R> {
    reader: R,
    faults: u64,
}

impl<R: Read + Drop> StdSource<R> {
    /// No read has failed yet.
    pub fn new(reader: R) -> StdSource<R>
        ensures left { (⟦<StdSource<R> as Source>⟧.told result).bytes ≡ None }
        ensures faults { (⟦<StdSource<R> as Source>⟧.told result).faults ≡ 0 }
    {
        StdSource::with_faults(reader, 0)
    }

    /// So many reads have failed before.
    pub fn with_faults(reader: R, faults: u64) -> StdSource<R>
        ensures left { (⟦<StdSource<R> as Source>⟧.told result).bytes ≡ None }
        ensures faults { (⟦<StdSource<R> as Source>⟧.told result).faults ≡ faults }
    {
        StdSource { reader, faults }
    }
}

impl<R: Read + Drop> Source for StdSource<R> {
    ghost told = { λ s. record { bytes = None; faults = s.faults } };

    fn read(&mut self, buf: &mut [u8]) -> Result<usize, ReadRefused>
        ensures bound { ReadsAtMost result buf.new }
        ensures bytes { ReadConsumes (⟦<StdSource<R> as Source>⟧.told self.old).bytes
            (⟦<StdSource<R> as Source>⟧.told self.new).bytes result buf.new }
        ensures cause { ReadHasCause (⟦<StdSource<R> as Source>⟧.told self.old).faults
            (⟦<StdSource<R> as Source>⟧.told self.new).faults result }

        // It takes no memory, and a read that fails is counted once.
        ensures failed { IfErr result (λ e. e ≡ refusals.Failed) }
        ensures once { OnErr result ((⟦<StdSource<R> as Source>⟧.told self.new).faults
            ≡ one_more (⟦<StdSource<R> as Source>⟧.told self.old).faults) }
    {
        for _ in 0..u64::MAX {
            match self.reader.read(buf) {
                Ok(count) => return Ok(count),
                Err(e) => {
                    if e.kind() != ErrorKind::Interrupted {
                        break;
                    }
                }
            }
        }
        self.faults = self.faults.saturating_add(1);
        Err(ReadRefused::Failed)
    }
}

/// A sink over a writer, which is flushed after each put; nothing is told of its bytes.
#[derive(Drop)]
pub struct StdSink<W> {
    writer: W,
    faults: u64,
}

impl<W: Write + Drop> StdSink<W> {
    /// No put has failed yet.
    pub fn new(writer: W) -> StdSink<W>
        ensures held { (⟦<StdSink<W> as Sink>⟧.told result).bytes ≡ None }
        ensures faults { (⟦<StdSink<W> as Sink>⟧.told result).faults ≡ 0 }
    {
        StdSink::with_faults(writer, 0)
    }

    /// So many puts have failed before.
    pub fn with_faults(writer: W, faults: u64) -> StdSink<W>
        ensures held { (⟦<StdSink<W> as Sink>⟧.told result).bytes ≡ None }
        ensures faults { (⟦<StdSink<W> as Sink>⟧.told result).faults ≡ faults }
    {
        StdSink { writer, faults }
    }

    /// The writer, and how many puts have failed.
    pub fn into_parts(self) -> (W, u64)
        ensures { result.1 ≡ (⟦<StdSink<W> as Sink>⟧.told self).faults }
    {
        (self.writer, self.faults)
    }
}

// Writes all bytes and flushes them; whether both went well.
fn write_whole<W: Write + Drop>(writer: &mut W, bytes: &[u8]) -> bool {
    writer.write_all(bytes).is_ok() && writer.flush().is_ok()
}

impl<W: Write + Drop> Sink for StdSink<W> {
    ghost told = { λ s. record { bytes = None; faults = s.faults } };

    fn put(&mut self, bytes: &[u8]) -> Result<(), PutFault>
        ensures bytes { PutAppends (⟦<StdSink<W> as Sink>⟧.told self.old).bytes
            (⟦<StdSink<W> as Sink>⟧.told self.new).bytes bytes.now result }
        ensures cause { PutHasCause (⟦<StdSink<W> as Sink>⟧.told self.old).faults
            (⟦<StdSink<W> as Sink>⟧.told self.new).faults result }

        // It takes no memory, and a put that fails is counted once; no other one is counted.
        ensures failed { IfErr result (λ e. e ≡ faults.Failed) }
        ensures once { OnErr result ((⟦<StdSink<W> as Sink>⟧.told self.new).faults
            ≡ one_more (⟦<StdSink<W> as Sink>⟧.told self.old).faults) }
        ensures uncounted { OnOk result ((⟦<StdSink<W> as Sink>⟧.told self.new).faults
            ≡ (⟦<StdSink<W> as Sink>⟧.told self.old).faults) }
    {
        if write_whole(&mut self.writer, bytes) {
            return Ok(());
        }
        self.faults = self.faults.saturating_add(1);
        Err(PutFault::Failed)
    }
}
