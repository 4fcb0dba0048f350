//! Text that is given.
ghost use Rattle.std.specs.Prelude.{◌≡◌, ◌≤◌, ◌<◌, ◌↔◌, ◌++◌, [], length, take, drop, IsTrue};
ghost use Rattle.std.specs.Prelude.{IfOk, OnOk, OnErr};
ghost use Rattle.statsd_server.specs.Groups.{lines_text};

use fixed_num::OutOfMemory;
use line_proto::write_untimed;
use metric::Metric;
use std::alloc::Global;
use text_buffer::TextBuffer;

/// Text that is to be given: what is written, from a place on, and behind it the lines of metrics, which aren't written
/// yet.
#[derive(Drop)]
pub(crate) struct Outgoing {
    alloc: Global,
    text: TextBuffer,
    at: usize,
    metrics: Vec<Metric>,
    ghost within: { at ≤ length text.items },
}

/// Appends the lines of metrics, without times.
fn append_lines(alloc: Global, metrics: &[Metric], out: &mut TextBuffer) -> Result<(), OutOfMemory>
    ensures { OnOk result (out.new.items ≡ out.old.items ++ lines_text metrics.now) }
{
    for metric in metrics {
        write_untimed(alloc, metric, out)?;
    }
    Ok(())
}

/// Copies the front of some bytes to the front of a buffer, as many as it has room for.
fn copy_front(bytes: &[u8], buf: &mut [u8]) -> usize
    ensures within { result ≤ length bytes.now }
    ensures room { result ≤ length buf.old }
    ensures given { take result buf.new ≡ take result bytes.now }
    ensures some { result ≡ 0 → 0 < length buf.old → length bytes.now ≡ 0 }
{
    let count = bytes.len().min(buf.len());
    buf[..count].copy_from_slice(&bytes[..count]);
    count
}

impl Outgoing {
    ghost use Rattle.statsd_server.specs.Outgoing.{text_in};

    /// No text.
    pub(crate) fn new(alloc: Global) -> Outgoing
        ensures { text_in result ≡ [] }
    {
        Outgoing {
            alloc,
            text: TextBuffer::new(alloc),
            at: 0,
            metrics: Vec::new(alloc),
        }
    }

    /// Is there no text?
    pub(crate) fn is_empty(&self) -> bool
        ensures { IsTrue result ↔ (text_in self.now ≡ []) }
    {
        self.at == self.text.len() && self.metrics.is_empty()
    }

    /// The lines of metrics, where there is no text.
    pub(crate) fn accept(&mut self, metrics: Vec<Metric>)
        requires { text_in self.old ≡ [] }
        ensures { text_in self.new ≡ lines_text metrics.items }
    {
        self.text.clear();
        self.at = 0;
        self.metrics = metrics;
    }

    /// Writes the lines where no written text is left. The text stays.
    fn write(&mut self) -> Result<(), OutOfMemory>
        ensures same { text_in self.new ≡ text_in self.old }
        ensures ready { OnOk result (self.new.at ≡ length self.new.text.items → text_in self.new ≡ []) }
    {
        if self.at < self.text.len() {
            return Ok(());
        }
        self.text.clear();
        self.at = 0;
        match append_lines(self.alloc, self.metrics.as_slice(), &mut self.text) {
            Ok(()) => {
                self.metrics.clear();
                Ok(())
            }
            Err(OutOfMemory) => {
                self.text.clear();
                Err(OutOfMemory)
            }
        }
    }

    /// Moves written text to the front of a buffer, as much as there is and has room.
    fn hand_out(&mut self, buf: &mut [u8]) -> usize
        ensures room { result ≤ length buf.old }
        ensures given { text_in self.old ≡ take result buf.new ++ text_in self.new }
        ensures some { result ≡ 0 → 0 < length buf.old → self.old.at ≡ length self.old.text.items }
    {
        let count = copy_front(&self.text.as_slice()[self.at..], buf);
        self.at += count;
        count
    }

    /// Moves the next text to the front of a buffer, as much as there is and has room. After `OutOfMemory` none was
    /// moved.
    pub(crate) fn give(&mut self, buf: &mut [u8]) -> Result<usize, OutOfMemory>
        ensures room { IfOk result (λ count. count ≤ length buf.old) }
        ensures given { IfOk result (λ count. text_in self.old ≡ take count buf.new ++ text_in self.new) }
        ensures some { IfOk result (λ count. count ≡ 0 → 0 < length buf.old → text_in self.old ≡ []) }
        ensures err { OnErr result (text_in self.new ≡ text_in self.old) }
    {
        self.write()?;
        Ok(self.hand_out(buf))
    }
}
