//! A source whose lines are computed as they are read.
ghost use Rattle.std.specs.Prelude.{◌≡◌, ◌≤◌, ◌+◌, ◌++◌, ◌⊎◌, [], length, take, drop, min, vec_len, vec_capacity};
ghost use Rattle.std.specs.Prelude.{IfOk, Some, decimal};
ghost use Rattle.agent_run.specs.Generated.{generated_line, generated_text};

use agent_base::{ReadRefused, Source};
use fixed_num::OutOfMemory;
use std::alloc::Global;
use std::marker::Model;

// The bytes that a line has at most: 16 of its words and its newline, and 20 for each of its three numbers.
const LINE_ROOM: usize = 76;

/// A number of lines, from line 0 on, each of which is made as it is read; no read fails.
///
/// Line k is `cpu,host=hA v=Bi C` and a newline (byte 10), where A is k mod 10, B is 7919 k mod 1000, and C is
/// 1,000,000 k: a moment in nanoseconds, a millisecond after that of the line before.
#[derive(Debug, Drop)]
pub(crate) struct Generated {
    // How many lines there are, and the index of the first one that wasn't made yet.
    lines: u32,
    next: u32,
    // The line that was made last, and how many of its bytes were read.
    line: Vec<u8>,
    at: usize,
}

impl Model for Generated {
    ghost use Rattle.std.specs.Prelude.{ℕ, ◌≤◌, ◌-◌, ◌++◌, List, drop, vec_len, vec_capacity};
    ghost use Rattle.agent_run.specs.Generated.{generated_from};
    ghost use Rattle.agent_run.specs.declared.generated.TheConstants.{LINE_ROOM};

    ghost Value = { List ℕ };

    ghost view = { λ s. drop s.at s.line.items ++ generated_from s.next (s.lines - s.next) };

    ghost invariant = { λ s. (s.at ≤ vec_len s.line) × (s.next ≤ s.lines) × (LINE_ROOM ≤ vec_capacity s.line) };
}

impl Generated {
    /// So many lines; where they are 0, nothing is left from the beginning on. It takes the room of one line, and no
    /// read takes more.
    pub(crate) fn new(alloc: Global, lines: u32) -> Result<Generated, OutOfMemory>
        ensures { IfOk result (λ source. ⟦<Generated as Source>⟧.told source
            ≡ record { bytes = Some (generated_text lines); faults = 0 }) }
    {
        let line = Vec::with_capacity(alloc, LINE_ROOM)?;
        Ok(Generated {
            lines,
            next: 0,
            line,
            at: 0,
        })
    }

    // Moves the next bytes to the front of the buffer, those of one line at most.
    fn give(&mut self, buf: &mut [u8]) -> usize
        ensures within { result ≤ length self.old }
        ensures room { result ≤ length buf.old }
        ensures given { buf.new ≡ take result self.old ++ drop result buf.old }
        ensures left { self.new ≡ drop result self.old }
        ensures some { result ≡ 0 → (self.old ≡ []) ⊎ (length buf.old ≡ 0) }
    {
        if self.at == self.line.len() && self.next < self.lines {
            write_line(&mut self.line, self.next);
            self.next += 1;
            self.at = 0;
        }
        let count = copy_front(&self.line[self.at..], buf);
        self.at += count;
        count
    }

    // Moves the next bytes to the front of the buffer, as many as there are and have room, and says how many they are.
    fn fill(&mut self, buf: &mut [u8]) -> usize
        ensures count { result ≡ min (length self.old) (length buf.old) }
        ensures given { buf.new ≡ take result self.old ++ drop result buf.old }
        ensures left { self.new ≡ drop result self.old }
    {
        let mut done = 0;
        while done < buf.len() {
            let count = self.give(&mut buf[done..]);
            if count == 0 {
                return done;
            }
            done += count;
        }
        done
    }
}

impl Source for Generated {
    ghost told = { λ left. record { bytes = Some left; faults = 0 } };

    fn read(&mut self, buf: &mut [u8]) -> Result<usize, ReadRefused> {
        Ok(self.fill(buf))
    }
}

// Copies the front of some bytes to the front of a buffer, as many as it has room for.
fn copy_front(bytes: &[u8], buf: &mut [u8]) -> usize
    ensures count { result ≡ min (length bytes.now) (length buf.old) }
    ensures given { buf.new ≡ take result bytes.now ++ drop result buf.old }
{
    let count = bytes.len().min(buf.len());
    buf[..count].copy_from_slice(&bytes[..count]);
    count
}

// Writes the line with this index in place of what stood there.
#[tactic(auto, unfolding(crate::specs::Generated::generated_line))]
fn write_line(line: &mut Vec<u8>, k: u32)
    requires { LINE_ROOM ≤ vec_capacity line.old }
    ensures is { line.new.items ≡ generated_line k }
    ensures some { 1 ≤ vec_len line.new }
    ensures room { LINE_ROOM ≤ vec_capacity line.new }
{
    let k = u64::from(k);
    line.clear();
    append(line, b"cpu,host=h");
    append_number(line, k % 10);
    append(line, b" v=");
    append_number(line, k * 7919 % 1000);
    append(line, b"i ");
    append_number(line, k * 1_000_000);
    append(line, b"\n");
}

// Appends bytes that there is room for.
fn append(line: &mut Vec<u8>, bytes: &[u8])
    requires { vec_len line.old + length bytes.now ≤ vec_capacity line.old }
    ensures is { line.new.items ≡ line.old.items ++ bytes.now }
    ensures len { vec_len line.new ≡ vec_len line.old + length bytes.now }
    ensures room { vec_capacity line.old ≤ vec_capacity line.new }
{
    if line.extend_from_slice(bytes).is_err() {
        unreachable!()
    }
}

// Appends a number in decimal digits, 20 of them at most, that there is room for.
fn append_number(line: &mut Vec<u8>, n: u64)
    requires { vec_len line.old + 20 ≤ vec_capacity line.old }
    ensures is { line.new.items ≡ line.old.items ++ decimal n }
    ensures len { vec_len line.new ≤ vec_len line.old + 20 }
    ensures room { vec_capacity line.old ≤ vec_capacity line.new }
{
    let mut buffer = itoa::Buffer::new();
    append(line, buffer.format(n).as_bytes());
}
