//! What a source of a StatsD server serves of datagrams.
ghost use Rattle.std.specs.Prelude.{◌≤◌, All};
ghost use Rattle.statsd_server.specs.Datagrams.{bytes_in};

use crate::Calls;
use agent_base::Source;
use fixed_num::Seq;
use scenario_tables::Row;
use statsd_server::{Dgram, MemDatagrams, StatsdSource};
use std::alloc::Global;
use std::mem;
use std::test::Fail;

/// The most bytes of a packet.
const MOST_BYTES: usize = 65_535;

/// Packets and quiets that were named so far, and how a source of them is made and read.
#[derive(Drop)]
pub struct SourceCalls {
    list: Vec<Dgram>,
    fails: Vec<u64>,
    packets: u32,
    quiet_limit: u32,
    most: usize,
    ghost short: { All (λ d. bytes_in d ≤ 65535) list.items },
}

/// A number that a part of the row says; another where it says none.
fn number_of(row: &Row<'_>, key: &str, usual: u32) -> u32 {
    row.value(key).parse().unwrap_or(usual)
}

impl SourceCalls {
    /// A packet of lines more.
    fn packet(&mut self, alloc: Global, lines: &str) -> Result<(), Fail> {
        let bytes = Vec::from_slice(alloc, lines.as_bytes())?;
        if MOST_BYTES < bytes.len() {
            return Err(Fail::new("a packet is too long"));
        }
        self.list.push(Dgram::Packet(Seq::of(bytes)))?;
        Ok(())
    }

    /// What a source serves of the datagrams that were named since the last call of this kind: its text, and the
    /// refusal of a read. A read that is refused is made once more.
    fn serve(&mut self, alloc: Global) -> Result<Vec<u8>, Fail> {
        let list = mem::replace(&mut self.list, Vec::new(alloc));
        let fails = mem::replace(&mut self.fails, Vec::new(alloc));
        let datagrams = MemDatagrams::new(alloc, list, fails);
        let mut source = StatsdSource::new(
            alloc,
            datagrams,
            u32::max(self.packets, 1),
            u32::max(self.quiet_limit, 1),
        )?;
        let mut text = Vec::new(alloc);
        let mut buf = vec![in alloc; 0u8; self.most]?;
        for _read in 0..1_000_000 {
            if !read_more(alloc, &mut source, &mut buf, &mut text)? {
                return Ok(text);
            }
        }
        Err(Fail::new("the source has no end"))
    }
}

/// Reads a source once, puts what it says behind a text, and says whether more may come.
fn read_more(
    alloc: Global,
    source: &mut StatsdSource<MemDatagrams>,
    buf: &mut [u8],
    text: &mut Vec<u8>,
) -> Result<bool, Fail> {
    match source.read(buf) {
        Ok(0) => return Ok(false),
        Ok(count) => text.extend_from_slice(&buf[..count])?,
        Err(refused) => text.extend_from_slice(format!(in alloc; "{refused:?}\n")?.as_bytes())?,
    }
    Ok(true)
}

impl Calls for SourceCalls {
    fn begin(alloc: Global, row: &Row<'_>, word: &str) -> Result<SourceCalls, Fail> {
        let mut fails = Vec::new(alloc);
        for number in row.value("fails").split_whitespace() {
            fails.push(number.parse::<u64>()?)?;
        }
        Ok(SourceCalls {
            list: Vec::new(alloc),
            fails,
            packets: number_of(row, "packets", 10),
            quiet_limit: number_of(row, "quiet_limit", 2),
            most: usize::max(word.parse().unwrap_or(1 << 16), 1),
        })
    }

    fn make(&mut self, alloc: Global, call: &str) -> Result<String, Fail> {
        let mut packet = String::new(alloc);
        for line in call.split('\n') {
            match line {
                "serve" => {
                    let text = self.serve(alloc)?;
                    let text = str::from_utf8(&text)?;
                    return Ok(String::from_str(alloc, text.strip_suffix('\n').unwrap_or(text))?);
                }
                "quiet" => self.list.push(Dgram::Quiet)?,
                "send" => {
                    let lines = packet.as_str();
                    self.packet(alloc, lines.strip_suffix('\n').unwrap_or(lines))?;
                    packet = String::new(alloc);
                }
                line => {
                    packet.push_str(line)?;
                    packet.push('\n')?;
                }
            }
        }
        Ok(String::new(alloc))
    }
}
