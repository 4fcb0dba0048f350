//! Datagrams, one after another.
ghost use Rattle.std.specs.Prelude.{◌≡◌, ◌≤◌, ◌++◌, length, drop, Some, IfOk, OnErr};
ghost use Rattle.std.specs.List.{All};
ghost use Rattle.statsd_server.specs.Datagrams.{bytes_in, got_of, laid_over, next_laid, size_of};
ghost use Rattle.statsd_server.specs.Datagrams.{Arriving, Receives, ReceiveHasCause};

use agent_base::Failed;
use fixed_num::Seq;
use std::alloc::Global;
use std::marker::Model;

/// What was received.
#[derive(Clone, Copy, Debug, PartialEq, Eq)]
pub enum Got {
    /// A packet of so many bytes.
    Packet(usize),
    /// Nothing came for a while.
    Quiet,
    /// Nothing is left.
    End,
}

/// A packet, or that nothing came for a while.
#[derive(Debug, Drop)]
pub enum Dgram {
    /// The bytes of a packet.
    Packet(Seq<u8>),
    /// Nothing came for a while.
    Quiet,
}

/// Packets that are received, and the quiets between them.
pub trait Datagrams {
    /// The packets and quiets that are left, where they are told; and how often a call has failed: it rises with a
    /// failed call alone, and stops at 2^64 - 1.
    ghost told: { Self → Arriving };

    /// Receives the next packet, of at most 65,535 bytes, into the front of the buffer, or says that nothing came for
    /// a while, or that nothing is left. A call that fails takes nothing.
    fn recv(&mut self, buf: &mut [u8]) -> Result<Got, Failed>
        requires { 65535 ≤ length buf.old }
        ensures room { length buf.new ≡ length buf.old }
        ensures short { IfOk result (λ got. size_of got ≤ 65535) }
        ensures takes { Receives (told self.old).left (told self.new).left result buf.new }
        ensures cause { ReceiveHasCause (told self.old).faults (told self.new).faults result };
}

/// Datagrams in memory, with the calls that fail.
#[derive(Debug, Drop)]
pub struct MemDatagrams {
    list: Vec<Dgram>,
    fails: Vec<u64>,
    at: usize,
    calls: u64,
    faults: u64,
}

impl Model for MemDatagrams {
    ghost use Rattle.std.specs.Prelude.{◌≤◌, drop, vec_len};
    ghost use Rattle.std.specs.List.{All};
    ghost use Rattle.statsd_server.specs.Datagrams.{bytes_in, DatagramState};

    ghost Value = { DatagramState };

    ghost view = { λ s. record {
      left = drop s.at s.list.items;
      fails = s.fails.items;
      calls = s.calls;
      faults = s.faults;
    } };

    ghost invariant = { λ s. (s.at ≤ vec_len s.list) × All (λ d. bytes_in d ≤ 65535) s.list.items };
}

// Lays a packet over the front of a buffer, and says what was received.
fn lay(datagram: &Dgram, buf: &mut [u8]) -> Got
    requires { bytes_in datagram.now ≤ length buf.old }
    ensures is { result ≡ got_of datagram.now }
    ensures given { buf.new ≡ laid_over datagram.now buf.old }
{
    match datagram {
        Dgram::Packet(packet) => lay_bytes(packet.as_slice(), buf),
        Dgram::Quiet => Got::Quiet,
    }
}

fn lay_bytes(packet: &[u8], buf: &mut [u8]) -> Got
    requires { length packet.now ≤ length buf.old }
    ensures is { result ≡ Got.Packet (length packet.now) }
    ensures given { buf.new ≡ packet.now ++ drop (length packet.now) buf.old }
{
    buf[..packet.len()].copy_from_slice(packet);
    Got::Packet(packet.len())
}

impl MemDatagrams {
    ghost use Rattle.statsd_server.specs.Datagrams.{after_receive, ReceiveAnswers};

    /// The calls are numbered from 0; one whose number is in `fails` fails. Each packet has at most 65,535 bytes.
    pub fn new(_alloc: Global, list: Vec<Dgram>, fails: Vec<u64>) -> MemDatagrams
        requires { All (λ d. bytes_in d ≤ 65535) list.items }
        ensures is { result ≡ record { left = list.items; fails = fails.items; calls = 0; faults = 0 } }
        ensures left { (⟦<MemDatagrams as Datagrams>⟧.told result).left ≡ Some list.items }
        ensures faults { (⟦<MemDatagrams as Datagrams>⟧.told result).faults ≡ 0 }
    {
        MemDatagrams {
            list,
            fails,
            at: 0,
            calls: 0,
            faults: 0,
        }
    }

    /// The next call: it fails exactly where its number is listed, and takes nothing then. Else it takes the next
    /// packet, which it lays over the front of the buffer, or the next quiet; where nothing is left it says so.
    pub fn recv_next(&mut self, buf: &mut [u8]) -> Result<Got, Failed>
        requires { 65535 ≤ length buf.old }
        ensures answer { ReceiveAnswers self.old result }
        ensures next { self.new ≡ after_receive self.old result }
        ensures given { IfOk result (λ got. buf.new ≡ next_laid self.old.left buf.old) }
        ensures kept { OnErr result (buf.new ≡ buf.old) }
        ensures short { IfOk result (λ got. size_of got ≤ 65535) }
        ensures later { self.old.faults ≤ self.new.faults }
    {
        let number = self.calls;
        self.calls = number.saturating_add(1);
        if self.fails.contains(&number) {
            self.faults = self.faults.saturating_add(1);
            return Err(Failed);
        }
        if self.at == self.list.len() {
            return Ok(Got::End);
        }
        let got = lay(&self.list[self.at], buf);
        self.at += 1;
        Ok(got)
    }
}

impl Datagrams for MemDatagrams {
    ghost told = { λ s. record { left = Some s.left; faults = s.faults } };

    fn recv(&mut self, buf: &mut [u8]) -> Result<Got, Failed> {
        self.recv_next(buf)
    }
}
