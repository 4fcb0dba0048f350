//! Datagrams of a UDP socket.
ghost use Rattle.std.specs.Prelude.{◌≡◌, ◌≤◌, length, IfOk, None};

use crate::datagrams::{Datagrams, Got};
use agent_base::Failed;
use std::io::{self, ErrorKind};
use std::net::{Ipv4Addr, Net, UdpSocket};
use std::os::fd::AsRawFd;
use std::time::Duration;

/// How long nothing comes until that is a quiet, in milliseconds.
const QUIET: u64 = 10;

/// How many bytes a packet has at most.
const MOST_BYTES: usize = 65_535;

/// How many bytes the system is asked to hold that wait to be received.
const WAITING_BYTES: u32 = 8 * 1024 * 1024;

/// Packets that a UDP socket receives, and how often a call has failed. Where nothing came in 10 milliseconds that is a
/// quiet; there is no end. Nothing is told of what is left.
#[derive(Drop)]
pub struct UdpDatagrams {
    socket: UdpSocket,
    faults: u64,
}

/// A socket at an address: `host:port`, where an empty host stands for all addresses of IPv4.
fn bound<R: Net>(rt: &R, address: &str) -> Result<UdpSocket, io::Error> {
    match address.strip_prefix(':') {
        Some(port) => match port.parse::<u16>() {
            Ok(port) => UdpSocket::bind(rt, (Ipv4Addr::UNSPECIFIED, port)),
            Err(_) => Err(io::Error::from(ErrorKind::InvalidInput)),
        },
        None => UdpSocket::bind(rt, address),
    }
}

/// Asks the system for room for packets that wait; it may give less.
fn ask_for_room(socket: &UdpSocket) {
    let [a, b, c, d] = WAITING_BYTES.to_ne_bytes();
    let size = [a, b, c, d, 0, 0, 0, 0, 0, 0, 0, 0, 0, 0, 0, 0];
    let descriptor = socket.as_raw_fd();
    // The descriptor is that of a socket that is open.
    let _ = unsafe {
        libc::net::setsockopt(
            descriptor,
            libc::net::SOL_SOCKET,
            libc::net::SO_RCVBUF,
            &size,
            4,
        )
    };
}

/// Receives a packet into so many places of a buffer.
fn receive_into(socket: &UdpSocket, buf: &mut [u8], most: usize) -> io::Result<usize>
    requires { most ≤ length buf.old }
    ensures { IfOk result (λ size. size ≤ most) }
{
    socket.recv(&mut buf[..most])
}

impl UdpDatagrams {
    /// Receives at an address: `host:port`, as `[::1]:8125`; an empty host is `0.0.0.0`. No call has failed yet. The
    /// system is asked for room for 8 MiB of packets that wait, and may give less.
    pub fn bind<R: Net>(rt: &R, address: &str) -> Result<UdpDatagrams, io::Error>
        ensures left { IfOk result (λ d. (⟦<UdpDatagrams as Datagrams>⟧.told d).left ≡ None) }
        ensures faults { IfOk result (λ d. (⟦<UdpDatagrams as Datagrams>⟧.told d).faults ≡ 0) }
    {
        let socket = bound(rt, address)?;
        socket.set_read_timeout(Some(Duration::from_millis(QUIET)))?;
        ask_for_room(&socket);
        Ok(UdpDatagrams { socket, faults: 0 })
    }
}

impl Datagrams for UdpDatagrams {
    ghost told = { λ d. record { left = None; faults = d.faults } };

    fn recv(&mut self, buf: &mut [u8]) -> Result<Got, Failed> {
        for _ in 0..u64::MAX {
            match receive_into(&self.socket, buf, MOST_BYTES) {
                Ok(size) => return Ok(Got::Packet(size)),
                Err(fault) => match fault.kind() {
                    ErrorKind::Interrupted => {}
                    ErrorKind::WouldBlock | ErrorKind::TimedOut => return Ok(Got::Quiet),
                    _ => break,
                },
            }
        }
        self.faults = self.faults.saturating_add(1);
        Err(Failed)
    }
}
