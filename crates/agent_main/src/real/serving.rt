//! What is read at a place: a file, standard input, or what a StatsD server serves that listens there.
ghost use Rattle.std.specs.Prelude.{◌≡◌, ◌≤◌, IfOk, IfSome};

use super::RealWorld;
use super::opening::{FileIdentity, Refusal};
use super::streams::Reader;
use agent_base::{Either, Source};
use statsd_server::{StatsdSource, UdpDatagrams};
use std::fs::File;
use std::io::{self, ErrorKind};
use std::net::Net;
use std::rt::Files;
use std::thread::Threads;

/// What is read.
pub type Input = Either<Reader, StatsdSource<UdpDatagrams>>;

/// What a place begins with where it is a server.
const SERVER: &str = "udp ";

/// The most packets that a group has, and the most quiets in succession before an input is at its end.
const MOST_PACKETS: u32 = 100_000;

const MOST_QUIETS: u32 = 1_000_000;

/// The number from 1 to a greatest one that a word is in decimal digits.
fn number_in(word: &str, most: u32) -> Option<u32>
    ensures { IfSome result (λ n. (1 ≤ n) × (n ≤ most)) }
{
    if !word.bytes().all(|digit| digit.is_ascii_digit()) {
        return None;
    }
    let number = word.parse::<u32>().ok()?;
    (1 <= number && number <= most).then_some(number)
}

/// Where a server listens, how many packets a group of it has, and after how many quiets in succession it is at its end;
/// None where the place isn't `udp ADDRESS PACKETS QUIET` with single spaces, PACKETS from 1 to 100,000 and QUIET from 1
/// to 1,000,000.
fn server_of(place: &str) -> Option<(&str, u32, u32)>
    ensures { IfSome result (λ server. (1 ≤ server.1) × (1 ≤ server.2)) }
{
    let (front, quiets) = place.strip_prefix(SERVER)?.rsplit_once(' ')?;
    let (address, packets) = front.rsplit_once(' ')?;
    let packets = number_in(packets, MOST_PACKETS)?;
    let quiet_limit = number_in(quiets, MOST_QUIETS)?;
    Some((address, packets, quiet_limit))
}

impl<'r, R: Files<File = File> + Net + Threads> RealWorld<'r, R> {
    /// What is read at a place, where it can be opened: what a server serves, where the place begins with `udp `.
    pub fn input_at(&self, place: &str) -> Result<(Input, FileIdentity), Refusal>
        ensures told { IfOk result (λ opened. (⟦<Input as Source>⟧.told opened.0).faults ≡ 0) }
    {
        if place.starts_with(SERVER) {
            return Ok((Either::Two(self.server_at(place)?), None));
        }
        let (reader, file) = self.reader_at(place)?;
        Ok((Either::One(reader), file))
    }

    /// The server that listens at a place, where it can listen there.
    fn server_at(&self, place: &str) -> Result<StatsdSource<UdpDatagrams>, Refusal>
        ensures told { IfOk result
            (λ source. (⟦<StatsdSource<UdpDatagrams> as Source>⟧.told source).faults ≡ 0) }
    {
        let Some((address, packets, quiet_limit)) = server_of(place) else {
            return Err(io::Error::other(
                "it is not `udp HOST:PORT PACKETS QUIETS`, with 1 <= PACKETS <= 100000 and 1 <= QUIETS <= 1000000",
            ));
        };
        let socket = UdpDatagrams::bind(self.rt, address)?;
        match StatsdSource::new(self.alloc, socket, packets, quiet_limit) {
            Ok(source) => Ok(source),
            Err(_) => Err(io::Error::from(ErrorKind::OutOfMemory)),
        }
    }
}
