//! Calls of a StatsD server.
use crate::Calls;
use crate::aggregators::lines_of;
use scenario_tables::Row;
use statsd_server::Server;
use std::alloc::Global;
use std::test::Fail;

/// The most bytes of a packet.
const MOST_BYTES: usize = 65_535;

/// A server.
#[derive(Drop)]
pub struct ServerCalls(Server);

impl ServerCalls {
    /// A packet of lines more.
    fn packet(&mut self, lines: &str) -> Result<(), Fail> {
        let bytes = lines.as_bytes();
        if MOST_BYTES < bytes.len() {
            return Err(Fail::new("a packet is too long"));
        }
        self.0.packet(bytes)?;
        Ok(())
    }
}

impl Calls for ServerCalls {
    fn begin(alloc: Global, _row: &Row<'_>, _word: &str) -> Result<ServerCalls, Fail> {
        Ok(ServerCalls(Server::new(alloc)?))
    }

    fn make(&mut self, alloc: Global, call: &str) -> Result<String, Fail> {
        let mut given = String::new(alloc);
        let mut packet = String::new(alloc);
        for line in call.split('\n') {
            match line {
                "gather" => given = lines_of(alloc, self.0.gather()?.as_slice())?,
                "send" => {
                    let lines = packet.as_str();
                    self.packet(lines.strip_suffix('\n').unwrap_or(lines))?;
                    packet = String::new(alloc);
                }
                line => {
                    packet.push_str(line)?;
                    packet.push('\n')?;
                }
            }
        }
        Ok(given)
    }
}
