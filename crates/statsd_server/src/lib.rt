//! What a StatsD server makes of the packets that it gets.
#![tactic(auto)]

mod change;
mod datagrams;
mod kind;
mod laws;
mod marked;
mod member;
mod outgoing;
mod part;
mod placed;
mod reading;
mod receiving;
mod served;
mod server;
mod source;
mod stage;
mod standing;
mod summary;
mod table;
mod tags;
mod tally;
#[cfg(test)]
mod tests;
mod udp;

pub use datagrams::{Datagrams, Dgram, Got, MemDatagrams};
pub use laws::{calls_serve, groups_hold};
pub use server::Server;
pub use source::StatsdSource;
pub use udp::UdpDatagrams;
