//! Inputs that are StatsD servers.
ghost use Rattle.std.specs.Prelude.{◌≡◌, IfOk};
ghost use Rattle.toml.specs.View.{table_view};
ghost use Rattle.agent_config.specs.Faults.{listening_place, server_place};
ghost use Rattle.agent_config.specs.Keys.{statsd_input_key};

use crate::plugin_keys::input_key;
use crate::rows::{number_at, text_at};
use crate::shapes::{Shape, UsualText, count_to};
use crate::table::{Keys, Kind};
use fixed_num::OutOfMemory;
use metric::Text;
use std::alloc::Global;
use toml::Table;

/// How many packets a group has where nothing is said.
const USUAL_PACKETS: u32 = 1000;

/// After how many quiets in succession a server is at its end where nothing is said.
const USUAL_QUIET_LIMIT: u32 = 100;

/// What a key takes; None where it isn't known.
pub(crate) fn statsd_input_key(key: &str) -> Option<Shape>
    ensures { result ≡ statsd_input_key key.now }
{
    match key {
        "service_address" => Some(Shape::Place(UsualText::Nothing)),
        "packets" => count_to(100_000, USUAL_PACKETS),
        "quiet_limit" => count_to(1_000_000, USUAL_QUIET_LIMIT),
        _ => input_key(key),
    }
}

/// The place of a server: its address, and the numbers by which it listens; no text where it has no address.
pub(crate) fn server_place(alloc: Global, table: &Table) -> Result<Text, OutOfMemory>
    ensures { IfOk result (λ place. place ≡ server_place (table_view table.now)) }
{
    let keys = Keys::Plugin(Kind::StatsdInput);
    let address = text_at(&keys, table, "service_address");
    let packets = number_at(&keys, table, "packets", USUAL_PACKETS);
    let quiet_limit = number_at(&keys, table, "quiet_limit", USUAL_QUIET_LIMIT);
    listening_place(alloc, address, packets, quiet_limit)
}

/// The place of a server with an address; no text where that is empty.
fn listening_place(
    alloc: Global,
    address: &str,
    packets: u32,
    quiet_limit: u32,
) -> Result<Text, OutOfMemory>
    ensures { IfOk result (λ place. place ≡ listening_place address.now packets quiet_limit) }
{
    if address.is_empty() {
        return Text::of(alloc, "");
    }
    let place = format!(in alloc; "udp {address} {packets} {quiet_limit}")?;
    Text::of_string(alloc, place)
}
