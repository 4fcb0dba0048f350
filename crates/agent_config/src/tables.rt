//! What stands in tables.
ghost use Rattle.std.specs.Prelude.{◌≡◌, option_map, option_and_then};
ghost use Rattle.toml.specs.Data.{as_array, as_str, as_table, get_member, no_members};
ghost use Rattle.toml.specs.View.{items_view, table_view, view};
ghost use Rattle.agent_config.specs.Faults.{is_journal_faulty, journal_of, only_item, only_text_at};
ghost use Rattle.agent_config.specs.Kinds.{agent_limits, own_limits};
ghost use Rattle.agent_config.specs.Rows.{members_in, table_at};

use crate::rows::{agent_number, is_faulty_at, number_at, text_at};
use crate::table::Keys;
use toml::{Table, Value};

/// The batch size and the buffer limit of an output.
#[derive(Clone, Copy)]
pub(crate) struct Limits {
    /// At most so many metrics go out at once.
    pub(crate) batch: u32,
    /// At most so many metrics are buffered.
    pub(crate) limit: u32,
    /// Does the batch size stand for a faulty value?
    pub(crate) batch_faulty: bool,
    /// Does the buffer limit?
    pub(crate) limit_faulty: bool,
}

/// What stands at a key.
pub(crate) fn value_at<'a>(table: &'a Table, key: &str) -> Option<&'a Value>
    ensures { option_map (λ value. view value.now) result ≡ get_member key.now (table_view table.now) }
{
    table.get(key)
}

/// The table at a key; an empty one where there is none.
pub(crate) fn table_at<'a>(root: &'a Table, key: &str, empty: &'a Table) -> &'a Table
    requires { table_view empty.now ≡ no_members }
    ensures { table_view result.now ≡ table_at key.now (table_view root.now) }
{
    match value_at(root, key) {
        Some(value) => members_in(value, empty),
        None => empty,
    }
}

/// The table that a value is; an empty one where it is none.
pub(crate) fn members_in<'a>(value: &'a Value, empty: &'a Table) -> &'a Table
    requires { table_view empty.now ≡ no_members }
    ensures { table_view result.now ≡ members_in (as_table (view value.now)) }
{
    match value.as_table() {
        Some(table) => table,
        None => empty,
    }
}

/// The sizes of outputs that have none of their own.
pub(crate) fn agent_limits(agent: &Table) -> Limits
    ensures { result ≡ agent_limits (table_view agent.now) }
{
    Limits {
        batch: agent_number(agent, "metric_batch_size"),
        limit: agent_number(agent, "metric_buffer_limit"),
        batch_faulty: is_faulty_at(&Keys::Agent, agent, "metric_batch_size", false),
        limit_faulty: is_faulty_at(&Keys::Agent, agent, "metric_buffer_limit", false),
    }
}

/// The sizes of an output; the agent's where it has none.
pub(crate) fn own_limits(keys: &Keys, limits: &Limits, table: &Table) -> Limits
    ensures { result ≡ own_limits keys.now limits.now (table_view table.now) }
{
    Limits {
        batch: number_at(keys, table, "metric_batch_size", limits.batch),
        limit: number_at(keys, table, "metric_buffer_limit", limits.limit),
        batch_faulty: is_faulty_at(keys, table, "metric_batch_size", limits.batch_faulty),
        limit_faulty: is_faulty_at(keys, table, "metric_buffer_limit", limits.limit_faulty),
    }
}

/// The place of the journal.
pub(crate) fn journal_of(agent: &Table) -> &str
    ensures { result.now ≡ journal_of (table_view agent.now) }
{
    text_at(&Keys::Agent, agent, "journal")
}

/// Does the place of the journal stand for a value that is no text?
pub(crate) fn is_journal_faulty(agent: &Table) -> bool
    ensures { result ≡ is_journal_faulty (table_view agent.now) }
{
    match value_at(agent, "journal") {
        Some(value) => !value.is_str(),
        None => false,
    }
}

/// The only item of a list.
fn only_item(items: &[Value]) -> Option<&Value>
    ensures { option_map (λ item. view item.now) result ≡ only_item (items_view items.now) }
{
    match items {
        [] => None,
        [item] => Some(item),
        [_, _, ..] => None,
    }
}

/// The only text of a list.
fn only_text(value: &Value) -> Option<&str>
    ensures { option_map (λ text. text.now) result
        ≡ option_and_then as_str (option_and_then only_item (as_array (view value.now))) }
{
    match value.as_array() {
        Some(items) => match only_item(items.as_slice()) {
            Some(item) => item.as_str(),
            None => None,
        },
        None => None,
    }
}

/// The only text of the list at a key, or no text.
pub(crate) fn only_text_at<'a>(table: &'a Table, key: &str) -> &'a str
    ensures { result.now ≡ only_text_at key.now (table_view table.now) }
{
    match value_at(table, key) {
        Some(value) => only_text(value).unwrap_or(""),
        None => "",
    }
}
