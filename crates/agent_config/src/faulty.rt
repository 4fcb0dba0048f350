//! The key that a fault of a configuration is about.
ghost use Rattle.std.specs.Prelude.{◌≡◌, IfOk, codes, is_some, option_map, slice_get, string_bytes};
ghost use Rattle.toml.specs.Data.{as_table, no_members};
ghost use Rattle.toml.specs.View.{table_view, view};
ghost use Rattle.agent_config.specs.Faults.{entry_faults, first, plugins_of};
ghost use Rattle.agent_config.specs.FaultyKey.{faulty_key, global_entry, key_at, key_in_class, key_of};
ghost use Rattle.agent_config.specs.FaultyKey.{key_in_table, key_of_plugin, no_root_table, root_key};
ghost use Rattle.agent_config.specs.FaultyKey.{unknown_root_key};
ghost use Rattle.agent_config.specs.Plugins.{plugin_view};

use crate::adding::Findings;
use crate::agent_keys::is_root_key;
use crate::fault::{Class, ConfigFault, ConfigKind};
use crate::plugins::{Plugin, plugins_of};
use crate::read::tree_of;
use crate::table::{Keys, keys_of};
use crate::tables::table_at;
use fixed_num::OutOfMemory;
use std::alloc::Global;
use toml::{Table, Value};

/// The key that a fault of a text is about, for a message: the first key of its table that isn't known or has
/// a faulty value, or the kind of a plugin that isn't known. None where the fault is about a whole table, or
/// about more than one.
pub fn faulty_key(
    alloc: Global,
    text: &[u8],
    fault: &ConfigFault,
) -> Result<Option<String>, OutOfMemory>
    ensures { IfOk result (λ key. option_map string_bytes key ≡ key_of text.now fault.now) }
{
    let Some(root) = tree_of(alloc, text)? else {
        return Ok(None);
    };
    let empty = Table::new(alloc);
    match key_at(alloc, &root, &empty, fault)? {
        Some(key) => Ok(Some(String::from_str(alloc, key)?)),
        None => Ok(None),
    }
}

/// The key that a fault of a tree is about.
fn key_at<'a>(
    alloc: Global,
    root: &'a Table,
    empty: &'a Table,
    fault: &ConfigFault,
) -> Result<Option<&'a str>, OutOfMemory>
    requires { table_view empty.now ≡ no_members }
    ensures { IfOk result (λ key. option_map (λ text. text.now) key
        ≡ key_at (table_view root.now) fault.now.class fault.now.kind fault.now.number) }
{
    match fault.class {
        Class::Root => Ok(root_key(root)),
        Class::Agent => key_in(alloc, &Keys::Agent, table_at(root, "agent", empty)),
        Class::GlobalTags => Ok(global_key(table_at(root, "global_tags", empty))),
        Class::Inputs => key_in_class(alloc, fault, table_at(root, "inputs", empty)),
        Class::Processors => key_in_class(alloc, fault, table_at(root, "processors", empty)),
        Class::Aggregators => key_in_class(alloc, fault, table_at(root, "aggregators", empty)),
        Class::Outputs => key_in_class(alloc, fault, table_at(root, "outputs", empty)),
    }
}

/// The first key of a table that isn't known, or whose value is faulty.
fn key_in<'a>(alloc: Global, keys: &Keys, table: &'a Table) -> Result<Option<&'a str>, OutOfMemory>
    ensures { IfOk result (λ found. option_map (λ text. text.now) found
        ≡ faulty_key (entry_faults keys.now) (table_view table.now)) }
{
    for (key, value) in table.iter() {
        if is_key_faulty(alloc, keys, key.as_str(), value)? {
            return Ok(Some(key.as_str()));
        }
    }
    Ok(None)
}

/// Has a key a fault?
fn is_key_faulty(alloc: Global, keys: &Keys, key: &str, value: &Value) -> Result<bool, OutOfMemory>
    ensures { IfOk result (λ faulty. faulty ≡ is_some (first (entry_faults keys.now key.now (view value.now)))) }
{
    let mut findings = Findings::new(alloc);
    findings.check_key(keys, key, value)?;
    Ok(!findings.wrongs.is_empty())
}

/// The first faulty key of the global tags.
fn global_key(tags: &Table) -> Option<&str>
    ensures { option_map (λ text. text.now) result ≡ faulty_key global_entry (table_view tags.now) }
{
    for (key, value) in tags.iter() {
        if key.is_empty() || !value.is_str() {
            return Some(key.as_str());
        }
    }
    None
}

/// The first key of the root that isn't known, or else the first whose value is no table.
fn root_key(root: &Table) -> Option<&str>
    ensures { option_map (λ text. text.now) result ≡ root_key (table_view root.now) }
{
    match unknown_root_key(root) {
        Some(key) => Some(key),
        None => no_root_table(root),
    }
}

/// The first key of the root that isn't known.
fn unknown_root_key(root: &Table) -> Option<&str>
    ensures { option_map (λ text. text.now) result
        ≡ faulty_key unknown_root_key (table_view root.now) }
{
    for (key, _value) in root.iter() {
        if !is_root_key(key.as_str()) {
            return Some(key.as_str());
        }
    }
    None
}

/// The first key of the root whose value is no table.
fn no_root_table(root: &Table) -> Option<&str>
    ensures { option_map (λ text. text.now) result ≡ faulty_key no_root_table (table_view root.now) }
{
    for (key, value) in root.iter() {
        if !value.is_table() {
            return Some(key.as_str());
        }
    }
    None
}

/// The key of a class that a fault is about.
fn key_in_class<'a>(
    alloc: Global,
    fault: &ConfigFault,
    class: &'a Table,
) -> Result<Option<&'a str>, OutOfMemory>
    ensures { IfOk result (λ key. option_map (λ text. text.now) key
        ≡ key_in_class fault.now.class fault.now.kind
        (slice_get (plugins_of (table_view class.now)) fault.now.number)) }
{
    match plugin_at(alloc, class, fault.number)? {
        Some(plugin) => key_of_plugin(alloc, fault, &plugin),
        None => Ok(None),
    }
}

/// The plugin of a class with this number.
fn plugin_at<'a>(
    alloc: Global,
    class: &'a Table,
    number: u32,
) -> Result<Option<Plugin<'a>>, OutOfMemory>
    ensures { IfOk result (λ plugin. option_map plugin_view plugin
        ≡ slice_get (plugins_of (table_view class.now)) number) }
{
    Ok(plugins_of(alloc, class)?.get(number as usize).copied())
}

/// The key of a plugin that a fault of it is about.
fn key_of_plugin<'a>(
    alloc: Global,
    fault: &ConfigFault,
    plugin: &Plugin<'a>,
) -> Result<Option<&'a str>, OutOfMemory>
    ensures { IfOk result (λ key. option_map (λ text. text.now) key
        ≡ key_of_plugin fault.now.class fault.now.kind (plugin_view plugin.now)) }
{
    match fault.kind {
        ConfigKind::UnknownKind => Ok(Some(plugin.name)),
        ConfigKind::TooManyPlugins => Ok(None),
        _ => key_in_table(alloc, &keys_of(&fault.class, plugin.name), plugin.value),
    }
}

/// The first faulty key of a value that is a table.
fn key_in_table<'a>(
    alloc: Global,
    keys: &Keys,
    value: &'a Value,
) -> Result<Option<&'a str>, OutOfMemory>
    ensures { IfOk result (λ key. option_map (λ text. text.now) key
        ≡ key_in_table keys.now (as_table (view value.now))) }
{
    match value.as_table() {
        Some(table) => key_in(alloc, keys, table),
        None => Ok(None),
    }
}
