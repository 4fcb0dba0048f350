//! The formats that are read and written.
ghost use Rattle.std.specs.Prelude.{◌≡◌, IfOk};
ghost use Rattle.toml.specs.View.{table_view};
ghost use Rattle.agent_config.specs.Values.{format_name, graphite_at, in_format, out_format};

use crate::rows::{text_at, truth_at};
use crate::table::Keys;
use crate::templates::templates_at;
use fixed_num::OutOfMemory;
use format_words::{InFormat, OutFormat};
use metric::Text;
use std::alloc::Global;
use toml::Table;

/// The name of a plugin's format.
fn format_name<'a>(keys: &Keys, table: &'a Table) -> &'a str
    ensures { result.now ≡ format_name keys.now (table_view table.now) }
{
    text_at(keys, table, "data_format")
}

/// The format of an input.
#[tactic(auto, unfolding(crate::specs::Values::in_format))]
pub(crate) fn in_format_at(
    alloc: Global,
    keys: &Keys,
    table: &Table,
) -> Result<InFormat, OutOfMemory>
    ensures { IfOk result (λ format. format
        ≡ in_format keys.now (format_name keys.now (table_view table.now)) (table_view table.now)) }
{
    match format_name(keys, table) {
        "statsd" => Ok(InFormat::Statsd),
        "graphite" => graphite_at(alloc, keys, table),
        "openmetrics" => Ok(InFormat::Openmetrics {
            type_tag: truth_at(keys, table, "type_tag"),
            pass_out_of_range: truth_at(keys, table, "pass_out_of_range"),
        }),
        _ => Ok(InFormat::Influx),
    }
}

/// The format of an input of Graphite's lines.
fn graphite_at(alloc: Global, keys: &Keys, table: &Table) -> Result<InFormat, OutOfMemory>
    ensures { IfOk result (λ format. format ≡ graphite_at keys.now (table_view table.now)) }
{
    Ok(InFormat::Graphite {
        templates: templates_at(alloc, table)?,
        separator: Text::of(alloc, text_at(keys, table, "separator"))?,
    })
}

/// The format of an output.
pub(crate) fn out_format_at(keys: &Keys, table: &Table) -> OutFormat
    ensures { result ≡ out_format (format_name keys.now (table_view table.now)) }
{
    match format_name(keys, table) {
        "graphite" => OutFormat::Graphite,
        "openmetrics" => OutFormat::Openmetrics,
        _ => OutFormat::Influx,
    }
}
