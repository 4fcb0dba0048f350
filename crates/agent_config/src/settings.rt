//! The values of a configuration.
ghost use Rattle.std.specs.Prelude.{◌≡◌, ◌++◌, IfOk, map};
ghost use Rattle.toml.specs.Data.{as_str, no_members};
ghost use Rattle.toml.specs.View.{table_view, view};
ghost use Rattle.agent_config.specs.Plugins.{plugin_view, plugins_view};
ghost use Rattle.agent_config.specs.Values.{agent_of, config_of, global_tag, globals_of, input_of, output_of};

use crate::config::{AgentConf, Config, InputConf, OutputConf};
use crate::fault::Class;
use crate::filters::filter_of;
use crate::formats::{in_format_at, out_format_at};
use crate::places::place_of;
use crate::plugins::{OfPlugin, Plugin, classes_of, each_of};
use crate::rows::{agent_number, number_at, time_at, truth_at};
use crate::steps::steps_of;
use crate::table::{Keys, keys_of};
use crate::tables::{Limits, agent_limits, journal_of, members_in, own_limits, table_at};
use crate::usual::USUAL_UNDELIVERED;
use fixed_num::{OutOfMemory, Seq};
use metric::Text;
use std::alloc::Global;
use toml::{Table, Value};

/// The values of a configuration.
pub(crate) fn config_of<'a>(
    alloc: Global,
    root: &'a Table,
    empty: &'a Table,
) -> Result<Config, OutOfMemory>
    requires { table_view empty.now ≡ no_members }
    ensures { IfOk result (λ config. config ≡ config_of (table_view root.now)) }
{
    let agent = table_at(root, "agent", empty);
    let limits = agent_limits(agent);
    let classes = classes_of(alloc, root, empty)?;
    Ok(Config {
        agent: agent_of(alloc, agent)?,
        globals: globals_of(alloc, table_at(root, "global_tags", empty))?,
        inputs: each_of(alloc, classes.inputs.as_slice(), empty)?,
        steps: steps_of(alloc, classes.processors.as_slice(), empty)?,
        aggs: each_of(alloc, classes.aggregators.as_slice(), empty)?,
        outputs: outputs_of(alloc, &limits, classes.outputs.as_slice(), empty)?,
    })
}

/// What holds for the whole run.
pub(crate) fn agent_of(alloc: Global, agent: &Table) -> Result<AgentConf, OutOfMemory>
    ensures { IfOk result (λ conf. conf ≡ agent_of (table_view agent.now)) }
{
    Ok(AgentConf {
        gather_pieces: agent_number(agent, "gather_pieces"),
        final_tries: agent_number(agent, "final_tries"),
        flush_interval: time_at(alloc, &Keys::Agent, agent, "flush_interval")?,
        skip_second: truth_at(&Keys::Agent, agent, "skip_processors_after_aggregators"),
        workers: truth_at(&Keys::Agent, agent, "workers"),
        journal: Text::of(alloc, journal_of(agent))?,
    })
}

/// The global tags that have a value, in the order of their keys.
fn globals_of(alloc: Global, tags: &Table) -> Result<Seq<(Text, Text)>, OutOfMemory>
    ensures { IfOk result (λ globals. globals ≡ globals_of (table_view tags.now)) }
{
    let mut globals = Vec::new(alloc);
    for (key, value) in tags.iter() {
        add_global(alloc, &mut globals, key.as_str(), value)?;
    }
    Ok(Seq::of(globals))
}

/// Adds a global tag, if it has a value.
fn add_global(
    alloc: Global,
    globals: &mut Vec<(Text, Text)>,
    key: &str,
    value: &Value,
) -> Result<(), OutOfMemory>
    ensures { IfOk result (λ _. globals.new.items
        ≡ globals.old.items ++ global_tag key.now (as_str (view value.now))) }
{
    let Some(text) = value.as_str() else {
        return Ok(());
    };
    if text.is_empty() {
        return Ok(());
    }
    globals.push((Text::of(alloc, key)?, Text::of(alloc, text)?))?;
    Ok(())
}

impl OfPlugin for InputConf {
    ghost made_of = { input_of };

    fn of<'a>(alloc: Global, plugin: &Plugin<'a>, empty: &'a Table) -> Result<Self, OutOfMemory> {
        let keys = keys_of(&Class::Inputs, plugin.name);
        let table = members_in(plugin.value, empty);
        Ok(InputConf {
            place: place_of(alloc, &Class::Inputs, plugin, empty)?,
            format: in_format_at(alloc, &keys, table)?,
            tracked: truth_at(&keys, table, "tracked"),
            max_undelivered: number_at(&keys, table, "max_undelivered_messages", USUAL_UNDELIVERED),
            filter: filter_of(alloc, table)?,
        })
    }
}

/// The outputs of plugins.
fn outputs_of<'a>(
    alloc: Global,
    limits: &Limits,
    plugins: &[Plugin<'a>],
    empty: &'a Table,
) -> Result<Seq<OutputConf>, OutOfMemory>
    requires { table_view empty.now ≡ no_members }
    ensures { IfOk result (λ outputs. outputs ≡ map (output_of limits.now) (plugins_view plugins.now)) }
{
    let mut outputs = Vec::new(alloc);
    for plugin in plugins {
        outputs.push(output_of(alloc, limits, plugin, empty)?)?;
    }
    Ok(Seq::of(outputs))
}

/// The output of a plugin.
fn output_of<'a>(
    alloc: Global,
    limits: &Limits,
    plugin: &Plugin<'a>,
    empty: &'a Table,
) -> Result<OutputConf, OutOfMemory>
    requires { table_view empty.now ≡ no_members }
    ensures { IfOk result (λ output. output ≡ output_of limits.now (plugin_view plugin.now)) }
{
    let table = members_in(plugin.value, empty);
    let keys = keys_of(&Class::Outputs, plugin.name);
    let limits = own_limits(&keys, limits, table);
    Ok(OutputConf {
        place: place_of(alloc, &Class::Outputs, plugin, empty)?,
        format: out_format_at(&keys, table),
        batch: limits.batch,
        limit: limits.limit,
        filter: filter_of(alloc, table)?,
    })
}
