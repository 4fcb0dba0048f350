//! The steps that metrics go through: what the processors are.
ghost use Rattle.std.specs.Prelude.{◌≡◌, IfOk, map};
ghost use Rattle.toml.specs.Data.{no_members};
ghost use Rattle.toml.specs.View.{table_view};
ghost use Rattle.agent_config.specs.Plugins.{plugins_view};
ghost use Rattle.agent_config.specs.Steps.{in_order, step_of, work_of};

use crate::fault::Class;
use crate::filters::filter_of;
use crate::ordering::in_order;
use crate::plugins::{OfPlugin, Plugin, each_of};
use crate::rows::time_at;
use crate::rules::{convert_rules, replacements, rewrite_rules};
use crate::table::{Keys, Kind, kind_of};
use crate::tables::members_in;
use fixed_num::{OutOfMemory, Seq};
use proc_chain::{Step, StepWork};
use proc_edit::{Convert, Rename};
use std::alloc::Global;
use toml::Table;

/// The steps of processors, by the order that they ask for.
pub(crate) fn steps_of<'a>(
    alloc: Global,
    plugins: &[Plugin<'a>],
    empty: &'a Table,
) -> Result<Seq<Step>, OutOfMemory>
    requires { table_view empty.now ≡ no_members }
    ensures { IfOk result (λ steps. steps ≡ map step_of (in_order (plugins_view plugins.now))) }
{
    let ordered = in_order(alloc, plugins, empty)?;
    each_of(alloc, ordered.as_slice(), empty)
}

impl OfPlugin for Step {
    ghost made_of = { step_of };

    fn of<'a>(alloc: Global, plugin: &Plugin<'a>, empty: &'a Table) -> Result<Self, OutOfMemory> {
        let kind = kind_of(&Class::Processors, plugin.name);
        let table = members_in(plugin.value, empty);
        Ok(Step {
            filter: filter_of(alloc, table)?,
            work: work_of(alloc, kind, table, empty)?,
        })
    }
}

/// What a processor of a kind does.
fn work_of<'a>(
    alloc: Global,
    kind: Option<Kind>,
    table: &'a Table,
    empty: &'a Table,
) -> Result<StepWork, OutOfMemory>
    requires { table_view empty.now ≡ no_members }
    ensures { IfOk result (λ work. work ≡ work_of kind (table_view table.now)) }
{
    match kind {
        Some(Kind::Converter) => {
            let rules = convert_rules(alloc, table, empty)?;
            Ok(StepWork::Convert(Convert::new(alloc, rules)))
        }
        Some(Kind::Dedup) => {
            let keys = Keys::Plugin(Kind::Dedup);
            Ok(StepWork::Dedup(time_at(alloc, &keys, table, "dedup_interval")?))
        }
        Some(Kind::Regex) => Ok(StepWork::Regex(rewrite_rules(alloc, table)?)),
        _ => {
            let rules = replacements(alloc, table)?;
            Ok(StepWork::Rename(Rename::new(alloc, rules)))
        }
    }
}
