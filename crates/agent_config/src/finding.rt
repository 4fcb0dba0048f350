//! The faults of a configuration.
ghost use Rattle.std.specs.Prelude.{◌≡◌, IfOk, codes};
ghost use Rattle.toml.specs.Data.{no_members};
ghost use Rattle.toml.specs.View.{table_view};
ghost use Rattle.agent_config.specs.Faults.{beside_faults, classes_faults, faults_of};
ghost use Rattle.agent_config.specs.Faults.{none_faults, table_faults};
ghost use Rattle.agent_config.specs.Found.{AddsFound, founds_view};
ghost use Rattle.agent_config.specs.Plugins.{classes_view, plugins_view};

use crate::adding::{Findings, add_at, add_whole_at};
use crate::class_faults::{add_class_faults, few};
use crate::fault::{Class, FaultKind, Found};
use crate::places::{add_same_inputs, add_same_outputs};
use crate::plugins::{Classes, Plugin, classes_of};
use crate::tables::{Limits, agent_limits, table_at};
use fixed_num::OutOfMemory;
use std::alloc::Global;
use toml::Table;

/// The faults of a configuration, in order.
pub(crate) fn faults_of<'a>(
    alloc: Global,
    root: &'a Table,
    empty: &'a Table,
) -> Result<Vec<Found<'a>>, OutOfMemory>
    requires { table_view empty.now ≡ no_members }
    ensures { IfOk result (λ founds. founds_view founds.items ≡ faults_of (table_view root.now)) }
{
    let mut founds = Vec::new(alloc);
    add_table_faults(alloc, &mut founds, root, empty)?;
    let agent = table_at(root, "agent", empty);
    let classes = classes_of(alloc, root, empty)?;
    add_classes_faults(alloc, &mut founds, &agent_limits(agent), &classes)?;
    add_beside_faults(alloc, &mut founds, agent, &classes, empty)?;
    Ok(founds)
}

/// Adds the faults of the root, and of its tables that are no classes of plugins.
fn add_table_faults<'a>(
    alloc: Global,
    founds: &mut Vec<Found<'a>>,
    root: &'a Table,
    empty: &'a Table,
) -> Result<(), OutOfMemory>
    requires { table_view empty.now ≡ no_members }
    ensures { IfOk result (λ _. AddsFound founds.old.items founds.new.items (table_faults (table_view root.now))) }
{
    let mut of_root = Findings::new(alloc);
    of_root.check_root_keys(root)?;
    of_root.check_root_values(root)?;
    add_at(founds, &Class::Root, 0, of_root.wrongs.as_slice())?;
    let mut of_agent = Findings::new(alloc);
    of_agent.check_agent(table_at(root, "agent", empty))?;
    add_at(founds, &Class::Agent, 0, of_agent.wrongs.as_slice())?;
    let mut of_tags = Findings::new(alloc);
    of_tags.check_globals(table_at(root, "global_tags", empty))?;
    add_at(founds, &Class::GlobalTags, 0, of_tags.wrongs.as_slice())?;
    Ok(())
}

/// Adds the faults of the classes of plugins.
fn add_classes_faults<'a>(
    alloc: Global,
    founds: &mut Vec<Found<'a>>,
    limits: &Limits,
    classes: &Classes<'a>,
) -> Result<(), OutOfMemory>
    ensures { IfOk result (λ _. AddsFound founds.old.items founds.new.items
        (classes_faults limits.now (classes_view classes.now))) }
{
    let (inputs, processors) = (classes.inputs.as_slice(), classes.processors.as_slice());
    let (aggregators, outputs) = (classes.aggregators.as_slice(), classes.outputs.as_slice());
    add_class_faults(alloc, founds, &Class::Inputs, limits, inputs)?;
    add_class_faults(alloc, founds, &Class::Processors, limits, processors)?;
    add_class_faults(alloc, founds, &Class::Aggregators, limits, aggregators)?;
    add_class_faults(alloc, founds, &Class::Outputs, limits, outputs)?;
    Ok(())
}

/// Adds the faults of classes beside others: none has a plugin, or two have one place.
fn add_beside_faults<'a>(
    alloc: Global,
    founds: &mut Vec<Found<'a>>,
    agent: &'a Table,
    classes: &Classes<'a>,
    empty: &'a Table,
) -> Result<(), OutOfMemory>
    requires { table_view empty.now ≡ no_members }
    ensures { IfOk result (λ _. AddsFound founds.old.items founds.new.items
        (beside_faults (table_view agent.now) (classes_view classes.now))) }
{
    let (inputs, outputs) = (classes.inputs.as_slice(), classes.outputs.as_slice());
    add_none(founds, inputs, FaultKind::NoInput)?;
    add_none(founds, outputs, FaultKind::NoOutput)?;
    add_same_inputs(alloc, founds, few(inputs), empty)?;
    add_same_outputs(alloc, founds, agent, few(outputs), empty)?;
    Ok(())
}

/// Adds the fault of a class that has no plugin and needs one.
fn add_none<'a>(
    founds: &mut Vec<Found<'a>>,
    plugins: &[Plugin<'a>],
    kind: FaultKind,
) -> Result<(), OutOfMemory>
    ensures { IfOk result (λ _. AddsFound founds.old.items founds.new.items
        (none_faults (plugins_view plugins.now) kind)) }
{
    add_whole_at(founds, &Class::Root, 0, !plugins.is_empty(), kind, false)?;
    Ok(())
}
