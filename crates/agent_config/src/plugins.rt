//! The plugins of a class.
ghost use Rattle.std.specs.Prelude.{◌≡◌, ◌++◌, IfOk, map};
ghost use Rattle.toml.specs.Data.{as_array, no_members};
ghost use Rattle.toml.specs.View.{items_view, table_view, view};
ghost use Rattle.agent_config.specs.Faults.{Plugin, classes_of, listed, of_kind, plugins_of};
ghost use Rattle.agent_config.specs.Plugins.{classes_view, plugin_view, plugins_view};

use crate::tables::table_at;
use fixed_num::{OutOfMemory, Seq};
use std::alloc::Global;
use toml::{Table, Value};

/// A plugin.
#[derive(Clone, Copy)]
pub(crate) struct Plugin<'a> {
    /// The name of its kind.
    pub(crate) name: &'a str,
    /// What stands there: a table, where nothing is wrong.
    pub(crate) value: &'a Value,
}

/// The plugins of the classes, by number.
#[derive(Drop)]
pub(crate) struct Classes<'a> {
    pub(crate) inputs: Vec<Plugin<'a>>,
    pub(crate) processors: Vec<Plugin<'a>>,
    pub(crate) aggregators: Vec<Plugin<'a>>,
    pub(crate) outputs: Vec<Plugin<'a>>,
}

/// The plugins of the classes of a root.
pub(crate) fn classes_of<'a>(
    alloc: Global,
    root: &'a Table,
    empty: &'a Table,
) -> Result<Classes<'a>, OutOfMemory>
    requires { table_view empty.now ≡ no_members }
    ensures { IfOk result (λ classes. classes_view classes ≡ classes_of (table_view root.now)) }
{
    Ok(Classes {
        inputs: plugins_of(alloc, table_at(root, "inputs", empty))?,
        processors: plugins_of(alloc, table_at(root, "processors", empty))?,
        aggregators: plugins_of(alloc, table_at(root, "aggregators", empty))?,
        outputs: plugins_of(alloc, table_at(root, "outputs", empty))?,
    })
}

/// The plugins of a class, by number.
pub(crate) fn plugins_of<'a>(
    alloc: Global,
    class: &'a Table,
) -> Result<Vec<Plugin<'a>>, OutOfMemory>
    ensures { IfOk result (λ plugins. plugins_view plugins.items ≡ plugins_of (table_view class.now)) }
{
    let mut plugins = Vec::new(alloc);
    for (name, value) in class.iter() {
        add_kind(&mut plugins, name.as_str(), value)?;
    }
    Ok(plugins)
}

/// Adds the plugins of one kind.
fn add_kind<'a>(
    plugins: &mut Vec<Plugin<'a>>,
    name: &'a str,
    value: &'a Value,
) -> Result<(), OutOfMemory>
    ensures { IfOk result (λ _. plugins_view plugins.new.items
        ≡ plugins_view plugins.old.items ++ of_kind name.now (view value.now) (as_array (view value.now))) }
{
    match value.as_array() {
        Some(values) => add_all(plugins, name, values.as_slice()),
        None => Ok(plugins.push(Plugin { name, value })?),
    }
}

/// Adds a plugin of a kind for each value.
fn add_all<'a>(
    plugins: &mut Vec<Plugin<'a>>,
    name: &'a str,
    values: &'a [Value],
) -> Result<(), OutOfMemory>
    ensures { IfOk result (λ _. plugins_view plugins.new.items
        ≡ plugins_view plugins.old.items ++ listed name.now (items_view values.now)) }
{
    for value in values {
        plugins.push(Plugin { name, value })?;
    }
    Ok(())
}

/// What a plugin stands for: an input, a step, or an aggregator.
pub(crate) trait OfPlugin: Drop + Sized {
    /// That of a plugin, as contracts see it.
    ghost made_of: { Plugin → Self };

    /// That of a plugin.
    fn of<'a>(alloc: Global, plugin: &Plugin<'a>, empty: &'a Table) -> Result<Self, OutOfMemory>
        requires { table_view empty.now ≡ no_members }
        ensures { IfOk result (λ made. made ≡ made_of (plugin_view plugin.now)) };
}

/// What each of some plugins stands for.
pub(crate) fn each_of<'a, T: OfPlugin>(
    alloc: Global,
    plugins: &[Plugin<'a>],
    empty: &'a Table,
) -> Result<Seq<T>, OutOfMemory>
    requires { table_view empty.now ≡ no_members }
    ensures { IfOk result (λ each. each ≡ map T.made_of (plugins_view plugins.now)) }
{
    let mut each = Vec::new(alloc);
    for plugin in plugins {
        each.push(T::of(alloc, plugin, empty)?)?;
    }
    Ok(Seq::of(each))
}
