//! What messages name: the tables of faults, and what keys take.
ghost use Rattle.std.specs.Prelude.{◌≡◌, IfOk, map, option_map};
ghost use Rattle.toml.specs.Data.{no_members};
ghost use Rattle.toml.specs.View.{table_view, view};
ghost use Rattle.agent_config.specs.Kinds.{row_of};
ghost use Rattle.agent_config.specs.Naming.{class_table, count_in, first_at, inner_takes, keys_in, names_in, names_of};
ghost use Rattle.agent_config.specs.Naming.{other_name, plugin_name, same_before, takes_of};
ghost use Rattle.agent_config.specs.Plugins.{plugins_view};

use crate::fault::{Class, ConfigFault, ConfigKind, ListedFault};
use crate::inner::Inner;
use crate::places::place_of;
use crate::plugins::{Plugin, plugins_of};
use crate::shapes::{Names, Shape};
use crate::table::{Keys, keys_of};
use crate::tables::{members_in, table_at};
use fixed_num::{OutOfMemory, Seq};
use metric::Text;
use std::alloc::Global;
use toml::{Table, Value};

/// What a key takes.
#[derive(Clone, Copy, Debug, PartialEq, Eq)]
pub enum Takes {
    /// Any value.
    Anything,
    /// A whole number from 1 to this one.
    Number(u32),
    /// A truth value.
    Truth,
    /// A text that isn't empty.
    FilledText,
    /// A text.
    AnyText,
    /// The name of a format that is read.
    ReadFormat,
    /// The name of a format that is written.
    WrittenFormat,
    /// A list of templates.
    Templates,
    /// A list of one place.
    Files,
    /// A time above 0.
    Time,
    /// A time.
    TimeFromZero,
    /// A list of globs.
    Globs,
    /// A table of lists of globs.
    TagGlobs,
    /// Any whole number.
    WholeNumber,
    /// A list of tables of what is renamed, and what to.
    Replacements,
    /// A table of lists of globs by what fields are converted to.
    FieldTargets,
    /// A table of lists of globs by what tags are converted to.
    TagTargets,
    /// A list of tables of how texts are rewritten.
    Rewritings,
    /// A list of names of statistics.
    Statistics,
}

/// What a key takes of the table `agent`, or of a plugin of a class whose kind has this name; None where it isn't known.
pub fn key_takes(class: &Class, kind: &str, key: &str) -> Option<Takes>
    ensures { result ≡ option_map takes_of (row_of (keys_in class.now kind.now) key.now) }
{
    match keys_in(class, kind).row_of(key) {
        Some(shape) => Some(takes_of(shape)),
        None => None,
    }
}

/// The keys of the table `agent`, or those of a plugin.
fn keys_in(class: &Class, kind: &str) -> Keys
    ensures { result ≡ keys_in class.now kind.now }
{
    match class {
        Class::Agent => Keys::Agent,
        _ => keys_of(class, kind),
    }
}

/// What a key of this row takes.
fn takes_of(shape: Shape) -> Takes
    ensures { result ≡ takes_of shape }
{
    match shape {
        Shape::Anything => Takes::Anything,
        Shape::Count(row) => Takes::Number(row.most),
        Shape::Truth(_) => Takes::Truth,
        Shape::Place(_) => Takes::FilledText,
        Shape::AnyText(_) => Takes::AnyText,
        Shape::OneOf(Names::ReadFormats) => Takes::ReadFormat,
        Shape::OneOf(Names::WrittenFormats) => Takes::WrittenFormat,
        Shape::Templates => Takes::Templates,
        Shape::Files => Takes::Files,
        Shape::Time(row) => {
            if row.least == 0 {
                Takes::TimeFromZero
            } else {
                Takes::Time
            }
        }
        Shape::Globs => Takes::Globs,
        Shape::TagGlobs => Takes::TagGlobs,
        Shape::WholeNumber => Takes::WholeNumber,
        Shape::Table(inner) | Shape::Tables(inner) => inner_takes(inner),
        Shape::Statistics => Takes::Statistics,
    }
}

/// What a key takes whose value has such tables in it.
fn inner_takes(inner: Inner) -> Takes
    ensures { result ≡ inner_takes inner }
{
    match inner {
        Inner::Replacement => Takes::Replacements,
        Inner::FieldTargets => Takes::FieldTargets,
        Inner::TagTargets => Takes::TagTargets,
        Inner::Rewriting => Takes::Rewritings,
    }
}

/// A plugin as its file has it.
#[derive(Drop)]
pub struct PluginName {
    /// The name of its kind.
    pub kind: Text,
    /// Which of its kind it is, counted from 1.
    pub at: usize,
    /// How many of its kind there are.
    pub of: usize,
    /// Is it an element of an array of tables?
    pub is_listed: bool,
}

/// What a message names of a fault.
#[derive(Drop)]
pub struct FaultNames {
    /// The plugin that it is about.
    pub plugin: Option<PluginName>,
    /// The plugin that has its place already, where that isn't the journal.
    pub other: Option<PluginName>,
}

/// What a message names of each of some faults of a tree.
pub(crate) fn names_of_all(
    alloc: Global,
    root: &Table,
    faults: &[ListedFault],
) -> Result<Seq<FaultNames>, OutOfMemory>
    ensures { IfOk result (λ names. names ≡ map (names_in (table_view root.now)) faults.now) }
{
    let empty = Table::new(alloc);
    let mut names = Vec::new(alloc);
    for listed in faults {
        names.push(names_of(alloc, root, &empty, &listed.fault)?)?;
    }
    Ok(Seq::of(names))
}

/// The table of a class of plugins; the empty one for other classes.
fn class_table<'a>(root: &'a Table, class: &Class, empty: &'a Table) -> &'a Table
    requires { table_view empty.now ≡ no_members }
    ensures { table_view result.now ≡ class_table class.now (table_view root.now) }
{
    match class {
        Class::Inputs => table_at(root, "inputs", empty),
        Class::Processors => table_at(root, "processors", empty),
        Class::Aggregators => table_at(root, "aggregators", empty),
        Class::Outputs => table_at(root, "outputs", empty),
        _ => empty,
    }
}

/// What a message names of a fault.
fn names_of<'a>(
    alloc: Global,
    root: &'a Table,
    empty: &'a Table,
    fault: &ConfigFault,
) -> Result<FaultNames, OutOfMemory>
    requires { table_view empty.now ≡ no_members }
    ensures { IfOk result (λ names. names ≡ names_of fault.now (class_table fault.now.class (table_view root.now))) }
{
    let table = class_table(root, &fault.class, empty);
    let plugin = match fault.kind {
        ConfigKind::TooManyPlugins => None,
        _ => plugin_name(alloc, table, fault.number as usize)?,
    };
    let other = match fault.kind {
        ConfigKind::SamePlace => other_name(alloc, &fault.class, table, fault.number, empty)?,
        _ => None,
    };
    Ok(FaultNames { plugin, other })
}

/// How many plugins of its kind a value stands for.
fn count_in(value: &Value) -> usize
    ensures { result ≡ count_in (view value.now) }
{
    match value.as_array() {
        Some(items) => items.len(),
        None => 1,
    }
}

/// The plugin of a class with a number, as its file has it.
fn plugin_name(
    alloc: Global,
    class: &Table,
    number: usize,
) -> Result<Option<PluginName>, OutOfMemory>
    ensures { IfOk result (λ name. name ≡ plugin_name (table_view class.now) number) }
{
    let mut left = number;
    for (kind, value) in class.iter() {
        let of = count_in(value);
        if left < of {
            return Ok(Some(PluginName {
                kind: Text::of(alloc, kind.as_str())?,
                at: left + 1,
                of,
                is_listed: value.is_array(),
            }));
        }
        left -= of;
    }
    Ok(None)
}

/// The first plugin of a class before a number that has the place of the one with the number, as its file has it.
fn other_name<'a>(
    alloc: Global,
    class: &Class,
    table: &'a Table,
    number: u32,
    empty: &'a Table,
) -> Result<Option<PluginName>, OutOfMemory>
    requires { table_view empty.now ≡ no_members }
    ensures { IfOk result (λ name. name ≡ other_name class.now (table_view table.now) number) }
{
    let plugins = plugins_of(alloc, table)?;
    match same_before(alloc, class, plugins.as_slice(), number as usize, empty)? {
        Some(other) => plugin_name(alloc, table, other),
        None => Ok(None),
    }
}

/// The number of the first plugin that has the place of the one with a number.
fn same_before<'a>(
    alloc: Global,
    class: &Class,
    plugins: &[Plugin<'a>],
    number: usize,
    empty: &'a Table,
) -> Result<Option<usize>, OutOfMemory>
    requires { table_view empty.now ≡ no_members }
    ensures { IfOk result (λ other. other ≡ same_before class.now (plugins_view plugins.now) number) }
{
    if number >= plugins.len() {
        return Ok(None);
    }
    let place = place_of(alloc, class, &plugins[number], empty)?;
    let first = first_at(alloc, class, &plugins[..number], &place, empty)?;
    Ok(first)
}

/// The number of the first plugin that has a place.
fn first_at<'a>(
    alloc: Global,
    class: &Class,
    plugins: &[Plugin<'a>],
    place: &Text,
    empty: &'a Table,
) -> Result<Option<usize>, OutOfMemory>
    requires { table_view empty.now ≡ no_members }
    ensures { IfOk result (λ first. first ≡ first_at class.now place.now (plugins_view plugins.now)) }
{
    for number in 0..plugins.len() {
        let other = place_of(alloc, class, &plugins[number], empty)?;
        if other.as_str() == place.as_str() {
            return Ok(Some(number));
        }
    }
    Ok(None)
}
