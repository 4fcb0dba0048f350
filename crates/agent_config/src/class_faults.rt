//! What is wrong with the plugins of a class.
ghost use Rattle.std.specs.Prelude.{◌≡◌, ◌≤◌, ◌∷◌, [], IfOk, length};
ghost use Rattle.toml.specs.View.{table_view};
ghost use Rattle.agent_config.specs.Faults.{class_faults, few, kind_faults, numbered, plugin_faults};
ghost use Rattle.agent_config.specs.Faults.{missing_faults, unknown_faults};
ghost use Rattle.agent_config.specs.Found.{Adds, AddsFound, at};
ghost use Rattle.agent_config.specs.Kinds.{needs, own_faults};
ghost use Rattle.agent_config.specs.Plugins.{plugin_view, plugins_view};

use crate::adding::{Added, Findings, add_at, add_whole_at};
use crate::fault::{Class, FaultKind, Found, Wrong};
use crate::plugins::Plugin;
use crate::table::{Keys, Kind, kind_of};
use crate::tables::{Limits, own_limits, value_at};
use fixed_num::OutOfMemory;
use std::alloc::Global;
use toml::Table;

/// The most plugins of a class.
const MOST_PLUGINS: u32 = 16;

/// The plugins of a class that may be there; those behind them aren't looked at.
pub(crate) fn few<'p, 'a>(plugins: &'p [Plugin<'a>]) -> &'p [Plugin<'a>]
    ensures bound { length result.now ≤ 16 }
    ensures front { plugins_view result.now ≡ few (plugins_view plugins.now) }
{
    if plugins.len() > MOST_PLUGINS as usize {
        &plugins[..MOST_PLUGINS as usize]
    } else {
        plugins
    }
}

/// Adds the faults of the plugins of a class.
#[tactic(auto, unfolding(crate::specs::Faults::class_faults))]
pub(crate) fn add_class_faults<'a>(
    alloc: Global,
    founds: &mut Vec<Found<'a>>,
    class: &Class,
    limits: &Limits,
    plugins: &[Plugin<'a>],
) -> Result<(), OutOfMemory>
    ensures { IfOk result (λ _. AddsFound founds.old.items founds.new.items
        (class_faults class.now limits.now (plugins_view plugins.now))) }
{
    let are_few = plugins.len() <= MOST_PLUGINS as usize;
    add_whole_at(
        founds,
        class,
        MOST_PLUGINS,
        are_few,
        FaultKind::TooManyPlugins,
        false,
    )?;
    let plugins = few(plugins);
    add_unknown_faults(alloc, founds, class, plugins)?;
    add_known_faults(alloc, founds, class, limits, plugins)?;
    Ok(())
}

/// Adds the plugins of a class whose kinds aren't known, as faults.
fn add_unknown_faults<'a>(
    alloc: Global,
    founds: &mut Vec<Found<'a>>,
    class: &Class,
    plugins: &[Plugin<'a>],
) -> Result<(), OutOfMemory>
    requires { length plugins.now ≤ 16 }
    ensures { IfOk result (λ _. AddsFound founds.old.items founds.new.items
        (numbered class.now (unknown_faults class.now) 0 (plugins_view plugins.now))) }
{
    let mut number: u32 = 0;
    for plugin in plugins {
        add_unknown(alloc, founds, class, number, plugin)?;
        number += 1;
    }
    Ok(())
}

/// Adds the fault of a plugin whose kind isn't known.
fn add_unknown<'a>(
    alloc: Global,
    founds: &mut Vec<Found<'a>>,
    class: &Class,
    number: u32,
    plugin: &Plugin<'a>,
) -> Result<(), OutOfMemory>
    ensures { IfOk result (λ _. AddsFound founds.old.items founds.new.items
        (at class.now number (unknown_faults class.now (plugin_view plugin.now)))) }
{
    let mut findings = Findings::new(alloc);
    let is_known = kind_of(class, plugin.name).is_some();
    findings.add_unless(is_known, Wrong::of_key(FaultKind::UnknownKind, plugin.name))?;
    add_at(founds, class, number, findings.wrongs.as_slice())?;
    Ok(())
}

/// Adds the faults of the plugins of a class whose kinds are known.
fn add_known_faults<'a>(
    alloc: Global,
    founds: &mut Vec<Found<'a>>,
    class: &Class,
    limits: &Limits,
    plugins: &[Plugin<'a>],
) -> Result<(), OutOfMemory>
    requires { length plugins.now ≤ 16 }
    ensures { IfOk result (λ _. AddsFound founds.old.items founds.new.items
        (numbered class.now (plugin_faults class.now limits.now) 0 (plugins_view plugins.now))) }
{
    let mut number: u32 = 0;
    for plugin in plugins {
        add_known(alloc, founds, (class, number), limits, plugin)?;
        number += 1;
    }
    Ok(())
}

/// Adds the faults of a plugin, where its kind is known, at its place.
fn add_known<'a>(
    alloc: Global,
    founds: &mut Vec<Found<'a>>,
    place: (&Class, u32),
    limits: &Limits,
    plugin: &Plugin<'a>,
) -> Result<(), OutOfMemory>
    ensures { IfOk result (λ _. AddsFound founds.old.items founds.new.items
        (at place.entry.0.now place.entry.1 (plugin_faults place.entry.0.now limits.now (plugin_view plugin.now)))) }
{
    let (class, number) = place;
    let mut findings = Findings::new(alloc);
    findings.check_plugin(class, limits, plugin)?;
    add_at(founds, class, number, findings.wrongs.as_slice())?;
    Ok(())
}

impl<'a> Findings<'a> {
    /// Checks a plugin, where its kind is known.
    #[tactic(auto, unfolding(crate::specs::Faults::plugin_faults))]
    fn check_plugin(&mut self, class: &Class, limits: &Limits, plugin: &Plugin<'a>) -> Added
        ensures { IfOk result (λ _. Adds self.old self.new (plugin_faults class.now limits.now (plugin_view plugin.now))) }
    {
        let Some(kind) = kind_of(class, plugin.name) else {
            return Ok(());
        };
        match plugin.value.as_table() {
            Some(table) => self.check_kind(&kind, limits, table),
            None => self.add(Wrong::of_whole(FaultKind::WrongType, false)),
        }
    }

    /// Checks a table that is a plugin of a kind.
    fn check_kind(&mut self, kind: &Kind, limits: &Limits, table: &'a Table) -> Added
        ensures { IfOk result (λ _. Adds self.old self.new (kind_faults kind.now limits.now (table_view table.now))) }
    {
        self.check_keys(&Keys::Plugin(*kind), table)?;
        self.check_needs(kind, table)?;
        self.check_own(kind, limits, table)?;
        Ok(())
    }

    /// Checks that a plugin of a kind has the keys which it needs.
    fn check_needs(&mut self, kind: &Kind, table: &'a Table) -> Added
        ensures { IfOk result (λ _. Adds self.old self.new (missing_faults (needs kind.now) (table_view table.now))) }
    {
        match kind {
            Kind::FileInput => self.check_need(table, "files"),
            Kind::StatsdInput => self.check_need(table, "service_address"),
            Kind::FileOutput => self.check_need(table, "files"),
            _ => Ok(()),
        }
    }

    /// Checks that a table has a key which it needs.
    fn check_need(&mut self, table: &'a Table, key: &'a str) -> Added
        ensures { IfOk result (λ _. Adds self.old self.new (missing_faults (key.now ∷ []) (table_view table.now))) }
    {
        let is_there = value_at(table, key).is_some();
        self.add_unless(is_there, Wrong::of_key(FaultKind::Missing, key))?;
        Ok(())
    }

    /// Checks a plugin of a kind for what no key of it has alone.
    fn check_own(&mut self, kind: &Kind, limits: &Limits, table: &'a Table) -> Added
        ensures { IfOk result (λ _. Adds self.old self.new (own_faults kind.now limits.now (table_view table.now))) }
    {
        match kind {
            Kind::FileOutput => {
                self.check_limits(&own_limits(&Keys::Plugin(Kind::FileOutput), limits, table))
            }
            _ => Ok(()),
        }
    }
}
