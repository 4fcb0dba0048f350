//! Places that stand twice.
ghost use Rattle.std.specs.Prelude.{◌≡◌, ◌≤◌, ◌∷◌, ◌++◌, [], IfOk, drop, false, length, map, not, take};
ghost use Rattle.toml.specs.Data.{no_members};
ghost use Rattle.toml.specs.View.{table_view};
ghost use Rattle.agent_config.specs.Faults.{is_journal_faulty, journal_of, only_follows, place_at, place_in};
ghost use Rattle.agent_config.specs.Faults.{place_of, same_faults, stands_in};
ghost use Rattle.agent_config.specs.Found.{AddsFound, at, whole};
ghost use Rattle.agent_config.specs.Kinds.{place_key};
ghost use Rattle.agent_config.specs.Plugins.{plugin_view, plugins_view};
ghost use Rattle.agent_config.specs.Unless.{unless};

use crate::adding::add_whole_at;
use crate::fault::{Class, FaultKind, Found};
use crate::plugins::Plugin;
use crate::statsd_input::server_place;
use crate::table::{Kind, kind_of};
use crate::tables::{is_journal_faulty, journal_of, members_in, only_text_at};
use fixed_num::OutOfMemory;
use metric::Text;
use std::alloc::Global;
use toml::Table;

/// Adds the inputs whose place an earlier one has, as faults.
pub(crate) fn add_same_inputs<'a>(
    alloc: Global,
    founds: &mut Vec<Found<'a>>,
    inputs: &[Plugin<'a>],
    empty: &'a Table,
) -> Result<(), OutOfMemory>
    requires empty { table_view empty.now ≡ no_members }
    requires few { length inputs.now ≤ 16 }
    ensures { IfOk result (λ _. AddsFound founds.old.items founds.new.items
        (same_faults Class.Inputs 0 false [] (map (place_of Class.Inputs) (plugins_view inputs.now)))) }
{
    let mut places = Vec::new(alloc);
    add_places(alloc, &mut places, &Class::Inputs, inputs, empty)?;
    add_same(founds, &Class::Inputs, false, places.as_slice(), 0)?;
    Ok(())
}

/// Adds the outputs whose place an earlier one has, or the journal, as faults.
pub(crate) fn add_same_outputs<'a>(
    alloc: Global,
    founds: &mut Vec<Found<'a>>,
    agent: &'a Table,
    outputs: &[Plugin<'a>],
    empty: &'a Table,
) -> Result<(), OutOfMemory>
    requires empty { table_view empty.now ≡ no_members }
    requires few { length outputs.now ≤ 16 }
    ensures { IfOk result (λ _. AddsFound founds.old.items founds.new.items
        (same_faults Class.Outputs 0 (is_journal_faulty (table_view agent.now)) (journal_of (table_view agent.now) ∷ [])
        (map (place_of Class.Outputs) (plugins_view outputs.now)))) }
{
    let mut places = Vec::new(alloc);
    places.push(Text::of(alloc, journal_of(agent))?)?;
    add_places(alloc, &mut places, &Class::Outputs, outputs, empty)?;
    add_same(
        founds,
        &Class::Outputs,
        is_journal_faulty(agent),
        places.as_slice(),
        1,
    )?;
    Ok(())
}

/// The place of a plugin of a class; no text where its kind isn't known.
pub(crate) fn place_of<'a>(
    alloc: Global,
    class: &Class,
    plugin: &Plugin<'a>,
    empty: &'a Table,
) -> Result<Text, OutOfMemory>
    requires { table_view empty.now ≡ no_members }
    ensures { IfOk result (λ place. place ≡ place_of class.now (plugin_view plugin.now)) }
{
    match kind_of(class, plugin.name) {
        Some(kind) => place_in(alloc, kind, members_in(plugin.value, empty)),
        None => Text::of(alloc, ""),
    }
}

/// The place of a plugin of a kind; no text where it has none.
fn place_in(alloc: Global, kind: Kind, table: &Table) -> Result<Text, OutOfMemory>
    ensures { IfOk result (λ place. place ≡ place_in kind (table_view table.now)) }
{
    match kind {
        Kind::StatsdInput => server_place(alloc, table),
        _ => Text::of(alloc, place_at(kind, table)),
    }
}

/// The only text of the list that a plugin of a kind has as its place; no text where it has none.
fn place_at(kind: Kind, table: &Table) -> &str
    ensures { result.now ≡ place_at (place_key kind) (table_view table.now) }
{
    match kind.place_key() {
        Some(key) => only_text_at(table, key),
        None => "",
    }
}

/// Adds the places of plugins of a class.
fn add_places<'a>(
    alloc: Global,
    places: &mut Vec<Text>,
    class: &Class,
    plugins: &[Plugin<'a>],
    empty: &'a Table,
) -> Result<(), OutOfMemory>
    requires { table_view empty.now ≡ no_members }
    ensures { IfOk result (λ _. places.new.items
        ≡ places.old.items ++ map (place_of class.now) (plugins_view plugins.now)) }
{
    for plugin in plugins {
        places.push(place_of(alloc, class, plugin, empty)?)?;
    }
    Ok(())
}

/// Adds those of places, from a number on, that stand already before them, as faults of the class.
fn add_same<'a>(
    founds: &mut Vec<Found<'a>>,
    class: &Class,
    faulty: bool,
    places: &[Text],
    from: usize,
) -> Result<(), OutOfMemory>
    requires within { from ≤ length places.now }
    requires few { length places.now ≤ 17 }
    ensures { IfOk result (λ _. AddsFound founds.old.items founds.new.items
        (same_faults class.now 0 faulty (take from places.now) (drop from places.now))) }
{
    let mut number: u32 = 0;
    for at in from..places.len() {
        add_same_at(founds, (class, number), faulty, &places[..at], &places[at])?;
        number += 1;
    }
    Ok(())
}

/// Adds the fault of a place, which is that of a plugin, where it stands already among those before it.
fn add_same_at<'a>(
    founds: &mut Vec<Found<'a>>,
    plugin: (&Class, u32),
    faulty: bool,
    before: &[Text],
    place: &Text,
) -> Result<(), OutOfMemory>
    ensures { IfOk result (λ _. AddsFound founds.old.items founds.new.items
        (at plugin.entry.0.now plugin.entry.1 (unless (not (stands_in before.now place.now))
        (whole FaultKind.SamePlace (only_follows faulty before.now place.now))))) }
{
    let (class, number) = plugin;
    let is_new = !stands_in(before, place);
    let follows = only_follows(faulty, before, place);
    add_whole_at(founds, class, number, is_new, FaultKind::SamePlace, follows)?;
    Ok(())
}

/// Does that a place stands among those before it only follow from another fault?
fn only_follows(faulty: bool, before: &[Text], place: &Text) -> bool
    ensures { result ≡ only_follows faulty before.now place.now }
{
    place.as_str().is_empty() || (faulty && !stands_in(behind_first(before), place))
}

/// All places but the first.
fn behind_first(places: &[Text]) -> &[Text]
    ensures { result.now ≡ drop 1 places.now }
{
    match places {
        [_first, rest @ ..] => rest,
        [] => places,
    }
}

/// Is a place one of these?
fn stands_in(places: &[Text], place: &Text) -> bool
    ensures { result ≡ stands_in places.now place.now }
{
    for other in places {
        if other.as_str() == place.as_str() {
            return true;
        }
    }
    false
}
