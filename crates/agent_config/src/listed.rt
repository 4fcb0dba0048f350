//! The faults of a text, each with what it is about.
ghost use Rattle.std.specs.Prelude.{◌≡◌, ◌∷◌, [], IfOk, None, length, map, option_map, take};
ghost use Rattle.toml.specs.View.{table_view};
ghost use Rattle.agent_config.specs.Faults.{faults_of, found_in};
ghost use Rattle.agent_config.specs.Found.{AddsFound, found_view, founds_view, unfollowed};
ghost use Rattle.agent_config.specs.Listed.{faults_listed, listed_of};
ghost use Rattle.agent_config.specs.Naming.{names_in, names_listed};
ghost use Rattle.agent_config.specs.Unless.{unless};

use crate::fault::{Class, FaultKind, Found, ListedFault, Wrong, fault_of};
use crate::finding::faults_of;
use crate::naming::{FaultNames, names_of_all};
use crate::read::tree_of;
use fixed_num::{OutOfMemory, Seq};
use metric::Text;
use std::alloc::Global;
use toml::Table;

/// The first faults of a text, and how many it has.
#[derive(Drop)]
pub struct TextFaults {
    /// The first, in the order of `docs/users/configuration.md`.
    pub first: Seq<ListedFault>,
    /// How many there are, these too.
    pub count: usize,
    /// What a message names of each of the first; of a text that is no TOML nothing.
    pub names: Seq<FaultNames>,
}

/// The first faults of a text, so many at most, each with what it is about, and how many there are. Those that only
/// follow from others are left out: a batch size above the limit where one of both stands for a faulty value, and
/// two plugins of one place where no value says it.
pub fn text_faults(alloc: Global, text: &[u8], most: usize) -> Result<TextFaults, OutOfMemory>
    ensures first { IfOk result (λ faults. faults.first ≡ take most (faults_listed text.now)) }
    ensures count { IfOk result (λ faults. faults.count ≡ length (faults_listed text.now)) }
    ensures names { IfOk result (λ faults. faults.names ≡ take most (names_listed text.now)) }
{
    match tree_of(alloc, text)? {
        Some(root) => Ok(tree_faults(alloc, &root, most)?),
        None => {
            let (first, count) = told(alloc, &[not_toml()], most)?;
            let names = Seq::of(Vec::new(alloc));
            Ok(TextFaults {
                first,
                count,
                names,
            })
        }
    }
}

/// The fault of a text that is no TOML, as it is found.
fn not_toml() -> Found<'static>
    ensures { found_view result ∷ [] ≡ found_in None }
{
    Found {
        wrong: Wrong {
            kind: FaultKind::NotToml,
            key: None,
            text: None,
            follows: false,
        },
        class: Class::Root,
        number: 0,
    }
}

/// The same of a tree.
fn tree_faults(alloc: Global, root: &Table, most: usize) -> Result<TextFaults, OutOfMemory>
    ensures first { IfOk result (λ faults. faults.first
        ≡ take most (map listed_of (unfollowed (faults_of (table_view root.now))))) }
    ensures count { IfOk result (λ faults. faults.count
        ≡ length (map listed_of (unfollowed (faults_of (table_view root.now))))) }
    ensures names { IfOk result (λ faults. faults.names ≡ map (names_in (table_view root.now)) faults.first) }
{
    let empty = Table::new(alloc);
    let founds = faults_of(alloc, root, &empty)?;
    let (first, count) = told(alloc, founds.as_slice(), most)?;
    let names = names_of_all(alloc, root, first.as_slice())?;
    Ok(TextFaults {
        first,
        count,
        names,
    })
}

/// The first of faults as they are told, and how many there are, but for those that only follow from others.
fn told(
    alloc: Global,
    founds: &[Found],
    most: usize,
) -> Result<(Seq<ListedFault>, usize), OutOfMemory>
    ensures first { IfOk result (λ told. told.0 ≡ take most (map listed_of (unfollowed (founds_view founds.now)))) }
    ensures count { IfOk result (λ told. told.1 ≡ length (map listed_of (unfollowed (founds_view founds.now)))) }
{
    let unfollowed = unfollowed(alloc, founds)?;
    let all = unfollowed.as_slice();
    Ok((listed(alloc, front(all, most))?, all.len()))
}

/// Those that don't follow from others.
fn unfollowed<'a>(alloc: Global, founds: &[Found<'a>]) -> Result<Vec<Found<'a>>, OutOfMemory>
    ensures { IfOk result (λ kept. founds_view kept.items ≡ unfollowed (founds_view founds.now)) }
{
    let mut kept = Vec::new(alloc);
    for found in founds {
        add_unfollowed(&mut kept, found)?;
    }
    Ok(kept)
}

/// Adds a fault, unless it follows from others.
fn add_unfollowed<'a>(kept: &mut Vec<Found<'a>>, found: &Found<'a>) -> Result<(), OutOfMemory>
    ensures { IfOk result (λ _. AddsFound kept.old.items kept.new.items
        (unless found.now.wrong.follows (found_view found.now))) }
{
    if found.wrong.follows {
        return Ok(());
    }
    kept.push(*found)?;
    Ok(())
}

/// At most so many faults, from the first on.
fn front<'f, 'a>(founds: &'f [Found<'a>], most: usize) -> &'f [Found<'a>]
    ensures { result.now ≡ take most founds.now }
{
    if most < founds.len() {
        &founds[..most]
    } else {
        founds
    }
}

/// Faults as they are told.
fn listed(alloc: Global, founds: &[Found]) -> Result<Seq<ListedFault>, OutOfMemory>
    ensures { IfOk result (λ faults. faults ≡ map listed_of (founds_view founds.now)) }
{
    let mut faults = Vec::new(alloc);
    for found in founds {
        faults.push(listed_of(alloc, found)?)?;
    }
    Ok(Seq::of(faults))
}

/// A fault as it is told.
fn listed_of(alloc: Global, found: &Found) -> Result<ListedFault, OutOfMemory>
    ensures { IfOk result (λ fault. fault ≡ listed_of (found_view found.now)) }
{
    Ok(ListedFault {
        fault: fault_of(found).told(),
        key: text_of(alloc, found.wrong.key)?,
        text: text_of(alloc, found.wrong.text)?,
    })
}

/// The text that is lent, where one is.
fn text_of(alloc: Global, text: Option<&str>) -> Result<Option<Text>, OutOfMemory>
    ensures { IfOk result (λ owned. owned ≡ option_map (λ lent. lent.now) text.entry) }
{
    match text {
        Some(text) => Ok(Some(Text::of(alloc, text)?)),
        None => Ok(None),
    }
}
