//! The filter of a plugin.
ghost use Rattle.std.specs.Prelude.{◌≡◌, ◌++◌, IfOk, chars, option_to_list};
ghost use Rattle.toml.specs.Data.{as_table};
ghost use Rattle.toml.specs.View.{table_view, view};
ghost use Rattle.metric.specs.Glob.{glob_of};
ghost use Rattle.agent_config.specs.Faults.{texts_in};
ghost use Rattle.agent_config.specs.Rows.{members_in};
ghost use Rattle.agent_config.specs.Seen.{now_of};
ghost use Rattle.agent_config.specs.Filters.{filter_of, globs_at, globs_in, globs_of, tag_globs_at};
ghost use Rattle.agent_config.specs.Filters.{tag_globs_of};

use crate::globs::read_glob;
use crate::lists::texts_in;
use crate::tables::value_at;
use fixed_num::{OutOfMemory, Seq};
use metric::{Glob, Text};
use metric_filter::{Filter, FilterRules};
use std::alloc::Global;
use toml::{Table, Value};

/// The filter of a plugin: the older names of two lists are added behind the newer ones.
#[tactic(auto, unfolding(crate::specs::Filters::filter_of))]
pub(crate) fn filter_of(alloc: Global, table: &Table) -> Result<Filter, OutOfMemory>
    ensures { IfOk result (λ filter. filter ≡ filter_of (table_view table.now)) }
{
    Ok(Filter::new(
        alloc,
        FilterRules {
            namepass: globs_at(alloc, table, "namepass")?,
            namedrop: globs_at(alloc, table, "namedrop")?,
            fieldinclude: both_globs_at(alloc, table, "fieldinclude", "fieldpass")?,
            fieldexclude: both_globs_at(alloc, table, "fieldexclude", "fielddrop")?,
            taginclude: globs_at(alloc, table, "taginclude")?,
            tagexclude: globs_at(alloc, table, "tagexclude")?,
            tagpass: tag_globs_at(alloc, table, "tagpass")?,
            tagdrop: tag_globs_at(alloc, table, "tagdrop")?,
        },
    ))
}

/// The globs at a key.
fn globs_at(alloc: Global, table: &Table, key: &str) -> Result<Seq<Glob>, OutOfMemory>
    ensures { IfOk result (λ globs. globs ≡ globs_at key.now (table_view table.now)) }
{
    let mut globs = Vec::new(alloc);
    add_globs_at(alloc, &mut globs, table, key)?;
    Ok(Seq::of(globs))
}

/// The globs at a key, and those at another.
fn both_globs_at(
    alloc: Global,
    table: &Table,
    key: &str,
    older: &str,
) -> Result<Seq<Glob>, OutOfMemory>
    ensures { IfOk result (λ globs. globs
        ≡ globs_at key.now (table_view table.now) ++ globs_at older.now (table_view table.now)) }
{
    let mut globs = Vec::new(alloc);
    add_globs_at(alloc, &mut globs, table, key)?;
    add_globs_at(alloc, &mut globs, table, older)?;
    Ok(Seq::of(globs))
}

/// Adds the globs at a key.
#[tactic(auto, unfolding(crate::specs::Filters::globs_at))]
fn add_globs_at(
    alloc: Global,
    globs: &mut Vec<Glob>,
    table: &Table,
    key: &str,
) -> Result<(), OutOfMemory>
    ensures { IfOk result (λ _. globs.new.items
        ≡ globs.old.items ++ globs_at key.now (table_view table.now)) }
{
    match value_at(table, key) {
        Some(value) => add_globs_in(alloc, globs, value),
        None => Ok(()),
    }
}

/// Adds the globs of a value.
pub(crate) fn add_globs_in(
    alloc: Global,
    globs: &mut Vec<Glob>,
    value: &Value,
) -> Result<(), OutOfMemory>
    ensures { IfOk result (λ _. globs.new.items ≡ globs.old.items ++ globs_in (texts_in (view value.now))) }
{
    match texts_in(alloc, value)? {
        Some(texts) => add_globs(alloc, globs, texts.as_slice()),
        None => Ok(()),
    }
}

/// Adds the globs that texts spell.
fn add_globs(alloc: Global, globs: &mut Vec<Glob>, texts: &[&str]) -> Result<(), OutOfMemory>
    ensures { IfOk result (λ _. globs.new.items ≡ globs.old.items ++ globs_of (now_of texts.now)) }
{
    for text in texts {
        add_glob(alloc, globs, text)?;
    }
    Ok(())
}

/// Adds the glob that a text spells, if it spells one.
fn add_glob(alloc: Global, globs: &mut Vec<Glob>, text: &str) -> Result<(), OutOfMemory>
    ensures { IfOk result (λ _. globs.new.items
        ≡ globs.old.items ++ option_to_list (glob_of (chars text.now))) }
{
    match read_glob(alloc, text)? {
        Some(glob) => Ok(globs.push(glob)?),
        None => Ok(()),
    }
}

/// The globs of each key of the table at a key.
#[tactic(auto, unfolding(crate::specs::Filters::tag_globs_at))]
fn tag_globs_at(
    alloc: Global,
    table: &Table,
    key: &str,
) -> Result<Seq<(Text, Seq<Glob>)>, OutOfMemory>
    ensures { IfOk result (λ listed. listed ≡ tag_globs_at key.now (table_view table.now)) }
{
    match value_at(table, key) {
        Some(value) => tag_globs_in(alloc, value),
        None => Ok(Seq::of(Vec::new(alloc))),
    }
}

/// The globs of each key of a value that is a table.
fn tag_globs_in(alloc: Global, value: &Value) -> Result<Seq<(Text, Seq<Glob>)>, OutOfMemory>
    ensures { IfOk result (λ listed. listed ≡ tag_globs_of (members_in (as_table (view value.now)))) }
{
    match value.as_table() {
        Some(tags) => tag_globs_of(alloc, tags),
        None => Ok(Seq::of(Vec::new(alloc))),
    }
}

/// The globs of each key of a table.
fn tag_globs_of(alloc: Global, tags: &Table) -> Result<Seq<(Text, Seq<Glob>)>, OutOfMemory>
    ensures { IfOk result (λ listed. listed ≡ tag_globs_of (table_view tags.now)) }
{
    let mut listed = Vec::new(alloc);
    for (key, value) in tags.iter() {
        let mut globs = Vec::new(alloc);
        add_globs_in(alloc, &mut globs, value)?;
        listed.push((Text::of(alloc, key.as_str())?, Seq::of(globs)))?;
    }
    Ok(Seq::of(listed))
}
