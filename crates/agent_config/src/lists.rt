//! Lists of texts, and lists of tables.
ghost use Rattle.std.specs.Prelude.{◌≡◌, IfOk, List, ℕ, Option, map, option_and_then, option_map};
ghost use Rattle.toml.specs.Data.{Data, Members, as_array, as_str, as_table};
ghost use Rattle.toml.specs.View.{items_view, table_view, view};
ghost use Rattle.agent_config.specs.Faults.{all_of, tables_in, texts_in};
ghost use Rattle.agent_config.specs.Seen.{now_of, tables_view};

use fixed_num::OutOfMemory;
use std::alloc::Global;
use toml::{Table, Value};

/// What each item of a list is: a text, or a table.
trait Item<'a>: Copy {
    /// As contracts see it.
    ghost Seen: { Type 0 };

    /// How they see it.
    ghost seen: { Self → Seen };

    /// What a value is read as.
    ghost read: { Data → Option Seen };

    /// That of a value; None where it is none.
    fn of(value: &'a Value) -> Option<Self>
        ensures { option_map seen result ≡ read (view value.now) };
}

impl<'a> Item<'a> for &'a str {
    ghost Seen = { List ℕ };

    ghost seen = { λ text. text.now };

    ghost read = { as_str };

    fn of(value: &'a Value) -> Option<&'a str> {
        value.as_str()
    }
}

impl<'a> Item<'a> for &'a Table {
    ghost Seen = { Members };

    ghost seen = { λ table. table_view table.now };

    ghost read = { as_table };

    fn of(value: &'a Value) -> Option<&'a Table> {
        value.as_table()
    }
}

/// The texts of a value that is a list of texts; None where it is none.
pub(crate) fn texts_in<'a>(
    alloc: Global,
    value: &'a Value,
) -> Result<Option<Vec<&'a str>>, OutOfMemory>
    ensures { IfOk result (λ texts. option_map (λ t. now_of t.items) texts ≡ texts_in (view value.now)) }
{
    list_in(alloc, value)
}

/// The tables of a value that is a list of tables; None where it is none.
pub(crate) fn tables_in<'a>(
    alloc: Global,
    value: &'a Value,
) -> Result<Option<Vec<&'a Table>>, OutOfMemory>
    ensures { IfOk result (λ tables. option_map (λ t. tables_view t.items) tables ≡ tables_in (view value.now)) }
{
    list_in(alloc, value)
}

/// The items of a value that is a list of such; None where it is none.
fn list_in<'a, T: Item<'a>>(alloc: Global, value: &'a Value) -> Result<Option<Vec<T>>, OutOfMemory>
    ensures { IfOk result (λ list. option_map (λ items. map T.seen items.items) list
        ≡ option_and_then (all_of T.read) (as_array (view value.now))) }
{
    match value.as_array() {
        Some(values) => all_of(alloc, values.as_slice()),
        None => Ok(None),
    }
}

/// What each of some values is; None where one isn't.
fn all_of<'a, T: Item<'a>>(
    alloc: Global,
    values: &'a [Value],
) -> Result<Option<Vec<T>>, OutOfMemory>
    ensures { IfOk result (λ all. option_map (λ items. map T.seen items.items) all
        ≡ all_of T.read (items_view values.now)) }
{
    let mut all = Vec::new(alloc);
    for value in values {
        match T::of(value) {
            Some(item) => all.push(item)?,
            None => return Ok(None),
        }
    }
    Ok(Some(all))
}
