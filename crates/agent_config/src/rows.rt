//! What stands at a key of a table, by the key's row.
ghost use Rattle.std.specs.Prelude.{◌≡◌, IfOk};
ghost use Rattle.toml.specs.View.{table_view};
ghost use Rattle.agent_config.specs.Kinds.{agent_number, is_faulty_at, number_at, row_of, text_at, time_at, truth_at};
ghost use Rattle.agent_config.specs.Kinds.{whole_number_at};
ghost use Rattle.agent_config.specs.Rows.{count_row, counted_or, is_counted, is_number, timed_or, usual_of};
ghost use Rattle.agent_config.specs.Rows.{text_or, usual_text, usual_truth};

use crate::shapes::{Shape, TimeRow};
use crate::table::Keys;
use crate::tables::value_at;
use crate::times::time_in;
use fixed_num::OutOfMemory;
use std::alloc::Global;
use toml::Table;

/// Is the number from 1 to a greatest one?
pub(crate) fn is_counted(most: u32, number: i64) -> bool
    ensures { result ≡ is_counted most number }
{
    1 <= number && number <= i64::from(most)
}

/// The number, where it is from 1 to the greatest one, or another.
fn counted_or(number: Option<i64>, most: u32, other: u32) -> u32
    ensures { result ≡ counted_or most other number }
{
    match number {
        Some(n) => { if is_counted(most, n) { n as u32 } else { other } }
        None => other,
    }
}

/// The number at a key, or another where there is none that its row allows.
#[tactic(auto, unfolding(crate::specs::Kinds::number_at))]
pub(crate) fn number_at(keys: &Keys, table: &Table, key: &str, other: u32) -> u32
    ensures { result ≡ number_at keys.now key.now other (table_view table.now) }
{
    let Some(Shape::Count(row)) = keys.row_of(key) else {
        return other;
    };
    match value_at(table, key) {
        Some(value) => counted_or(value.as_integer(), row.most, other),
        None => other,
    }
}

/// Is there a whole number, from 1 to the greatest one?
fn is_number(most: u32, number: Option<i64>) -> bool
    ensures { result ≡ is_number most number }
{
    match number {
        Some(n) => is_counted(most, n),
        None => false,
    }
}

/// Is the value at a key none that its row of a number takes? Another answer where there is no value.
#[tactic(auto, unfolding(crate::specs::Kinds::is_faulty_at))]
pub(crate) fn is_faulty_at(keys: &Keys, table: &Table, key: &str, other: bool) -> bool
    ensures { result ≡ is_faulty_at keys.now key.now other (table_view table.now) }
{
    let Some(Shape::Count(row)) = keys.row_of(key) else {
        return other;
    };
    match value_at(table, key) {
        Some(value) => !is_number(row.most, value.as_integer()),
        None => other,
    }
}

/// What a number of the table `agent` is where nothing is said; 0 for a key that takes no number.
fn usual_number(key: &str) -> u32
    ensures { result ≡ usual_of (count_row (row_of Keys.Agent key.now)) }
{
    match Keys::Agent.row_of(key) {
        Some(Shape::Count(row)) => row.usual,
        _ => 0,
    }
}

/// The number at a key of the table `agent`.
#[tactic(auto, unfolding(crate::specs::Kinds::agent_number))]
pub(crate) fn agent_number(agent: &Table, key: &str) -> u32
    ensures { result ≡ agent_number key.now (table_view agent.now) }
{
    number_at(&Keys::Agent, agent, key, usual_number(key))
}

/// What a truth value is where nothing is said.
fn usual_truth(keys: &Keys, key: &str) -> bool
    ensures { result ≡ usual_truth (row_of keys.now key.now) }
{
    match keys.row_of(key) {
        Some(Shape::Truth(usual)) => usual,
        _ => false,
    }
}

/// The truth value at a key.
#[tactic(auto, unfolding(crate::specs::Kinds::truth_at))]
pub(crate) fn truth_at(keys: &Keys, table: &Table, key: &str) -> bool
    ensures { result ≡ truth_at keys.now key.now (table_view table.now) }
{
    let usual = usual_truth(keys, key);
    match value_at(table, key) {
        Some(value) => value.as_bool().unwrap_or(usual),
        None => usual,
    }
}

/// What a text is where nothing is said.
fn usual_text(keys: &Keys, key: &str) -> &'static str
    ensures { result.now ≡ usual_text (row_of keys.now key.now) }
{
    match keys.row_of(key) {
        Some(Shape::Place(usual)) => usual.text(),
        Some(Shape::AnyText(usual)) => usual.text(),
        Some(Shape::OneOf(names)) => names.usual(),
        _ => "",
    }
}

/// The text at a key.
#[tactic(auto, unfolding(crate::specs::Kinds::text_at))]
pub(crate) fn text_at<'a>(keys: &Keys, table: &'a Table, key: &str) -> &'a str
    ensures { result.now ≡ text_at keys.now key.now (table_view table.now) }
{
    text_or(table, key, usual_text(keys, key))
}

/// The text at a key, or another where there is none.
pub(crate) fn text_or<'a>(table: &'a Table, key: &str, other: &'a str) -> &'a str
    ensures { result.now ≡ text_or key.now other.now (table_view table.now) }
{
    match value_at(table, key) {
        Some(value) => value.as_str().unwrap_or(other),
        None => other,
    }
}

/// A time that its row allows, or the one where nothing is said.
fn timed_or(row: &TimeRow, time: Option<i64>) -> i64
    ensures { result ≡ timed_or row.now time }
{
    match time {
        Some(time) => { if row.least <= time { time } else { row.usual } }
        None => row.usual,
    }
}

/// The whole number at a key; 0 where none is said.
#[tactic(auto, unfolding(crate::specs::Kinds::whole_number_at))]
pub(crate) fn whole_number_at(table: &Table, key: &str) -> i64
    ensures { result ≡ whole_number_at key.now (table_view table.now) }
{
    match value_at(table, key) {
        Some(value) => value.as_integer().unwrap_or(0),
        None => 0,
    }
}

/// The time at a key, in nanoseconds; 0 for a key that takes none.
#[tactic(auto, unfolding(crate::specs::Kinds::time_at))]
pub(crate) fn time_at(
    alloc: Global,
    keys: &Keys,
    table: &Table,
    key: &str,
) -> Result<i64, OutOfMemory>
    ensures { IfOk result (λ time. time ≡ time_at keys.now key.now (table_view table.now)) }
{
    let Some(Shape::Time(row)) = keys.row_of(key) else {
        return Ok(0);
    };
    let Some(value) = value_at(table, key) else {
        return Ok(row.usual);
    };
    let time = time_in(alloc, value)?;
    Ok(timed_or(&row, time))
}
