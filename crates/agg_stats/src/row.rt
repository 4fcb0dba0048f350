//! The numbers of a series.
ghost use Rattle.std.specs.Prelude.{◌≡◌, ◌≤◌, ◌+◌, ◌++◌, [], length, IfOk, OnOk};
ghost use Rattle.std.specs.List.{position};
ghost use Rattle.std.specs.Str.{bytes_eq};
ghost use Rattle.metric.specs.Series.{series_eq};
ghost use Rattle.agg_stats.specs.Folds.{series_of};
ghost use Rattle.agg_stats.specs.Kept.{all_changed, all_fresh, changed, fresh_of, stands_at, with_fields};
ghost use Rattle.agg_stats.specs.Kept.{AreDistinct, AreSums};
ghost use Rattle.agg_stats.specs.Summary.{is_number};

use crate::summary::Summary;
use fixed_num::OutOfMemory;
use metric::{Metric, Text, Value};
use std::alloc::Global;
use std::marker::Model;

/// The numbers of a series, by the keys of its fields in the order of their first numbers.
#[derive(Drop, Debug)]
pub(crate) struct Row {
    // The first metric of the series.
    metric: Metric,
    sums: Vec<(Text, Summary)>,
}

impl Model for Row {
    ghost use Rattle.std.specs.Prelude.{vec_capacity};
    ghost use Rattle.agg_stats.specs.Folds.{series_of};
    ghost use Rattle.agg_stats.specs.Kept.{AreSums, RowMemory};

    ghost Value = { RowMemory };

    ghost view = { λ r. record { row = (series_of r.metric, r.sums.items); room = vec_capacity r.sums } };

    ghost invariant = { λ r. AreSums r.sums.items };
}

impl Row {
    /// That of a series's first metric, whose keys are given.
    pub(crate) fn of(metric: Metric, fresh: Vec<(Text, Summary)>) -> Row
        requires { fresh.items ≡ all_fresh [] metric.fields }
        ensures { result.row ≡ (series_of metric, with_fields [] metric.fields) }
    {
        metric.shows_metric();
        let mut sums = fresh;
        change_all(&mut sums, metric.fields());
        Row { metric, sums }
    }

    /// Is it that of a metric's series?
    pub(crate) fn is_of(&self, m: &Metric) -> bool
        ensures { result ≡ series_eq self.now.row.0 (series_of m.now) }
    {
        self.metric.name() == m.name() && self.metric.tags() == m.tags()
    }

    /// Makes room for the keys of a metric that are new to it, and gives them.
    pub(crate) fn make_room(
        &mut self,
        alloc: Global,
        m: &Metric,
    ) -> Result<Vec<(Text, Summary)>, OutOfMemory>
        ensures same { self.new.row ≡ self.old.row }
        ensures fresh { IfOk result (λ fresh. fresh.items ≡ all_fresh self.old.row.1 m.now.fields) }
        ensures room { IfOk result
            (λ fresh. length self.new.row.1 + length fresh.items ≤ self.new.room) }
    {
        let fresh = all_fresh(alloc, self.sums.as_slice(), m.fields(), 0)?;
        self.sums.reserve(fresh.len())?;
        Ok(fresh)
    }

    /// Adds the numbers of a metric of the series, whose new keys are given: there is room for them.
    pub(crate) fn add(&mut self, m: &Metric, fresh: Vec<(Text, Summary)>)
        requires fresh { fresh.items ≡ all_fresh self.old.row.1 m.now.fields }
        requires room { length self.old.row.1 + length fresh.items ≤ self.old.room }
        ensures series { self.new.row.0 ≡ self.old.row.0 }
        ensures sums { self.new.row.1 ≡ with_fields self.old.row.1 m.now.fields }
    {
        m.shows_metric();
        let mut fresh = fresh;
        let _ = self.sums.append(&mut fresh);
        change_all(&mut self.sums, m.fields());
    }

    /// A metric of the series.
    pub(crate) fn metric(&self) -> &Metric
        ensures { series_of result.now ≡ self.now.row.0 }
    {
        &self.metric
    }

    /// The numbers.
    pub(crate) fn sums(&self) -> &[(Text, Summary)]
        ensures sums { result.now ≡ self.now.row.1 }
        ensures valid { AreSums self.now.row.1 }
    {
        self.sums.as_slice()
    }
}

/// The keys of the fields that are numbers and have none yet, with room for so many.
pub(crate) fn all_fresh(
    alloc: Global,
    sums: &[(Text, Summary)],
    fields: &[(Text, Value)],
    room: usize,
) -> Result<Vec<(Text, Summary)>, OutOfMemory>
    requires { AreDistinct sums.now }
    ensures { IfOk result (λ fresh. fresh.items ≡ all_fresh sums.now fields.now) }
{
    let mut fresh = Vec::with_capacity(alloc, room)?;
    let mut guess = 0;
    for field in fields {
        guess = append_fresh(sums, guess, &field.0, &field.1, &mut fresh)?;
    }
    Ok(fresh)
}

/// Appends the key of a number that has none yet, and says where those of the next field may stand.
fn append_fresh(
    sums: &[(Text, Summary)],
    guess: usize,
    key: &Text,
    value: &Value,
    fresh: &mut Vec<(Text, Summary)>,
) -> Result<usize, OutOfMemory>
    requires { AreDistinct sums.now }
    ensures { OnOk result (fresh.new.items
        ≡ fresh.old.items ++ fresh_of sums.now (record { 0 = key.now; 1 = value.now })) }
{
    if !is_number(value) {
        return Ok(guess);
    }
    match index_of(sums, guess, key) {
        Some(i) => Ok(i + 1),
        None => {
            fresh.push((key.copy()?, Summary::empty()))?;
            Ok(guess)
        }
    }
}

/// Adds the fields to the numbers of their keys, where they have some.
fn change_all(sums: &mut Vec<(Text, Summary)>, fields: &[(Text, Value)])
    requires { AreDistinct sums.old.items }
    ensures { sums.new.items ≡ all_changed sums.old.items fields.now }
{
    let mut guess = 0;
    for field in fields {
        guess = change(sums, guess, &field.0, &field.1);
    }
}

/// Adds a field to the numbers of its key, where it has some, and says where those of the next field may stand.
fn change(sums: &mut Vec<(Text, Summary)>, guess: usize, key: &Text, value: &Value) -> usize
    requires { AreDistinct sums.old.items }
    ensures changed { sums.new.items
        ≡ changed sums.old.items (record { 0 = key.now; 1 = value.now }) }
    ensures distinct { AreDistinct sums.new.items }
{
    if !is_number(value) {
        return guess;
    }
    match index_of(sums.as_slice(), guess, key) {
        Some(i) => {
            sums[i].1 = sums[i].1.with(value);
            i + 1
        }
        None => guess,
    }
}

/// Is a value a number?
fn is_number(value: &Value) -> bool
    ensures { result ≡ is_number value.now }
{
    matches!(value, Value::Int(_) | Value::Uint(_) | Value::Fixed(_))
}

/// Where the numbers of a key stand. They are looked for at an index first.
fn index_of(sums: &[(Text, Summary)], guess: usize, key: &Text) -> Option<usize>
    requires { AreDistinct sums.now }
    ensures { result ≡ position (λ pair. bytes_eq pair.0 key.now) sums.now }
{
    if stands_at(sums, guess, key) {
        return Some(guess);
    }
    sums.iter().position(|pair| pair.0 == *key)
}

/// Do the numbers of a key stand at an index?
fn stands_at(sums: &[(Text, Summary)], at: usize, key: &Text) -> bool
    ensures { result ≡ stands_at sums.now at key.now }
{
    if at >= sums.len() {
        return false;
    }
    sums[at].0 == *key
}
