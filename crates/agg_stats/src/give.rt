//! The metric that is made of a series.
ghost use Rattle.std.specs.Prelude.{◌≡◌, ◌++◌, IfOk, IfSome, OnOk};
ghost use Rattle.std.specs.List.{flat_map, AllByRecursion};
ghost use Rattle.std.specs.Prelude.{◌∷◌, []};
ghost use Rattle.metric.specs.Metric.{IsField, IsValue, IsWord};
ghost use Rattle.agg_stats.specs.Asked.{given_of, named, where_asked};
ghost use Rattle.agg_stats.specs.Folds.{made_of};
ghost use Rattle.agg_stats.specs.Kept.{HasWords};

use crate::kind::Asked;
use crate::row::Row;
use crate::summary::Summary;
use fixed_num::{Moment, OutOfMemory, Seq};
use metric::{Content, Metric, Text, Value, tag_copies};
use std::alloc::Global;

/// The metric of a series at a time, where there is a field to give.
pub(crate) fn metric_of(
    alloc: Global,
    asked: Asked,
    time: Moment,
    row: &Row,
) -> Result<Option<Metric>, OutOfMemory>
    ensures { IfOk result (λ made. made ≡ made_of asked time row.now.row) }
{
    let fields = fields_of(alloc, asked, row.sums())?;
    if fields.is_empty() {
        return Ok(None);
    }
    let metric = row.metric();
    metric.shows_metric();
    let content = Content {
        name: metric.name().copy()?,
        tags: tag_copies(alloc, metric.tags(), 0)?,
        fields: Seq::of(fields),
        time,
    };
    Ok(Some(Metric::of(alloc, content)?))
}

/// What is given of the fields of a series.
fn fields_of(
    alloc: Global,
    asked: Asked,
    sums: &[(Text, Summary)],
) -> Result<Vec<(Text, Value)>, OutOfMemory>
    requires { HasWords sums.now }
    ensures given { IfOk result (λ fields. fields.items ≡ flat_map (given_of asked) sums.now) }
    ensures valid { IfOk result (λ fields. AllByRecursion IsField fields.items) }
{
    let mut fields = Vec::new(alloc);
    for pair in sums {
        give(alloc, asked, &pair.0, &pair.1, &mut fields)?;
    }
    Ok(fields)
}

/// Appends what is given of a field.
#[tactic(auto, unfolding(crate::specs::Asked::given_of))]
fn give(
    alloc: Global,
    asked: Asked,
    key: &Text,
    summary: &Summary,
    out: &mut Vec<(Text, Value)>,
) -> Result<(), OutOfMemory>
    requires word { IsWord key.now }
    requires valid { AllByRecursion IsField out.old.items }
    ensures given { OnOk result (out.new.items
        ≡ out.old.items ++ given_of asked (record { 0 = key.now; 1 = summary.now })) }
    ensures valid { OnOk result (AllByRecursion IsField out.new.items) }
{
    give_one(alloc, key, "_sum", asked.sum, summary.sum(), out)?;
    give_one(alloc, key, "_count", asked.count, summary.count(), out)?;
    give_one(alloc, key, "_min", asked.min, summary.least(), out)?;
    give_one(alloc, key, "_max", asked.max, summary.greatest(), out)?;
    Ok(())
}

/// A value where it is asked for.
fn where_asked(asked: bool, value: Option<Value>) -> Option<Value>
    requires { IfSome value IsValue }
    ensures value { result ≡ where_asked asked value }
    ensures valid { IfSome result IsValue }
{
    if asked { value } else { None }
}

/// Appends a field with its statistic's name behind its key, where it is asked for and there is a value.
#[tactic(auto, unfolding(crate::specs::Asked::named))]
fn give_one(
    alloc: Global,
    key: &Text,
    name: &str,
    asked: bool,
    value: Option<Value>,
    out: &mut Vec<(Text, Value)>,
) -> Result<(), OutOfMemory>
    requires word { IsWord key.now }
    requires value { IfSome value IsValue }
    requires valid { AllByRecursion IsField out.old.items }
    ensures given { OnOk result (out.new.items
        ≡ out.old.items ++ named key.now name.now (where_asked asked value)) }
    ensures valid { OnOk result (AllByRecursion IsField out.new.items) }
{
    match where_asked(asked, value) {
        None => Ok(()),
        Some(value) => push_field(out, joined(alloc, key, name)?, value),
    }
}

/// Appends a field.
fn push_field(out: &mut Vec<(Text, Value)>, key: Text, value: Value) -> Result<(), OutOfMemory>
    requires field { IsWord key × IsValue value }
    requires valid { AllByRecursion IsField out.old.items }
    ensures given { OnOk result (out.new.items ≡ out.old.items ++ (key, value) ∷ []) }
    ensures valid { OnOk result (AllByRecursion IsField out.new.items) }
{
    out.push((key, value))?;
    Ok(())
}

/// A key with a name behind it.
fn joined(alloc: Global, key: &Text, name: &str) -> Result<Text, OutOfMemory>
    requires { IsWord key.now }
    ensures text { IfOk result (λ text. text ≡ key.now ++ name.now) }
    ensures word { IfOk result IsWord }
{
    let mut text = String::new(alloc);
    text.push_str(key.as_str())?;
    text.push_str(name)?;
    Text::of_string(alloc, text)
}
