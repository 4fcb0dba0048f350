//! The last metric of each series that wasn't removed.
ghost use Rattle.std.specs.Prelude.{◌≡◌, ◌-ℤ◌, int_lt, IfOk, OnOk, Some, if◌then◌else◌};
ghost use Rattle.std.specs.Option.{option_copied};
ghost use Rattle.metric.specs.Series.{series_eq, Series};
ghost use Rattle.proc_dedup.specs.Dedup.{held, HasRoom};
ghost use Rattle.proc_dedup.specs.Repeats.{has_field, has_fields, repeats, repeats_one, series_of, value_eq};

use crate::Fresh;
use fixed_num::{Moment, OutOfMemory};
use metric::{Metric, Series, Text, Value};
use std::collections::BTreeMap;

/// Metrics by their series. Where there is room for a series alone there is no metric yet.
pub(crate) type Kept = BTreeMap<Series, Option<Metric>>;

/// Whether a metric repeats the one that is held of its series. Where the series has no room yet, there is room behind it.
pub(crate) fn look(kept: &mut Kept, interval: i64, m: &Metric) -> Result<bool, OutOfMemory>
    ensures answer { IfOk result
        (λ answer. answer ≡ repeats interval (held kept.old.entries (series_of m.now)) m.now) }
    ensures same { (series : Series) → held kept.new.entries series ≡ held kept.old.entries series }
    ensures room { OnOk result (HasRoom kept.new.entries (series_of m.now)) }
{
    let series = m.series()?;
    match kept.get(&series) {
        Some(Some(last)) => Ok(repeats_one(interval, last, m)),
        Some(None) => Ok(false),
        None => {
            kept.insert(series, None)?;
            Ok(false)
        }
    }
}

/// Keeps a metric as the last one of its series, for which there is room.
pub(crate) fn put(kept: &mut Kept, fresh: Fresh)
    requires { HasRoom kept.old.entries (series_of fresh) }
    ensures { (series : Series) → held kept.new.entries series
        ≡ if series_eq (series_of fresh) series then Some fresh else held kept.old.entries series }
{
    let (series, metric) = fresh.into_parts();
    // Only a new series can want memory.
    let _ = kept.insert(series, Some(metric));
}

/// Does a metric come soon behind another of its series, and say nothing else?
fn repeats_one(interval: i64, last: &Metric, m: &Metric) -> bool
    ensures { result ≡ repeats_one interval last.now m.now }
{
    comes_within(interval, last.time(), m.time()) && has_fields(last.fields(), m.fields())
}

/// Does a time come less than the interval behind another? Their difference may be wider than a time.
fn comes_within(interval: i64, last: Moment, time: Moment) -> bool
    ensures { result ≡ int_lt (time -ℤ last) interval }
{
    let since = time as i128 - last as i128;
    since < interval as i128
}

/// Are these all among the fields, with the same values and types?
fn has_fields(fields: &[(Text, Value)], wanted: &[(Text, Value)]) -> bool
    ensures { result ≡ has_fields fields.now wanted.now }
{
    wanted.iter().all(|field| has_field(fields, field))
}

/// Is a field among the fields, with the same value and type?
fn has_field(fields: &[(Text, Value)], wanted: &(Text, Value)) -> bool
    ensures { result ≡ has_field fields.now wanted.now }
{
    fields.iter().any(|field| field.0 == wanted.0 && same_value(&field.1, &wanted.1))
}

/// Are two values the same, of the same type?
fn same_value(a: &Value, b: &Value) -> bool
    ensures { result ≡ value_eq a.now b.now }
{
    match (a, b) {
        (Value::Int(a), Value::Int(b)) => *a == *b,
        (Value::Uint(a), Value::Uint(b)) => *a == *b,
        (Value::Fixed(a), Value::Fixed(b)) => a.billionths() == b.billionths(),
        (Value::Bool(a), Value::Bool(b)) => *a == *b,
        (Value::Text(a), Value::Text(b)) => a.as_str() == b.as_str(),
        _ => false,
    }
}
