//! What a filter leaves of a metric.
ghost use Rattle.std.specs.Prelude.{◌≡◌, IfOk};
ghost use Rattle.metric_filter.specs.Filter.{keeps_all, keeps_each, kept, left, with_fields};

use crate::rules::{FilterRules, keeps};
use fixed_num::{OutOfMemory, Seq};
use metric::{Content, Glob, Metric, Text, Value};
use std::alloc::Global;

/// Is each field and each tag left?
pub(crate) fn keeps_all(rules: &FilterRules, m: &Metric) -> bool
    ensures { result ≡ keeps_all rules.now m.now }
{
    let (include, exclude) = (rules.fieldinclude.as_slice(), rules.fieldexclude.as_slice());
    if !keeps_each(include, exclude, m.fields()) {
        return false;
    }
    keeps_each(
        rules.taginclude.as_slice(),
        rules.tagexclude.as_slice(),
        m.tags(),
    )
}

/// Is each of the pairs kept, by its key?
fn keeps_each<V>(include: &[Glob], exclude: &[Glob], pairs: &[(Text, V)]) -> bool
    ensures { result ≡ keeps_each include.now exclude.now pairs.now }
{
    pairs
        .iter()
        .all(|pair| keeps(include, exclude, pair.0.as_str()))
}

/// The metric with the fields and tags that are left; None where no field is.
pub(crate) fn left(
    alloc: Global,
    rules: &FilterRules,
    m: &Metric,
) -> Result<Option<Metric>, OutOfMemory>
    ensures { IfOk result (λ answer. answer ≡ with_fields (left rules.now m.now)) }
{
    m.shows_metric();
    let (include, exclude) = (rules.fieldinclude.as_slice(), rules.fieldexclude.as_slice());
    let fields = kept_pairs(alloc, include, exclude, m.fields())?;
    if fields.is_empty() {
        return Ok(None);
    }
    let (include, exclude) = (rules.taginclude.as_slice(), rules.tagexclude.as_slice());
    let content = Content {
        name: m.name().copy()?,
        tags: Seq::of(kept_pairs(alloc, include, exclude, m.tags())?),
        fields: Seq::of(fields),
        time: m.time(),
    };
    Ok(Some(Metric::of(alloc, content)?))
}

/// What stands under a key, and has an equal.
trait Copied: Drop {
    /// An equal one.
    fn copied(&self) -> Result<Self, OutOfMemory>
        ensures { IfOk result (λ copy. copy ≡ self.now) };
}

impl Copied for Text {
    fn copied(&self) -> Result<Text, OutOfMemory> {
        self.copy()
    }
}

impl Copied for Value {
    fn copied(&self) -> Result<Value, OutOfMemory> {
        self.copy()
    }
}

/// The pairs whose keys are kept.
fn kept_pairs<V: Copied>(
    alloc: Global,
    include: &[Glob],
    exclude: &[Glob],
    pairs: &[(Text, V)],
) -> Result<Vec<(Text, V)>, OutOfMemory>
    ensures { IfOk result (λ left. left.items ≡ kept include.now exclude.now pairs.now) }
{
    let mut left = Vec::new(alloc);
    for pair in pairs {
        if !keeps(include, exclude, pair.0.as_str()) {
            continue;
        }
        left.push((pair.0.copy()?, pair.1.copied()?))?;
    }
    Ok(left)
}
