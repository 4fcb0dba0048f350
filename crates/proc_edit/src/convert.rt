//! Converting.
ghost use Rattle.std.specs.Prelude.{◌≡◌, IfOk, OnOk};
ghost use Rattle.std.specs.List.{AllByRecursion};
ghost use Rattle.metric.specs.Metric.{IsField, IsFilled, IsTag};
ghost use Rattle.proc_edit.specs.Convert.{as_field, as_tag, fields_converted, tags_converted, whole_converted};
ghost use Rattle.proc_edit.specs.Convert.{converted, text_of, with_field_converted, with_tag_converted, with_value};
ghost use Rattle.metric.specs.declared.value.Value.TheVariants.{Text as TextValue};

use crate::Target;
use crate::target::target_of;
use crate::value::{converted, text_of};
use fixed_num::{OutOfMemory, Seq};
use metric::{Glob, Metric, Text, Value};
use std::alloc::Global;
use std::marker::Model;

/// What is converted: tags and fields by their keys. Of the rules for a tag or field, by globs that match its key, the first
/// in the order of targets counts, wherever it stands in the list.
#[derive(Debug, Drop)]
pub struct ConvertRules {
    /// What tags are made: fields of these types. A tag for which `Target::Tag` is asked stays.
    pub tags: Seq<(Target, Glob)>,
    /// What fields are made.
    pub fields: Seq<(Target, Glob)>,
}

/// Rules by which tags and fields are converted (as Telegraf's processor converter does).
#[derive(Debug, Drop)]
pub struct Convert {
    alloc: Global,
    rules: ConvertRules,
}

impl Model for Convert {
    ghost use Rattle.proc_edit.specs.declared.convert.ConvertRules.{ConvertRules};

    ghost Value = { ConvertRules };

    ghost view = { λ c. c.rules };
}

impl Convert {
    /// The converting by these rules.
    pub fn new(alloc: Global, rules: ConvertRules) -> Convert
        ensures { result ≡ rules }
    {
        Convert { alloc, rules }
    }

    /// The metric converted: each field in order, and then each tag that is there by then, in the order of the keys. A
    /// converted field keeps its place; a field made a tag, or a tag made a field, goes and is set as that. What doesn't
    /// convert stays: no second target is tried, no empty text is made a tag, and the only field stays.
    ///
    /// Whole numbers are made of numbers and of texts that spell one, cut toward zero, where they are in range, and of
    /// truth values as 1 or 0; numbers with nine decimals likewise, uncut. A truth value is whether a number isn't 0, or
    /// what `1 t T true TRUE True` and `0 f F false FALSE False` stand for. A text is a number's shortest decimal digits,
    /// `true` or `false`. After an error the metric is given up.
    pub fn apply(&self, m: Metric) -> Result<Metric, OutOfMemory>
        ensures { IfOk result (λ answer. answer ≡ whole_converted self.now m) }
    {
        let mut m = m;
        convert_fields(self.alloc, self.rules.fields.as_slice(), &mut m)?;
        convert_tags(self.alloc, self.rules.tags.as_slice(), &mut m)?;
        Ok(m)
    }
}

/// Converts the fields, in order.
fn convert_fields(
    alloc: Global,
    rules: &[(Target, Glob)],
    m: &mut Metric,
) -> Result<(), OutOfMemory>
    ensures { OnOk result (m.new ≡ fields_converted rules.now m.old m.old.fields) }
{
    m.shows_metric();
    let before = m.copy()?;
    convert_each_field(alloc, rules, before.fields(), m)
}

/// Converts fields of the metric, in order.
fn convert_each_field(
    alloc: Global,
    rules: &[(Target, Glob)],
    fields: &[(Text, Value)],
    m: &mut Metric,
) -> Result<(), OutOfMemory>
    requires { AllByRecursion IsField fields.now }
    ensures { OnOk result (m.new ≡ fields_converted rules.now m.old fields.now) }
{
    for field in fields {
        convert_field(alloc, rules, &field.0, &field.1, m)?;
    }
    Ok(())
}

/// Converts a field of the metric.
fn convert_field(
    alloc: Global,
    rules: &[(Target, Glob)],
    key: &Text,
    value: &Value,
    m: &mut Metric,
) -> Result<(), OutOfMemory>
    requires { IsFilled key.now }
    ensures { OnOk result
        (m.new ≡ with_field_converted rules.now m.old (record { 0 = key.now; 1 = value.now })) }
{
    match target_of(rules, key.as_str()) {
        None => Ok(()),
        Some(Target::Tag) => make_tag(alloc, key, value, m),
        Some(target) => make_value(alloc, target, key, value, m),
    }
}

/// Makes a field a tag, where it has a text that isn't empty and another field stays.
fn make_tag(alloc: Global, key: &Text, value: &Value, m: &mut Metric) -> Result<(), OutOfMemory>
    requires { IsFilled key.now }
    ensures { OnOk result (m.new ≡ as_tag m.old key.now (text_of value.now)) }
{
    let text = text_of(alloc, value)?;
    if text.as_str().is_empty() || !m.drop_field(alloc, key.as_str())? {
        return Ok(());
    }
    m.set_tag(alloc, key.as_str(), text.as_str())
}

/// Gives a field another value, where its own converts.
fn make_value(
    alloc: Global,
    target: Target,
    key: &Text,
    value: &Value,
    m: &mut Metric,
) -> Result<(), OutOfMemory>
    requires { IsFilled key.now }
    ensures { OnOk result (m.new ≡ with_value m.old key.now (converted target value.now)) }
{
    let Some(value) = converted(alloc, target, value)? else {
        return Ok(());
    };
    m.set_field(alloc, key.as_str(), value)
}

/// Converts the tags, in the order of their keys.
fn convert_tags(alloc: Global, rules: &[(Target, Glob)], m: &mut Metric) -> Result<(), OutOfMemory>
    ensures { OnOk result (m.new ≡ tags_converted rules.now m.old m.old.tags) }
{
    m.shows_metric();
    let before = m.copy()?;
    convert_each_tag(alloc, rules, before.tags(), m)
}

/// Converts tags of the metric, in order.
fn convert_each_tag(
    alloc: Global,
    rules: &[(Target, Glob)],
    tags: &[(Text, Text)],
    m: &mut Metric,
) -> Result<(), OutOfMemory>
    requires { AllByRecursion IsTag tags.now }
    ensures { OnOk result (m.new ≡ tags_converted rules.now m.old tags.now) }
{
    for tag in tags {
        convert_tag(alloc, rules, &tag.0, &tag.1, m)?;
    }
    Ok(())
}

/// Makes a tag of the metric a field, where its text converts.
fn convert_tag(
    alloc: Global,
    rules: &[(Target, Glob)],
    key: &Text,
    text: &Text,
    m: &mut Metric,
) -> Result<(), OutOfMemory>
    requires { IsFilled key.now }
    ensures { OnOk result
        (m.new ≡ with_tag_converted rules.now m.old (record { 0 = key.now; 1 = text.now })) }
{
    let Some(target) = target_of(rules, key.as_str()) else {
        return Ok(());
    };
    make_field(alloc, target, key, text, m)
}

/// Makes a tag a field, where its text converts.
fn make_field(
    alloc: Global,
    target: Target,
    key: &Text,
    text: &Text,
    m: &mut Metric,
) -> Result<(), OutOfMemory>
    requires { IsFilled key.now }
    ensures { OnOk result (m.new ≡ as_field m.old key.now (converted target (TextValue text.now))) }
{
    let Some(value) = converted(alloc, target, &Value::Text(text.copy()?))? else {
        return Ok(());
    };
    m.drop_tag(alloc, key.as_str())?;
    m.set_field(alloc, key.as_str(), value)
}
