//! Renaming.
ghost use Rattle.std.specs.Prelude.{◌≡◌, false, All, IfOk, IsTrue, OnOk};
ghost use Rattle.metric.specs.Metric.{IsFilled};
ghost use Rattle.metric.specs.Pairs.{has_key};
ghost use Rattle.proc_edit.specs.Rename.{moved_fields, moved_tags, renamed, renamed_by, renamed_key};
ghost use Rattle.proc_edit.specs.Rename.{has_dest, with_key_renamed, HasDest};
ghost use Rattle.std.specs.Str.{bytes_eq};
ghost use Rattle.std.specs.List.{list_all};

use fixed_num::{OutOfMemory, Seq};
use metric::{Content, Metric, Part, Text, Value, tag_copies};
use std::alloc::Global;
use std::marker::Model;

/// One name or key that is replaced by another.
#[derive(Debug, Drop)]
pub struct RenameRule {
    /// Of which part.
    pub part: Part,
    /// The name or key that is replaced.
    pub from: Text,
    /// The one in its place.
    pub dest: Text,
}

/// Has each rule something to put in the place of the name or key?
pub fn have_dests(rules: &[RenameRule]) -> bool
    ensures each { result ≡ list_all has_dest rules.now }
    ensures all { IsTrue result → All HasDest rules.now }
{
    rules.iter().all(|rule| !rule.dest.as_str().is_empty())
}

/// Rules by which names and keys are replaced (as Telegraf's processor rename does).
#[derive(Debug, Drop)]
pub struct Rename {
    alloc: Global,
    rules: Seq<RenameRule>,
}

impl Model for Rename {
    ghost use Rattle.std.specs.Prelude.{All, List};
    ghost use Rattle.proc_edit.specs.declared.rename.RenameRule.{RenameRule};
    ghost use Rattle.proc_edit.specs.Rename.{HasDest};

    ghost Value = { List RenameRule };

    ghost view = { λ r. r.rules };

    ghost invariant = { λ r. All HasDest r.rules };
}

impl Rename {
    /// The renaming by these rules, in order. No `dest` is empty (`have_dests` tells).
    pub fn new(alloc: Global, rules: Vec<RenameRule>) -> Rename
        requires { All HasDest rules.items }
        ensures { result ≡ rules.items }
    {
        Rename {
            alloc,
            rules: Seq::of(rules),
        }
    }

    /// The metric with the parts renamed, by one rule after the other: a name, or the key of a tag or field, that is
    /// `from` becomes `dest`. Another tag or field that had the key `dest` is removed, and a renamed field stands where
    /// its old key stood. A rule whose `from` is its `dest` changes nothing. After an error the metric is given up.
    pub fn apply(&self, m: Metric) -> Result<Metric, OutOfMemory>
        ensures { IfOk result (λ answer. answer ≡ renamed self.now m) }
    {
        let mut m = m;
        rename_by_all(self.alloc, self.rules.as_slice(), &mut m)?;
        Ok(m)
    }
}

/// Renames by each rule in order.
fn rename_by_all(alloc: Global, rules: &[RenameRule], m: &mut Metric) -> Result<(), OutOfMemory>
    requires { All HasDest rules.now }
    ensures { OnOk result (m.new ≡ renamed rules.now m.old) }
{
    for rule in rules {
        rename_part(alloc, rule, m)?;
    }
    Ok(())
}

/// Renames by one rule.
fn rename_part(alloc: Global, rule: &RenameRule, m: &mut Metric) -> Result<(), OutOfMemory>
    requires { HasDest rule.now }
    ensures { OnOk result (m.new ≡ renamed_by m.old rule.now) }
{
    let (from, dest) = (rule.from.as_str(), rule.dest.as_str());
    if from == dest {
        return Ok(());
    }
    match rule.part {
        Part::Measurement => rename_name(alloc, from, dest, m),
        Part::Tag => rename_tag(alloc, from, dest, m),
        Part::Field => rename_field(alloc, from, dest, m),
    }
}

/// Gives the metric another name, where it has the one that is replaced.
fn rename_name(alloc: Global, from: &str, dest: &str, m: &mut Metric) -> Result<(), OutOfMemory>
    requires { IsFilled dest.now }
    ensures { OnOk result
        (m.new ≡ record m.old { name = renamed_key from.now dest.now m.old.name }) }
{
    if m.name().as_str() != from {
        return Ok(());
    }
    m.set_name(alloc, dest)
}

/// Moves the value of the tag that is renamed to its new key.
fn rename_tag(alloc: Global, from: &str, dest: &str, m: &mut Metric) -> Result<(), OutOfMemory>
    requires { IsFilled dest.now }
    ensures { OnOk result
        (m.new ≡ record m.old { tags = moved_tags m.old.tags from.now dest.now }) }
{
    m.shows_metric();
    let Some(value) = m.tag(from) else {
        return Ok(());
    };
    let value = value.copy()?;
    m.drop_tag(alloc, from)?;
    m.set_tag(alloc, dest, value.as_str())?;
    Ok(())
}

/// Renames the field of a key at its place, and removes another one of its new key.
fn rename_field(alloc: Global, from: &str, dest: &str, m: &mut Metric) -> Result<(), OutOfMemory>
    requires filled { IsFilled dest.now }
    requires other { bytes_eq from.now dest.now ≡ false }
    ensures { OnOk result
        (m.new ≡ record m.old { fields = moved_fields m.old.fields from.now dest.now }) }
{
    if !has_key(m.fields(), from) {
        return Ok(());
    }
    m.shows_metric();
    let content = Content {
        name: m.name().copy()?,
        tags: tag_copies(alloc, m.tags(), 0)?,
        fields: renamed_fields(alloc, from, dest, m.fields())?,
        time: m.time(),
    };
    *m = Metric::of(alloc, content)?;
    Ok(())
}

/// Has a field this key?
fn has_key(fields: &[(Text, Value)], key: &str) -> bool
    ensures { result ≡ has_key fields.now key.now }
{
    fields.iter().any(|field| field.0.as_str() == key)
}

/// The fields but the one that has the new key, with the new key in place of the old one.
fn renamed_fields(
    alloc: Global,
    from: &str,
    dest: &str,
    fields: &[(Text, Value)],
) -> Result<Seq<(Text, Value)>, OutOfMemory>
    ensures { IfOk result (λ renamed. renamed ≡ with_key_renamed fields.now from.now dest.now) }
{
    let mut renamed = Seq::with_room(alloc, fields.len())?;
    for field in fields {
        if field.0.as_str() == dest {
            continue;
        }
        let key = renamed_key(alloc, from, dest, &field.0)?;
        renamed.push(alloc, (key, field.1.copy()?))?;
    }
    Ok(renamed)
}

/// The new key in place of the old one; another key is as before.
fn renamed_key(alloc: Global, from: &str, dest: &str, key: &Text) -> Result<Text, OutOfMemory>
    ensures { IfOk result (λ renamed. renamed ≡ renamed_key from.now dest.now key.now) }
{
    if key.as_str() == from {
        return Text::of(alloc, dest);
    }
    key.copy()
}
