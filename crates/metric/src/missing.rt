//! Tags that a metric lacks.
ghost use Rattle.std.specs.Prelude.{◌≡◌, ◌<◌, ◌≤◌, All, IfOk, IsTrue, OnOk, drop, false, length};
ghost use Rattle.std.specs.List.{AllByRecursion, list_all};
ghost use Rattle.metric.specs.Metric.{is_filled, IsFilled, IsFilledTag, IsTag};
ghost use Rattle.metric.specs.Pairs.{has_key, with_missing, with_all_missing, IsInKeyOrder};

use crate::builder::insert_tag;
use crate::{Text, Value};
use fixed_num::{OutOfMemory, Seq};
use std::alloc::Global;

/// Has a tag this key?
fn has_key(tags: &[(Text, Text)], key: &str) -> bool
    ensures { result ≡ has_key tags.now key.now }
{
    tags.iter().any(|tag| tag.0.as_str() == key)
}

/// Is no key and no value of the tags empty?
pub fn are_filled(tags: &[(Text, Text)]) -> bool
    ensures each { result ≡ list_all is_filled tags.now }
    ensures all { IsTrue result → All IsFilledTag tags.now }
{
    tags.iter().all(|tag| !tag.0.as_str().is_empty() && !tag.1.as_str().is_empty())
}

/// How many tags of the list, from its front on, have keys that are among the tags.
pub(crate) fn behind_known(tags: &[(Text, Text)], given: &[(Text, Text)]) -> usize
    ensures within { result ≤ length given.now }
    ensures same { with_all_missing tags.now (drop result given.now) ≡ with_all_missing tags.now given.now }
    ensures unknown { result < length given.now → list_all (λ tag. has_key tags.now tag.0) given.now ≡ false }
{
    let mut at = 0;
    while at < given.len() && has_key(tags, given[at].0.as_str()) {
        at += 1;
    }
    at
}

/// Adds a tag at its place by key where no tag has its key.
fn add_one(
    alloc: Global,
    tags: &mut Seq<(Text, Text)>,
    key: &Text,
    value: &Text,
) -> Result<(), OutOfMemory>
    requires sorted { IsInKeyOrder tags.old }
    requires each { AllByRecursion IsTag tags.old }
    requires key { IsFilled key.now }
    requires value { IsFilled value.now }
    ensures added { OnOk result
        (tags.new ≡ with_missing tags.old (record { 0 = key.now; 1 = value.now })) }
    ensures sorted { OnOk result (IsInKeyOrder tags.new) }
    ensures each { OnOk result (AllByRecursion IsTag tags.new) }
{
    let _value = value.as_str();
    if has_key(tags.as_slice(), key.as_str()) {
        return Ok(());
    }
    insert_tag(alloc, tags, key.copy()?, value.copy()?)?;
    Ok(())
}

/// Adds the tags of the list from an index on, each where no tag has its key then.
pub(crate) fn add_missing(
    alloc: Global,
    tags: &mut Seq<(Text, Text)>,
    given: &[(Text, Text)],
    from: usize,
) -> Result<(), OutOfMemory>
    requires sorted { IsInKeyOrder tags.old }
    requires each { AllByRecursion IsTag tags.old }
    requires filled { All IsFilledTag given.now }
    requires within { from ≤ length given.now }
    ensures added { OnOk result
        (tags.new ≡ with_all_missing tags.old (drop from given.now)) }
    ensures sorted { OnOk result (IsInKeyOrder tags.new) }
    ensures each { OnOk result (AllByRecursion IsTag tags.new) }
{
    for i in from..given.len() {
        add_one(alloc, tags, &given[i].0, &given[i].1)?;
    }
    Ok(())
}

/// The same tags, whose long texts are shared, with room for so many more before memory is asked for again.
pub fn tag_copies(
    alloc: Global,
    tags: &[(Text, Text)],
    more: usize,
) -> Result<Seq<(Text, Text)>, OutOfMemory>
    ensures { IfOk result (λ copies. copies ≡ tags.now) }
{
    let mut copies = Seq::with_room(alloc, tags.len().saturating_add(more))?;
    for tag in tags {
        copies.push(alloc, (tag.0.copy()?, tag.1.copy()?))?;
    }
    Ok(copies)
}

/// The same fields.
pub(crate) fn field_copies(
    alloc: Global,
    fields: &[(Text, Value)],
) -> Result<Seq<(Text, Value)>, OutOfMemory>
    ensures { IfOk result (λ copies. copies ≡ fields.now) }
{
    let mut copies = Seq::with_room(alloc, fields.len())?;
    for field in fields {
        copies.push(alloc, (field.0.copy()?, field.1.copy()?))?;
    }
    Ok(copies)
}
