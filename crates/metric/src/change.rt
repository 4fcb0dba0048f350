//! Changing what a metric says.
ghost use Rattle.std.specs.Prelude.{◌≡◌, ◌≤◌, All, IfOk, OnOk, OnErr, drop, length, true};
ghost use Rattle.std.specs.Arc.{arc_value};
ghost use Rattle.std.specs.List.{position, AllByRecursion, IsDistinct};
ghost use Rattle.std.specs.Map.{keys_of};
ghost use Rattle.std.specs.Cmp.Lexicographic.{pointwise};
ghost use Rattle.std.specs.Prelude.{nat_eq};
ghost use Rattle.std.specs.Str.{bytes_eq};
ghost use Rattle.metric.specs.Changing.{loses_field, without_field, without_key};
ghost use Rattle.metric.specs.Metric.{IsFilledTag, IsTag};
ghost use Rattle.metric.specs.Pairs.{has_key, with_all_missing, with_pair, with_sorted, IsInKeyOrder};

use crate::builder::{field_at, put_field, put_tag};
use crate::missing::{add_missing, field_copies, tag_copies};
use crate::{Content, Text, Value};
use fixed_num::OutOfMemory;
use std::alloc::Global;
use std::sync::Arc;

/// So many fields a metric has at least.
const LEAST_FIELDS: usize = 1;

/// The content with this name.
pub(crate) fn set_name(
    content: &mut Arc<Content>,
    alloc: Global,
    name: &str,
) -> Result<(), OutOfMemory>
    ensures ok { OnOk result
        (arc_value content.new ≡ record (arc_value content.old) { name = name.now }) }
    ensures err { OnErr result (arc_value content.new ≡ arc_value content.old) }
{
    let name = Text::of(alloc, name)?;
    unshare(content, alloc)?;
    match Arc::get_mut(content) {
        Some(own) => {
            own.name = name;
            Ok(())
        }
        None => Err(OutOfMemory),
    }
}

/// The content with a tag, at its place by key.
pub(crate) fn set_tag(
    content: &mut Arc<Content>,
    alloc: Global,
    key: &str,
    value: &str,
) -> Result<(), OutOfMemory>
    requires { IsInKeyOrder (arc_value content.old).tags }
    ensures ok { OnOk result
        (arc_value content.new ≡ record (arc_value content.old) {
          tags = with_sorted (arc_value content.old).tags key.now value.now;
        }) }
    ensures err { OnErr result (arc_value content.new ≡ arc_value content.old) }
{
    unshare(content, alloc)?;
    match Arc::get_mut(content) {
        Some(own) => put_tag(alloc, &mut own.tags, key, value),
        None => Err(OutOfMemory),
    }
}

/// The content with the tags of a list from an index on, each at its place by key where no tag has its key then. The list
/// of tags is made anew, with room for just these.
pub(crate) fn add_tags(
    content: &mut Arc<Content>,
    alloc: Global,
    given: &[(Text, Text)],
    from: usize,
) -> Result<(), OutOfMemory>
    requires sorted { IsInKeyOrder (arc_value content.old).tags }
    requires each { AllByRecursion IsTag (arc_value content.old).tags }
    requires filled { All IsFilledTag given.now }
    requires within { from ≤ length given.now }
    ensures added { OnOk result
        (arc_value content.new ≡ record (arc_value content.old) {
          tags = with_all_missing (arc_value content.old).tags (drop from given.now);
        }) }
    ensures sorted { OnOk result (IsInKeyOrder (arc_value content.new).tags) }
    ensures each { OnOk result (AllByRecursion IsTag (arc_value content.new).tags) }
{
    unshare(content, alloc)?;
    match Arc::get_mut(content) {
        Some(own) => {
            own.tags = tag_copies(alloc, own.tags.as_slice(), given.len() - from)?;
            add_missing(alloc, &mut own.tags, given, from)
        }
        None => Err(OutOfMemory),
    }
}

/// The content with a field: over the one of its key, or behind the others.
pub(crate) fn set_field(
    content: &mut Arc<Content>,
    alloc: Global,
    key: &str,
    value: Value,
) -> Result<(), OutOfMemory>
    ensures ok { OnOk result
        (arc_value content.new ≡ record (arc_value content.old) {
          fields = with_pair (arc_value content.old).fields key.now value;
        }) }
    ensures err { OnErr result (arc_value content.new ≡ arc_value content.old) }
{
    unshare(content, alloc)?;
    match Arc::get_mut(content) {
        Some(own) => put_field(alloc, &mut own.fields, key, value),
        None => Err(OutOfMemory),
    }
}

/// The content without the tag of a key, and whether there was one.
pub(crate) fn drop_tag(
    content: &mut Arc<Content>,
    alloc: Global,
    key: &str,
) -> Result<bool, OutOfMemory>
    requires { IsInKeyOrder (arc_value content.old).tags }
    ensures gone { IfOk result (λ gone. gone ≡ has_key (arc_value content.old).tags key.now) }
    ensures there { OnErr result (has_key (arc_value content.old).tags key.now ≡ true) }
    ensures ok { OnOk result
        (arc_value content.new ≡ record (arc_value content.old) {
          tags = without_key (arc_value content.old).tags key.now;
        }) }
    ensures err { OnErr result (arc_value content.new ≡ arc_value content.old) }
{
    let Some(at) = tag_at(content.tags.as_slice(), key) else {
        return Ok(false);
    };
    unshare(content, alloc)?;
    match Arc::get_mut(content) {
        Some(own) => {
            own.tags.remove(alloc, at);
            Ok(true)
        }
        None => Err(OutOfMemory),
    }
}

/// The content without the field of a key, where there is one and another stays; and whether that is so.
pub(crate) fn drop_field(
    content: &mut Arc<Content>,
    alloc: Global,
    key: &str,
) -> Result<bool, OutOfMemory>
    requires { IsDistinct (pointwise nat_eq) (keys_of (arc_value content.old).fields) }
    ensures gone { IfOk result (λ gone. gone ≡ loses_field (arc_value content.old).fields key.now) }
    ensures there { OnErr result (loses_field (arc_value content.old).fields key.now ≡ true) }
    ensures ok { OnOk result
        (arc_value content.new ≡ record (arc_value content.old) {
          fields = without_field (arc_value content.old).fields key.now;
        }) }
    ensures err { OnErr result (arc_value content.new ≡ arc_value content.old) }
{
    let fields = content.fields.as_slice();
    if fields.len() <= LEAST_FIELDS {
        return Ok(false);
    }
    let Some(at) = field_at(fields, key) else {
        return Ok(false);
    };
    unshare(content, alloc)?;
    match Arc::get_mut(content) {
        Some(own) => {
            own.fields.remove(alloc, at);
            Ok(true)
        }
        None => Err(OutOfMemory),
    }
}

/// Where the tag of a key stands.
fn tag_at(tags: &[(Text, Text)], key: &str) -> Option<usize>
    ensures { result ≡ position (λ tag. bytes_eq tag.0 key.now) tags.now }
{
    tags.iter().position(|tag| tag.0.as_str() == key)
}

/// Makes a content one that no other metric shares, where it isn't.
fn unshare(content: &mut Arc<Content>, alloc: Global) -> Result<(), OutOfMemory>
    ensures { arc_value content.new ≡ arc_value content.old }
{
    if Arc::strong_count(content) > 1 {
        *content = Arc::new(alloc, copy_of(alloc, content)?)?;
    }
    Ok(())
}

/// An equal content, whose long texts are shared.
fn copy_of(alloc: Global, content: &Content) -> Result<Content, OutOfMemory>
    ensures { IfOk result (λ copy. copy ≡ content.now) }
{
    Ok(Content {
        name: content.name.copy()?,
        tags: tag_copies(alloc, content.tags.as_slice(), 0)?,
        fields: field_copies(alloc, content.fields.as_slice())?,
        time: content.time,
    })
}
