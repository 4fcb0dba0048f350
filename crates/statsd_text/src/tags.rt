//! The name and the tags of a line.
ghost use Rattle.std.specs.Prelude.{◌≡◌, ◌<◌, ◌++◌, [], ◌∷◌, length, IfOk, OnOk};
ghost use Rattle.std.specs.List.{list_any};
ghost use Rattle.text_parts.specs.Chain.{Gives};
ghost use Rattle.text_parts.specs.Split.{Fits, is_byte, each};
ghost use Rattle.metric.specs.Pairs.{with_sorted, with_values, IsInKeyOrder};
ghost use Rattle.statsd_text.specs.Tags.{name_of, head_tag, head_of, later_tag, later_tags};
ghost use Rattle.statsd_text.specs.Views.{part_at, HasTags, HasHead};
ghost use Rattle.statsd_text.specs.TagMap.{IsKeyed};

use crate::fault::{StatsdFault, StatsdKind, fault};
use fixed_num::OutOfMemory;
use metric::Text;
use std::alloc::Global;
use std::collections::BTreeMap;
use text_parts::{Placed, ReadError, Separated, first_part};

/// The tags that were read so far, each key with the value that it was given last.
pub(crate) type Tags = BTreeMap<Text, Text>;

/// Puts a tag among others.
fn put_tag(alloc: Global, tags: &mut Tags, key: &str, value: &str) -> Result<(), OutOfMemory>
    ensures { OnOk result (tags.new.entries ≡ with_sorted tags.old.entries key.now value.now) }
{
    let key = Text::of(alloc, key)?;
    let value = Text::of(alloc, value)?;
    tags.insert(key, value)?;
    Ok(())
}

/// The name of a line, which is the first part of its head.
fn name_of<'a>(parts: &mut Separated<'a>) -> Result<&'a str, ReadError<StatsdFault>>
    ensures { Gives (λ name. (name.now, parts.new)) result (name_of parts.old) }
{
    let Some(first) = parts.next() else {
        return Err(fault(StatsdKind::BadName, 0));
    };
    if first.text.is_empty() {
        return Err(fault(StatsdKind::BadName, 0));
    }
    Ok(first.text)
}

/// A tag in the name.
#[tactic(auto, unfolding(crate::specs::Tags::head_tag))]
fn head_tag<'a>(part: &Placed<'a>) -> Result<(&'a str, &'a str), ReadError<StatsdFault>>
    ensures gives { Gives (λ tag. (tag.0.now, tag.1.now)) result (head_tag (part_at part.now)) }
    ensures filled { IfOk result (λ tag. 0 < length tag.0.now) }
{
    let (key, value) = first_part(b'=', part.text);
    let Some(value) = value else {
        return Err(fault(StatsdKind::BadTag, part.offset));
    };
    if key.is_empty() {
        return Err(fault(StatsdKind::BadTag, part.offset));
    }
    Ok((key, value))
}

/// Puts the tags in the name among others.
fn read_head_tags(
    alloc: Global,
    parts: &mut Separated,
    tags: &mut Tags,
) -> Result<(), ReadError<StatsdFault>>
    requires keyed { IsKeyed tags.old.entries }
    ensures tags { HasTags tags.old.entries tags.new.entries result (each head_tag parts.old) }
    ensures keyed { OnOk result (IsKeyed tags.new.entries) }
{
    while let Some(part) = parts.next() {
        let (key, value) = head_tag(&part)?;
        put_tag(alloc, tags, key, value)?;
    }
    Ok(())
}

/// Reads a head: gives the name, and puts the tags among others.
pub(crate) fn read_head<'a>(
    alloc: Global,
    head: &'a str,
    tags: &mut Tags,
) -> Result<&'a str, ReadError<StatsdFault>>
    requires keyed { IsKeyed tags.old.entries }
    ensures head { HasHead tags.old.entries tags.new.entries result (head_of head.now) }
    ensures named { IfOk result (λ name. 0 < length name.now) }
    ensures keyed { OnOk result (IsKeyed tags.new.entries) }
{
    let mut parts = Separated::of(
        b',',
        Placed {
            offset: 0,
            text: head,
        },
    );
    let name = name_of(&mut parts)?;
    read_head_tags(alloc, &mut parts, tags)?;
    Ok(name)
}

/// Whether a text has a `|`.
fn has_bar(text: &str) -> bool
    ensures { result ≡ list_any (is_byte 124) text.now }
{
    text.as_bytes().iter().any(|byte| *byte == b'|')
}

/// A tag behind `|#`.
#[tactic(auto, unfolding(crate::specs::Tags::later_tag))]
fn later_tag<'a>(part: &Placed<'a>) -> Result<(&'a str, &'a str), ReadError<StatsdFault>>
    ensures gives { Gives (λ tag. (tag.0.now, tag.1.now)) result (later_tag (part_at part.now)) }
    ensures filled { IfOk result (λ tag. 0 < length tag.0.now) }
{
    let (key, value) = first_part(b':', part.text);
    if has_bar(part.text) || key.is_empty() {
        return Err(fault(StatsdKind::BadTag, part.offset));
    }
    match value {
        Some(value) => Ok((key, value)),
        None => Ok((key, "true")),
    }
}

/// Puts the tags behind `|#` among others.
pub(crate) fn read_later_tags(
    alloc: Global,
    text: Placed,
    tags: &mut Tags,
) -> Result<(), ReadError<StatsdFault>>
    requires fits { Fits (part_at text) }
    requires keyed { IsKeyed tags.old.entries }
    ensures tags { HasTags tags.old.entries tags.new.entries result (later_tags (part_at text.entry)) }
    ensures keyed { OnOk result (IsKeyed tags.new.entries) }
{
    let mut parts = Separated::of(b',', text);
    while let Some(part) = parts.next() {
        if part.text.is_empty() {
            continue;
        }
        let (key, value) = later_tag(&part)?;
        put_tag(alloc, tags, key, value)?;
    }
    Ok(())
}

/// Keeps a tag that has a value.
fn keep(tags: &mut Vec<(Text, Text)>, key: Text, value: Text) -> Result<(), OutOfMemory>
    ensures { OnOk result (tags.new.items ≡ tags.old.items ++ with_values ((key, value) ∷ [])) }
{
    if value.as_str().is_empty() {
        return Ok(());
    }
    tags.push((key, value))?;
    Ok(())
}

/// The tags that have a value, in the order of their keys.
pub(crate) fn with_values(alloc: Global, tags: Tags) -> Result<Vec<(Text, Text)>, OutOfMemory>
    ensures { IfOk result (λ kept. kept.items ≡ with_values tags.entries) }
{
    // Most lines have no tags.
    if tags.is_empty() {
        return Ok(Vec::new(alloc));
    }
    let mut kept = Vec::with_capacity(alloc, tags.len())?;
    for (key, value) in tags {
        keep(&mut kept, key, value)?;
    }
    Ok(kept)
}
