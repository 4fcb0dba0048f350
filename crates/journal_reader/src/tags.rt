//! Which contents are metrics.
ghost use Rattle.std.specs.Prelude.{◌≡◌, ◌&&◌, [], IfOk};
ghost use Rattle.std.specs.Cmp.Lexicographic.{slice_cmp};
ghost use Rattle.std.specs.Ordering.{is_lt, nat_cmp};
ghost use Rattle.journal_reader.specs.KeyMarks.{mark_of};
ghost use Rattle.journal_reader.specs.MetricReading.{is_filled, are_tags, are_fields, is_metric};

use fixed_num::OutOfMemory;
use metric::{Content, Text, Value};
use std::alloc::Global;

/// Whether a tag's value is filled, and its key comes behind another.
fn is_behind(before: &str, key: &Text, value: &Text) -> bool
    ensures { result ≡ (is_filled value.now && is_lt (slice_cmp nat_cmp before.now key.now)) }
{
    if value.as_str().is_empty() {
        return false;
    }
    before < key.as_str()
}

/// Whether keys and values are filled, and the keys rise.
fn are_tags(tags: &[(Text, Text)]) -> bool
    ensures { result ≡ are_tags [] tags.now }
{
    let mut before: &str = "";
    for (key, value) in tags {
        if !is_behind(before, key, value) {
            return false;
        }
        before = key.as_str();
    }
    true
}

/// A key's FNV-1a of 64 bits, by which most keys are told apart. A sort of many keys that looked at each text would
/// mostly wait for memory.
#[tactic(auto, unfolding(crate::specs::KeyMarks::marked))]
fn mark_of(key: &str) -> u64
    ensures { result ≡ mark_of key.now }
{
    let mut mark: u64 = 0xcbf2_9ce4_8422_2325;
    for byte in key.as_bytes() {
        mark = (mark ^ u64::from(*byte)).wrapping_mul(0x0100_0000_01b3);
    }
    mark
}

/// Whether keys are filled, and none comes twice: sorted by mark and text, each is above the one before it.
fn are_fields(alloc: Global, fields: &[(Text, Value)]) -> Result<bool, OutOfMemory>
    ensures { IfOk result (λ are. are ≡ are_fields [] fields.now) }
{
    let mut keys = Vec::with_capacity(alloc, fields.len())?;
    for (key, _value) in fields {
        let key = key.as_str();
        if key.is_empty() {
            return Ok(false);
        }
        keys.push((mark_of(key), key))?;
    }
    keys.sort_unstable();
    Ok(keys.as_slice().is_sorted_by(|before, key| before < key))
}

/// Whether a content is that of a metric: it has a name and a field, its keys and the values of its tags are filled,
/// the keys of its tags rise, and those of its fields are distinct.
#[tactic(auto, unfolding(crate::specs::MetricReading::is_metric))]
pub(crate) fn is_metric(alloc: Global, m: &Content) -> Result<bool, OutOfMemory>
    ensures { IfOk result (λ is. is ≡ is_metric m.now) }
{
    let fields = m.fields.as_slice();
    if m.name.as_str().is_empty() || fields.is_empty() || !are_tags(m.tags.as_slice()) {
        return Ok(false);
    }
    are_fields(alloc, fields)
}
