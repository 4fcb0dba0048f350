//! Samples by a text of theirs, each text where it came first.
ghost use Rattle.std.specs.Prelude.{◌≡◌, ◌<◌, [], length, map, slice_set, OnOk};
ghost use Rattle.metric.specs.Pairs.{put_in};
ghost use Rattle.openmetrics_text.specs.Groups.{with_last};
ghost use Rattle.openmetrics_text.specs.WriteViews.{line_view, group_view, groups_view, HasMore, IsIndexed};

use fixed_num::{Moment, OutOfMemory, Seq};
use std::alloc::Global;
use std::collections::BTreeMap;

/// A sample as it is written.
#[derive(Clone, Copy, Debug)]
pub(crate) struct SampleLine<'a> {
    /// Its family.
    pub(crate) family: &'a [u8],
    /// What stands for the set of its labels.
    pub(crate) series: &'a [u8],
    /// Its time: nanoseconds since 1970.
    pub(crate) time: Moment,
    /// Its line, with the newline.
    pub(crate) text: &'a [u8],
}

/// The samples of one key, in order.
#[derive(Debug, Drop)]
pub(crate) struct Group<'a> {
    /// The key.
    pub(crate) key: &'a [u8],
    /// The samples. Most groups of series have one, which takes no memory but its own.
    pub(crate) samples: Seq<SampleLine<'a>>,
}

/// Samples by their keys, each key where it came first. Whoever sends metrics picks their keys, so an ordered map
/// finds them: no choice of keys makes it slow.
#[derive(Debug, Drop)]
pub(crate) struct Groups<'a> {
    /// The index of each key's group.
    indices: BTreeMap<&'a [u8], usize>,
    groups: Vec<Group<'a>>,
}

/// One more sample of the group at an index.
fn add_to<'a>(
    alloc: Global,
    groups: &mut Vec<Group<'a>>,
    index: usize,
    sample: SampleLine<'a>,
) -> Result<(), OutOfMemory>
    requires { index < length groups.old.items }
    ensures { OnOk result (HasMore (map group_view groups.old.items) index (line_view sample.entry)
        (map group_view groups.new.items)) }
{
    groups[index].samples.push(alloc, sample)?;
    Ok(())
}

impl<'a> Groups<'a> {
    /// There is no sample.
    pub(crate) fn new(alloc: Global) -> Groups<'a>
        ensures none { groups_view result ≡ [] }
        ensures indexed { IsIndexed result }
    {
        Groups {
            indices: BTreeMap::new(alloc),
            groups: Vec::new(alloc),
        }
    }

    /// One more sample of a key.
    pub(crate) fn put(
        &mut self,
        alloc: Global,
        key: &'a [u8],
        sample: SampleLine<'a>,
    ) -> Result<(), OutOfMemory>
        requires { IsIndexed self.old }
        ensures put { OnOk result (groups_view self.new
            ≡ put_in (with_last (line_view sample.entry)) [] (groups_view self.old) key.now) }
        ensures indexed { OnOk result (IsIndexed self.new) }
    {
        match self.indices.get(key).copied() {
            Some(index) => {
                add_to(alloc, &mut self.groups, index, sample)?;
                Ok(())
            }
            None => {
                self.indices.insert(key, self.groups.len())?;
                self.groups.push(Group {
                    key,
                    samples: Seq::of_one(sample),
                })?;
                Ok(())
            }
        }
    }

    /// The groups, in order.
    pub(crate) fn as_slice(&self) -> &[Group<'a>]
        ensures { map group_view result.now ≡ groups_view self.now }
    {
        self.groups.as_slice()
    }
}
