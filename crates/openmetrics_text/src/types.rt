//! The types of samples.
ghost use Rattle.std.specs.Prelude.{◌≡◌, ◌++◌, [], ◌∷◌, codes, OnOk, List, map, slice_index_or};
ghost use Rattle.std.specs.Str.{bytes_eq};
ghost use Rattle.metric.specs.Draft.{Tag};
ghost use Rattle.openmetrics_text.specs.Types.{last_of, later, type_of, has_suffix_of, is_family_of};
ghost use Rattle.openmetrics_text.specs.TypeViews.{HaveTypes};

use fixed_num::OutOfMemory;
use std::alloc::Global;
use std::collections::BTreeMap;

/// What a sample's name may have behind the name of its family.
static SUFFIXES: [&[u8]; 8] = [
    b"_total",
    b"_created",
    b"_bucket",
    b"_count",
    b"_sum",
    b"_gcount",
    b"_gsum",
    b"_info",
];

/// The types of the TYPE lines that were read, and for each of their names the index of its last one.
#[derive(Drop)]
pub(crate) struct Types<'a> {
    kinds: Vec<&'a str>,
    last: BTreeMap<&'a [u8], usize>,
}

/// The later of two indices.
fn later(one: Option<usize>, other: Option<usize>) -> Option<usize>
    ensures { result ≡ later one other }
{
    match one {
        Some(index) => match other {
            Some(another) => Some(index.max(another)),
            None => Some(index),
        },
        None => other,
    }
}

impl<'a> Types<'a> {
    /// No TYPE line was read.
    pub(crate) fn new(alloc: Global) -> Types<'a>
        ensures { HaveTypes result [] }
    {
        Types {
            kinds: Vec::new(alloc),
            last: BTreeMap::new(alloc),
        }
    }

    /// One more TYPE line.
    pub(crate) fn add(&mut self, name: &'a str, kind: &'a str) -> Result<(), OutOfMemory>
        ensures { OnOk result ((pairs : List Tag) → HaveTypes self.old pairs
            → HaveTypes self.new (pairs ++ (name.now, kind.now) ∷ [])) }
    {
        self.last.insert(name.as_bytes(), self.kinds.len())?;
        self.kinds.push(kind)?;
        Ok(())
    }

    // The index of the last TYPE line of a name.
    fn last_of(&self, name: &[u8]) -> Option<usize>
        ensures { (pairs : List Tag) → HaveTypes self.now pairs
            → result ≡ last_of (λ other. bytes_eq other name.now) pairs }
    {
        self.last.get(name).copied()
    }

    // The index of the last TYPE line of a sample's name without a suffix, where it has that.
    fn last_without(&self, name: &[u8], suffix: &[u8]) -> Option<usize>
        ensures { (pairs : List Tag) → HaveTypes self.now pairs
            → result ≡ last_of (λ other. bytes_eq (other ++ suffix.now) name.now) pairs }
    {
        match name.strip_suffix(suffix) {
            Some(front) => self.last_of(front),
            None => None,
        }
    }

    // The index of the last TYPE line of a sample's name without one of some suffixes.
    fn last_with(&self, name: &[u8], suffixes: &[&[u8]]) -> Option<usize>
        ensures { (pairs : List Tag) → HaveTypes self.now pairs
            → result ≡ last_of (has_suffix_of name.now (map (λ suffix. suffix.now) suffixes.now)) pairs }
    {
        let mut last = None;
        for suffix in suffixes {
            last = later(last, self.last_without(name, suffix));
        }
        last
    }

    // The index of the last TYPE line of a sample's name, or that without one suffix.
    fn last_for(&self, name: &[u8]) -> Option<usize>
        ensures { (pairs : List Tag) → HaveTypes self.now pairs
            → result ≡ last_of (is_family_of name.now) pairs }
    {
        later(self.last_of(name), self.last_with(name, &SUFFIXES))
    }

    // The type at an index.
    fn kind_at(&self, index: usize) -> &'a str
        ensures { result.now
            ≡ slice_index_or (map (λ kind. kind.now) self.now.kinds.items) index (codes "unknown") }
    {
        if index < self.kinds.len() {
            return self.kinds[index];
        }
        "unknown"
    }

    /// The type of a sample's name.
    pub(crate) fn type_of(&self, name: &str) -> &'a str
        ensures { (pairs : List Tag) → HaveTypes self.now pairs → result.now ≡ type_of name.now pairs }
    {
        match self.last_for(name.as_bytes()) {
            Some(index) => self.kind_at(index),
            None => "unknown",
        }
    }
}
