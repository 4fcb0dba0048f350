//! Series with a number by which most of them are told apart.
ghost use Rattle.std.specs.Prelude.{◌≡◌, ◌<◌, length, IfOk};
ghost use Rattle.std.proofs.Common.{rules};
ghost use Rattle.std.specs.Cmp.{partial_equiv_from_equiv, partial_order_from_own_ties};
ghost use Rattle.std.specs.Cmp.{partial_order_from_total};
ghost use Rattle.std.specs.Cmp.Rules.{comparing};
ghost use Rattle.std.specs.List.{AllByRecursion};
ghost use Rattle.std.specs.Ordering.{as_partial_cmp};
ghost use Rattle.metric.specs.Series.{series_cmp, series_eq, series_equiv};
ghost use Rattle.agg_keep.specs.Spot.{series_of, series_same};
ghost use Rattle.statsd_text.specs.TagMap.{HasValue, IsKeyed};
ghost use Rattle.statsd_server.specs.Marked.{mark_of, marked_cmp, marked_ties, marked_total, tags_mark, text_mark};
ghost use Rattle.statsd_server.specs.Marked.{IsSound};

use crate::table::Key;
use crate::tags::Tags;
use fixed_num::OutOfMemory;
use metric::{Metric, Text, tag_copies};
use std::alloc::Global;
use std::cmp::Ordering;
use std::marker::Model;

/// A series, with a number of its name and the values of its tags: most series are told apart by it, without a look at
/// their texts. Those of one number are told apart by the texts, so that a sender who picks them makes no search longer
/// than that.
#[derive(Drop, Debug)]
pub(crate) struct Marked {
    mark: u64,
    name: Text,
    tags: Tags,
}

impl Model for Marked {
    ghost use Rattle.std.specs.Prelude.{◌≡◌};
    ghost use Rattle.metric.specs.Series.{Series};
    ghost use Rattle.statsd_server.specs.Marked.{mark_of, IsSound};

    ghost Value = { Series };

    ghost view = { λ m. (m.name, m.tags) };

    ghost invariant = { λ m. (m.mark ≡ mark_of (m.name, m.tags)) × IsSound (m.name, m.tags) };
}

/// A number, with the bytes of a text more.
#[tactic(auto, unfolding(crate::specs::Marked::mixed))]
pub(crate) fn text_mark(mark: u64, text: &str) -> u64
    ensures { result ≡ text_mark mark text.now }
{
    let mut mark = mark;
    for byte in text.as_bytes() {
        mark = mark.wrapping_mul(31).wrapping_add(u64::from(*byte));
    }
    mark
}

/// The number of a series with these tags, by that of its name.
fn with_tags(name_mark: u64, tags: &[(Text, Text)]) -> u64
    ensures { result ≡ tags_mark name_mark tags.now }
{
    let mut mark = name_mark;
    for tag in tags {
        mark = text_mark(mark, tag.1.as_str());
    }
    mark
}

impl Marked {
    /// The series of a name, whose number is known, and tags in the order of their keys.
    pub(crate) fn of(name_mark: u64, name: Text, tags: Tags) -> Marked
        requires mark { name_mark ≡ text_mark 0 name }
        requires sound { IsSound (name, tags) }
        ensures { result ≡ (name, tags) }
    {
        Marked {
            mark: with_tags(name_mark, tags.as_slice()),
            name,
            tags,
        }
    }

    /// The series of a metric.
    pub(crate) fn of_metric(alloc: Global, metric: &Metric) -> Result<Marked, OutOfMemory>
        ensures { IfOk result (λ series. series ≡ series_of metric.now) }
    {
        metric.shows_metric();
        let name = metric.name().copy()?;
        let tags = Tags::of(alloc, tag_copies(alloc, metric.tags(), 0)?)?;
        Ok(Marked::of(text_mark(0, name.as_str()), name, tags))
    }

    /// The same series, with the same tags in one list.
    pub(crate) fn copy(&self) -> Result<Marked, OutOfMemory>
        ensures { IfOk result (λ series. series ≡ self.now) }
    {
        Ok(Marked {
            mark: self.mark,
            name: self.name.copy()?,
            tags: self.tags.copy()?,
        })
    }

    /// Its name.
    pub(crate) fn name(&self) -> &Text
        ensures { result.now ≡ self.now.0 }
    {
        &self.name
    }

    /// Its tags.
    pub(crate) fn tags(&self) -> &[(Text, Text)]
        ensures { result.now ≡ self.now.1 }
    {
        self.tags.as_slice()
    }

    /// Says to a caller's proof that its name is filled, and that its tags are in the order of their keys and filled.
    pub(crate) fn shows_sound(&self)
        ensures { IsSound self.now }
    {
        let _mark = self.mark;
    }

    /// Are they the same series?
    fn is_same(&self, other: &Marked) -> bool
        ensures { result ≡ series_eq self.now other.now }
    {
        self.name == other.name && self.tags.as_slice() == other.tags.as_slice()
    }

    /// How the series compare. That two are the same is found by their texts as a whole, and not byte by byte.
    pub(crate) fn cmp_series(&self, other: &Marked) -> Ordering
        ensures { result ≡ series_cmp self.now other.now }
    {
        if self.is_same(other) {
            return Ordering::Equal;
        }
        match self.name.cmp(&other.name) {
            Ordering::Equal => self.tags.as_slice().cmp(other.tags.as_slice()),
            apart => apart,
        }
    }
}

impl Key for Marked {
    ghost decides = { series_same };
}

impl PartialEq for Marked {
    ghost eq = { series_eq };

    ghost laws = { partial_equiv_from_equiv series_equiv };

    fn eq(&self, other: &Self) -> bool {
        self.is_same(other)
    }
}

impl Eq for Marked {
    ghost laws = { series_equiv };
}

impl PartialOrd for Marked {
    ghost partial_cmp = { as_partial_cmp marked_cmp };

    ghost laws = { partial_order_from_own_ties (partial_order_from_total marked_total) marked_ties };

    fn partial_cmp(&self, other: &Self) -> Option<Ordering> {
        Some(self.cmp(other))
    }
}

impl Ord for Marked {
    ghost cmp = { marked_cmp };

    ghost total = { marked_total };

    ghost matches_partial_cmp = { Prim.search (comparing, rules) };

    ghost matches_eq = { marked_ties };

    fn cmp(&self, other: &Self) -> Ordering {
        match self.mark.cmp(&other.mark) {
            Ordering::Equal => self.cmp_series(other),
            apart => apart,
        }
    }
}
