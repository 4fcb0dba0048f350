//! Metrics.
ghost use Rattle.std.specs.Prelude.{◌≡◌, ◌≤◌, ◌↔◌, All, IfOk, IsOkAnd, IsTrue, OnErr, OnOk, drop, length, true};
ghost use Rattle.std.specs.List.{list_all};
ghost use Rattle.std.proofs.Common.{rules};
ghost use Rattle.std.specs.Cmp.Rules.{comparing};
ghost use Rattle.std.specs.Option.{option_copied};
ghost use Rattle.metric.specs.Metric.{IsFilled, IsFilledTag, IsMetric};
ghost use Rattle.metric.specs.Changing.{loses_field, without_field, without_key};
ghost use Rattle.metric.specs.Pairs.{has_key, value_at, with_all_missing, with_pair, with_sorted};

use crate::missing::behind_known;
use crate::{Series, Text, Value, change};
use fixed_num::{Moment, OutOfMemory, Seq};
use std::alloc::Global;
use std::marker::Model;
use std::sync::Arc;

/// What a metric says: its name, its tags in the order of their keys, its fields and its time.
#[derive(Debug, PartialEq, Eq, Drop)]
pub struct Content {
    /// The name (the measurement of line protocol).
    pub name: Text,
    /// The tags, sorted by key, with distinct keys.
    pub tags: Seq<(Text, Text)>,
    /// The fields in order, with distinct keys.
    pub fields: Seq<(Text, Value)>,
    /// Nanoseconds since 1970.
    pub time: Moment,
}

/// A metric; copies share one content.
#[derive(Drop, Debug)]
pub struct Metric {
    content: Arc<Content>,
}

impl Model for Metric {
    ghost use Rattle.std.specs.Arc.{arc_value};
    ghost use Rattle.metric.specs.declared.metric.Content.{Content};
    ghost use Rattle.metric.specs.Metric.{IsMetric};

    ghost Value = { Content };

    ghost view = { λ m. arc_value m.content };

    ghost invariant = { λ m. IsMetric (arc_value m.content) };
}

impl Metric {
    /// The metric of a content of which all holds that is true of each metric: its texts are UTF-8, its name,
    /// its keys and the values of its tags are filled, the keys of its tags rise, those of its fields are
    /// distinct, and it has a field.
    #[inline(always)]
    pub fn of(alloc: Global, content: Content) -> Result<Metric, OutOfMemory>
        requires { IsMetric content }
        ensures { IfOk result (λ m. m ≡ content) }
    {
        Ok(Metric {
            content: Arc::new(alloc, content)?,
        })
    }

    /// Says to a caller's proof what is true of each metric: its texts are UTF-8, its name, its keys and the
    /// values of its tags are filled, its keys are distinct, it has a field, and its numbers are in the
    /// ranges of their types.
    pub fn shows_metric(&self)
        ensures { IsMetric self.now }
    {
        let _content = &self.content;
    }

    /// The name, which isn't empty.
    pub fn name(&self) -> &Text
        ensures name { result.now ≡ self.now.name }
        ensures filled { IsFilled result.now }
    {
        &self.content.name
    }

    /// The tags, sorted by key.
    pub fn tags(&self) -> &[(Text, Text)]
        ensures { result.now ≡ self.now.tags }
    {
        self.content.tags.as_slice()
    }

    /// The value of the tag of a key.
    pub fn tag(&self, key: &str) -> Option<&Text>
        ensures { option_copied result ≡ value_at self.now.tags key.now }
    {
        self.tags()
            .iter()
            .find(|tag| tag.0.as_str() == key)
            .map(|tag| &tag.1)
    }

    /// The metric with the tags of a list that it lacks: each in order, at its place by key, where no tag has its
    /// key then. The list may be in any order. Where the metric lacks none it is given back as it is, which takes no
    /// memory; a content that no other metric shares is changed where it is.
    pub fn with_tags(self, alloc: Global, given: &[(Text, Text)]) -> Result<Metric, OutOfMemory>
        requires { All IsFilledTag given.now }
        ensures added { IfOk result
            (λ m. m ≡ record self { tags = with_all_missing self.tags given.now }) }
        ensures known { list_all (λ tag. has_key self.tags tag.0) given.now ≡ true
            → IsOkAnd result (λ m. m ≡ self) }
    {
        let from = behind_known(self.tags(), given);
        if from == given.len() {
            return Ok(self);
        }
        self.with_missing(alloc, given, from)
    }

    // The same, with the tags of the list from an index on, of which it lacks one.
    #[inline(never)]
    fn with_missing(
        mut self,
        alloc: Global,
        given: &[(Text, Text)],
        from: usize,
    ) -> Result<Metric, OutOfMemory>
        requires filled { All IsFilledTag given.now }
        requires within { from ≤ length given.now }
        ensures { IfOk result
            (λ m. m ≡ record self { tags = with_all_missing self.tags (drop from given.now) }) }
    {
        change::add_tags(&mut self.content, alloc, given, from)?;
        Ok(self)
    }

    /// The name is another, which isn't empty. After an error the metric is as before.
    ///
    /// A content that other metrics share is copied before it is changed, here and by the other calls that change a
    /// metric: no other metric changes, and a content that none shares is changed where it is.
    pub fn set_name(&mut self, alloc: Global, name: &str) -> Result<(), OutOfMemory>
        requires { IsFilled name.now }
        ensures ok { OnOk result (self.new ≡ record self.old { name = name.now }) }
        ensures err { OnErr result (self.new ≡ self.old) }
    {
        change::set_name(&mut self.content, alloc, name)
    }

    /// The tag of a key has this value: a key that is there keeps its place, another stands at its place by key. There
    /// is no bound on the number of tags. After an error the metric is as before.
    pub fn set_tag(&mut self, alloc: Global, key: &str, value: &str) -> Result<(), OutOfMemory>
        requires key { IsFilled key.now }
        requires value { IsFilled value.now }
        ensures ok { OnOk result
            (self.new ≡ record self.old { tags = with_sorted self.old.tags key.now value.now }) }
        ensures err { OnErr result (self.new ≡ self.old) }
    {
        change::set_tag(&mut self.content, alloc, key, value)
    }

    /// The field of a key has this value: a key that is there keeps its place, another goes behind the others. There is
    /// no bound on the number of fields. After an error the metric is as before.
    pub fn set_field(&mut self, alloc: Global, key: &str, value: Value) -> Result<(), OutOfMemory>
        requires { IsFilled key.now }
        ensures ok { OnOk result
            (self.new ≡ record self.old { fields = with_pair self.old.fields key.now value }) }
        ensures err { OnErr result (self.new ≡ self.old) }
    {
        value.shows_value();
        change::set_field(&mut self.content, alloc, key, value)
    }

    /// The tag of a key goes: true exactly where there was one. It may take memory where one goes and other metrics
    /// share the content. After an error the metric is as before.
    pub fn drop_tag(&mut self, alloc: Global, key: &str) -> Result<bool, OutOfMemory>
        ensures gone { IfOk result (λ gone. gone ≡ has_key self.old.tags key.now) }
        ensures there { OnErr result (has_key self.old.tags key.now ≡ true) }
        ensures ok { OnOk result
            (self.new ≡ record self.old { tags = without_key self.old.tags key.now }) }
        ensures err { OnErr result (self.new ≡ self.old) }
    {
        change::drop_tag(&mut self.content, alloc, key)
    }

    /// The field of a key goes, unless it is the only one: true exactly where it went. It may take memory where one
    /// goes and other metrics share the content. After an error the metric is as before.
    pub fn drop_field(&mut self, alloc: Global, key: &str) -> Result<bool, OutOfMemory>
        ensures gone { IfOk result (λ gone. gone ≡ loses_field self.old.fields key.now) }
        ensures there { OnErr result (loses_field self.old.fields key.now ≡ true) }
        ensures ok { OnOk result
            (self.new ≡ record self.old { fields = without_field self.old.fields key.now }) }
        ensures err { OnErr result (self.new ≡ self.old) }
    {
        change::drop_field(&mut self.content, alloc, key)
    }

    /// The fields, in order.
    pub fn fields(&self) -> &[(Text, Value)]
        ensures { result.now ≡ self.now.fields }
    {
        self.content.fields.as_slice()
    }

    /// The time: nanoseconds since 1970.
    pub fn time(&self) -> Moment
        ensures { result ≡ self.now.time }
    {
        self.content.time
    }

    /// Is the other metric equal?
    pub fn same_as(&self, other: &Metric) -> bool
        ensures { IsTrue result ↔ (self.now ≡ other.now) }
    {
        self == other
    }

    /// An equal metric.
    pub fn copy(&self) -> Result<Metric, OutOfMemory>
        ensures { IfOk result (λ m. m ≡ self.now) }
    {
        Ok(Metric {
            content: self.content.clone()?,
        })
    }

    /// The series: the name and the tags. It shares the content.
    pub fn series(&self) -> Result<Series, OutOfMemory>
        ensures { IfOk result (λ series. series ≡ (self.now.name, self.now.tags)) }
    {
        Ok(Series::of(self.copy()?))
    }
}

impl PartialEq for Metric {
    ghost use Rattle.metric.specs.contracts.metric.ContentPartialEq.TheImpl.Laws.{laws-law};

    ghost eq = { ⟦<Content as PartialEq>⟧.eq };

    ghost laws = { laws-law };

    fn eq(&self, other: &Self) -> bool {
        *self.content == *other.content
    }
}

impl Eq for Metric {
    ghost use Rattle.metric.specs.contracts.metric.ContentEq.TheImpl.Laws.{laws-law};

    ghost laws = { laws-law };
}
