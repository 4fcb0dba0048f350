//! The tags of series.
ghost use Rattle.std.specs.Prelude.{◌≡◌, [], IfOk};
ghost use Rattle.std.specs.List.{AllByRecursion};
ghost use Rattle.metric.specs.Pairs.{IsInKeyOrder};
ghost use Rattle.statsd_text.specs.TagMap.{part_tags, HasValue};

use fixed_num::{OutOfMemory, Seq};
use metric::Text;
use statsd_text::{MetricType, part_tags};
use std::alloc::Global;
use std::marker::Model;
use std::sync::Arc;

/// The tags of a series; copies share one list.
#[derive(Drop, Debug)]
pub(crate) struct Tags {
    list: Arc<Seq<(Text, Text)>>,
}

impl Model for Tags {
    ghost use Rattle.std.specs.Prelude.{List};
    ghost use Rattle.std.specs.Arc.{arc_value};
    ghost use Rattle.metric.specs.Draft.{Tag};

    ghost Value = { List Tag };

    ghost view = { λ t. arc_value t.list };
}

impl Tags {
    /// The tags of a list.
    pub(crate) fn of(alloc: Global, list: Seq<(Text, Text)>) -> Result<Tags, OutOfMemory>
        ensures { IfOk result (λ tags. tags ≡ list) }
    {
        Ok(Tags {
            list: Arc::new(alloc, list)?,
        })
    }

    /// The same tags, in the same list.
    pub(crate) fn copy(&self) -> Result<Tags, OutOfMemory>
        ensures { IfOk result (λ tags. tags ≡ self.now) }
    {
        Ok(Tags {
            list: self.list.clone()?,
        })
    }

    /// The tags, in order.
    pub(crate) fn as_slice(&self) -> &[(Text, Text)]
        ensures { result.now ≡ self.now }
    {
        self.list.as_slice()
    }
}

/// The tags of series whose lines have none: that of their type alone. They are made once, since most lines have none.
#[derive(Drop)]
pub(crate) struct TypeTags {
    counter: Tags,
    gauge: Tags,
    timing: Tags,
    set: Tags,
}

impl Model for TypeTags {
    ghost use Rattle.std.specs.Prelude.{◌≡◌, []};
    ghost use Rattle.statsd_text.specs.TagMap.{part_tags};
    ghost use Rattle.statsd_text.specs.declared.said.MetricType.TheVariants.{Counter, Gauge, Timing, Set};

    ghost Value = { Unit {0} };

    ghost view = { λ t. tt };

    ghost invariant = { λ t. (t.counter ≡ part_tags [] Counter) × (t.gauge ≡ part_tags [] Gauge)
        × (t.timing ≡ part_tags [] Timing) × (t.set ≡ part_tags [] Set) };
}

/// The tags of a series of a type whose lines have none.
fn tags_of(alloc: Global, metric_type: MetricType) -> Result<Tags, OutOfMemory>
    ensures { IfOk result (λ tags. tags ≡ part_tags [] metric_type) }
{
    Tags::of(alloc, part_tags(alloc, &[], metric_type)?)
}

impl TypeTags {
    /// Those of each type.
    pub(crate) fn new(alloc: Global) -> Result<TypeTags, OutOfMemory> {
        Ok(TypeTags {
            counter: tags_of(alloc, MetricType::Counter)?,
            gauge: tags_of(alloc, MetricType::Gauge)?,
            timing: tags_of(alloc, MetricType::Timing)?,
            set: tags_of(alloc, MetricType::Set)?,
        })
    }

    /// Those of a type.
    fn of(&self, metric_type: MetricType) -> Result<Tags, OutOfMemory>
        ensures { IfOk result (λ tags. tags ≡ part_tags [] metric_type) }
    {
        match metric_type {
            MetricType::Counter => self.counter.copy(),
            MetricType::Gauge => self.gauge.copy(),
            MetricType::Timing => self.timing.copy(),
            MetricType::Set => self.set.copy(),
        }
    }

    /// The tags of a part of a type, by those of its line.
    pub(crate) fn with_line(
        &self,
        alloc: Global,
        tags: &[(Text, Text)],
        metric_type: MetricType,
    ) -> Result<Tags, OutOfMemory>
        requires sorted { IsInKeyOrder tags.now }
        requires valued { AllByRecursion HasValue tags.now }
        ensures { IfOk result (λ all. all ≡ part_tags tags.now metric_type) }
    {
        if tags.is_empty() {
            return self.of(metric_type);
        }
        Tags::of(alloc, part_tags(alloc, tags, metric_type)?)
    }
}
