//! Making a metric.
ghost use Rattle.std.specs.Prelude.{◌≡◌, [], length, OnOk, OnErr, IfOk};
ghost use Rattle.std.specs.List.{position};
ghost use Rattle.std.specs.Str.{bytes_eq};
ghost use Rattle.metric.specs.Building.{IsBuilt, IsWhole, parts_of, finished, Completes, Finishes};
ghost use Rattle.metric.specs.Metric.{IsMetric};
ghost use Rattle.metric.specs.declared.builder.BuildFault.TheVariants.{OutOfMemory};
ghost use Rattle.metric.specs.Pairs.{with_pair, with_sorted, has_empty_key, has_empty_value, HasIndex};
ghost use Rattle.metric.specs.Pairs.{with_values, IsInKeyOrder};

use crate::{Content, Metric, Text, Value};
use fixed_num::{Moment, OutOfMemory, Seq};
use std::alloc::Global;
use std::cmp::Ordering;
use std::marker::Model;
use std::mem;
use thiserror::Error;

/// Why no metric was made.
#[derive(Clone, Copy, Debug, Error, PartialEq, Eq)]
pub enum BuildFault {
    /// No memory was left.
    #[error("out of memory")]
    OutOfMemory,
    /// The name is empty.
    #[error("the name is empty")]
    EmptyName,
    /// A key is empty.
    #[error("a key is empty")]
    EmptyKey,
    /// No field was given.
    #[error("no field was given")]
    NoFields,
}

impl From<OutOfMemory> for BuildFault {
    ghost from_gives = { λ _ fault. fault ≡ OutOfMemory };

    fn from(_fault: OutOfMemory) -> BuildFault {
        BuildFault::OutOfMemory
    }
}

/// A metric in the making: a name, tags and fields, each key once with the last value that it was given.
#[derive(Drop)]
pub struct Builder {
    alloc: Global,
    /// Its time is set at the end.
    content: Content,
}

impl Model for Builder {
    ghost use Rattle.metric.specs.Building.{Parts, IsBuilt, parts_of};

    ghost Value = { Parts };

    ghost view = { λ b. parts_of b.content };

    ghost invariant = { λ b. IsBuilt (parts_of b.content) };
}

impl Builder {
    /// A metric of this name, with no tags and no fields yet. A single tag and a single field take no memory but that
    /// of the builder.
    #[inline(always)]
    pub fn of(alloc: Global, name: Text) -> Builder
        ensures { result ≡ record { name = name; tags = []; fields = [] } }
    {
        let _text = name.as_str();
        Builder {
            alloc,
            content: Content {
                name,
                tags: Seq::of(Vec::new(alloc)),
                fields: Seq::of(Vec::new(alloc)),
                time: 0,
            },
        }
    }

    /// The same, of a name that is copied.
    #[inline(always)]
    pub fn new(alloc: Global, name: &str) -> Result<Builder, OutOfMemory>
        ensures { IfOk result (λ b. b ≡ record { name = name.now; tags = []; fields = [] }) }
    {
        Ok(Builder::of(alloc, Text::of(alloc, name)?))
    }

    /// The same, with room for so many tags and fields before memory is asked for again.
    #[inline(always)]
    pub fn with_room(
        alloc: Global,
        name: &str,
        tags: usize,
        fields: usize,
    ) -> Result<Builder, OutOfMemory>
        ensures { IfOk result (λ b. b ≡ record { name = name.now; tags = []; fields = [] }) }
    {
        Builder::with_room_of(alloc, Text::of(alloc, name)?, tags, fields)
    }

    /// The same, of a name that is there.
    #[inline(always)]
    pub fn with_room_of(
        alloc: Global,
        name: Text,
        tags: usize,
        fields: usize,
    ) -> Result<Builder, OutOfMemory>
        ensures { IfOk result (λ b. b ≡ record { name = name; tags = []; fields = [] }) }
    {
        let _text = name.as_str();
        Ok(Builder {
            alloc,
            content: Content {
                name,
                tags: Seq::with_room(alloc, tags)?,
                fields: Seq::with_room(alloc, fields)?,
                time: 0,
            },
        })
    }

    /// One more tag: a key that was given before keeps its place and takes this value. An empty value counts
    /// until the metric is made, and is left out then.
    pub fn tag(&mut self, key: &str, value: &str) -> Result<(), OutOfMemory>
        ensures ok { OnOk result
            (self.new ≡ record self.old { tags = with_sorted self.old.tags key.now value.now }) }
        ensures err { OnErr result (self.new ≡ self.old) }
    {
        put_tag(self.alloc, &mut self.content.tags, key, value)
    }

    /// The same, of texts that are there.
    pub fn tag_of(&mut self, key: Text, value: Text) -> Result<(), OutOfMemory>
        ensures ok { OnOk result
            (self.new ≡ record self.old { tags = with_sorted self.old.tags key value }) }
        ensures err { OnErr result (self.new ≡ self.old) }
    {
        let _key = key.as_str();
        let _value = value.as_str();
        insert_tag(self.alloc, &mut self.content.tags, key, value)
    }

    /// One more field: a key that was given before keeps its place and takes this value.
    pub fn field(&mut self, key: &str, value: Value) -> Result<(), OutOfMemory>
        ensures ok { OnOk result
            (self.new ≡ record self.old { fields = with_pair self.old.fields key.now value }) }
        ensures err { OnErr result (self.new ≡ self.old) }
    {
        value.shows_value();
        put_field(self.alloc, &mut self.content.fields, key, value)
    }

    /// How many tags there are, those with an empty value too.
    pub fn tag_count(&self) -> usize
        ensures { result ≡ length self.now.tags }
    {
        self.content.tags.as_slice().len()
    }

    /// How many fields there are.
    pub fn field_count(&self) -> usize
        ensures { result ≡ length self.now.fields }
    {
        self.content.fields.as_slice().len()
    }

    /// The metric at a time, without the tags whose value is empty. EmptyName exactly where the name is
    /// empty; else EmptyKey exactly where a key is; else NoFields exactly where there is no field.
    #[inline(always)]
    pub fn finish(self, time: Moment) -> Result<Metric, BuildFault>
        ensures { Finishes result (finished self time) }
    {
        let Builder { alloc, mut content } = self;
        complete(alloc, &mut content, time)?;
        Ok(Metric::of(alloc, content)?)
    }

    /// The same, of a builder in which all is there: a name, a field and no empty key.
    pub fn complete(self, time: Moment) -> Result<Metric, OutOfMemory>
        requires { IsWhole self }
        ensures { IfOk result (λ metric. metric ≡ record {
          name = self.name;
          tags = with_values self.tags;
          fields = self.fields;
          time = time;
        }) }
    {
        match self.finish(time) {
            Ok(metric) => Ok(metric),
            Err(fault) => match fault {
                BuildFault::OutOfMemory => Err(OutOfMemory),
                _ => unreachable!(),
            },
        }
    }
}

/// Gives a content its time, and leaves out its tags whose value is empty, or says why it makes no metric.
#[inline(always)]
fn complete(alloc: Global, content: &mut Content, time: Moment) -> Result<(), BuildFault>
    requires { IsBuilt (parts_of content.old) }
    ensures completes { Completes result content.new (finished (parts_of content.old) time) }
    ensures metric { OnOk result (IsMetric content.new) }
{
    content.time = time;
    if content.name.as_str().is_empty() {
        return Err(BuildFault::EmptyName);
    }
    let tags = content.tags.as_slice();
    if tag_without_key(tags) || field_without_key(content.fields.as_slice()) {
        return Err(BuildFault::EmptyKey);
    }
    if content.fields.as_slice().is_empty() {
        return Err(BuildFault::NoFields);
    }
    if tag_without_value(tags) {
        leave_out_empty(alloc, &mut content.tags)?;
    }
    Ok(())
}

/// The same as `insert_tag`, of texts that are copied.
#[inline(always)]
pub(crate) fn put_tag(
    alloc: Global,
    tags: &mut Seq<(Text, Text)>,
    key: &str,
    value: &str,
) -> Result<(), OutOfMemory>
    requires { IsInKeyOrder tags.old }
    ensures ok { OnOk result (tags.new ≡ with_sorted tags.old key.now value.now) }
    ensures err { OnErr result (tags.new ≡ tags.old) }
{
    insert_tag(alloc, tags, Text::of(alloc, key)?, Text::of(alloc, value)?)
}

/// One more tag among tags in the order of their keys: it stands at its place, and replaces one of the same key. After
/// `OutOfMemory` the tags are as before.
#[inline(always)]
pub fn insert_tag(
    alloc: Global,
    tags: &mut Seq<(Text, Text)>,
    key: Text,
    value: Text,
) -> Result<(), OutOfMemory>
    requires { IsInKeyOrder tags.old }
    ensures ok { OnOk result (tags.new ≡ with_sorted tags.old key value) }
    ensures err { OnErr result (tags.new ≡ tags.old) }
{
    match index_of(tags.as_slice(), key.as_str()) {
        Ok(i) => tags.set(i, (key, value)),
        Err(i) => tags.insert(alloc, i, (key, value))?,
    }
    Ok(())
}

/// One more field.
#[inline(always)]
pub(crate) fn put_field(
    alloc: Global,
    fields: &mut Seq<(Text, Value)>,
    key: &str,
    value: Value,
) -> Result<(), OutOfMemory>
    ensures ok { OnOk result (fields.new ≡ with_pair fields.old key.now value) }
    ensures err { OnErr result (fields.new ≡ fields.old) }
{
    let field = (Text::of(alloc, key)?, value);
    match field_at(fields.as_slice(), key) {
        Some(i) => fields.set(i, field),
        None => fields.push(alloc, field)?,
    }
    Ok(())
}

/// Where the tag of a key stands, or where one has to be put, among tags sorted by key. It is looked for from
/// the end, since tags mostly come in order.
fn index_of(tags: &[(Text, Text)], key: &str) -> Result<usize, usize>
    requires { IsInKeyOrder tags.now }
    ensures { HasIndex tags.now key.now result }
{
    let mut at = tags.len();
    while at > 0 {
        match tags[at - 1].0.as_str().cmp(key) {
            Ordering::Less => return Err(at),
            Ordering::Equal => return Ok(at - 1),
            Ordering::Greater => at -= 1,
        }
    }
    Err(0)
}

/// Where the field of a key stands. Each field asks for it as it is read: written out, it takes no call.
#[inline(always)]
pub(crate) fn field_at(fields: &[(Text, Value)], key: &str) -> Option<usize>
    ensures { result ≡ position (λ field. bytes_eq field.0 key.now) fields.now }
{
    for at in 0..fields.len() {
        if fields[at].0.as_str() == key {
            return Some(at);
        }
    }
    None
}

/// Does a tag have an empty key?
fn tag_without_key(tags: &[(Text, Text)]) -> bool
    ensures { result ≡ has_empty_key tags.now }
{
    tags.iter().any(|tag| tag.0.as_str().is_empty())
}

/// Does a field have an empty key?
fn field_without_key(fields: &[(Text, Value)]) -> bool
    ensures { result ≡ has_empty_key fields.now }
{
    fields.iter().any(|field| field.0.as_str().is_empty())
}

/// Has a tag an empty value?
fn tag_without_value(tags: &[(Text, Text)]) -> bool
    ensures { result ≡ has_empty_value tags.now }
{
    tags.iter().any(|tag| tag.1.as_str().is_empty())
}

/// Leaves out the tags whose value is empty, where there may be some.
#[cold]
#[inline(never)]
fn leave_out_empty(alloc: Global, tags: &mut Seq<(Text, Text)>) -> Result<(), OutOfMemory>
    ensures { OnOk result (tags.new ≡ with_values tags.old) }
{
    let all = mem::replace(tags, Seq::of(Vec::new(alloc)));
    let mut kept = all.into_vec(alloc)?;
    keep_valued(&mut kept);
    *tags = Seq::of(kept);
    Ok(())
}

/// Leaves out the tags whose value is empty.
fn keep_valued(tags: &mut Vec<(Text, Text)>)
    ensures { tags.new.items ≡ with_values tags.old.items }
{
    tags.retain(|tag| !tag.1.as_str().is_empty());
}
