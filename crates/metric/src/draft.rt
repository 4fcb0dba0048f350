//! A metric in the making that keeps limits.
ghost use Rattle.std.specs.Prelude.{◌≡◌, ◌<◌, ◌++◌, List, [], ◌∷◌, length, OnErr, IfOk};
ghost use Rattle.metric.specs.Draft.{Tag, Field, StandsFor, IsReady, drafted, Drafts};

use crate::{BuildFault, Builder, Metric, Text, Value};
use fixed_num::{Moment, OutOfMemory};
use std::alloc::Global;
use std::marker::Model;

/// The most tags of a draft that makes a metric.
const MOST_TAGS: usize = 64;

/// The most fields of a draft that makes a metric.
const MOST_FIELDS: usize = 256;

/// Why a draft makes no metric.
#[derive(Clone, Copy, Debug, PartialEq, Eq)]
pub enum DraftFault {
    /// No memory was left.
    OutOfMemory,
    /// There are more than 64 tags, those with an empty value too, or more than 256 fields.
    TooMany,
}

/// A metric in the making while a text is read: at most 64 tags and 256 fields, a key that was given again counted
/// once. Once there are more the draft says so, and keeps no more of them.
#[derive(Drop)]
pub struct Draft {
    builder: Builder,
    too_many: bool,
}

impl Model for Draft {
    ghost use Rattle.metric.specs.Draft.{Drafted};

    ghost Value = { Drafted };

    ghost view = { λ d. record { parts = d.builder; too_many = d.too_many } };
}

impl Draft {
    /// A metric of this name, with no tags and no fields yet.
    #[inline(always)]
    pub fn of(alloc: Global, name: Text) -> Draft
        ensures name { result.parts.name ≡ name }
        ensures none { StandsFor result [] [] }
    {
        Draft {
            builder: Builder::of(alloc, name),
            too_many: false,
        }
    }

    /// The same, of a name that is copied.
    #[inline(always)]
    pub fn new(alloc: Global, name: &str) -> Result<Draft, OutOfMemory>
        ensures name { IfOk result (λ draft. draft.parts.name ≡ name.now) }
        ensures none { IfOk result (λ draft. StandsFor draft [] []) }
    {
        Ok(Draft::of(alloc, Text::of(alloc, name)?))
    }

    /// One more tag. After an error the draft is as before.
    pub fn tag(&mut self, key: &str, value: &str) -> Result<(), OutOfMemory>
        requires { 0 < length key.now }
        ensures name { self.new.parts.name ≡ self.old.parts.name }
        ensures ok { IfOk result (λ done. (tags : List Tag) (fields : List Field)
            → StandsFor self.old tags fields
            → StandsFor self.new (tags ++ (key.now, value.now) ∷ []) fields) }
        ensures err { OnErr result (self.new ≡ self.old) }
    {
        if self.too_many {
            return Ok(());
        }
        self.builder.tag(key, value)?;
        self.too_many = self.builder.tag_count() > MOST_TAGS;
        Ok(())
    }

    /// The same, of texts that are there.
    pub fn tag_of(&mut self, key: Text, value: Text) -> Result<(), OutOfMemory>
        requires { 0 < length key }
        ensures name { self.new.parts.name ≡ self.old.parts.name }
        ensures ok { IfOk result (λ done. (tags : List Tag) (fields : List Field)
            → StandsFor self.old tags fields
            → StandsFor self.new (tags ++ (key, value) ∷ []) fields) }
        ensures err { OnErr result (self.new ≡ self.old) }
    {
        if self.too_many {
            return Ok(());
        }
        self.builder.tag_of(key, value)?;
        self.too_many = MOST_TAGS < self.builder.tag_count();
        Ok(())
    }

    /// One more field. After an error the draft is as before.
    pub fn field(&mut self, key: &str, value: Value) -> Result<(), OutOfMemory>
        requires { 0 < length key.now }
        ensures name { self.new.parts.name ≡ self.old.parts.name }
        ensures ok { IfOk result (λ done. (tags : List Tag) (fields : List Field)
            → StandsFor self.old tags fields
            → StandsFor self.new tags (fields ++ (key.now, value) ∷ [])) }
        ensures err { OnErr result (self.new ≡ self.old) }
    {
        if self.too_many {
            return Ok(());
        }
        self.builder.field(key, value)?;
        self.too_many = self.builder.field_count() > MOST_FIELDS;
        Ok(())
    }

    /// The metric at a time, of a draft with a name and a field. TooMany exactly where there are too many tags or
    /// fields.
    #[inline(always)]
    pub fn finish(self, time: Moment) -> Result<Metric, DraftFault>
        requires { IsReady self }
        ensures { (tags : List Tag) (fields : List Field) → StandsFor self tags fields
            → Drafts result (drafted self.parts.name tags fields time) }
    {
        if self.too_many {
            return Err(DraftFault::TooMany);
        }
        match self.builder.finish(time) {
            Ok(metric) => Ok(metric),
            Err(fault) => match fault {
                BuildFault::OutOfMemory => Err(DraftFault::OutOfMemory),
                _ => unreachable!(),
            },
        }
    }
}
