//! Templates: which segments of a path are the measurement, a field or a tag.
ghost use Rattle.std.specs.Prelude.{◌≡◌, map};
ghost use Rattle.std.specs.List.{AllByRecursion};
ghost use Rattle.format_words.specs.Serving.{admits, begins_with, serves};
ghost use Rattle.format_words.specs.Segments.{AreKeyed};
ghost use Rattle.format_words.specs.Template.{template_of, IsNamed};
ghost use Rattle.format_words.specs.Views.{ReadsTemplate, now_of};

use crate::fault::TemplateFault;
use crate::template_text::read_template;
use metric::Text;
use std::alloc::Global;
use std::marker::Model;
use text_parts::ReadError;

/// A part of a template, which takes the segment of the same number.
#[derive(Debug, PartialEq, Eq, Drop)]
pub enum TemplatePart {
    /// The segment is of the measurement.
    Measurement,
    /// The segment and all behind it are of the measurement.
    AllMeasurement,
    /// The segment is of the field's key.
    Field,
    /// The segment and all behind it are of the field's key.
    AllField,
    /// The segment is of the value of the tag of this key.
    Tag(Text),
    /// The segment is skipped.
    Skipped,
}

/// Says which segments of a path are the measurement, a field's key or a tag's value, for the paths that
/// begin with the segments of its filter, or for all where it has none.
#[derive(Debug, Drop)]
pub struct Template {
    filter: Option<Vec<Text>>,
    parts: Vec<TemplatePart>,
    tags: Vec<(Text, Text)>,
}

impl Model for Template {
    ghost use Rattle.std.specs.Prelude.{option_map};
    ghost use Rattle.format_words.specs.Template.{Shape, IsTemplate};

    ghost Value = { Shape };

    ghost view = { λ t. record {
      filter = option_map (λ filter. filter.items) t.filter;
      parts = t.parts.items;
      tags = t.tags.items;
    } };

    ghost invariant = { λ t. IsTemplate (record {
      filter = option_map (λ filter. filter.items) t.filter;
      parts = t.parts.items;
      tags = t.tags.items;
    }) };
}

impl Template {
    ghost use Rattle.std.specs.Prelude.{IfOk, option_map};
    ghost use Rattle.format_words.specs.Template.{IsTemplate};

    /// The template of these parts.
    pub(crate) fn of(
        filter: Option<Vec<Text>>,
        parts: Vec<TemplatePart>,
        tags: Vec<(Text, Text)>,
    ) -> Template
        requires named { AllByRecursion IsNamed parts.items }
        requires keyed { AreKeyed tags.items }
        ensures { result ≡ record {
          filter = option_map (λ filter. filter.items) filter;
          parts = parts.items;
          tags = tags.items;
        } }
    {
        Template {
            filter,
            parts,
            tags,
        }
    }

    /// Reads a template: `[filter ]template[ tags]`, cut at each single space. The last word is tags where it
    /// holds `=`: `key=value` with `,` between them, each split at its first `=`, neither part empty. A
    /// filter is segments with `.` between them, none empty, of which `*` stands for any one segment. The
    /// template is parts with `.` between them: `measurement`, `field`, either of them with a `*` behind it
    /// at the end, a tag's key without `*`, or nothing, as Telegraf and InfluxDB have them. `BadTemplate`
    /// exactly where the text is no such template; `OutOfMemory` may come in place of any answer.
    pub fn read(alloc: Global, text: &str) -> Result<Template, TemplateFault>
        ensures { ReadsTemplate result (template_of text.now) }
    {
        match read_template(alloc, text) {
            Ok(template) => Ok(template),
            Err(ReadError::OutOfMemory) => Err(TemplateFault::OutOfMemory),
            Err(ReadError::Fault(_)) => Err(TemplateFault::BadTemplate),
        }
    }

    /// Its parts.
    pub fn parts(&self) -> &[TemplatePart]
        ensures value { result.now ≡ self.now.parts }
        ensures named { AllByRecursion IsNamed result.now }
    {
        self.parts.as_slice()
    }

    /// Its own tags.
    pub fn tags(&self) -> &[(Text, Text)]
        ensures value { result.now ≡ self.now.tags }
        ensures keyed { AreKeyed result.now }
    {
        self.tags.as_slice()
    }

    /// Whether it serves a path of these segments.
    pub fn serves(&self, segments: &[&str]) -> bool
        ensures { result ≡ serves (map now_of segments.now) self.now }
    {
        match &self.filter {
            Some(filter) => begins_with(filter.as_slice(), segments),
            None => true,
        }
    }
}

/// Whether a segment of a filter stands for a segment.
fn admits(wanted: &Text, text: &str) -> bool
    ensures { result ≡ admits wanted.now text.now }
{
    wanted.as_str() == "*" || wanted.as_str() == text
}

/// Whether the first segments are those of a filter.
fn begins_with(filter: &[Text], segments: &[&str]) -> bool
    ensures { result ≡ begins_with filter.now (map now_of segments.now) }
{
    if segments.len() < filter.len() {
        return false;
    }
    let mut i = 0;
    while i < filter.len() {
        if !admits(&filter[i], segments[i]) {
            return false;
        }
        i += 1;
    }
    true
}
