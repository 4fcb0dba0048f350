//! The metric that a template makes of a path, a value and a time.
ghost use Rattle.std.specs.Prelude.{◌≡◌, ◌<◌, ◌++◌, List, [], ◌∷◌, map, option_map};
ghost use Rattle.std.specs.Prelude.{IfOk, ℕ, ℤ, None};
ghost use Rattle.std.specs.List.{find, AllByRecursion};
ghost use Rattle.text_parts.specs.Chain.{Gives};
ghost use Rattle.metric.specs.Draft.{Tag, StandsFor, IsReady};
ghost use Rattle.format_words.specs.Serving.{serves};
ghost use Rattle.graphite_text.specs.Applied.{tags_at, collected_tags, used};
ghost use Rattle.format_words.specs.Segments.{AreKeyed};
ghost use Rattle.graphite_text.specs.Path.{IsPath};
ghost use Rattle.graphite_text.specs.Reading.{limited, said_of};
ghost use Rattle.format_words.specs.Template.{IsNamed};
ghost use Rattle.format_words.specs.Views.{now_of, tag_view};
ghost use Rattle.graphite_text.specs.Views.{path_view};

use crate::collected::{Wanted, text_of};
use crate::fault::{GraphiteFault, GraphiteKind, fault};
use crate::path::Path;
use fixed_num::{Fixed, Moment, OutOfMemory};
use format_words::{Template, TemplatePart};
use metric::{Draft, DraftFault, Metric, Text, Value};
use std::alloc::Global;
use text_parts::ReadError;

/// Puts a template's own tags into a draft.
fn put_own(draft: &mut Draft, tags: &[(Text, Text)]) -> Result<(), OutOfMemory>
    requires keyed { AreKeyed tags.now }
    ensures name { draft.new.parts.name ≡ draft.old.parts.name }
    ensures ok { IfOk result (λ done. (given : List Tag) → StandsFor draft.old given []
        → StandsFor draft.new (given ++ tags.now) []) }
{
    for (key, value) in tags {
        draft.tag_of(key.copy()?, value.copy()?)?;
    }
    Ok(())
}

/// Puts the tags of a path into a draft.
#[inline(always)]
fn put_given(draft: &mut Draft, tags: &[(&str, &str)]) -> Result<(), OutOfMemory>
    requires keyed { AreKeyed (map tag_view tags.now) }
    ensures name { draft.new.parts.name ≡ draft.old.parts.name }
    ensures ok { IfOk result (λ done. (given : List Tag) → StandsFor draft.old given []
        → StandsFor draft.new (given ++ map tag_view tags.now) []) }
{
    for (key, value) in tags {
        draft.tag(key, value)?;
    }
    Ok(())
}

/// Puts the tag of a part into a draft, where it has one.
fn put_part(
    alloc: Global,
    draft: &mut Draft,
    separator: &str,
    parts: &[TemplatePart],
    segments: &[&str],
    part: &TemplatePart,
) -> Result<(), OutOfMemory>
    requires named { IsNamed part.now }
    ensures name { draft.new.parts.name ≡ draft.old.parts.name }
    ensures ok { IfOk result (λ done. (given : List Tag) → StandsFor draft.old given []
        → StandsFor draft.new
        (given ++ tags_at separator.now parts.now (map now_of segments.now) part.now) []) }
{
    if let TemplatePart::Tag(key) = part {
        let wanted = Wanted::TagOf(key.as_str());
        let value = text_of(alloc, separator, &wanted, parts, segments)?;
        draft.tag(key.as_str(), value.as_str())?;
    }
    Ok(())
}

/// Puts the tags that are collected into a draft.
#[inline(always)]
fn put_collected(
    alloc: Global,
    draft: &mut Draft,
    separator: &str,
    parts: &[TemplatePart],
    segments: &[&str],
) -> Result<(), OutOfMemory>
    requires named { AllByRecursion IsNamed parts.now }
    ensures name { draft.new.parts.name ≡ draft.old.parts.name }
    ensures ok { IfOk result (λ done. (given : List Tag) → StandsFor draft.old given []
        → StandsFor draft.new
        (given ++ collected_tags separator.now parts.now (map now_of segments.now)) []) }
{
    let mut i = 0;
    while i < parts.len() && i < segments.len() {
        put_part(alloc, draft, separator, parts, segments, &parts[i])?;
        i += 1;
    }
    Ok(())
}

/// The metric of a draft at a time, unless it has too many tags.
#[inline(always)]
fn finish(draft: Draft, time: Moment) -> Result<Option<Metric>, ReadError<GraphiteFault>>
    requires { IsReady draft }
    ensures { (tags : List Tag) (key : List ℕ) (value : ℤ)
        → StandsFor draft tags ((key, Value.Fixed value) ∷ [])
        → Gives (λ x. x) result (limited (record {
          name = draft.parts.name;
          tags = tags;
          key = key;
          value = value;
          time = time;
        })) }
{
    match draft.finish(time) {
        Ok(metric) => Ok(Some(metric)),
        Err(DraftFault::OutOfMemory) => Err(ReadError::OutOfMemory),
        Err(DraftFault::TooMany) => Err(fault(GraphiteKind::TooMany, 0)),
    }
}

/// What a template makes metrics of: its parts, and its own tags.
#[derive(Clone, Copy)]
struct Naming<'a> {
    parts: &'a [TemplatePart],
    tags: &'a [(Text, Text)],
}

/// What a template's parts and its own tags make of a path, a value and a time.
fn applied(
    alloc: Global,
    naming: &Naming,
    separator: &str,
    path: &Path,
    value: Fixed,
    time: Moment,
) -> Result<Option<Metric>, ReadError<GraphiteFault>>
    requires named { AllByRecursion IsNamed naming.now.parts.now }
    requires keyed { AreKeyed naming.now.tags.now }
    requires path { IsPath (path_view path.now) }
    ensures { Gives (λ x. x) result (limited (said_of separator.now
        (record { filter = None; parts = naming.now.parts.now; tags = naming.now.tags.now }) (path_view path.now)
        value time)) }
{
    let segments = path.segments.as_slice();
    let name = text_of(alloc, separator, &Wanted::Name, naming.parts, segments)?;
    let key = text_of(alloc, separator, &Wanted::Key, naming.parts, segments)?;
    let mut draft = Draft::new(alloc, name.as_str())?;
    put_own(&mut draft, naming.tags)?;
    put_collected(alloc, &mut draft, separator, naming.parts, segments)?;
    put_given(&mut draft, path.tags.as_slice())?;
    draft.field(key.as_str(), Value::Fixed(value))?;
    finish(draft, time)
}

/// The first template that serves a path of these segments.
fn used<'a>(templates: &'a [Template], segments: &[&str]) -> Option<&'a Template>
    ensures { option_map (λ t. t.now) result ≡ find (serves (map now_of segments.now)) templates.now }
{
    for template in templates {
        if template.serves(segments) {
            return Some(template);
        }
    }
    None
}

/// What the template that is used makes of a path, a value and a time.
pub(crate) fn templated(
    alloc: Global,
    templates: &[Template],
    separator: &str,
    path: &Path,
    value: Fixed,
    time: Moment,
) -> Result<Option<Metric>, ReadError<GraphiteFault>>
    requires { IsPath (path_view path.now) }
    ensures { Gives (λ x. x) result (limited (said_of separator.now
        (used templates.now (path_view path.now).segments) (path_view path.now) value time)) }
{
    match used(templates, path.segments.as_slice()) {
        Some(template) => {
            let naming = Naming {
                parts: template.parts(),
                tags: template.tags(),
            };
            applied(alloc, &naming, separator, path, value, time)
        }
        None => {
            let parts = [TemplatePart::AllMeasurement];
            let naming = Naming {
                parts: parts.as_slice(),
                tags: &[],
            };
            applied(alloc, &naming, separator, path, value, time)
        }
    }
}
