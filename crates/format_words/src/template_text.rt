//! The texts that are templates.
ghost use Rattle.std.specs.Prelude.{◌≡◌, ◌-◌, length, take, map, IfOk, option_map};
ghost use Rattle.std.specs.List.{list_any, AllByRecursion};
ghost use Rattle.text_parts.specs.Chain.{Gives};
ghost use Rattle.text_parts.specs.Split.{is_byte};
ghost use Rattle.format_words.specs.Segments.{segments_of, AreKeyed};
ghost use Rattle.format_words.specs.Template.{tag_part, template_part, is_starred, has_early_star};
ghost use Rattle.format_words.specs.Template.{each_part, template_parts, one_word, two_words, three_words};
ghost use Rattle.format_words.specs.Template.{words_as};
ghost use Rattle.format_words.specs.Template.{has_equals, filter_of, shape_of, template_of, IsNamed};
ghost use Rattle.format_words.specs.TemplateViews.{words_view};
ghost use Rattle.format_words.specs.Views.{part_at, now_of, tag_view};

use crate::fault::ShapeFault;
use crate::segments::{malformed, pairs_of, segments_of};
use crate::template::{Template, TemplatePart};
use fixed_num::OutOfMemory;
use metric::Text;
use std::alloc::Global;
use text_parts::{Placed, ReadError, Separated};

/// Parts that find room before memory is asked for again.
const ROOM: usize = 8;

/// Whether a text has a star.
fn has_star(text: &str) -> bool
    ensures { result ≡ list_any (is_byte 42) text.now }
{
    text.as_bytes().iter().any(|byte| *byte == b'*')
}

/// Whether a text has an equals sign.
fn has_equals(text: &str) -> bool
    ensures { result ≡ has_equals text.now }
{
    text.as_bytes().iter().any(|byte| *byte == b'=')
}

/// The part of a text that is no word of templates.
fn tag_part(alloc: Global, text: &str) -> Result<TemplatePart, ReadError<ShapeFault>>
    ensures { Gives (λ x. x) result (tag_part text.now) }
{
    if text.is_empty() {
        return Ok(TemplatePart::Skipped);
    }
    if has_star(text) {
        return Err(malformed());
    }
    Ok(TemplatePart::Tag(Text::of(alloc, text)?))
}

/// A part of a template.
#[tactic(auto, unfolding(crate::specs::Template::template_part))]
fn template_part(alloc: Global, part: &Placed) -> Result<TemplatePart, ReadError<ShapeFault>>
    ensures { Gives (λ x. x) result (template_part (part_at part.now)) }
{
    match part.text {
        "measurement" => Ok(TemplatePart::Measurement),
        "measurement*" => Ok(TemplatePart::AllMeasurement),
        "field" => Ok(TemplatePart::Field),
        "field*" => Ok(TemplatePart::AllField),
        text => tag_part(alloc, text),
    }
}

/// Whether a part has a star.
fn is_starred(part: &TemplatePart) -> bool
    ensures { result ≡ is_starred part.now }
{
    matches!(part, TemplatePart::AllMeasurement | TemplatePart::AllField)
}

/// Whether a starred part stands before the last one.
fn has_early_star(parts: &[TemplatePart]) -> bool
    ensures { result ≡ has_early_star parts.now }
{
    match parts {
        [front @ .., _] => front.iter().any(|part| is_starred(part)),
        [] => false,
    }
}

/// The parts of a text between its dots, each on its own.
fn each_part(alloc: Global, text: &str) -> Result<Vec<TemplatePart>, ReadError<ShapeFault>>
    ensures { Gives (λ parts. parts.items) result (each_part text.now) }
{
    let mut texts = Separated::of(b'.', Placed { offset: 0, text });
    let mut parts = Vec::with_capacity(alloc, ROOM)?;
    while let Some(text) = texts.next() {
        let part = template_part(alloc, &text)?;
        parts.push(part)?;
    }
    Ok(parts)
}

/// The parts of a template.
#[tactic(auto, unfolding(crate::specs::Template::template_parts))]
fn template_parts(alloc: Global, text: &str) -> Result<Vec<TemplatePart>, ReadError<ShapeFault>>
    ensures { Gives (λ parts. parts.items) result (template_parts text.now) }
{
    let parts = each_part(alloc, text)?;
    if has_early_star(parts.as_slice()) {
        return Err(malformed());
    }
    Ok(parts)
}

/// The words of a template's text: perhaps a filter, a template, perhaps tags.
#[derive(Clone, Copy)]
pub(crate) struct TemplateWords<'a> {
    pub filter: Option<&'a str>,
    pub template: &'a str,
    pub tags: Option<&'a str>,
}

/// The words, where there is one.
fn one_word(only: &str) -> Result<TemplateWords<'_>, ReadError<ShapeFault>>
    ensures { Gives words_view result (one_word only.now) }
{
    if has_equals(only) {
        return Err(malformed());
    }
    Ok(TemplateWords {
        filter: None,
        template: only,
        tags: None,
    })
}

/// The words, where there are two.
fn two_words<'a>(first: &'a str, last: &'a str) -> Result<TemplateWords<'a>, ReadError<ShapeFault>>
    ensures { Gives words_view result (two_words first.now last.now) }
{
    if has_equals(last) {
        return Ok(TemplateWords {
            filter: None,
            template: first,
            tags: Some(last),
        });
    }
    Ok(TemplateWords {
        filter: Some(first),
        template: last,
        tags: None,
    })
}

/// The words, where there are three.
fn three_words<'a>(
    first: &'a str,
    second: &'a str,
    last: &'a str,
) -> Result<TemplateWords<'a>, ReadError<ShapeFault>>
    ensures { Gives words_view result (three_words first.now second.now last.now) }
{
    if !has_equals(last) {
        return Err(malformed());
    }
    Ok(TemplateWords {
        filter: Some(first),
        template: second,
        tags: Some(last),
    })
}

/// The words of a template's text.
#[tactic(auto, unfolding(crate::specs::Template::words_as))]
fn words_as<'a>(words: &mut Separated<'a>) -> Result<TemplateWords<'a>, ReadError<ShapeFault>>
    ensures { Gives words_view result (words_as words.old) }
{
    let Some(first) = words.next() else {
        return Err(malformed());
    };
    let Some(second) = words.next() else {
        return one_word(first.text);
    };
    let Some(third) = words.next() else {
        return two_words(first.text, second.text);
    };
    if words.next().is_some() {
        return Err(malformed());
    }
    three_words(first.text, second.text, third.text)
}

/// Copies of texts.
fn texts_of(alloc: Global, texts: &[&str]) -> Result<Vec<Text>, OutOfMemory>
    ensures { IfOk result (λ kept. kept.items ≡ map now_of texts.now) }
{
    let mut kept = Vec::with_capacity(alloc, texts.len())?;
    for text in texts {
        kept.push(Text::of(alloc, text)?)?;
    }
    Ok(kept)
}

/// A copy of a pair.
fn tag_of(alloc: Global, pair: &(&str, &str)) -> Result<(Text, Text), OutOfMemory>
    ensures { IfOk result (λ tag. tag ≡ tag_view pair.now) }
{
    Ok((Text::of(alloc, pair.0)?, Text::of(alloc, pair.1)?))
}

/// Copies of pairs.
fn tags_of(alloc: Global, pairs: &[(&str, &str)]) -> Result<Vec<(Text, Text)>, OutOfMemory>
    ensures { IfOk result (λ kept. kept.items ≡ map tag_view pairs.now) }
{
    let mut kept = Vec::with_capacity(alloc, pairs.len())?;
    for pair in pairs {
        kept.push(tag_of(alloc, pair)?)?;
    }
    Ok(kept)
}

/// The segments of a filter.
fn read_filter(alloc: Global, text: &str) -> Result<Vec<Text>, ReadError<ShapeFault>>
    ensures { Gives (λ filter. filter.items) result (segments_of text.now) }
{
    let segments = segments_of(alloc, text)?;
    Ok(texts_of(alloc, segments.as_slice())?)
}

/// The segments of a filter, where there is one.
fn filter_of(alloc: Global, text: Option<&str>) -> Result<Option<Vec<Text>>, ReadError<ShapeFault>>
    ensures { Gives (λ filter. option_map (λ f. f.items) filter) result
        (filter_of (option_map (λ t. t.now) text.entry)) }
{
    match text {
        Some(text) => Ok(Some(read_filter(alloc, text)?)),
        None => Ok(None),
    }
}

/// The template that words are.
#[tactic(auto, unfolding(crate::specs::Template::shape_of))]
fn template_of_words(
    alloc: Global,
    words: &TemplateWords,
) -> Result<Template, ReadError<ShapeFault>>
    ensures { Gives (λ x. x) result (shape_of (words_view words.now)) }
{
    let filter = filter_of(alloc, words.filter)?;
    let parts = template_parts(alloc, words.template)?;
    let pairs = pairs_of(alloc, b',', words.tags)?;
    let tags = tags_of(alloc, pairs.as_slice())?;
    Ok(Template::of(filter, parts, tags))
}

/// The template that a text is.
#[tactic(auto, unfolding(crate::specs::Template::template_of))]
pub(crate) fn read_template(alloc: Global, text: &str) -> Result<Template, ReadError<ShapeFault>>
    ensures { Gives (λ x. x) result (template_of text.now) }
{
    let mut parts = Separated::of(b' ', Placed { offset: 0, text });
    let words = words_as(&mut parts)?;
    template_of_words(alloc, &words)
}
