//! What the parts of a template take from the segments of a path.
ghost use Rattle.std.specs.Prelude.{◌≡◌, ◌<◌, ℕ, List, [], ◌∷◌, length, map, flat_map, IfOk, OnOk};
ghost use Rattle.std.specs.Prelude.{MatchOption};
ghost use Rattle.std.specs.Prelude.{◌++◌, if◌then◌else◌};
ghost use Rattle.std.specs.String.{string_bytes};
ghost use Rattle.graphite_text.specs.Applied.{collected, joined, tag_share};
ghost use Rattle.graphite_text.specs.Taken.{joined_view, AreJoined, Takes};
ghost use Rattle.format_words.specs.Views.{now_of, texts_view};
ghost use Rattle.graphite_text.specs.Wanted.{share_of, text_of, text_without};

use fixed_num::OutOfMemory;
use format_words::TemplatePart;
use std::alloc::Global;

/// What a part gives to a thing.
#[derive(Clone, Copy, Debug, PartialEq, Eq)]
pub(crate) enum Share {
    /// Nothing.
    Nothing,
    /// Its segment.
    One,
    /// Its segment and all behind it.
    Rest,
}

/// The thing that segments are collected for.
#[derive(Clone, Copy)]
pub(crate) enum Wanted<'a> {
    /// The metric's name.
    Name,
    /// The field's key.
    Key,
    /// The value of the tag of this key.
    TagOf(&'a str),
}

/// The segments that a thing takes.
#[derive(Clone, Copy)]
enum Taken<'a, 'b> {
    /// None.
    Nothing,
    /// This one.
    One(&'a str),
    /// These, of which each stands behind the one before.
    Row(&'b [&'a str]),
    /// At least one.
    Some,
}

/// A text that segments make.
#[derive(Drop)]
pub(crate) enum JoinedText<'a> {
    /// It stands somewhere as it is.
    Whole(&'a str),
    /// It was joined of more than one.
    Joined(String),
}

impl<'a> JoinedText<'a> {
    /// The text.
    pub(crate) fn as_str(&self) -> &str
        ensures value { result.now ≡ joined_view self.now }
    {
        match self {
            JoinedText::Whole(text) => text,
            JoinedText::Joined(text) => text.as_str(),
        }
    }
}

/// A segment, where it is wanted.
#[inline(always)]
fn one_if(wanted: bool) -> Share
    ensures { result ≡ (if wanted then Share.One else Share.Nothing) }
{
    if wanted { Share::One } else { Share::Nothing }
}

/// What a part gives to a tag.
#[inline(always)]
fn tag_share(wanted: &str, part: &TemplatePart) -> Share
    ensures { result ≡ tag_share wanted.now part.now }
{
    match part {
        TemplatePart::Tag(name) => one_if(name.as_str() == wanted),
        _ => Share::Nothing,
    }
}

/// What a part gives to a thing.
#[inline(always)]
fn share_of(wanted: &Wanted, part: &TemplatePart) -> Share
    ensures { result ≡ share_of wanted.now part.now }
{
    match wanted {
        Wanted::Name => match part {
            TemplatePart::Measurement => Share::One,
            TemplatePart::AllMeasurement => Share::Rest,
            _ => Share::Nothing,
        },
        Wanted::Key => match part {
            TemplatePart::Field => Share::One,
            TemplatePart::AllField => Share::Rest,
            _ => Share::Nothing,
        },
        Wanted::TagOf(name) => tag_share(name, part),
    }
}

/// The segments that the parts give to a thing.
fn collected<'a>(
    alloc: Global,
    wanted: &Wanted,
    parts: &[TemplatePart],
    segments: &[&'a str],
) -> Result<Vec<&'a str>, OutOfMemory>
    ensures { IfOk result (λ texts. texts_view texts
        ≡ collected (share_of wanted.now) parts.now (map now_of segments.now)) }
{
    let mut texts = Vec::new(alloc);
    let mut i = 0;
    while i < parts.len() && i < segments.len() {
        match share_of(wanted, &parts[i]) {
            Share::Nothing => i += 1,
            Share::One => {
                texts.push(segments[i])?;
                i += 1;
            }
            Share::Rest => {
                texts.extend_from_slice(&segments[i..])?;
                return Ok(texts);
            }
        }
    }
    Ok(texts)
}

/// What is taken with one segment more.
#[inline(always)]
fn with_one<'a, 'b>(taken: Taken<'a, 'b>, text: &'a str) -> Taken<'a, 'b>
    ensures { (texts : List (List ℕ)) → Takes taken.entry texts → Takes result (texts ++ text.now ∷ []) }
{
    match taken {
        Taken::Nothing => Taken::One(text),
        _ => Taken::Some,
    }
}

/// What is taken with the rest of the segments.
#[inline(always)]
fn with_rest<'a, 'b>(taken: Taken<'a, 'b>, rest: &'b [&'a str]) -> Taken<'a, 'b>
    requires some { 0 < length rest.now }
    ensures { (texts : List (List ℕ)) → Takes taken.entry texts
        → Takes result (texts ++ map now_of rest.now) }
{
    match taken {
        Taken::Nothing => Taken::Row(rest),
        _ => Taken::Some,
    }
}

/// What the parts give to a thing.
#[inline(always)]
fn taken_of<'a, 'b>(
    wanted: &Wanted,
    parts: &[TemplatePart],
    segments: &'b [&'a str],
) -> Taken<'a, 'b>
    ensures { Takes result (collected (share_of wanted.now) parts.now (map now_of segments.now)) }
{
    let mut taken = Taken::Nothing;
    let mut i = 0;
    while i < parts.len() && i < segments.len() {
        match share_of(wanted, &parts[i]) {
            Share::Nothing => i += 1,
            Share::One => {
                taken = with_one(taken, segments[i]);
                i += 1;
            }
            Share::Rest => return with_rest(taken, &segments[i..]),
        }
    }
    taken
}

/// Appends texts, each behind the separator.
fn push_others(text: &mut String, separator: &str, others: &[&str]) -> Result<(), OutOfMemory>
    ensures { OnOk result (string_bytes text.new
        ≡ string_bytes text.old ++ flat_map (λ other. separator.now ++ other) (map now_of others.now)) }
{
    for other in others {
        text.push_str(separator)?;
        text.push_str(other)?;
    }
    Ok(())
}

/// Bytes for which a joined text has room before memory is asked for again.
const ROOM: usize = 64;

/// Texts joined by the separator, in memory of their own.
#[tactic(auto, unfolding(crate::specs::Applied::joined))]
fn joined_string(alloc: Global, separator: &str, texts: &[&str]) -> Result<String, OutOfMemory>
    ensures { IfOk result (λ text. string_bytes text ≡ joined separator.now (map now_of texts.now)) }
{
    let mut text = String::with_capacity(alloc, ROOM)?;
    if let [first, others @ ..] = texts {
        text.push_str(first)?;
        push_others(&mut text, separator, others)?;
    }
    Ok(text)
}

/// Texts joined by the separator. One alone takes no memory.
fn joined<'a>(
    alloc: Global,
    separator: &str,
    texts: &[&'a str],
) -> Result<JoinedText<'a>, OutOfMemory>
    ensures { IfOk result (λ text. joined_view text ≡ joined separator.now (map now_of texts.now)) }
{
    if texts.len() == 1 {
        return Ok(JoinedText::Whole(texts[0]));
    }
    Ok(JoinedText::Joined(joined_string(alloc, separator, texts)?))
}

/// The segments that the parts give to a thing, joined by the separator, where there are some.
#[inline(always)]
fn joined_taken<'a>(
    alloc: Global,
    separator: &str,
    wanted: &Wanted,
    parts: &[TemplatePart],
    segments: &[&'a str],
) -> Result<Option<JoinedText<'a>>, OutOfMemory>
    ensures { let texts = collected (share_of wanted.now) parts.now (map now_of segments.now) in
        IfOk result (λ found. MatchOption found (texts ≡ [])
        (λ text. AreJoined separator.now texts (joined_view text))) }
{
    match taken_of(wanted, parts, segments) {
        Taken::Nothing => Ok(None),
        Taken::One(text) => Ok(Some(JoinedText::Whole(text))),
        Taken::Row(texts) => Ok(Some(joined(alloc, separator, texts)?)),
        Taken::Some => {
            let texts = collected(alloc, wanted, parts, segments)?;
            Ok(Some(joined(alloc, separator, texts.as_slice())?))
        }
    }
}

/// The text of a thing to which the parts give nothing: all segments are the name, the key is `value`, a tag has none.
#[inline(always)]
fn text_without<'a>(
    alloc: Global,
    separator: &str,
    wanted: &Wanted,
    segments: &[&'a str],
) -> Result<JoinedText<'a>, OutOfMemory>
    ensures { IfOk result (λ text. joined_view text
        ≡ text_without wanted.now separator.now (map now_of segments.now)) }
{
    match wanted {
        Wanted::Name => joined(alloc, separator, segments),
        Wanted::Key => Ok(JoinedText::Whole("value")),
        Wanted::TagOf(_) => Ok(JoinedText::Whole("")),
    }
}

/// The text of a thing: the metric's name, the key of its field, or the value of a tag.
#[inline(always)]
pub(crate) fn text_of<'a>(
    alloc: Global,
    separator: &str,
    wanted: &Wanted,
    parts: &[TemplatePart],
    segments: &[&'a str],
) -> Result<JoinedText<'a>, OutOfMemory>
    ensures { IfOk result (λ text. joined_view text
        ≡ text_of wanted.now separator.now parts.now (map now_of segments.now)) }
{
    match joined_taken(alloc, separator, wanted, parts, segments)? {
        Some(text) => Ok(text),
        None => text_without(alloc, separator, wanted, segments),
    }
}
