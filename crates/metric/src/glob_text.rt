//! Reading globs.
ghost use Rattle.std.specs.Prelude.{◌≡◌, ◌<◌, ◌≤◌, ◌∷◌, length, drop, option_map, option_and_then, position};
ghost use Rattle.std.specs.Prelude.{MatchOption, None, IfOk, IfSome, vec_items, chars};
ghost use Rattle.metric.specs.Glob.{marks_of, with_mark, elements_of, element_of, set_and_rest, with_set};
ghost use Rattle.metric.specs.Glob.{set_of};
ghost use Rattle.metric.specs.Glob.{glob_of};
ghost use Rattle.metric.specs.Glob.{set_of_ranges, ranges_of, with_range, character, is_bare, closes, Begins};
ghost use Rattle.metric.specs.declared.glob.Element.TheVariants.{OneOf, NoneOf};

use crate::glob::Element;
use crate::glob_scan::first_character;
use fixed_num::{OutOfMemory, Seq};
use std::alloc::Global;

/// A character of a glob's text.
#[derive(Clone, Copy, Debug)]
pub(crate) enum Mark {
    /// It stands as it is, and may have a meaning.
    Bare(char),
    /// A backslash stands before it: it stands for itself.
    Escaped(char),
}

impl Mark {
    /// The character.
    fn character(self) -> char
        ensures { result ≡ character self }
    {
        match self {
            Mark::Bare(c) => c,
            Mark::Escaped(c) => c,
        }
    }

    /// Is it this character, unescaped?
    fn is_bare(self, wanted: char) -> bool
        ensures { result ≡ is_bare wanted self }
    {
        match self {
            Mark::Bare(c) => c == wanted,
            Mark::Escaped(_) => false,
        }
    }
}

/// The elements that a text spells; None where it spells no glob.
pub(crate) fn read_elements(alloc: Global, text: &str) -> Result<Option<Vec<Element>>, OutOfMemory>
    ensures { IfOk result (λ elements. option_map vec_items elements ≡ glob_of (chars text.now)) }
{
    let Some(marks) = marks_of(alloc, text)? else {
        return Ok(None);
    };
    elements_of(alloc, marks.as_slice())
}

/// The marks that a text spells; None where it spells none.
fn marks_of(alloc: Global, text: &str) -> Result<Option<Vec<Mark>>, OutOfMemory>
    ensures { IfOk result (λ marks. option_map vec_items marks ≡ marks_of (chars text.now)) }
{
    let mut marks = Vec::new(alloc);
    let mut rest = text;
    while let Some((first, behind)) = first_character(rest) {
        let Some((mark, left)) = first_mark(first, behind) else {
            return Ok(None);
        };
        marks.push(mark)?;
        rest = left;
    }
    Ok(Some(marks))
}

/// The mark that begins with a character, and the text behind it.
fn first_mark<'a>(first: char, behind: &'a str) -> Option<(Mark, &'a str)>
    ensures value { MatchOption result (marks_of (first ∷ chars behind.now) ≡ None)
        (λ read. marks_of (first ∷ chars behind.now) ≡ with_mark read.0 (marks_of (chars read.1.now))) }
    ensures shorter { IfSome result (λ read. length (chars read.1.now) ≤ length (chars behind.now)) }
{
    if first == '\\' {
        let Some((escaped, left)) = first_character(behind) else {
            return None;
        };
        return Some((Mark::Escaped(escaped), left));
    }
    if first == '{' || first == '}' {
        return None;
    }
    Some((Mark::Bare(first), behind))
}

/// The elements that marks spell; None where they spell no glob.
fn elements_of(alloc: Global, marks: &[Mark]) -> Result<Option<Vec<Element>>, OutOfMemory>
    ensures { IfOk result (λ elements. option_map vec_items elements ≡ elements_of marks.now) }
{
    let mut elements = Vec::new(alloc);
    let mut at = 0;
    while at < marks.len() {
        let Some((element, width)) = first_element(alloc, marks[at], &marks[at + 1..])? else {
            return Ok(None);
        };
        elements.push(element)?;
        at += width + 1;
    }
    Ok(Some(elements))
}

/// The first element of marks, and how many marks behind the first it takes; None where the marks spell no
/// glob.
fn first_element(
    alloc: Global,
    first: Mark,
    inside: &[Mark],
) -> Result<Option<(Element, usize)>, OutOfMemory>
    ensures value { IfOk result (λ read. Begins read inside.now (elements_of (first ∷ inside.now))) }
    ensures width { IfOk result (λ read. IfSome read (λ r. r.1 ≤ length inside.now)) }
{
    if first.is_bare('[') {
        return Ok(first_set(alloc, inside)?);
    }
    Ok(Some((single(first), 0)))
}

/// The set that marks behind a `[` begin with, and how many marks it takes; None where they spell no glob.
fn first_set(alloc: Global, inside: &[Mark]) -> Result<Option<(Element, usize)>, OutOfMemory>
    ensures value { IfOk result (λ read.
        Begins read inside.now (option_and_then with_set (set_and_rest inside.now))) }
    ensures width { IfOk result (λ read. IfSome read (λ r. r.1 ≤ length inside.now)) }
{
    let Some(end) = end_of_set(inside) else {
        return Ok(None);
    };
    let Some(set) = set_of(alloc, &inside[..end])? else {
        return Ok(None);
    };
    Ok(Some((set, end + 1)))
}

/// Where a set ends: the index of the first unescaped `]`.
fn end_of_set(inside: &[Mark]) -> Option<usize>
    ensures index { result ≡ position closes inside.now }
    ensures within { IfSome result (λ end. end < length inside.now) }
{
    inside.iter().position(|mark| mark.is_bare(']'))
}

/// The element that one mark spells outside of a set.
fn single(mark: Mark) -> Element
    ensures { result ≡ element_of mark }
{
    if mark.is_bare('*') {
        Element::Run
    } else if mark.is_bare('?') {
        Element::One
    } else {
        Element::Exactly(mark.character())
    }
}

/// The set that the marks between its brackets spell; None where they spell none.
fn set_of(alloc: Global, marks: &[Mark]) -> Result<Option<Element>, OutOfMemory>
    ensures { IfOk result (λ set. set ≡ set_of marks.now) }
{
    match marks {
        [] => Ok(None),
        [first, members @ ..] => {
            if first.is_bare('!') {
                return Ok(none_of(ranges_of(alloc, members)?));
            }
            Ok(one_of(ranges_of(alloc, marks)?))
        }
    }
}

/// The set of these ranges; None where there are none.
fn one_of(ranges: Option<Vec<(char, char)>>) -> Option<Element>
    ensures { result ≡ option_and_then (set_of_ranges OneOf) (option_map vec_items ranges) }
{
    let ranges = ranges?;
    if ranges.is_empty() {
        return None;
    }
    Some(Element::OneOf(Seq::of(ranges)))
}

/// The set of what is in none of these ranges; None where there are none.
fn none_of(ranges: Option<Vec<(char, char)>>) -> Option<Element>
    ensures { result ≡ option_and_then (set_of_ranges NoneOf) (option_map vec_items ranges) }
{
    let ranges = ranges?;
    if ranges.is_empty() {
        return None;
    }
    Some(Element::NoneOf(Seq::of(ranges)))
}

/// The ranges that the marks of a set spell; None where they spell none.
fn ranges_of(alloc: Global, marks: &[Mark]) -> Result<Option<Vec<(char, char)>>, OutOfMemory>
    ensures { IfOk result (λ ranges. option_map vec_items ranges ≡ ranges_of marks.now) }
{
    let mut ranges = Vec::new(alloc);
    let mut at = 0;
    while at < marks.len() {
        let Some((range, width)) = first_range(&marks[at..]) else {
            return Ok(None);
        };
        ranges.push(range)?;
        at += width;
    }
    Ok(Some(ranges))
}

/// The first range of a set's marks, of which there are some, and how many marks it takes.
#[tactic(auto, unfolding(crate::specs::Glob::ranges_of))]
fn first_range(marks: &[Mark]) -> Option<((char, char), usize)>
    requires { 0 < length marks.now }
    ensures value { MatchOption result (ranges_of marks.now ≡ None)
        (λ first. ranges_of marks.now ≡ with_range first.0 (ranges_of (drop first.1 marks.now))) }
    ensures width { IfSome result (λ first. (0 < first.1) × (first.1 ≤ length marks.now)) }
{
    match marks {
        [low, between, high, ..] => {
            if !between.is_bare('-') {
                return Some((alone(*low), 1));
            }
            if high.character() < low.character() {
                return None;
            }
            Some(((low.character(), high.character()), 3))
        }
        [member, ..] => Some((alone(*member), 1)),
        [] => None,
    }
}

/// The range of one member alone.
fn alone(member: Mark) -> (char, char)
    ensures { result ≡ (character member, character member) }
{
    (member.character(), member.character())
}
