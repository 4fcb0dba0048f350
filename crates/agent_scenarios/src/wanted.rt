//! What a row wants of what its run leaves.
use crate::marks::{mark_of, text_about};
use scenario_tables::Part;
use std::alloc::Global;
use std::test::Fail;

/// Where a text begins that is wanted.
#[derive(Clone, Copy)]
pub enum Start {
    /// It is the whole text that was left.
    Whole,
    /// So many bytes stand before it.
    Behind(usize),
    /// It ends where the text that was left ends.
    AtTheEnd,
}

/// What a text is to be that a run leaves.
#[derive(Drop)]
pub enum WantedText<'a> {
    /// It has this number of bytes.
    Bytes(&'a str),
    /// This text begins there.
    Text(Start, Vec<u8>),
}

/// What is wanted of one text.
#[derive(Drop)]
pub struct Wanted<'a> {
    /// How its row names it.
    pub name: &'a str,
    /// The place where it was left, or `report`, or `said`.
    pub place: &'a str,
    /// What it is to be.
    pub text: WantedText<'a>,
}

/// Where a text begins, by its word.
fn start_of(word: &str) -> Result<Start, Fail> {
    match word {
        "" => Ok(Start::Whole),
        "begins" => Ok(Start::Behind(0)),
        "ends" => Ok(Start::AtTheEnd),
        from => Ok(Start::Behind(from.strip_prefix("from ").unwrap_or(from).parse::<usize>()?)),
    }
}

/// What the text under a mark is to be.
fn text_of<'a>(
    alloc: Global,
    parts: &[Part<'a>],
    name: &str,
    how: &'a str,
) -> Result<WantedText<'a>, Fail> {
    if let Some(count) = how.strip_suffix(" bytes") {
        return Ok(WantedText::Bytes(count));
    }
    let start = start_of(how)?;
    Ok(WantedText::Text(start, text_about(alloc, parts, "wanted", name)?))
}

/// The texts that a row wants to be left.
pub fn texts_wanted<'a>(alloc: Global, parts: &[Part<'a>]) -> Result<Vec<Wanted<'a>>, Fail> {
    let mut all = Vec::new(alloc);
    for part in parts {
        if part.key == "wanted" {
            let name = mark_of(part)?.about;
            let (place, how) = name.split_once(' ').unwrap_or((name, ""));
            if place != "status" && place != "ending" {
                let text = text_of(alloc, parts, name, how)?;
                all.push(Wanted { name, place, text })?;
            }
        }
    }
    Ok(all)
}

/// How a row wants its run to end: by its status or by its ending, and in which words.
pub fn end_wanted<'a>(parts: &[Part<'a>]) -> Result<(&'a str, &'a str), Fail> {
    for part in parts {
        if part.key == "wanted" {
            let (what, how) = part.value.split_once(' ').unwrap_or((part.value, ""));
            if what == "status" || what == "ending" {
                return Ok((what, how));
            }
        }
    }
    Err(Fail::new("no wanted status or ending"))
}
