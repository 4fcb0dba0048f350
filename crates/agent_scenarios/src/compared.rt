//! What a run left beside what is wanted of it.
use crate::laid::{Places, places_laid};
use crate::serving::Input;
use crate::told::ToldWorld;
use crate::wanted::{Start, Wanted, WantedText, end_wanted, texts_wanted};
use agent_base::MemWorld;
use scenario_tables::Part;
use std::alloc::{AllocError, Global};
use std::test::Fail;

/// What is wanted and isn't so, each under its name, and what is there in its place.
#[derive(Drop)]
pub struct Differences {
    pub wanted: Vec<u8>,
    pub is: Vec<u8>,
}

impl Differences {
    /// Compares one thing.
    fn compare(&mut self, name: &str, wanted: &[u8], is: &[u8]) -> Result<(), AllocError> {
        if wanted == is {
            return Ok(());
        }
        append_named(&mut self.wanted, name, wanted)?;
        append_named(&mut self.is, name, is)
    }
}

/// Appends a text with its name.
fn append_named(out: &mut Vec<u8>, name: &str, text: &[u8]) -> Result<(), AllocError> {
    out.extend_from_slice(name.as_bytes())?;
    out.extend_from_slice(b": ")?;
    out.extend_from_slice(text)?;
    out.extend_from_slice(b"; ")
}

/// What stands at a place that is written, or that there is no part.
fn held<'a>(world: &'a MemWorld<Input>, place: &str) -> &'a [u8] {
    match world.out(place) {
        Some(sink) => sink.bytes(),
        None => b"(no part is here)",
    }
}

/// What was reported.
fn reported(world: &ToldWorld) -> &[u8] {
    if world.report.bytes().is_empty() {
        world.parts.reported()
    } else {
        world.report.bytes()
    }
}

/// The lines that were said to people, each with a newline.
fn said(alloc: Global, world: &MemWorld<Input>) -> Result<Vec<u8>, AllocError> {
    let mut all = Vec::new(alloc);
    for line in world.said() {
        all.extend_from_slice(line.as_bytes())?;
        all.push(b'\n')?;
    }
    Ok(all)
}

/// What of a text stands where so many bytes are wanted.
fn looked_at(text: &[u8], start: Start, len: usize) -> &[u8] {
    let start = match start {
        Start::Whole => return text,
        Start::Behind(start) => start,
        Start::AtTheEnd => text.len().saturating_sub(len),
    };
    let rest = text.get(start..).unwrap_or(b"");
    rest.get(..len).unwrap_or(rest)
}

/// Compares a text that a run left with what is wanted of it.
fn compare_text(
    alloc: Global,
    wanted: &Wanted<'_>,
    world: &ToldWorld,
    differences: &mut Differences,
) -> Result<(), AllocError> {
    let said = said(alloc, &world.parts)?;
    let text = match wanted.place {
        "report" => reported(world),
        "said" => said.as_slice(),
        place => held(&world.parts, place),
    };
    match &wanted.text {
        WantedText::Bytes(count) => {
            let len = format!(in alloc; "{}", text.len())?;
            differences.compare(wanted.name, count.as_bytes(), len.as_bytes())
        }
        WantedText::Text(start, bytes) => {
            let is = looked_at(text, *start, bytes.len());
            differences.compare(wanted.name, bytes.as_slice(), is)
        }
    }
}

/// Compares whether each part is back at its place.
fn compare_home(
    places: &Places<'_>,
    world: &MemWorld<Input>,
    differences: &mut Differences,
) -> Result<(), AllocError> {
    for place in &places.ins {
        if !world.has_in(place) {
            differences.compare(place, b"the part is back", b"the part is out")?;
        }
    }
    for place in &places.outs {
        if !world.has_out(place) {
            differences.compare(place, b"the part is back", b"the part is out")?;
        }
    }
    Ok(())
}

/// What a run left that is otherwise than its row wants it. Where the run ended otherwise, that alone is said.
pub fn compare(
    alloc: Global,
    parts: &[Part<'_>],
    end: &str,
    world: &ToldWorld,
) -> Result<Differences, Fail> {
    let mut differences = Differences {
        wanted: Vec::new(alloc),
        is: Vec::new(alloc),
    };
    let (what, how) = end_wanted(parts)?;
    if how != end {
        differences.compare(what, how.as_bytes(), end.as_bytes())?;
        return Ok(differences);
    }
    for wanted in &texts_wanted(alloc, parts)? {
        compare_text(alloc, wanted, world, &mut differences)?;
    }
    compare_home(&places_laid(alloc, parts)?, &world.parts, &mut differences)?;
    Ok(differences)
}
