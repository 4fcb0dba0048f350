//! What the marks of a row say: texts of places, and reads and puts that fail.
use scenario_tables::Part;
use std::alloc::Global;
use std::test::Fail;

/// What a mark is about, how often its text stands there, and whether the text has no newline at its end.
#[derive(Clone, Copy)]
pub struct Mark<'a> {
    pub about: &'a str,
    count: u64,
    is_unended: bool,
}

/// What a part's mark says.
pub fn mark_of<'a>(part: &Part<'a>) -> Result<Mark<'a>, Fail> {
    let (value, is_unended) = match part.value.strip_suffix(" unended") {
        Some(value) => (value, true),
        None => (part.value, false),
    };
    let (about, count) = match value.split_once(" repeated ") {
        Some((about, count)) => (about, count.parse::<u64>()?),
        None => (value, 1),
    };
    Ok(Mark {
        about,
        count,
        is_unended,
    })
}

/// The texts under the marks with this key that are about this, one behind the other.
pub fn text_about(
    alloc: Global,
    parts: &[Part<'_>],
    key: &str,
    about: &str,
) -> Result<Vec<u8>, Fail> {
    let mut all = Vec::new(alloc);
    for part in parts {
        let mark = mark_of(part)?;
        if part.key == key && mark.about == about {
            let mut text = part.text(alloc)?;
            if mark.is_unended {
                let _ = text.pop();
            }
            append_often(&mut all, text.as_slice(), mark.count)?;
        }
    }
    Ok(all)
}

/// Appends a text so many times.
fn append_often(all: &mut Vec<u8>, text: &[u8], count: u64) -> Result<(), Fail> {
    for _turn in 0..count {
        all.extend_from_slice(text)?;
    }
    Ok(())
}

/// The calls at a place that fail, by the marks with this key: their numbers, and how many bytes each writes.
pub fn failing(
    alloc: Global,
    parts: &[Part<'_>],
    key: &str,
    place: &str,
) -> Result<Vec<(u64, usize)>, Fail> {
    let mut fails = Vec::new(alloc);
    for part in parts {
        if part.key == key {
            let Some((numbers, of)) = part.value.split_once(" of ") else {
                return Err(unread(part));
            };
            let Some((failing, after)) = of.split_once(" fail") else {
                return Err(unread(part));
            };
            if failing == place {
                append_failing(&mut fails, numbers, bytes_of(after)?)?;
            }
        }
    }
    Ok(fails)
}

/// How many bytes are written, in ` after COUNT bytes`.
fn bytes_of(after: &str) -> Result<usize, Fail> {
    match after.strip_prefix(" after ") {
        Some(count) => Ok(
            count
                .strip_suffix(" bytes")
                .unwrap_or(count)
                .parse::<usize>()?,
        ),
        None => Ok(0),
    }
}

/// Appends the calls with these numbers, each of which writes so many bytes.
fn append_failing(fails: &mut Vec<(u64, usize)>, numbers: &str, bytes: usize) -> Result<(), Fail> {
    for number in numbers.split(' ') {
        fails.push((number.parse::<u64>()?, bytes))?;
    }
    Ok(())
}

/// A mark that says nothing.
pub fn unread(part: &Part<'_>) -> Fail {
    Fail::new(format_args!("a mark that says nothing: {} {}", part.key, part.value))
}
