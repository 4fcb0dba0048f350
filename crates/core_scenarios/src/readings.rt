//! Texts that are read as journals.
use crate::{Calls, next};
use journal_reader::{JournalKind, read_journal, write_journal};
use scenario_tables::Row;
use std::alloc::Global;
use std::test::Fail;
use text_buffer::TextBuffer;

/// The text of a row.
#[derive(Drop)]
pub struct ReadCalls {
    text: Vec<u8>,
}

/// What a text is read as: how many entries it has, or its first fault. A journal is written again too.
fn reading(alloc: Global, text: &[u8]) -> Result<String, Fail> {
    let j = match read_journal(alloc, text) {
        Ok(j) => j,
        Err(e) if e.kind == JournalKind::Torn && e.place == text.len() => {
            return Ok(String::from_str(alloc, "Torn at its end")?);
        }
        Err(e) => return Ok(format!(in alloc; "{:?} {}", e.kind, e.place)?),
    };
    let mut again = TextBuffer::new(alloc);
    write_journal(alloc, &j, &mut again)?;
    if again.as_slice() != text {
        return Err(Fail::new("written otherwise"));
    }
    Ok(format!(in alloc; "Ok {}", j.entries.as_slice().len())?)
}

impl ReadCalls {
    /// What each front of these lengths is read as, which is the same.
    fn fronts(&self, alloc: Global, from: usize, to: usize) -> Result<String, Fail> {
        let first = reading(alloc, self.text.get(..from).unwrap_or(b""))?;
        for len in from..to {
            let other = reading(alloc, self.text.get(..len).unwrap_or(b""))?;
            if other.as_str() != first.as_str() {
                return Err(Fail::new("fronts differ"));
            }
        }
        Ok(first)
    }

    /// What the text is read as with a change of its first such lines.
    fn changed(&self, alloc: Global, lines: &str) -> Result<String, Fail> {
        let (old, new) = lines.split_once('\n').unwrap_or((lines, ""));
        let text = str::from_utf8(self.text.as_slice())?;
        let Some((before, behind)) = text.split_once(old) else {
            return Err(Fail::new("nothing to change"));
        };
        let text = format!(in alloc; "{before}{new}{behind}")?;
        reading(alloc, text.as_bytes())
    }
}

impl Calls for ReadCalls {
    fn begin(alloc: Global, row: &Row<'_>, _word: &str) -> Result<ReadCalls, Fail> {
        let Some(text) = row.part("text") else {
            return Err(Fail::new("no text"));
        };
        Ok(ReadCalls {
            text: text.text(alloc)?,
        })
    }

    fn make(&mut self, alloc: Global, call: &str) -> Result<String, Fail> {
        let (first, lines) = call.split_once('\n').unwrap_or((call, ""));
        let mut words = first.split_whitespace();
        match words.next().unwrap_or("") {
            "fronts" => self.fronts(alloc, next(&mut words), next(&mut words)),
            "instead" => self.changed(alloc, lines),
            "behind" => {
                let mut text = self.text.clone()?;
                text.extend_from_slice(lines.as_bytes())?;
                reading(alloc, text.as_slice())
            }
            _ => reading(alloc, self.text.as_slice()),
        }
    }
}
