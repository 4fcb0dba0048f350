//! Saying the faults of a configuration to people.
ghost use Rattle.std.specs.Prelude.{◌≡◌};

use crate::fault_words::fault_words;
use crate::reporting::say_all;
use crate::shown::Shown;
use agent_base::World;
use agent_config::{ConfigFault, ConfigKind, TextFaults, text_faults};
use std::alloc::{AllocError, Global};

/// At most so many faults of a configuration are said.
const MOST_SAID: usize = 20;

/// The longest text that is a configuration: 1 MiB.
const LONGEST_TEXT: usize = 1_048_576;

/// The line and the column, both from 1, of an offset in a text. A column counts characters.
fn position(text: &[u8], offset: usize) -> (usize, usize) {
    let mut line = 1usize;
    let mut column = 1usize;
    for byte in text.iter().take(offset) {
        if *byte == b'\n' {
            line = line.saturating_add(1);
            column = 1;
        } else if *byte & 0xC0 != 0x80 {
            column = column.saturating_add(1);
        }
    }
    (line, column)
}

/// Why a text is no TOML, behind the place of the configuration.
fn toml_words(alloc: Global, place: &str, text: &[u8]) -> Result<String, AllocError> {
    let place = Shown(place);
    if text.len() > LONGEST_TEXT {
        return format!(in alloc; "{place}: the text is above 1 MiB (1,048,576 bytes)");
    }
    match toml::table_from_slice(alloc, text) {
        Err(fault) => {
            let (line, column) = match fault.span() {
                Some(span) => position(text, span.start),
                None => (1, 1),
            };
            let why = Shown(fault.message());
            format!(in alloc; "{place}:{line}:{column}: {why}")
        }
        Ok(_) => format!(in alloc; "{place}: the text is no TOML"),
    }
}

/// The lines that say the faults of a text, and how many more there are.
fn lines_of(alloc: Global, place: &str, faults: &TextFaults) -> Result<Vec<String>, AllocError> {
    let mut lines = Vec::new(alloc);
    let listed = faults.first.as_slice();
    let place = Shown(place);
    for (index, fault) in listed.iter().enumerate() {
        let words = fault_words(alloc, fault, faults.names.as_slice().get(index))?;
        lines.push(format!(in alloc; "{place}: {words}")?)?;
    }
    let more = faults.count.saturating_sub(listed.len());
    if more > 0 {
        let plural = if more == 1 { "fault" } else { "faults" };
        lines.push(format!(in alloc; "{place}: {more} more {plural}")?)?;
    }
    Ok(lines)
}

/// The lines that say why a text is no configuration.
fn refusal_lines(
    alloc: Global,
    place: &str,
    text: &[u8],
    fault: ConfigFault,
) -> Result<Vec<String>, AllocError> {
    if fault.kind == ConfigKind::NotToml {
        let mut lines = Vec::new(alloc);
        lines.push(toml_words(alloc, place, text)?)?;
        return Ok(lines);
    }
    match text_faults(alloc, text, MOST_SAID) {
        Ok(faults) => lines_of(alloc, place, &faults),
        Err(_) => Err(AllocError),
    }
}

/// Says why the text of a place is no configuration, given its first fault: a line each of the first faults, and
/// how many more there are. Where no memory is left for the lines nothing is said.
pub(crate) fn say_faults<W: World>(
    alloc: Global,
    world: &mut W,
    place: &str,
    text: &[u8],
    fault: ConfigFault,
)
    ensures same { W.view world.new ≡ W.view world.old }
{
    if let Ok(lines) = refusal_lines(alloc, place, text, fault) {
        say_all(alloc, world, lines.as_slice());
    }
}
