//! Reading a journal.
ghost use Rattle.std.specs.Prelude.{◌≡◌, ◌+◌, length, IfOk};
ghost use Rattle.std.specs.List.{AllByRecursion};
ghost use Rattle.journal_text.specs.JournalText.{IsWholeOrRemoved};
ghost use Rattle.journal_reader.specs.Reading.{reading};
ghost use Rattle.text_parts.specs.Answers.{Answers};
ghost use Rattle.journal_reader.specs.Reading.{is_over, answer_of, lines_left};

use crate::fault::{JournalFault, JournalKind, NO_MEMORY, fault};
use crate::parts::first_part;
use crate::state::{Stage, State, beginning};
use crate::steps::removed_views;
use crate::words::is;
use account::Entry;
use fixed_num::Seq;
use journal_text::JournalSetup;
use std::alloc::Global;

/// A journal.
#[derive(Drop)]
pub struct Journal {
    /// What it is about.
    pub setup: JournalSetup,
    /// Its entries.
    pub entries: Seq<Entry>,
    /// The text of its account.
    pub account: Seq<u8>,
}

/// How many views may stand for a byte of the text in lines of items that were removed.
const VIEWS: usize = 4;

/// Whether nothing more may come.
fn is_over(stage: Stage) -> bool
    ensures { result ≡ is_over stage }
{
    match stage {
        Stage::Over => true,
        Stage::Starting => false,
        Stage::Setting => false,
        Stage::Telling => false,
        Stage::Counting => false,
    }
}

/// What was read, where it is whole and nothing follows it.
#[tactic(auto, unfolding(crate::specs::Reading::answer_of))]
fn answer_of(size: usize, place: usize, s: State, rest: &[u8]) -> Result<Journal, JournalFault>
    ensures { result ≡ answer_of size place s rest.now }
{
    if !is_over(s.stage) {
        return Err(fault(JournalKind::Torn, size));
    }
    if !rest.is_empty() {
        return Err(fault(JournalKind::BadEntry, place));
    }
    Ok(Journal {
        setup: s.setup,
        entries: s.entries,
        account: s.account.into_seq(),
    })
}

/// What stands behind the first line, which was read as the version.
fn read_behind(
    alloc: Global,
    size: usize,
    text: &[u8],
    start: usize,
) -> Result<Journal, JournalFault>
    requires { start + length text.now ≡ size }
    ensures reads { Answers NO_MEMORY (λ x. x) result (lines_left size start text.now) }
    ensures whole { IfOk result (λ j. AllByRecursion IsWholeOrRemoved j.entries) }
{
    let mut state = beginning(alloc);
    let mut rest = text;
    let mut place = start;
    let mut views: usize = 0;
    loop {
        let (line, behind) = first_part(b'\n', rest);
        let Some(behind) = behind else {
            return answer_of(size, place, state, line);
        };
        match state.take_line(alloc, line) {
            Ok(true) => {}
            Ok(false) => return Err(fault(JournalKind::BadEntry, place)),
            Err(_) => return Err(NO_MEMORY),
        }
        views = views.saturating_add(removed_views(&state.last));
        if size.saturating_mul(VIEWS) < views {
            return Err(NO_MEMORY);
        }
        place += line.len() + 1;
        rest = behind;
    }
}

/// Reads a journal. A line is whole where it ends with a newline. `BadHeader`, at 0, exactly where the text doesn't
/// begin with the whole line `journal 1`. Else `BadEntry` exactly where a whole line is one that no journal has there,
/// at the first byte of the first such line, or where anything follows the line `end N`, at its first byte. Else
/// `Torn`, at the length of the text, exactly where the line `end N` is missing: what stands behind the last newline
/// isn't looked at. `OutOfMemory`, at 0, may come in place of any answer; it does where the views that lines of
/// removed items stand for pass four a byte of the text.
#[tactic(auto, unfolding(crate::specs::Reading::reading))]
pub fn read_journal(alloc: Global, text: &[u8]) -> Result<Journal, JournalFault>
    ensures reads { Answers NO_MEMORY (λ x. x) result (reading text.now) }
    ensures whole { IfOk result (λ j. AllByRecursion IsWholeOrRemoved j.entries) }
{
    let (line, behind) = first_part(b'\n', text);
    let Some(behind) = behind else {
        return Err(fault(JournalKind::BadHeader, 0));
    };
    if !is(line, "journal 1") {
        return Err(fault(JournalKind::BadHeader, 0));
    }
    read_behind(alloc, text.len(), behind, line.len() + 1)
}
