//! The tables, and which of their rows are looked at, each with its parts.
use scenario_tables::{Part, Row};
use std::alloc::Global;
use std::test::Fail;

/// The tables, each a file of the current folder.
pub const TABLES: &str =
    "pipes clocks rounds commands faults single_faults last_tries journals reports checks failed_checks runs \
    run_faults processors aggregators example tracked tracked_faults generated generated_faults tick_faults \
    settings formats parts lines fault_lines servers";

/// The name of the row whose parts each row of its table begins with.
const EACH: &str = "in each row";

/// What of a table is looked at: each row, or the one of this name, which may be laid alone.
#[derive(Clone, Copy)]
pub enum Asked<'a> {
    All,
    Run(&'a str),
    Lay(&'a str),
}

impl Asked<'_> {
    /// Whether the row of this name is looked at.
    pub fn is_about(self, row: &str) -> bool {
        match self {
            Asked::All => row != EACH,
            Asked::Run(name) | Asked::Lay(name) => row == name,
        }
    }
}

/// The parts of a row, behind those that each row begins with.
pub fn parts_of<'a>(alloc: Global, rows: &[Row<'a>], row: &Row<'a>) -> Result<Vec<Part<'a>>, Fail> {
    let mut parts = Vec::new(alloc);
    if let Some(first) = rows.first() {
        if first.name == EACH {
            parts.extend_from_slice(first.parts.as_slice())?;
        }
    }
    parts.extend_from_slice(row.parts.as_slice())?;
    Ok(parts)
}
