//! Puts the tables in `data/` to the public calls of the crates of texts and of configurations: each piece of a
//! table is read or written, and what comes of it is compared with what is wanted. What differs is printed, and at
//! the end how many rows of each table held. The last part of a row has its pieces; its key says which call they
//! are put to, and the parts before it what else the call is given.
#![tactic(auto)]

mod answers;
mod buffers;
mod chains;
mod changes;
mod configurations;
mod formats;
mod metrics;
mod numbers;
mod parts;
mod pieces;
mod processors;
mod written;

use answers::answer;
use pieces::whole;
use scenario_tables::{Row, Table, Tally};
use std::test::Fail;
use text_buffer::TextBuffer;

/// The tables, each a file in `data/`.
const TABLES: &str =
    "numbers lists buffers text_parts metrics changes globs filters processors influx_read influx_written \
    statsd_read graphite_read graphite_templates graphite_written openmetrics_read openmetrics_written \
    configurations times";

/// Compares what comes of each piece of a row.
fn compare(rt: &HostRuntime, tally: &mut Tally, row: &Row) -> Result<(), Fail> {
    let alloc = rt.alloc();
    let Some(part) = row.parts.last() else {
        return Err(tally.unread(row.name, "no pieces"));
    };
    for piece in &part.pieces(alloc)? {
        let text = whole(alloc, row, part, piece.text.as_slice())?;
        let mut is = TextBuffer::new(alloc);
        answer(alloc, row, part.key, text.as_slice(), &mut is)?;
        is.truncate(is.len().saturating_sub(1));
        let (wanted, is) = (piece.wanted.as_slice(), is.as_slice());
        tally.compare(rt, row.name, wanted, is)?;
    }
    Ok(())
}

/// Compares the rows of a table, and prints how many held.
fn all_hold(rt: &HostRuntime, name: &str) -> Result<bool, Fail> {
    let file = format!(in rt.alloc(); "{name}.txt")?;
    let table = Table::open(rt, file.as_str())?;
    let mut tally = Tally::of(name);
    for row in &table.rows(rt.alloc())? {
        compare(rt, &mut tally, row)?;
    }
    tally.end(rt)
}

fn main(rt: HostRuntime) -> Result<(), Fail> {
    let mut all = true;
    for name in TABLES.split(' ') {
        all &= all_hold(&rt, name)?;
    }
    if all {
        Ok(())
    } else {
        Err(Fail::new("rows differ"))
    }
}
