//! Calls of the outside and of the core, one after another, as the tables in `data/` show them: `core_scenarios` looks
//! at all tables, `core_scenarios TABLE` at one.
#![tactic(auto)]

mod aggregators;
mod banks;
mod cores;
mod groups;
mod journals;
mod lanes;
mod pieces;
mod readings;
mod servers;
mod singles;
mod sources;

use aggregators::AggCalls;
use banks::BankCalls;
use cores::CoreCalls;
use groups::GroupCalls;
use journals::JournalCalls;
use lanes::LaneCalls;
use line_proto::read_line;
use metric::Metric;
use pieces::PieceCalls;
use readings::ReadCalls;
use scenario_tables::{Row, Table, Tally};
use servers::ServerCalls;
use singles::SingleCalls;
use sources::SourceCalls;
use std::alloc::Global;
use std::str::{FromStr, SplitWhitespace};
use std::test::Fail;
use std::{env, fmt};

/// What the calls of a row are made at.
trait Calls: Drop {
    /// What a row begins with. It is gone through once for each word of its part `each`.
    fn begin(alloc: Global, row: &Row<'_>, word: &str) -> Result<Self, Fail>;

    /// Makes a call, and says what it answers.
    fn make(&mut self, alloc: Global, call: &str) -> Result<String, Fail>;
}

/// What the next word says; nothing is said by a word that can't be read.
fn next<T: FromStr + Default + Drop>(words: &mut SplitWhitespace<'_>) -> T
where
    T::Err: Drop,
{
    words.next().unwrap_or("").parse().unwrap_or_default()
}

/// The metric of a line in line protocol; none of a line without one.
fn metric(alloc: Global, line: &str) -> Result<Option<Metric>, Fail> {
    Ok(read_line(alloc, line.as_bytes(), 0)?)
}

/// An answer as Rust prints it.
fn shown<D: fmt::Debug + Drop>(alloc: Global, answer: D) -> Result<String, Fail> {
    Ok(format!(in alloc; "{answer:?}")?)
}

/// Makes the calls of a table, and says whether all rows hold. No call is made where words ask for other tables.
fn table<C: Calls>(rt: &HostRuntime, asked: &[String], name: &str) -> Result<bool, Fail> {
    let alloc = rt.alloc();
    if !asked.is_empty() && !asked.iter().any(|word| word.as_str() == name) {
        return Ok(true);
    }
    let table = Table::open(rt, format!(in alloc; "{name}.txt")?.as_str())?;
    let rows = table.rows(alloc)?;
    let mut tally = Tally::of(name);
    for row in &rows {
        let Some(calls) = row.part("calls") else {
            return Err(tally.unread(row.name, "no calls"));
        };
        let pieces = calls.pieces(alloc)?;
        for word in row.value("each").split(' ') {
            let mut state = C::begin(alloc, row, word)?;
            for piece in &pieces {
                let is = state.make(alloc, str::from_utf8(piece.text.as_slice())?)?;
                tally.compare(rt, row.name, piece.wanted.as_slice(), is.as_bytes())?;
            }
        }
    }
    tally.end(rt)
}

fn main(rt: HostRuntime) -> Result<(), Fail> {
    let words = env::args(&rt)?.skip(1).collect::<Vec<String>>(rt.alloc())?;
    let asked = words.as_slice();
    let mut all = table::<PieceCalls>(&rt, asked, "pieces")?;
    all &= table::<SingleCalls>(&rt, asked, "worlds")?;
    all &= table::<SingleCalls>(&rt, asked, "accounts")?;
    all &= table::<LaneCalls>(&rt, asked, "lanes")?;
    all &= table::<JournalCalls>(&rt, asked, "journals")?;
    all &= table::<ReadCalls>(&rt, asked, "readings")?;
    all &= table::<CoreCalls>(&rt, asked, "cores")?;
    all &= table::<GroupCalls>(&rt, asked, "groups")?;
    all &= table::<AggCalls>(&rt, asked, "statistics")?;
    all &= table::<AggCalls>(&rt, asked, "merges")?;
    all &= table::<AggCalls>(&rt, asked, "finals")?;
    all &= table::<BankCalls>(&rt, asked, "banks")?;
    all &= table::<ServerCalls>(&rt, asked, "servers")?;
    all &= table::<SourceCalls>(&rt, asked, "sources")?;
    if all {
        Ok(())
    } else {
        Err(Fail::new("rows differ"))
    }
}
