//! Whole runs of `agent` over worlds in memory, and of a configuration over its parts, by tables: each row lays a world,
//! says what is run, and what the run leaves. `agent_scenarios` looks at all tables, `agent_scenarios TABLE` at one;
//! `agent_scenarios run TABLE ROW` at that row alone, and `agent_scenarios lay TABLE ROW` lays its world and runs nothing.
#![tactic(auto)]

mod compared;
mod laid;
mod marks;
mod rows;
mod run;
mod serving;
mod to_run;
mod told;
mod wanted;

use compared::compare;
use laid::{Scene, lay};
use rows::{Asked, TABLES, parts_of};
use run::run_row;
use scenario_tables::{Part, Table, Tally};
use std::env;
use std::test::Fail;

/// Looks at one row.
fn look_at(
    rt: &HostRuntime,
    tally: &mut Tally<'_>,
    row: &str,
    parts: &[Part<'_>],
    asked: Asked<'_>,
) -> Result<(), Fail> {
    let alloc = rt.alloc();
    let Scene { mut world } = lay(alloc, parts)?;
    if let Asked::Lay(_) = asked {
        return Ok(());
    }
    let end = run_row(alloc, parts, &mut world)?;
    let differences = compare(alloc, parts, end.as_str(), &world)?;
    tally.compare(
        rt,
        row,
        differences.wanted.as_slice(),
        differences.is.as_slice(),
    )
}

/// Looks at a table, and says whether all rows held that were looked at.
fn table(rt: &HostRuntime, name: &str, asked: Asked<'_>) -> Result<bool, Fail> {
    let alloc = rt.alloc();
    let table = Table::open(rt, format!(in alloc; "{name}.txt")?.as_str())?;
    let rows = table.rows(alloc)?;
    let mut tally = Tally::of(name);
    for row in &rows {
        if asked.is_about(row.name) {
            let parts = parts_of(alloc, rows.as_slice(), row)?;
            if let Err(fail) = look_at(rt, &mut tally, row.name, parts.as_slice(), asked) {
                let _ = eprintln!(rt; "{name}: {}", row.name);
                return Err(fail);
            }
        }
    }
    tally.end(rt)
}

/// Looks at each of these tables, and says whether all rows held.
fn tables(rt: &HostRuntime, names: &str) -> Result<bool, Fail> {
    let mut all = true;
    for name in names.split(' ') {
        all &= table(rt, name, Asked::All)?;
    }
    Ok(all)
}

/// Looks at what the words ask for.
fn looked_at(rt: &HostRuntime, words: &[String]) -> Result<bool, Fail> {
    match words {
        [] => tables(rt, TABLES),
        [name] => tables(rt, name.as_str()),
        [how, name, row] if how.as_str() == "run" => {
            table(rt, name.as_str(), Asked::Run(row.as_str()))
        }
        [how, name, row] if how.as_str() == "lay" => {
            table(rt, name.as_str(), Asked::Lay(row.as_str()))
        }
        _ => Err(Fail::new("the words are none, TABLE, run TABLE ROW, or lay TABLE ROW")),
    }
}

fn main(rt: HostRuntime) -> Result<(), Fail> {
    let words = env::args(&rt)?.skip(1).collect::<Vec<String>>(rt.alloc())?;
    if looked_at(&rt, words.as_slice())? {
        Ok(())
    } else {
        Err(Fail::new("rows differ"))
    }
}
