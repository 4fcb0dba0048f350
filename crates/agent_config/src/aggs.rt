//! What the aggregators of a configuration are.
ghost use Rattle.std.specs.Prelude.{◌≡◌, IfOk};
ghost use Rattle.toml.specs.View.{table_view};
ghost use Rattle.agent_config.specs.Aggs.{agg_of, asks, word_of};
ghost use Rattle.agent_config.specs.Keys.{is_one_of};
ghost use Rattle.agent_config.specs.Seen.{now_of};

use crate::config::AggConf;
use crate::fault::Class;
use crate::filters::filter_of;
use crate::lists::texts_in;
use crate::plugins::{OfPlugin, Plugin};
use crate::rows::{time_at, truth_at};
use crate::table::{Keys, Kind, keys_of, kind_of};
use crate::tables::{members_in, value_at};
use account::{AggLine, AggWord};
use fixed_num::OutOfMemory;
use std::alloc::Global;
use toml::Table;

impl OfPlugin for AggConf {
    ghost made_of = { agg_of };

    fn of<'a>(alloc: Global, plugin: &Plugin<'a>, empty: &'a Table) -> Result<Self, OutOfMemory> {
        let keys = keys_of(&Class::Aggregators, plugin.name);
        let table = members_in(plugin.value, empty);
        let kind = kind_of(&Class::Aggregators, plugin.name);
        Ok(AggConf {
            filter: filter_of(alloc, table)?,
            line: AggLine {
                kind: word_of(alloc, kind, table)?,
                period: time_at(alloc, &keys, table, "period")?,
                delay: time_at(alloc, &keys, table, "delay")?,
                grace: time_at(alloc, &keys, table, "grace")?,
                dropping: truth_at(&keys, table, "drop_original"),
            },
        })
    }
}

/// What an aggregator of a kind is.
fn word_of(alloc: Global, kind: Option<Kind>, table: &Table) -> Result<AggWord, OutOfMemory>
    ensures { IfOk result (λ word. word ≡ word_of kind (table_view table.now)) }
{
    match kind {
        Some(Kind::BasicStats) => Ok(AggWord::Basic {
            sum: asks(alloc, table, "sum")?,
            count: asks(alloc, table, "count")?,
            min: asks(alloc, table, "min")?,
            max: asks(alloc, table, "max")?,
        }),
        Some(Kind::Final) => {
            let keys = Keys::Plugin(Kind::Final);
            Ok(AggWord::Final(time_at(alloc, &keys, table, "series_timeout")?))
        }
        Some(Kind::Merge) => Ok(AggWord::Merge),
        _ => Ok(AggWord::MinMax),
    }
}

/// Is a statistic asked for?
#[tactic(auto, unfolding(crate::specs::Aggs::asks))]
fn asks(alloc: Global, table: &Table, name: &str) -> Result<bool, OutOfMemory>
    ensures { IfOk result (λ asked. asked ≡ asks name.now (table_view table.now)) }
{
    let Some(value) = value_at(table, "stats") else {
        return Ok(true);
    };
    match texts_in(alloc, value)? {
        Some(texts) => Ok(is_text_in(texts.as_slice(), name)),
        None => Ok(true),
    }
}

/// Is a text one of these?
fn is_text_in(texts: &[&str], name: &str) -> bool
    ensures { result ≡ is_one_of (now_of texts.now) name.now }
{
    for text in texts {
        if name == *text {
            return true;
        }
    }
    false
}
