//! What is wrong with tables inside values.
ghost use Rattle.std.specs.Prelude.{◌≡◌, ◌++◌, ◌∷◌, [], IfOk, codes, option_map};
ghost use Rattle.toml.specs.Data.{as_str, as_table};
ghost use Rattle.toml.specs.View.{items_view, table_view, view};
ghost use Rattle.agent_config.specs.Faults.{filled_faults, inner_faults, inner_glob_faults};
ghost use Rattle.agent_config.specs.Faults.{inner_missing_faults, inner_value_faults};
ghost use Rattle.agent_config.specs.Faults.{pattern_faults, source_faults, table_value_faults, tables_faults};
ghost use Rattle.agent_config.specs.Faults.{tables_in, tables_of, texts_in};
ghost use Rattle.agent_config.specs.Found.{Adds};
ghost use Rattle.agent_config.specs.Inner.{count_of, inner_needs, sources};
ghost use Rattle.agent_config.specs.Seen.{tables_view};

use crate::adding::{Added, Findings};
use crate::fault::{FaultKind, Wrong};
use crate::inner::{Inner, InnerShape};
use crate::lists::{tables_in, texts_in};
use crate::spelled::Spelled;
use crate::tables::value_at;
use fixed_num::OutOfMemory;
use proc_regex::is_pattern;
use std::alloc::Global;
use toml::{Table, Value};

impl<'a> Findings<'a> {
    /// Checks a value that has to be a table.
    pub(crate) fn check_table(&mut self, key: &'a str, inner: &Inner, value: &'a Value) -> Added
        ensures { IfOk result (λ _. Adds self.old self.new
            (table_value_faults key.now inner.now (as_table (view value.now)))) }
    {
        match value.as_table() {
            Some(table) => self.check_inner(key, inner, table),
            None => self.add(Wrong::of_key(FaultKind::WrongType, key)),
        }
    }

    /// Checks a value that has to be a list of tables.
    pub(crate) fn check_tables(&mut self, key: &'a str, inner: &Inner, value: &'a Value) -> Added
        ensures { IfOk result (λ _. Adds self.old self.new
            (tables_faults key.now inner.now (tables_in (view value.now)))) }
    {
        let Some(tables) = tables_in(self.alloc, value)? else {
            self.add(Wrong::of_key(FaultKind::WrongType, key))?;
            return Ok(());
        };
        let tables = tables.as_slice();
        for table in tables {
            self.check_inner(key, inner, table)?;
        }
        Ok(())
    }

    /// Checks a table: its keys in order, then those that it lacks.
    fn check_inner(&mut self, key: &'a str, inner: &Inner, table: &'a Table) -> Added
        ensures { IfOk result (λ _. Adds self.old self.new (inner_faults key.now inner.now (table_view table.now))) }
    {
        for (name, value) in table.iter() {
            let name = name.as_str();
            self.check_inner_value((key, name), inner.row_of(name), value)?;
        }
        self.check_inner_needs(key, inner, table)?;
        Ok(())
    }

    /// Checks the value of a key in a table that stands in the value of another.
    fn check_inner_value(
        &mut self,
        keys: (&'a str, &'a str),
        shape: Option<InnerShape>,
        value: &'a Value,
    ) -> Added
        ensures { IfOk result (λ _. Adds self.old self.new
            (inner_value_faults keys.entry.0.now keys.entry.1.now shape (view value.now))) }
    {
        let (key, name) = keys;
        match shape {
            None => self.add(Wrong::of_text(FaultKind::UnknownKey, key, name)),
            Some(InnerShape::FilledText) => self.check_filled(key, name, value),
            Some(InnerShape::AnyText) => {
                self.add_unless(
                    value.is_str(),
                    Wrong::of_text(FaultKind::WrongType, key, name),
                )
            }
            Some(InnerShape::Pattern) => self.check_pattern(key, name, value),
            Some(InnerShape::Globs) => self.check_inner_globs(key, name, value),
        }
    }

    /// Checks a text that isn't to be empty.
    fn check_filled(&mut self, key: &'a str, name: &'a str, value: &'a Value) -> Added
        ensures { IfOk result (λ _. Adds self.old self.new (filled_faults key.now name.now (as_str (view value.now)))) }
    {
        match value.as_str() {
            Some(text) => {
                self.add_unless(
                    !text.is_empty(),
                    Wrong::of_text(FaultKind::OutOfRange, key, name),
                )
            }
            None => self.add(Wrong::of_text(FaultKind::WrongType, key, name)),
        }
    }

    /// Checks a pattern.
    fn check_pattern(&mut self, key: &'a str, name: &'a str, value: &'a Value) -> Added
        ensures { IfOk result (λ _. Adds self.old self.new (pattern_faults key.now name.now (as_str (view value.now)))) }
    {
        let Some(text) = value.as_str() else {
            self.add(Wrong::of_text(FaultKind::WrongType, key, name))?;
            return Ok(());
        };
        let holds = is_pattern(self.alloc, text)?;
        self.add_unless(holds, Wrong::of_text(FaultKind::BadPattern, key, text))?;
        Ok(())
    }

    /// Checks a list of globs.
    fn check_inner_globs(&mut self, key: &'a str, name: &'a str, value: &'a Value) -> Added
        ensures { IfOk result (λ _. Adds self.old self.new
            (inner_glob_faults key.now name.now (texts_in (view value.now)))) }
    {
        match texts_in(self.alloc, value)? {
            Some(texts) => self.check_spelling(key, &Spelled::Glob, texts.as_slice()),
            None => self.add(Wrong::of_text(FaultKind::WrongType, key, name)),
        }
    }

    /// Checks that a table says at just one key what is renamed, and that it has the keys which it needs.
    fn check_inner_needs(&mut self, key: &'a str, inner: &Inner, table: &'a Table) -> Added
        ensures { IfOk result (λ _. Adds self.old self.new (source_faults key.now inner.now (table_view table.now)
            ++ inner_missing_faults key.now (inner_needs inner.now) (table_view table.now))) }
    {
        match inner {
            Inner::Replacement => {
                let is_one = source_count(table) == 1;
                self.add_unless(is_one, Wrong::of_key(FaultKind::Missing, key))?;
                self.check_inner_need(key, table, "dest")?;
                Ok(())
            }
            Inner::Rewriting => {
                self.check_inner_need(key, table, "key")?;
                self.check_inner_need(key, table, "pattern")?;
                self.check_inner_need(key, table, "replacement")?;
                Ok(())
            }
            _ => Ok(()),
        }
    }

    /// Checks that a table has a key which it needs.
    fn check_inner_need(&mut self, key: &'a str, table: &'a Table, name: &'a str) -> Added
        ensures { IfOk result (λ _. Adds self.old self.new
            (inner_missing_faults key.now (name.now ∷ []) (table_view table.now))) }
    {
        let is_there = value_at(table, name).is_some();
        self.add_unless(is_there, Wrong::of_text(FaultKind::Missing, key, name))?;
        Ok(())
    }
}

/// Is there a value at a key? As a number.
fn count_at(table: &Table, key: &str) -> u32
    ensures { result ≡ count_of (key.now ∷ []) (table_view table.now) }
{
    u32::from(value_at(table, key).is_some())
}

/// How many keys a table has that say what is renamed.
fn source_count(table: &Table) -> u32
    ensures { result ≡ count_of sources (table_view table.now) }
{
    count_at(table, "measurement") + count_at(table, "tag") + count_at(table, "field")
}
