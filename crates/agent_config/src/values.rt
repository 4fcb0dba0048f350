//! What is wrong with values.
ghost use Rattle.std.specs.Prelude.{◌≡◌, IfOk, option_map};
ghost use Rattle.toml.specs.Data.{as_table};
ghost use Rattle.toml.specs.View.{view};
ghost use Rattle.agent_config.specs.Faults.{is_one_place, listed_faults, range_faults, tagged_faults};
ghost use Rattle.agent_config.specs.Faults.{texts_in, time_faults, value_faults};
ghost use Rattle.agent_config.specs.Found.{Adds};
ghost use Rattle.agent_config.specs.Rows.{is_long_enough};
ghost use Rattle.agent_config.specs.Seen.{now_of};

use crate::adding::{Added, Findings};
use crate::fault::{FaultKind, Wrong};
use crate::lists::texts_in;
use crate::rows::is_counted;
use crate::shapes::{Shape, TimeRow};
use crate::spelled::Spelled;
use crate::times::time_in;
use toml::Value;

impl<'a> Findings<'a> {
    /// Checks the value of a key.
    pub(crate) fn check_value(&mut self, key: &'a str, shape: &Shape, value: &'a Value) -> Added
        ensures { IfOk result (λ _. Adds self.old self.new (value_faults key.now shape.now (view value.now))) }
    {
        let wrong_type = Wrong::of_key(FaultKind::WrongType, key);
        match shape {
            Shape::Anything => Ok(()),
            Shape::Count(row) => {
                let right = value.as_integer().map(|n| is_counted(row.most, n));
                self.check_range(key, right)
            }
            Shape::Truth(_) => self.add_unless(value.is_bool(), wrong_type),
            Shape::Place(_) => {
                let right = value.as_str().map(|text| !text.is_empty());
                self.check_range(key, right)
            }
            Shape::AnyText(_) => self.add_unless(value.is_str(), wrong_type),
            Shape::OneOf(names) => {
                let right = value.as_str().map(|name| names.have(name));
                self.check_range(key, right)
            }
            Shape::Templates => self.check_texts(key, &Spelled::Template, value),
            Shape::Files => self.check_files(key, value),
            Shape::Time(row) => self.check_time(key, row, value),
            Shape::Globs => self.check_texts(key, &Spelled::Glob, value),
            Shape::TagGlobs => self.check_tagged(key, value),
            Shape::WholeNumber => self.add_unless(value.is_integer(), wrong_type),
            Shape::Table(inner) => self.check_table(key, inner, value),
            Shape::Tables(inner) => self.check_tables(key, inner, value),
            Shape::Statistics => self.check_texts(key, &Spelled::Statistic, value),
        }
    }

    /// Checks a list of one place.
    fn check_files(&mut self, key: &'a str, value: &'a Value) -> Added
        ensures { IfOk result (λ _. Adds self.old self.new
            (range_faults key.now (option_map is_one_place (texts_in (view value.now))))) }
    {
        let texts = texts_in(self.alloc, value)?;
        let right = texts.map(|texts| is_one_place(texts.as_slice()));
        self.check_range(key, right)?;
        Ok(())
    }

    /// Checks a time, which is no shorter than the least.
    fn check_time(&mut self, key: &'a str, row: &TimeRow, value: &'a Value) -> Added
        ensures { IfOk result (λ _. Adds self.old self.new (time_faults key.now row.now.least (view value.now))) }
    {
        if !value.is_integer() && !value.is_str() {
            self.add(Wrong::of_key(FaultKind::WrongType, key))?;
            return Ok(());
        }
        let time = time_in(self.alloc, value)?;
        let holds = is_long_enough(row, time);
        self.add_unless(holds, Wrong::of_key(FaultKind::OutOfRange, key))?;
        Ok(())
    }

    /// Checks a table of lists of globs.
    fn check_tagged(&mut self, key: &'a str, value: &'a Value) -> Added
        ensures { IfOk result (λ _. Adds self.old self.new (tagged_faults key.now (as_table (view value.now)))) }
    {
        let Some(table) = value.as_table() else {
            self.add(Wrong::of_key(FaultKind::WrongType, key))?;
            return Ok(());
        };
        for (tag, globs) in table.iter() {
            self.check_listed(key, tag.as_str(), globs)?;
        }
        Ok(())
    }

    /// Checks a tag with a list of globs.
    fn check_listed(&mut self, key: &'a str, tag: &str, value: &'a Value) -> Added
        ensures { IfOk result (λ _. Adds self.old self.new (listed_faults key.now tag.now (texts_in (view value.now)))) }
    {
        match texts_in(self.alloc, value)? {
            Some(texts) => {
                self.add_unless(!tag.is_empty(), Wrong::of_key(FaultKind::OutOfRange, key))?;
                self.check_spelling(key, &Spelled::Glob, texts.as_slice())?;
                Ok(())
            }
            None => self.add(Wrong::of_key(FaultKind::WrongType, key)),
        }
    }
}

/// Are the texts of a list exactly one, which isn't empty?
fn is_one_place(texts: &[&str]) -> bool
    ensures { result ≡ is_one_place (now_of texts.now) }
{
    match texts {
        [text] => !text.is_empty(),
        _ => false,
    }
}

/// Is it a time, and no shorter than the least?
fn is_long_enough(row: &TimeRow, time: Option<i64>) -> bool
    ensures { result ≡ is_long_enough row.now.least time }
{
    match time {
        Some(time) => row.least <= time,
        None => false,
    }
}
