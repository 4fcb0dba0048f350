//! Lists of texts of which each has to spell something.
ghost use Rattle.std.specs.Prelude.{◌≡◌, IfOk};
ghost use Rattle.toml.specs.View.{view};
ghost use Rattle.agent_config.specs.Faults.{is_spelled, misspelled, spelling_faults, texts_faults, texts_in};
ghost use Rattle.agent_config.specs.Found.{Adds};
ghost use Rattle.agent_config.specs.Seen.{now_of};

use crate::adding::{Added, Findings};
use crate::fault::{FaultKind, Wrong};
use crate::globs::read_glob;
use crate::lists::texts_in;
use crate::shapes::is_statistic;
use crate::templates::read_template;
use fixed_num::OutOfMemory;
use std::alloc::Global;
use toml::Value;

/// What each text of a list has to spell.
#[derive(Clone, Copy)]
pub(crate) enum Spelled {
    /// A glob.
    Glob,
    /// A template.
    Template,
    /// The name of a statistic.
    Statistic,
}

impl Spelled {
    /// Does a text spell it?
    fn is_spelled(&self, alloc: Global, text: &str) -> Result<bool, OutOfMemory>
        ensures { IfOk result (λ spelled. spelled ≡ is_spelled self.now text.now) }
    {
        match self {
            Spelled::Glob => Ok(read_glob(alloc, text)?.is_some()),
            Spelled::Template => Ok(read_template(alloc, text)?.is_some()),
            Spelled::Statistic => Ok(is_statistic(text)),
        }
    }

    /// What is wrong with a text that doesn't.
    fn misspelled(&self) -> FaultKind
        ensures { result ≡ misspelled self.now }
    {
        match self {
            Spelled::Glob => FaultKind::BadGlob,
            Spelled::Template => FaultKind::BadTemplate,
            Spelled::Statistic => FaultKind::OutOfRange,
        }
    }
}

impl<'a> Findings<'a> {
    /// Checks texts, each of which has to spell something.
    pub(crate) fn check_spelling(
        &mut self,
        key: &'a str,
        spelled: &Spelled,
        texts: &[&'a str],
    ) -> Added
        ensures { IfOk result (λ _. Adds self.old self.new (spelling_faults key.now spelled.now (now_of texts.now))) }
    {
        for text in texts {
            let holds = spelled.is_spelled(self.alloc, text)?;
            self.add_unless(holds, Wrong::of_text(spelled.misspelled(), key, text))?;
        }
        Ok(())
    }

    /// Checks a value that has to be a list of such texts.
    pub(crate) fn check_texts(&mut self, key: &'a str, spelled: &Spelled, value: &'a Value) -> Added
        ensures { IfOk result (λ _. Adds self.old self.new (texts_faults key.now spelled.now (texts_in (view value.now)))) }
    {
        match texts_in(self.alloc, value)? {
            Some(texts) => self.check_spelling(key, spelled, texts.as_slice()),
            None => self.add(Wrong::of_key(FaultKind::WrongType, key)),
        }
    }
}
