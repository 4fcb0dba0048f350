//! Adding what is wrong with a table to a list.
ghost use Rattle.std.specs.Prelude.{◌≡◌, ◌∷◌, [], IfOk};
ghost use Rattle.agent_config.specs.Faults.{range_faults};
ghost use Rattle.agent_config.specs.Found.{Adds, AddsFound, at, whole, wrong_view, wrongs_view};
ghost use Rattle.agent_config.specs.Unless.{unless};

use crate::fault::{Class, FaultKind, Found, Wrong};
use fixed_num::OutOfMemory;
use std::alloc::Global;

/// Whether memory was left for what was added.
pub(crate) type Added = Result<(), OutOfMemory>;

/// What was found wrong with a table so far, in the order in which it was found. Each part of a table has a method that
/// looks at it and adds what is wrong with it.
#[derive(Drop)]
pub(crate) struct Findings<'a> {
    /// For what is added, and for what is read to find it.
    pub(crate) alloc: Global,
    /// What is wrong.
    pub(crate) wrongs: Vec<Wrong<'a>>,
}

impl<'a> Findings<'a> {
    /// Of a table that nobody has looked at.
    pub(crate) fn new(alloc: Global) -> Findings<'a>
        ensures { result.wrongs.items ≡ [] }
    {
        Findings {
            alloc,
            wrongs: Vec::new(alloc),
        }
    }

    /// Adds what is wrong.
    pub(crate) fn add(&mut self, wrong: Wrong<'a>) -> Added
        ensures { IfOk result (λ _. Adds self.old self.new (wrong_view wrong.entry ∷ [])) }
    {
        self.wrongs.push(wrong)?;
        Ok(())
    }

    /// Adds what is wrong unless something holds.
    pub(crate) fn add_unless(&mut self, holds: bool, wrong: Wrong<'a>) -> Added
        ensures { IfOk result (λ _. Adds self.old self.new (unless holds (wrong_view wrong.entry))) }
    {
        if holds {
            return Ok(());
        }
        self.add(wrong)?;
        Ok(())
    }

    /// Checks a value by whether what it is read as is right; None where it is of another type than its key takes.
    pub(crate) fn check_range(&mut self, key: &'a str, right: Option<bool>) -> Added
        ensures { IfOk result (λ _. Adds self.old self.new (range_faults key.now right)) }
    {
        match right {
            Some(right) => self.add_unless(right, Wrong::of_key(FaultKind::OutOfRange, key)),
            None => self.add(Wrong::of_key(FaultKind::WrongType, key)),
        }
    }
}

/// Adds what is wrong at a place.
pub(crate) fn add_at<'a>(
    founds: &mut Vec<Found<'a>>,
    class: &Class,
    number: u32,
    wrongs: &[Wrong<'a>],
) -> Result<(), OutOfMemory>
    ensures { IfOk result (λ _. AddsFound founds.old.items founds.new.items
        (at class.now number (wrongs_view wrongs.now))) }
{
    for wrong in wrongs {
        founds.push(Found {
            wrong: *wrong,
            class: *class,
            number,
        })?;
    }
    Ok(())
}

/// Adds a fault of a whole table, or of more than one, at a place, unless something holds.
pub(crate) fn add_whole_at<'a>(
    founds: &mut Vec<Found<'a>>,
    class: &Class,
    number: u32,
    holds: bool,
    kind: FaultKind,
    follows: bool,
) -> Result<(), OutOfMemory>
    ensures { IfOk result (λ _. AddsFound founds.old.items founds.new.items
        (at class.now number (unless holds (whole kind follows)))) }
{
    if holds {
        return Ok(());
    }
    founds.push(Found {
        wrong: Wrong::of_whole(kind, follows),
        class: *class,
        number,
    })?;
    Ok(())
}
