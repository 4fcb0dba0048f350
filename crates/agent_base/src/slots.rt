//! Parts by place.
ghost use Rattle.std.specs.Prelude.{◌≡◌, None, true, OnOk, OnErr, is_some, [], List, ℕ};
ghost use Rattle.std.specs.List.{position};
ghost use Rattle.std.specs.Option.{option_copied};
ghost use Rattle.agent_base.specs.Slots.{slot_at, slot_of, is_named, is_out_at, part_at, OpensSlot, Comes, IsMissed};
ghost use Rattle.agent_base.specs.Slots.{AllHome, Fills};
ghost use Rattle.agent_base.specs.Places.{SameBut};

use crate::OpenFault;
use fixed_num::OutOfMemory;
use std::alloc::{AllocError, Global};

#[derive(Drop)]
struct Slot<P> {
    place: String,
    part: Option<P>,
    open_faults: u64,
    is_out: bool,
}

/// The parts of one side of a world, by place; and of each place how often opening it has failed, and whether its
/// part is out.
#[derive(Drop)]
pub struct Slots<P> {
    alloc: Global,
    slots: Vec<Slot<P>>,
}

// The index of a place's first slot.
fn find<P>(slots: &[Slot<P>], place: &str) -> Option<usize>
    ensures { result ≡ position (is_named place.now) slots.now }
{
    slots.iter().position(|slot| slot.place.as_str() == place)
}

impl<P: Drop> Slots<P> {
    /// No part, and nothing that has failed.
    pub fn new(alloc: Global) -> Slots<P>
        ensures { result.slots.items ≡ [] }
    {
        Slots {
            alloc,
            slots: Vec::new(alloc),
        }
    }

    /// Moves the part of a place out. Where none stands there that is counted.
    pub fn open(&mut self, place: &str) -> Result<P, OpenFault>
        ensures opened { OpensSlot result (slot_of self.old place.now) (slot_of self.new place.now) }
        ensures others { SameBut place.now (slot_of self.old) (slot_of self.new) }
    {
        match find(&self.slots, place) {
            Some(at) => {
                let slot = &mut self.slots[at];
                match slot.part.take() {
                    Some(part) => {
                        slot.is_out = true;
                        Ok(part)
                    }
                    None => {
                        slot.open_faults = slot.open_faults.saturating_add(1);
                        Err(OpenFault::Failed)
                    }
                }
            }
            None => match self.miss(place) {
                Ok(()) => Err(OpenFault::Failed),
                Err(_) => Err(OpenFault::OutOfMemory),
            },
        }
    }

    // Makes room for the counts of a place that has none.
    fn miss(&mut self, place: &str) -> Result<(), AllocError>
        requires { position (is_named place.now) self.old.slots.items ≡ None }
        ensures ok { OnOk result (IsMissed (slot_of self.old place.now) (slot_of self.new place.now)) }
        ensures err { OnErr result (self.new.slots.items ≡ self.old.slots.items) }
        ensures others { SameBut place.now (slot_of self.old) (slot_of self.new) }
    {
        let name = String::from_str(self.alloc, place)?;
        self.slots.push(Slot {
            place: name,
            part: None,
            open_faults: 1,
            is_out: false,
        })?;
        Ok(())
    }

    /// Moves the part of a place back.
    pub fn give(&mut self, place: &str, part: P)
        requires { is_out_at (slot_of self.old place.now) ≡ true }
        ensures given { Comes part (slot_of self.old place.now) (slot_of self.new place.now) }
        ensures others { SameBut place.now (slot_of self.old) (slot_of self.new) }
    {
        if let Some(at) = find(&self.slots, place) {
            let slot = &mut self.slots[at];
            slot.part = Some(part);
            slot.is_out = false;
        }
    }

    /// Puts a part at a place, in place of what was there.
    pub fn add(&mut self, place: &str, part: P) -> Result<(), OutOfMemory>
        ensures added { OnOk result (Fills part (slot_of self.old place.now) (slot_of self.new place.now)) }
        ensures others { SameBut place.now (slot_of self.old) (slot_of self.new) }
        ensures err { OnErr result (self.new.slots.items ≡ self.old.slots.items) }
        ensures home { AllHome self.old → AllHome self.new }
    {
        match find(&self.slots, place) {
            Some(at) => {
                let slot = &mut self.slots[at];
                slot.part = Some(part);
                slot.is_out = false;
                Ok(())
            }
            None => self.push(place, part),
        }
    }

    fn push(&mut self, place: &str, part: P) -> Result<(), OutOfMemory>
        requires { position (is_named place.now) self.old.slots.items ≡ None }
        ensures added { OnOk result (Fills part (slot_of self.old place.now) (slot_of self.new place.now)) }
        ensures others { SameBut place.now (slot_of self.old) (slot_of self.new) }
        ensures err { OnErr result (self.new.slots.items ≡ self.old.slots.items) }
        ensures home { AllHome self.old → AllHome self.new }
    {
        let name = String::from_str(self.alloc, place)?;
        self.slots.push(Slot {
            place: name,
            part: Some(part),
            open_faults: 0,
            is_out: false,
        })?;
        Ok(())
    }

    /// The part that stands at a place.
    pub fn part(&self, place: &str) -> Option<&P>
        ensures { option_copied result ≡ part_at (slot_of self.now place.now) }
    {
        match find(&self.slots, place) {
            Some(at) => self.slots[at].part.as_ref(),
            None => None,
        }
    }

    /// Whether a part stands at a place.
    pub fn has(&self, place: &str) -> bool
        ensures { result ≡ is_some (part_at (slot_of self.now place.now)) }
    {
        self.part(place).is_some()
    }
}
