//! The turnstile and its passes.
ghost use Rattle.std.specs.Prelude.{◌≡◌, ℕ, ◌<◌, ◌≤◌, ◌+◌, ◌^◌, [], length, slice_index, slice_set, IfOk, IfErr};
ghost use Rattle.turnstile.specs.History.{replay, IsLegal};
ghost use Rattle.turnstile.specs.Numbers.{IsSplit};
ghost use Rattle.turnstile.specs.View.{first_view, joined_with};
ghost use Rattle.turnstile.specs.Calls.{Calls, Accounts};
ghost use Rattle.turnstile.specs.Rule.{AreOpening};

use crate::history::View;
use crate::machine::Machine;
use crate::rule::{NEXT_NUMBER, TurnRule, TurnSeat};
use crate::steps;
use atomic_table::Table;
use fixed_num::OutOfMemory;
use std::alloc::{AllocError, AllocFailed, Global};
use std::marker::Model;
use std::snapshot::Snapshot;
use std::sync::Wait;

/// A machine at which passes take turns. There is one history of all their calls, and the machine is as it left it.
///
/// It may be shared by threads where the machine may be sent between them.
#[derive(Drop)]
pub struct Turnstile<M: Machine> {
    table: Table<Option<M>, View<M::Op, M::Answer>, (Snapshot<M>, u32), TurnRule, Global>,
    dials: u32,
}

impl<M: Machine> Model for Turnstile<M> {
    ghost use Rattle.std.specs.Prelude.{◌≡◌};
    ghost use Rattle.turnstile.specs.Rule.{IsSized};
    ghost use Rattle.turnstile.specs.View.{TurnstileView};

    ghost Value = { TurnstileView M };

    ghost view = { λ t. record {
      table = t.table.shared.table_id;
      start = t.table.shared.key.0.value;
      dials = t.dials;
    } };

    ghost invariant = { λ t. IsSized t.table.shared.table_id t.dials × (t.table.shared.key.1 ≡ t.dials) };
}

/// The right to call a turnstile's machine, and what its holder knows of the history. It has no bytes.
///
/// It is for the turnstile that it came from, and may be sent between threads where the machine may. A pass that is
/// let go can't be joined back: then the turnstile can't be closed, and the machine is let go with it.
#[derive(Drop)]
pub struct Pass<M: Machine> {
    seat: TurnSeat<M>,
}

impl<M: Machine> Model for Pass<M> {
    ghost use Rattle.turnstile.specs.View.{PassView, Rests};

    ghost Value = { PassView M.Op M.Answer };

    ghost view = { λ p. record { table = p.seat.table_id; view = p.seat.me.0 } };

    ghost invariant = { λ p. Rests p.seat.me };
}

/// The words of a turnstile that nobody has called.
fn opening_words(alloc: Global, dials: u32) -> Result<Vec<u64>, AllocError>
    ensures { IfOk result (λ words. AreOpening words.items dials) }
{
    let mut words = Vec::from_elem(alloc, 0u64, 4 + dials as usize)?;
    words[NEXT_NUMBER] = 1;
    Ok(words)
}

impl<M: Machine> Turnstile<M> {
    /// Makes a turnstile of a machine, with so many dials, and its first pass. Where memory is short the machine
    /// comes back as it was.
    pub fn new(
        alloc: Global,
        machine: M,
        dials: u32,
    ) -> Result<(Turnstile<M>, Pass<M>), (M, OutOfMemory)>
        requires { (i : ℕ) → i < dials → M.dial_of machine i ≡ 0 }
        ensures made { IfOk result (λ r. (r.0.start ≡ machine) × (r.0.dials ≡ dials)
            × (r.1.table ≡ r.0.table) × (r.1.view ≡ first_view dials)) }
        ensures refused { IfErr result (λ r. r.0 ≡ machine) }
    {
        let Ok(words) = opening_words(alloc, dials) else {
            return Err((machine, OutOfMemory));
        };
        let about = (Snapshot::of(&machine), dials);
        let mut slots = Vec::new(alloc);
        if let Err(failed) = slots.push(Some(machine)) {
            let AllocFailed { value } = failed;
            return Err((value.unwrap(), OutOfMemory));
        }
        match Table::new(alloc, words.as_slice(), slots, &about) {
            Ok((table, seat)) => Ok((Turnstile { table, dials }, Pass { seat })),
            Err(mut refused) => {
                let machine = refused.slots.pop().unwrap().unwrap();
                Err((machine, OutOfMemory))
            }
        }
    }

    /// Applies the operation at one point of the history, and answers what the machine answers, with the length of
    /// the history up to this call, modulo 2^64. It may wait for the turn, and takes no memory.
    ///
    /// The call stands behind all that the pass had seen, perhaps with calls of other passes between, and is then the
    /// last of what the pass has seen, and of its own calls.
    pub fn call<R: Wait>(&self, rt: &R, pass: &mut Pass<M>, op: M::Op) -> (M::Answer, u64)
        requires { pass.old.table ≡ self.now.table }
        ensures same { pass.new.table ≡ pass.old.table }
        ensures call { Calls M.allows M.next M.dial_of self.now.start pass.old.view op result.0 result.1 pass.new.view }
    {
        steps::call(&self.table.shared, rt, &mut pass.seat, self.dials, op)
    }

    /// Looks at a dial: not below what this pass glanced at before, nor below the dial in what the pass has seen, and
    /// not above what its next call finds. It waits for nobody, and takes no memory.
    pub fn glance(&self, pass: &mut Pass<M>, dial: u32) -> u64
        requires same_table { pass.old.table ≡ self.now.table }
        requires inside { dial < self.now.dials }
        ensures same { pass.new.table ≡ pass.old.table }
        ensures view { pass.new.view ≡ record pass.old.view { lowest = slice_set pass.old.view.lowest dial result } }
        ensures before { slice_index pass.old.view.lowest dial ≤ result }
        ensures seen { M.dial_of (replay M.next self.now.start pass.old.view.seen) dial ≤ result }
    {
        steps::glance(&self.table.shared, &mut pass.seat, dial)
    }

    /// Splits a pass off the first one. It has a number of its own, has seen the same, and has no calls. It waits for
    /// nobody, and takes no memory.
    pub fn split(&self, pass: &mut Pass<M>) -> Pass<M>
        requires same_table { pass.old.table ≡ self.now.table }
        requires first { pass.old.view.number ≡ 0 }
        requires few { length pass.old.view.split + length pass.old.view.joined < 2 ^ 32 }
        ensures same { (pass.new.table ≡ pass.old.table) × (result.table ≡ pass.old.table) }
        ensures split { IsSplit pass.old.view pass.new.view result.view }
    {
        let seat = steps::split(&self.table.shared, &mut pass.seat);
        Pass { seat }
    }

    /// Joins a pass back to the first one, which has then seen what either had seen, and keeps the number and the
    /// calls of the other. It waits for nobody, and takes no memory.
    pub fn join(&self, pass: &mut Pass<M>, other: Pass<M>)
        requires same_table { (pass.old.table ≡ self.now.table) × (other.table ≡ self.now.table) }
        requires first { pass.old.view.number ≡ 0 }
        ensures same { pass.new.table ≡ pass.old.table }
        ensures joined { pass.new.view ≡ joined_with pass.old.view other.view }
    {
        let Pass { seat } = other;
        steps::join(&self.table.shared, &mut pass.seat, seat);
    }

    /// Gives the machine back as the whole history left it, which the first pass has seen once all others are joined
    /// back to it. It waits for nobody.
    pub fn close(self, pass: Pass<M>) -> M
        requires same_table { pass.table ≡ self.table }
        requires first { pass.view.number ≡ 0 }
        requires all_back { pass.view.split ≡ [] }
        ensures machine { result ≡ replay M.next self.start pass.view.seen }
        ensures legal { IsLegal M.allows M.next self.start pass.view.seen }
        ensures accounts { Accounts pass.view }
    {
        let Turnstile { table, dials: _ } = self;
        let Pass { seat } = pass;
        let mut closed = table.close_with(seat);
        let machine = closed.take(0).unwrap();
        closed.free();
        machine
    }
}
