//! What a pass does at the shared words: its calls, its glances, and how it is split and joined.
ghost use Rattle.std.specs.Prelude.{◌≡◌, ◌≢◌, ℕ, ◌<◌, ◌≤◌, ◌+◌, ◌%◌, ◌^◌, Some, length, slice_index, slice_set};
ghost use Rattle.turnstile.specs.declared.history.Phase.TheVariants.{Holding, Publishing};
ghost use Rattle.turnstile.specs.History.{replay, but_last, call_of};
ghost use Rattle.turnstile.specs.Numbers.{IsSplit};
ghost use Rattle.turnstile.specs.View.{Rests, with_call, joined_with};
ghost use Rattle.turnstile.specs.Calls.{Calls};
ghost use Rattle.turnstile.specs.Dials.{NoneFell};
ghost use Rattle.turnstile.specs.Rule.{IsSized};

use crate::machine::Machine;
use crate::rule::{
    Commits, CommittedCall, Draws, FIRST_DIAL, Finds, FirstState, Glances, HOME, LENGTH,
    NEXT_NUMBER, NextDial, Parts, Publishes, TurnSeat, TurnTable,
};
use crate::waiting::{acquire, release};
use std::marker::Brand;
use std::snapshot::Snapshot;
use std::sync::Wait;

/// Adds a call to the history, and answers its length with it, modulo 2^64.
fn commit<M: Machine, C: CommittedCall<M::Op, M::Answer>>(
    table: &TurnTable<M>,
    seat: &mut TurnSeat<M>,
    op: &Snapshot<M::Op>,
    answer: &M::Answer,
) -> u64
    requires sized { IsSized table.now.table_id table.now.key.1 }
    requires same_table { seat.old.table_id ≡ table.now.table_id }
    requires holding { seat.old.me.0.phase ≡ Holding }
    requires call { C.call ≡ Some (op.now.value, answer.now) }
    requires allowed { M.allows (replay M.next table.now.key.0.value seat.old.me.0.seen) op.now.value answer.now }
    ensures same_table { (seat.new.table_id ≡ seat.old.table_id) × (seat.new.id ≡ seat.old.id)
        × (seat.new.me.1 ≡ seat.old.me.1) }
    ensures committed { seat.new.me.0
        ≡ with_call (call_of seat.old.me.0.number (op.now.value, answer.now)) seat.old.me.0 }
    ensures number { result ≡ length seat.new.me.0.seen % 2 ^ 64 }
{
    let found = table.fetch_add::<Commits<C>>(seat, LENGTH, 1);
    found.wrapping_add(1)
}

/// Looks at the dial that is published next, and publishes it where it shows already what it is to show.
fn find<M: Machine, B: NextDial<M>>(
    table: &TurnTable<M>,
    seat: &mut TurnSeat<M>,
    dial: u32,
    new: u64,
) -> u64
    requires sized { IsSized table.now.table_id table.now.key.1 }
    requires same_table { seat.old.table_id ≡ table.now.table_id }
    requires known { (B.start ≡ Some table.now.key.0.value) × (B.value ≡ Some new) }
    requires next { (seat.old.me.0.phase ≡ Publishing dial) × (dial < table.now.key.1) }
    requires shows { new ≡ M.dial_of (replay M.next table.now.key.0.value seat.old.me.0.seen) dial }
    ensures same_table { (seat.new.table_id ≡ seat.old.table_id) × (seat.new.id ≡ seat.old.id)
        × (seat.new.me.1 ≡ seat.old.me.1) }
    ensures found { result ≡ M.dial_of (replay M.next table.now.key.0.value (but_last seat.old.me.0.seen)) dial }
    ensures shown { result ≡ new → seat.new.me.0 ≡ record seat.old.me.0 { phase = Publishing (dial + 1) } }
    ensures unshown { result ≢ new → seat.new.me.0 ≡ seat.old.me.0 }
{
    table.load::<Finds<B>>(seat, FIRST_DIAL + dial as usize)
}

/// Lets a dial show the machine as it is. Where it does so already, its word is only looked at.
fn publish<M: Machine>(table: &TurnTable<M>, seat: &mut TurnSeat<M>, machine: &M, dial: u32)
    requires sized { IsSized table.now.table_id table.now.key.1 }
    requires same_table { seat.old.table_id ≡ table.now.table_id }
    requires next { (seat.old.me.0.phase ≡ Publishing dial) × (dial < table.now.key.1) }
    requires machine { machine.now ≡ replay M.next table.now.key.0.value seat.old.me.0.seen }
    requires none_fell { NoneFell M.next M.dial_of table.now.key.0.value seat.old.me.0.seen }
    ensures same_table { (seat.new.table_id ≡ seat.old.table_id) × (seat.new.id ≡ seat.old.id)
        × (seat.new.me.1 ≡ seat.old.me.1) }
    ensures published { seat.new.me.0 ≡ record seat.old.me.0 { phase = Publishing (dial + 1) } }
{
    let new = machine.dial(dial);
    let old = find::<M, Brand>(table, seat, dial, new);
    if old != new {
        table.fetch_add::<Publishes>(seat, FIRST_DIAL + dial as usize, new - old);
    }
}

/// Lets each dial show the machine as it is, the first one first.
fn publish_all<M: Machine>(table: &TurnTable<M>, seat: &mut TurnSeat<M>, machine: &M, dials: u32)
    requires dials { dials ≡ table.now.key.1 }
    requires sized { IsSized table.now.table_id table.now.key.1 }
    requires same_table { seat.old.table_id ≡ table.now.table_id }
    requires next { seat.old.me.0.phase ≡ Publishing 0 }
    requires machine { machine.now ≡ replay M.next table.now.key.0.value seat.old.me.0.seen }
    requires none_fell { NoneFell M.next M.dial_of table.now.key.0.value seat.old.me.0.seen }
    ensures same_table { (seat.new.table_id ≡ seat.old.table_id) × (seat.new.id ≡ seat.old.id)
        × (seat.new.me.1 ≡ seat.old.me.1) }
    ensures published { seat.new.me.0 ≡ record seat.old.me.0 { phase = Publishing table.now.key.1 } }
{
    for dial in 0..dials {
        publish(table, seat, machine, dial);
    }
}

/// Takes the turn, applies the operation, adds the call to the history, publishes the dials and gives the turn up.
pub(crate) fn call<M: Machine, R: Wait>(
    table: &TurnTable<M>,
    rt: &R,
    seat: &mut TurnSeat<M>,
    dials: u32,
    op: M::Op,
) -> (M::Answer, u64)
    requires dials { dials ≡ table.now.key.1 }
    requires sized { IsSized table.now.table_id table.now.key.1 }
    requires same_table { seat.old.table_id ≡ table.now.table_id }
    requires rests { Rests seat.old.me }
    ensures same_table { (seat.new.table_id ≡ seat.old.table_id) × (seat.new.id ≡ seat.old.id) × Rests seat.new.me }
    ensures call { Calls M.allows M.next M.dial_of table.now.key.0.value seat.old.me.0 op
        result.0 result.1 seat.new.me.0 }
{
    acquire(table, rt, seat, dials);
    let mut machine = table.exchange(seat, HOME, None).unwrap();
    let said = Snapshot::of(&op);
    let answer = machine.apply(op);
    let number = commit::<M, Brand>(table, seat, &said, &answer);
    publish_all(table, seat, &machine, dials);
    table.exchange(seat, HOME, Some(machine));
    release(table, seat, dials);
    (answer, number)
}

/// Looks at a dial without the turn.
fn glance_from<M: Machine, B: FirstState<M>>(
    table: &TurnTable<M>,
    seat: &mut TurnSeat<M>,
    dial: u32,
) -> u64
    requires sized { IsSized table.now.table_id table.now.key.1 }
    requires same_table { seat.old.table_id ≡ table.now.table_id }
    requires rests { Rests seat.old.me }
    requires inside { dial < table.now.key.1 }
    requires known { B.start ≡ Some table.now.key.0.value }
    ensures same_table { (seat.new.table_id ≡ seat.old.table_id) × (seat.new.id ≡ seat.old.id) × Rests seat.new.me }
    ensures view { seat.new.me.0 ≡ record seat.old.me.0 { lowest = slice_set seat.old.me.0.lowest dial result } }
    ensures before { slice_index seat.old.me.0.lowest dial ≤ result }
    ensures seen { M.dial_of (replay M.next table.now.key.0.value seat.old.me.0.seen) dial ≤ result }
{
    table.load::<Glances<B>>(seat, FIRST_DIAL + dial as usize)
}

/// Looks at a dial without the turn.
pub(crate) fn glance<M: Machine>(table: &TurnTable<M>, seat: &mut TurnSeat<M>, dial: u32) -> u64
    requires sized { IsSized table.now.table_id table.now.key.1 }
    requires same_table { seat.old.table_id ≡ table.now.table_id }
    requires rests { Rests seat.old.me }
    requires inside { dial < table.now.key.1 }
    ensures same_table { (seat.new.table_id ≡ seat.old.table_id) × (seat.new.id ≡ seat.old.id) × Rests seat.new.me }
    ensures view { seat.new.me.0 ≡ record seat.old.me.0 { lowest = slice_set seat.old.me.0.lowest dial result } }
    ensures before { slice_index seat.old.me.0.lowest dial ≤ result }
    ensures seen { M.dial_of (replay M.next table.now.key.0.value seat.old.me.0.seen) dial ≤ result }
{
    glance_from::<M, Brand>(table, seat, dial)
}

/// Draws a number, and splits off the pass that has it.
pub(crate) fn split<M: Machine>(table: &TurnTable<M>, seat: &mut TurnSeat<M>) -> TurnSeat<M>
    requires sized { IsSized table.now.table_id table.now.key.1 }
    requires same_table { seat.old.table_id ≡ table.now.table_id }
    requires rests { Rests seat.old.me }
    requires first { seat.old.me.0.number ≡ 0 }
    requires few { length seat.old.me.0.split + length seat.old.me.0.joined < 2 ^ 32 }
    ensures same_table { (seat.new.table_id ≡ seat.old.table_id) × (seat.new.id ≡ seat.old.id) × Rests seat.new.me }
    ensures new_table { (result.table_id ≡ seat.old.table_id) × Rests result.me }
    ensures split { IsSplit seat.old.me.0 seat.new.me.0 result.me.0 }
{
    table.fetch_add::<Draws>(seat, NEXT_NUMBER, 1);
    table.split_seat::<Parts>(seat)
}

/// Joins a pass back to the first one.
pub(crate) fn join<M: Machine>(table: &TurnTable<M>, seat: &mut TurnSeat<M>, other: TurnSeat<M>)
    requires sized { IsSized table.now.table_id table.now.key.1 }
    requires same_table { (seat.old.table_id ≡ table.now.table_id) × (other.table_id ≡ table.now.table_id) }
    requires rests { Rests seat.old.me × Rests other.me }
    requires first { seat.old.me.0.number ≡ 0 }
    ensures same_table { (seat.new.table_id ≡ seat.old.table_id) × (seat.new.id ≡ seat.old.id) × Rests seat.new.me }
    ensures joined { seat.new.me.0 ≡ joined_with seat.old.me.0 other.me.0 }
{
    table.join_seat::<Parts>(seat, other);
}
