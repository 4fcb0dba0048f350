//! How a pass waits for the turn, and gives it up.
ghost use Rattle.std.specs.Prelude.{◌≡◌, ◌<◌, ◌+◌, Some, [], ◌∷◌, true, false};
ghost use Rattle.turnstile.specs.declared.history.Phase.TheVariants.{Idle, Publishing};
ghost use Rattle.turnstile.specs.History.{replay};
ghost use Rattle.turnstile.specs.View.{Rests};
ghost use Rattle.turnstile.specs.Calls.{HasTurn};
ghost use Rattle.turnstile.specs.Rule.{IsSized};

use crate::machine::Machine;
use crate::rule::{Acquires, FIRST_DIAL, FirstState, Releases, TURN, TurnSeat, TurnTable, Waits};
use std::hint;
use std::marker::Brand;
use std::sync::Wait;

/// So often at most is the turn looked at before who waits for it sleeps.
const LOOKS: u32 = 200;

/// Takes the turn where it is free, and says whether it did.
fn try_acquire<M: Machine, B: FirstState<M>>(table: &TurnTable<M>, seat: &mut TurnSeat<M>) -> bool
    requires sized { IsSized table.now.table_id table.now.key.1 }
    requires same_table { seat.old.table_id ≡ table.now.table_id }
    requires rests { Rests seat.old.me }
    requires known { B.start ≡ Some table.now.key.0.value }
    ensures same_table { (seat.new.table_id ≡ seat.old.table_id) × (seat.new.id ≡ seat.old.id) }
    ensures won { result ≡ true
        → HasTurn M.allows M.next M.dial_of table.now.key.0.value seat.old.me.0 seat.new.me }
    ensures lost { result ≡ false → seat.new.me ≡ seat.old.me }
{
    table.compare_exchange::<Acquires<B>>(seat, TURN, 0, 1) == 0
}

/// Looks at the turn for a while, and says whether it was free.
fn is_free_soon<M: Machine>(table: &TurnTable<M>) -> bool
    requires { IsSized table.now.table_id table.now.key.1 }
{
    for _ in 0..LOOKS {
        if table.peek(TURN) == 0 {
            return true;
        }
        hint::spin_loop();
    }
    false
}

/// Sleeps until a release of the turn; it may also return sooner. The word of who waits is raised before the kernel
/// looks at the turn, and a release looks at it after the turn is free: so one of the two sees the other.
fn sleep<M: Machine, R: Wait>(table: &TurnTable<M>, rt: &R, seat: &mut TurnSeat<M>, dials: u32)
    requires dials { dials ≡ table.now.key.1 }
    requires sized { IsSized table.now.table_id table.now.key.1 }
    requires same_table { seat.old.table_id ≡ table.now.table_id }
    requires rests { Rests seat.old.me }
    ensures same_table { (seat.new.table_id ≡ seat.old.table_id) × (seat.new.id ≡ seat.old.id) }
    ensures same { seat.new.me ≡ seat.old.me }
{
    let waiting = FIRST_DIAL + dials as usize;
    table.fetch_add::<Waits>(seat, waiting, 1);
    table.park(rt, TURN, 1);
    table.fetch_sub::<Waits>(seat, waiting, 1);
}

/// Waits for the turn, and takes it.
pub(crate) fn acquire<M: Machine, R: Wait>(
    table: &TurnTable<M>,
    rt: &R,
    seat: &mut TurnSeat<M>,
    dials: u32,
)
    requires dials { dials ≡ table.now.key.1 }
    requires sized { IsSized table.now.table_id table.now.key.1 }
    requires same_table { seat.old.table_id ≡ table.now.table_id }
    requires rests { Rests seat.old.me }
    ensures same_table { (seat.new.table_id ≡ seat.old.table_id) × (seat.new.id ≡ seat.old.id) }
    ensures won { HasTurn M.allows M.next M.dial_of table.now.key.0.value seat.old.me.0 seat.new.me }
{
    for _ in rt.forever() {
        if try_acquire::<M, Brand>(table, seat) {
            return;
        }
        if !is_free_soon(table) {
            sleep(table, rt, seat, dials);
        }
    }
    unreachable!()
}

/// Gives the turn up, and the machine with it, and wakes one of those who wait, where any do.
pub(crate) fn release<M: Machine>(table: &TurnTable<M>, seat: &mut TurnSeat<M>, dials: u32)
    requires dials { dials ≡ table.now.key.1 }
    requires sized { IsSized table.now.table_id table.now.key.1 }
    requires same_table { seat.old.table_id ≡ table.now.table_id }
    requires published { seat.old.me.0.phase ≡ Publishing table.now.key.1 }
    requires machine { seat.old.me.1 ≡ (0, Some (replay M.next table.now.key.0.value seat.old.me.0.seen)) ∷ [] }
    ensures same_table { (seat.new.table_id ≡ seat.old.table_id) × (seat.new.id ≡ seat.old.id) }
    ensures released { (seat.new.me.0 ≡ record seat.old.me.0 { phase = Idle }) × (seat.new.me.1 ≡ []) }
{
    table.store::<Releases>(seat, TURN, 0);
    if table.peek(FIRST_DIAL + dials as usize) != 0 {
        table.wake_one(TURN);
    }
}
