//! The rule of the shared words, and what each step at them tells.
use crate::history::View;
use crate::machine::Machine;
use atomic_table::{Join, Play, Seat, Shared, Split, TableRule};
use std::marker::{Brand, PhantomData};
use std::snapshot::Snapshot;

/// The word of the turn: 0 where it is free, else 1.
pub(crate) const TURN: usize = 0;

/// The word of the history's length, modulo 2^64.
pub(crate) const LENGTH: usize = 1;

/// The word of the next pass's number.
pub(crate) const NEXT_NUMBER: usize = 2;

/// The word of dial 0, behind which stand those of the other dials, and last that of who waits.
pub(crate) const FIRST_DIAL: usize = 3;

/// The slot of the machine.
pub(crate) const HOME: usize = 0;

/// The shared words, and the machine's home.
pub(crate) type TurnTable<M> = Shared<
    Option<M>,
    View<<M as Machine>::Op, <M as Machine>::Answer>,
    (Snapshot<M>, u32),
    TurnRule,
>;

/// What a pass steps with.
pub(crate) type TurnSeat<M> = Seat<Option<M>, View<<M as Machine>::Op, <M as Machine>::Answer>>;

/// The rule of a turnstile's table. Its key has the state before the history, and the number of dials.
pub(crate) struct TurnRule;

impl<M: Machine> TableRule<Option<M>, View<M::Op, M::Answer>, (Snapshot<M>, u32)> for TurnRule {
    ghost use Rattle.turnstile.specs.Rule.{IsKept};
    ghost use Rattle.turnstile.specs.View.{first_view};

    ghost holds = { λ key. IsKept M.allows M.next M.dial_of key.0.value key.1 };

    ghost first = { λ key. first_view key.1 };
}

/// The operation and the answer of the call that a step adds to the history. A step has no parameter, so a call of
/// it picks this by `Brand`.
pub(crate) trait CommittedCall<O, A> {
    ghost use Rattle.std.specs.Prelude.{Option};

    ghost call: { Option (O × A) };
}

impl<O, A> CommittedCall<O, A> for Brand {
    ghost use Rattle.std.specs.Prelude.{None};

    ghost call = { None };
}

/// The state before the history, which a step can't read off the table's key: a call of it picks this by `Brand`.
pub(crate) trait FirstState<S> {
    ghost use Rattle.std.specs.Prelude.{Option};

    ghost start: { Option S };
}

impl<S> FirstState<S> for Brand {
    ghost use Rattle.std.specs.Prelude.{None};

    ghost start = { None };
}

/// The same, and what the dial that is published next is to show.
pub(crate) trait NextDial<S> {
    ghost use Rattle.std.specs.Prelude.{ℕ, Option};

    ghost start: { Option S };

    ghost value: { Option ℕ };
}

impl<S> NextDial<S> for Brand {
    ghost use Rattle.std.specs.Prelude.{None};

    ghost start = { None };

    ghost value = { None };
}

/// Takes the turn where it is free, and the machine with it.
pub(crate) struct Acquires<B>(PhantomData<B>);

impl<M: Machine, B: FirstState<M>> Play<Option<M>, View<M::Op, M::Answer>> for Acquires<B> {
    ghost use Rattle.turnstile.specs.Turns.{Acquired};

    ghost then = { Acquired M.allows M.next M.dial_of B.start };
}

/// Adds a call to the history.
pub(crate) struct Commits<C>(PhantomData<C>);

impl<M: Machine, C: CommittedCall<M::Op, M::Answer>> Play<Option<M>, View<M::Op, M::Answer>>
    for Commits<C> {
    ghost use Rattle.turnstile.specs.Turns.{Committed};

    ghost then = { Committed C.call };
}

/// Gives the turn up, and the machine with it.
pub(crate) struct Releases;

impl<M: Machine> Play<Option<M>, View<M::Op, M::Answer>> for Releases {
    ghost use Rattle.turnstile.specs.Turns.{Released};

    ghost then = { Released };
}

/// Counts who waits for the turn.
pub(crate) struct Waits;

impl<M: Machine> Play<Option<M>, View<M::Op, M::Answer>> for Waits {
    ghost use Rattle.turnstile.specs.Turns.{Waited};

    ghost then = { Waited };
}

/// Looks at a dial before it is published, and publishes it where it shows already what it is to show.
pub(crate) struct Finds<B>(PhantomData<B>);

impl<M: Machine, B: NextDial<M>> Play<Option<M>, View<M::Op, M::Answer>> for Finds<B> {
    ghost use Rattle.turnstile.specs.Dials.{Found};

    ghost then = { Found M.next M.dial_of B.start B.value };
}

/// Lets a dial show the state after the last call.
pub(crate) struct Publishes;

impl<M: Machine> Play<Option<M>, View<M::Op, M::Answer>> for Publishes {
    ghost use Rattle.turnstile.specs.Dials.{Published};

    ghost then = { Published };
}

/// Looks at a dial without the turn.
pub(crate) struct Glances<B>(PhantomData<B>);

impl<M: Machine, B: FirstState<M>> Play<Option<M>, View<M::Op, M::Answer>> for Glances<B> {
    ghost use Rattle.turnstile.specs.Dials.{Glanced};

    ghost then = { Glanced M.next M.dial_of B.start };
}

/// Draws the number of a new pass.
pub(crate) struct Draws;

impl<M: Machine> Play<Option<M>, View<M::Op, M::Answer>> for Draws {
    ghost use Rattle.turnstile.specs.Numbers.{Drew};

    ghost then = { Drew };
}

/// How passes are split off and joined back.
pub(crate) struct Parts;

impl<O, A> Split<View<O, A>> for Parts {
    ghost use Rattle.turnstile.specs.View.{at_rest, split_view};

    ghost left = { at_rest };

    ghost right = { split_view };
}

impl<O, A> Join<View<O, A>> for Parts {
    ghost use Rattle.turnstile.specs.View.{joined_with, spent_view};

    ghost both = { joined_with };

    ghost spent = { spent_view };
}
