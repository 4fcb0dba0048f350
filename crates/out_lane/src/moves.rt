//! Moves of items between lists that have the room.
ghost use Rattle.std.specs.Prelude.{◌≡◌, ℕ, ◌+◌, ◌-◌, ◌≤◌, [], ◌∷◌, ◌++◌, length, take, drop, vec_len};
ghost use Rattle.std.specs.Prelude.{vec_capacity};
ghost use Rattle.circular_buffer.specs.Buffer.{buffer};
ghost use Rattle.out_lane.specs.Lane.{newest, older};

use circular_buffer::HeapCircularBuffer;

/// Moves all items of `from` to the end of `to`, which has the room.
pub(crate) fn append_within<T: Drop>(to: &mut Vec<T>, from: &mut Vec<T>)
    requires { vec_len to.old + vec_len from.old ≤ vec_capacity to.old }
    ensures to { to.new.items ≡ to.old.items ++ from.old.items }
    ensures from { from.new.items ≡ [] }
    ensures room { vec_capacity from.new ≡ vec_capacity from.old }
{
    match to.append(from) {
        Ok(()) => {}
        Err(_) => unreachable!(),
    }
}

/// Moves the first items of `queue` to the empty `flight`, `most` of them at most.
pub(crate) fn move_oldest<T: Drop>(
    queue: &mut HeapCircularBuffer<T>,
    flight: &mut Vec<T>,
    most: usize,
)
    requires empty { flight.old.items ≡ [] }
    requires room { most ≤ vec_capacity flight.old }
    ensures flight { flight.new.items ≡ take most queue.old.items }
    ensures queue { queue.new ≡ buffer (drop most queue.old.items) queue.old.capacity }
    ensures room { vec_capacity flight.old ≤ vec_capacity flight.new }
{
    while flight.len() < most {
        let Some(item) = queue.pop_front() else {
            break;
        };
        push_within(flight, item);
    }
}

/// Appends an item to a list with room.
fn push_within<T: Drop>(list: &mut Vec<T>, item: T)
    requires { vec_len list.old + 1 ≤ vec_capacity list.old }
    ensures items { list.new.items ≡ list.old.items ++ item ∷ [] }
    ensures room { vec_capacity list.old ≤ vec_capacity list.new }
{
    match list.push(item) {
        Ok(()) => {}
        Err(_) => unreachable!(),
    }
}

/// Moves the last items of `flight` before those of `queue`, as many as it has room for.
pub(crate) fn move_back<T: Drop>(flight: &mut Vec<T>, queue: &mut HeapCircularBuffer<T>)
    ensures queue { let kept = newest queue.old.capacity (flight.old.items ++ queue.old.items) in
        queue.new ≡ buffer kept queue.old.capacity }
    ensures flight { flight.new.items ≡ older queue.old.capacity (flight.old.items ++ queue.old.items) }
    ensures room { vec_capacity flight.new ≡ vec_capacity flight.old }
{
    while queue.len() < queue.capacity() {
        let Some(item) = flight.pop() else {
            break;
        };
        queue.push_front(item);
    }
}
