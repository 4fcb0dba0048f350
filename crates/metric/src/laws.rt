//! What the lists of keys with values mean.
ghost use Rattle.std.specs.Prelude.{◌≡◌, ◌≤◌, ℕ, List, length, nat_eq};
ghost use Rattle.std.specs.List.{IsDistinct};
ghost use Rattle.std.specs.Cmp.Lexicographic.{pointwise};
ghost use Rattle.std.specs.Map.{keys_of};
ghost use Rattle.metric.specs.declared.value.Value.{Value};
ghost use Rattle.metric.specs.Pairs.{first_of_each, in_first_order, in_key_order, value_at, last_value};
ghost use Rattle.metric.specs.Pairs.{with_pair, with_sorted, IsInKeyOrder};

/// Tags put in key order have rising keys, and each key has the value that it was given last.
pub fn key_order()
    ensures sorted { (given : List (List ℕ × List ℕ)) → IsInKeyOrder (in_key_order given) }
    ensures last { (given : List (List ℕ × List ℕ)) (key : List ℕ)
        → value_at (in_key_order given) key ≡ last_value given key }
{}

/// Fields put in the order in which they came first have each key once, where it was given first, and each
/// key has the value that it was given last.
pub fn first_order()
    ensures keys { (given : List (List ℕ × Value))
        → keys_of (in_first_order given) ≡ first_of_each (keys_of given) }
    ensures distinct { (given : List (List ℕ × Value))
        → IsDistinct (pointwise nat_eq) (keys_of (in_first_order given)) }
    ensures last { (given : List (List ℕ × Value)) (key : List ℕ)
        → value_at (in_first_order given) key ≡ last_value given key }
{}

/// One more tag or field never makes them fewer.
pub fn growth()
    ensures tags { (tags : List (List ℕ × List ℕ)) (key value : List ℕ)
        → length tags ≤ length (with_sorted tags key value) }
    ensures fields { (fields : List (List ℕ × Value)) (key : List ℕ) (value : Value)
        → length fields ≤ length (with_pair fields key value) }
{}
