//! Metrics by their keys.
ghost use Rattle.std.specs.Prelude.{◌≡◌, ◌++◌, ◌∷◌, [], ◌<◌, IfOk, OnOk, Some, if◌then◌else◌};
ghost use Rattle.std.specs.Prelude.{is_none, length, vec_capacity};
ghost use Rattle.std.specs.Bool.{Decides};
ghost use Rattle.std.specs.Option.{option_copied};
ghost use Rattle.metric.specs.declared.metric.Content.{Content};
ghost use Rattle.agg_keep.specs.Keyed.{held_by, HasRoom};
ghost use Rattle.agg_keep.specs.Spot.{series_of, series_same};

use fixed_num::OutOfMemory;
use metric::{Metric, Series};
use std::collections::BTreeMap;
use std::marker::Model;

/// What metrics are kept by.
pub(crate) trait Key: Ord + Drop + Sized {
    /// The key of a metric, as contracts see it.
    ghost key_of: { Content → Self };

    /// The key of a metric.
    fn of(m: &Metric) -> Result<Self, OutOfMemory>
        ensures { IfOk result (λ key. key ≡ key_of m.now) };

    ghost decides: { (a b : Self) → Decides (Self.eq a b) (a ≡ b) };
}

impl Key for Series {
    ghost key_of = { series_of };

    ghost decides = { series_same };

    fn of(m: &Metric) -> Result<Series, OutOfMemory> {
        m.series()
    }
}

/// Metrics by their keys. Where there is room for a key alone there is none yet.
pub(crate) type Kept<K> = BTreeMap<K, Option<Metric>>;

/// A metric that is to be kept, and its key twice: one for the map and one for the order.
#[derive(Drop)]
pub(crate) struct Ready<K: Key> {
    key: K,
    place: K,
    metric: Metric,
}

impl<K: Key> Model for Ready<K> {
    ghost use Rattle.std.specs.Prelude.{◌≡◌};
    ghost use Rattle.metric.specs.declared.metric.Content.{Content};

    ghost Value = { Content };

    ghost view = { λ r. r.metric };

    ghost invariant = { λ r. record { key : r.key ≡ K.key_of r.metric; place : r.place ≡ K.key_of r.metric } };
}

impl<K: Key> Ready<K> {
    /// A metric that is to be kept.
    pub(crate) fn of(metric: Metric) -> Result<Ready<K>, OutOfMemory>
        ensures { IfOk result (λ ready. ready ≡ metric) }
    {
        let key = K::of(&metric)?;
        let place = K::of(&metric)?;
        Ok(Ready { key, place, metric })
    }

    /// Its key twice, and the metric.
    fn into_parts(self) -> (K, K, Metric)
        ensures { result ≡ (K.key_of self, K.key_of self, self) }
    {
        let Ready { key, place, metric } = self;
        (key, place, metric)
    }
}

/// The metric that is held of a key.
pub(crate) fn held_of<'a, K: Key>(kept: &'a Kept<K>, key: &K) -> Option<&'a Metric>
    ensures { option_copied result ≡ held_by K.cmp kept.now.entries key.now }
{
    match kept.get(key) {
        Some(Some(m)) => Some(m),
        Some(None) => None,
        None => None,
    }
}

/// Makes room for the key of a metric.
pub(crate) fn make_room<K: Key>(kept: &mut Kept<K>, m: &Metric) -> Result<(), OutOfMemory>
    ensures same { (key : K) → held_by K.cmp kept.new.entries key ≡ held_by K.cmp kept.old.entries key }
    ensures room { OnOk result (HasRoom K.cmp kept.new.entries (K.key_of m.now)) }
{
    let key = K::of(m)?;
    if kept.get(&key).is_some() {
        return Ok(());
    }
    kept.insert(key, None)?;
    Ok(())
}

/// Puts a metric, for which there is room, over the last one of its key; a new key stands behind the others.
pub(crate) fn put<K: Key>(kept: &mut Kept<K>, order: &mut Vec<K>, ready: Ready<K>)
    requires room { HasRoom K.cmp kept.old.entries (K.key_of ready) }
    requires space { length order.old.items < vec_capacity order.old }
    ensures kept { (key : K) → held_by K.cmp kept.new.entries key
        ≡ if K.eq (K.key_of ready) key then Some ready else held_by K.cmp kept.old.entries key }
    ensures order { order.new.items ≡ if is_none (held_by K.cmp kept.old.entries (K.key_of ready))
        then order.old.items ++ K.key_of ready ∷ [] else order.old.items }
{
    let (key, place, metric) = ready.into_parts();
    let is_new = held_of(kept, &key).is_none();
    push_new(order, is_new, place);
    // Only a new key can want memory.
    let _ = kept.insert(key, Some(metric));
}

/// Puts a key behind the others, where it is new.
fn push_new<K: Key>(order: &mut Vec<K>, is_new: bool, place: K)
    requires { length order.old.items < vec_capacity order.old }
    ensures { order.new.items ≡ if is_new then order.old.items ++ place ∷ [] else order.old.items }
{
    if is_new {
        // There is room for it.
        let _ = order.push(place);
    }
}
