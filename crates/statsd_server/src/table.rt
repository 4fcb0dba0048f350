//! Values by their keys, each key at a place of its own.
ghost use Rattle.std.specs.Prelude.{◌≡◌, ◌<◌, ℕ, [], IfOk, None, Some, length, set, if◌then◌else◌};
ghost use Rattle.std.specs.Bool.{Decides};
ghost use Rattle.statsd_server.specs.Table.{held_by, place_by, value_at};

use fixed_num::OutOfMemory;
use std::alloc::Global;
use std::collections::BTreeMap;
use std::marker::Model;

/// What values are kept by.
pub(crate) trait Key: Ord + Drop + Sized {
    ghost decides: { (a b : Self) → Decides (Self.eq a b) (a ≡ b) };
}

/// Values by their keys. A key is looked for once, and answers its place, which is no other's: there its value is read
/// and put without the key.
#[derive(Drop)]
pub(crate) struct Table<K: Key, V: Drop> {
    places: BTreeMap<K, usize>,
    values: Vec<Option<V>>,
}

impl<K: Key, V: Drop> Model for Table<K, V> {
    ghost use Rattle.statsd_server.specs.Table.{IsTable, Table as PlacesAndValues};

    ghost Value = { PlacesAndValues K V };

    ghost view = { λ t. record { places = t.places.entries; values = t.values.items } };

    ghost invariant = { λ t. IsTable K.cmp (record { places = t.places.entries; values = t.values.items }) };
}

/// Puts a value at a place.
fn put_at<V: Drop>(values: &mut Vec<Option<V>>, at: usize, value: V)
    requires { at < length values.old.items }
    ensures { values.new.items ≡ set values.old.items at (Some value) }
{
    values[at] = Some(value);
}

/// No place has a value any more.
fn empty<V: Drop>(values: &mut Vec<Option<V>>)
    ensures count { length values.new.items ≡ length values.old.items }
    ensures none { (at : ℕ) → value_at values.new.items at ≡ None }
{
    for at in 0..values.len() {
        values[at] = None;
    }
}

impl<K: Key, V: Drop> Table<K, V> {
    /// No key has a place.
    pub(crate) fn new(alloc: Global) -> Table<K, V>
        ensures places { result.places ≡ [] }
        ensures values { result.values ≡ [] }
    {
        Table {
            places: BTreeMap::new(alloc),
            values: Vec::new(alloc),
        }
    }

    /// The place of a key.
    pub(crate) fn place_of(&self, key: &K) -> Option<usize>
        ensures { result ≡ place_by K.cmp self.now key.now }
    {
        match self.places.get(key) {
            Some(at) => Some(*at),
            None => None,
        }
    }

    /// The place of a key, which is given one where it has none. What is held stays.
    pub(crate) fn place(&mut self, key: K) -> Result<usize, OutOfMemory>
        ensures same { (other : K) → held_by K.cmp self.new other ≡ held_by K.cmp self.old other }
        ensures stays { (other : K) (at : ℕ) → place_by K.cmp self.old other ≡ Some at
            → place_by K.cmp self.new other ≡ Some at }
        ensures place { IfOk result (λ at. place_by K.cmp self.new key ≡ Some at) }
    {
        match self.place_of(&key) {
            Some(at) => Ok(at),
            None => self.add(key),
        }
    }

    /// A place behind the others for a key that has none.
    pub(crate) fn add(&mut self, key: K) -> Result<usize, OutOfMemory>
        requires { place_by K.cmp self.old key ≡ None }
        ensures same { (other : K) → held_by K.cmp self.new other ≡ held_by K.cmp self.old other }
        ensures stays { (other : K) (at : ℕ) → place_by K.cmp self.old other ≡ Some at
            → place_by K.cmp self.new other ≡ Some at }
        ensures place { IfOk result (λ at. place_by K.cmp self.new key ≡ Some at) }
    {
        let at = self.values.len();
        self.values.reserve(1)?;
        self.places.insert(key, at)?;
        self.values.push_reserved(None);
        Ok(at)
    }

    /// The value at a place.
    pub(crate) fn at(&self, at: usize) -> Option<V>
    where
        V: Copy,
        ensures { result ≡ value_at self.now.values at }
    {
        match self.values.get(at) {
            Some(value) => *value,
            None => None,
        }
    }

    /// Puts a value at the place of a key, over that which it has.
    pub(crate) fn put(&mut self, at: usize, value: V)
        ensures places { self.new.places ≡ self.old.places }
        ensures held { (key : K) → place_by K.cmp self.old key ≡ Some at → (other : K)
            → held_by K.cmp self.new other ≡ if K.eq key other then Some value else held_by K.cmp self.old other }
    {
        if at < self.values.len() {
            put_at(&mut self.values, at, value);
        }
    }

    /// No key has a value any more. Where there are at most so many places they stay, else none does.
    pub(crate) fn forget(&mut self, most: usize)
        ensures { (other : K) → held_by K.cmp self.new other ≡ None }
    {
        if most < self.values.len() {
            self.places.clear();
            self.values.clear();
        } else {
            empty(&mut self.values);
        }
    }
}
