//! A vector that contracts see as its list.
ghost use Rattle.std.specs.Prelude.{◌≡◌, ◌≤◌, ◌<◌, [], ◌∷◌, ◌++◌, length, insert, slice_set};
ghost use Rattle.std.specs.List.{remove};
ghost use Rattle.std.specs.Prelude.{IfOk, IfErr, IsTrue, OnErr, OnOk, vec_capacity};
ghost use Rattle.std.specs.Cmp.Lexicographic.{pointwise, lists_per, lists_equiv, slice_cmp};
ghost use Rattle.std.specs.Cmp.Lexicographic.{slice_partial_cmp, lists_agrees, lists_total, lists_ties};
ghost use Rattle.std.specs.Cmp.Lexicographic.{lists_po};
ghost use Rattle.std.specs.Hash as fed;
ghost use Rattle.std.specs.Hash.{items_Alike};
ghost use Rattle.fixed_num.specs.Kept.{kept_items};

use crate::OutOfMemory;
use std::alloc::Global;
use std::cmp::Ordering;
use std::hash::{Hash, Hasher};
use std::marker::Model;
use std::mem;

/// How many elements a list has room for once it has more than one.
const ROOM: usize = 8;

/// How a list is kept.
#[derive(Drop, Debug)]
enum Kept<T: Drop> {
    /// One element, in place.
    One([T; 1]),
    /// Any number of elements, in memory of their own where there are some.
    Many(Vec<T>),
}

/// A vector that contracts see as its list. A list of one element may take no memory but its own.
#[derive(Drop, Debug)]
pub struct Seq<T: Drop> {
    kept: Kept<T>,
}

impl<T: Drop> Model for Seq<T> {
    ghost use Rattle.std.specs.Prelude.{List};
    ghost use Rattle.fixed_num.specs.Kept.{kept_items};

    ghost Value = { List T };

    ghost view = { λ s. kept_items s.kept };
}

impl<T: Drop> Seq<T> {
    /// The list of a vector.
    pub fn of(items: Vec<T>) -> Seq<T>
        ensures { result ≡ items.items }
    {
        Seq {
            kept: Kept::Many(items),
        }
    }

    /// The list of one element. It takes no memory but its own.
    pub fn of_one(item: T) -> Seq<T>
        ensures { result ≡ item ∷ [] }
    {
        Seq {
            kept: Kept::One([item]),
        }
    }

    /// The list without an element, with room for so many before memory is asked for. Room for one takes none.
    pub fn with_room(alloc: Global, room: usize) -> Result<Seq<T>, OutOfMemory>
        ensures { IfOk result (λ s. s ≡ []) }
    {
        if room < 2 {
            return Ok(Seq::of(Vec::new(alloc)));
        }
        Ok(Seq::of(Vec::with_capacity(alloc, room)?))
    }

    /// One more element, at an index. After an error the list is as before.
    #[inline(always)]
    pub fn insert(&mut self, alloc: Global, at: usize, item: T) -> Result<(), OutOfMemory>
        requires { at ≤ length self.old }
        ensures ok { OnOk result (self.new ≡ insert self.old at item) }
        ensures err { OnErr result (self.new ≡ self.old) }
    {
        if let Kept::Many(items) = &mut self.kept {
            if items.capacity() > 0 {
                put_at(items, at, item)?;
                return Ok(());
            }
        }
        if has_none(&self.kept) {
            self.kept = Kept::One([item]);
            return Ok(());
        }
        insert_to_some(&mut self.kept, alloc, at, item)
    }

    /// One more element, behind the others. After an error the list is as before.
    #[inline(always)]
    pub fn push(&mut self, alloc: Global, item: T) -> Result<(), OutOfMemory>
        ensures ok { OnOk result (self.new ≡ self.old ++ item ∷ []) }
        ensures err { OnErr result (self.new ≡ self.old) }
    {
        if let Kept::Many(items) = &mut self.kept {
            if items.capacity() > 0 {
                items.push(item)?;
                return Ok(());
            }
        }
        let end = self.as_slice().len();
        self.insert(alloc, end, item)
    }

    /// Puts an element in the place of another.
    pub fn set(&mut self, at: usize, item: T)
        requires { at < length self.old }
        ensures { self.new ≡ slice_set self.old at item }
    {
        match &mut self.kept {
            Kept::One(one) => one[0] = item,
            Kept::Many(items) => items[at] = item,
        }
    }

    /// Takes an element out; those behind it move up.
    pub fn remove(&mut self, alloc: Global, at: usize)
        requires { at < length self.old }
        ensures { self.new ≡ remove self.old at }
    {
        take_out(&mut self.kept, alloc, at);
    }

    /// The elements, in order. A single one in place takes memory.
    pub fn into_vec(self, alloc: Global) -> Result<Vec<T>, OutOfMemory>
        ensures { IfOk result (λ items. items.items ≡ self) }
    {
        let Seq { mut kept } = self;
        take_all(&mut kept, alloc)
    }

    /// The only element, where it stands in place; else the list as it was.
    pub fn into_one(self) -> Result<T, Seq<T>>
        ensures one { IfOk result (λ item. self ≡ item ∷ []) }
        ensures other { IfErr result (λ list. list ≡ self) }
    {
        let Seq { kept } = self;
        only_one(kept)
    }

    /// The elements, in order.
    pub fn as_slice(&self) -> &[T]
        ensures { result.now ≡ self.now }
    {
        match &self.kept {
            Kept::One(item) => &item[..],
            Kept::Many(items) => items.as_slice(),
        }
    }
}

/// The only element, where it stands in place; else the list as it was.
fn only_one<T: Drop>(kept: Kept<T>) -> Result<T, Seq<T>>
    ensures one { IfOk result (λ item. kept_items kept ≡ item ∷ []) }
    ensures other { IfErr result (λ list. list ≡ kept_items kept) }
{
    match kept {
        Kept::One([item]) => Ok(item),
        Kept::Many(items) => Err(Seq::of(items)),
    }
}

/// Whether a list has no element, and no memory for one.
fn has_none<T: Drop>(kept: &Kept<T>) -> bool
    ensures { IsTrue result → kept_items kept.now ≡ [] }
{
    match kept {
        Kept::One(_) => false,
        Kept::Many(items) => items.is_empty() && items.capacity() == 0,
    }
}

/// Takes the elements out, in memory with room for more. After an error they are as before.
fn take_all<T: Drop>(kept: &mut Kept<T>, alloc: Global) -> Result<Vec<T>, OutOfMemory>
    ensures ok { IfOk result (λ items. items.items ≡ kept_items kept.old) }
    ensures err { OnErr result (kept_items kept.new ≡ kept_items kept.old) }
{
    match mem::replace(kept, Kept::Many(Vec::new(alloc))) {
        Kept::Many(items) => Ok(items),
        Kept::One([first]) => match Vec::with_capacity(alloc, ROOM) {
            Ok(room) => Ok(with_first(room, first)),
            Err(_) => {
                *kept = Kept::One([first]);
                Err(OutOfMemory)
            }
        },
    }
}

/// One more element of a vector, at an index. Most come behind the others.
#[inline(always)]
fn put_at<T: Drop>(items: &mut Vec<T>, at: usize, item: T) -> Result<(), OutOfMemory>
    requires { at ≤ length items.old.items }
    ensures ok { OnOk result (items.new.items ≡ insert items.old.items at item) }
    ensures err { OnErr result (items.new.items ≡ items.old.items) }
{
    if at == items.len() {
        items.push(item)?;
    } else {
        items.insert(at, item)?;
    }
    Ok(())
}

/// Takes an element out.
fn take_out<T: Drop>(kept: &mut Kept<T>, alloc: Global, at: usize)
    requires { at < length (kept_items kept.old) }
    ensures { kept_items kept.new ≡ remove (kept_items kept.old) at }
{
    match mem::replace(kept, Kept::Many(Vec::new(alloc))) {
        Kept::One([_only]) => {}
        Kept::Many(mut items) => {
            items.remove(at);
            *kept = Kept::Many(items);
        }
    }
}

/// One more element, at an index, where the others have to be taken to memory. After an error all is as before.
#[inline(never)]
fn insert_to_some<T: Drop>(
    kept: &mut Kept<T>,
    alloc: Global,
    at: usize,
    item: T,
) -> Result<(), OutOfMemory>
    requires { at ≤ length (kept_items kept.old) }
    ensures ok { OnOk result (kept_items kept.new ≡ insert (kept_items kept.old) at item) }
    ensures err { OnErr result (kept_items kept.new ≡ kept_items kept.old) }
{
    let mut items = take_all(kept, alloc)?;
    let done = items.insert(at, item);
    *kept = Kept::Many(items);
    done?;
    Ok(())
}

/// The vector of one element, in room that was taken before.
fn with_first<T: Drop>(mut room: Vec<T>, first: T) -> Vec<T>
    requires empty { room.items ≡ [] }
    requires fits { 1 ≤ vec_capacity room }
    ensures { result.items ≡ first ∷ [] }
{
    room.push_reserved(first);
    room
}

impl<T: PartialEq + Drop> PartialEq for Seq<T> {
    ghost eq = { pointwise T.eq };

    ghost laws = { lists_per T.laws };

    fn eq(&self, other: &Self) -> bool {
        self.as_slice() == other.as_slice()
    }
}

impl<T: Eq + Drop> Eq for Seq<T> {
    ghost laws = { lists_equiv T.Eq.laws };
}

impl<T: PartialOrd + Drop> PartialOrd for Seq<T> {
    ghost partial_cmp = { slice_partial_cmp T.partial_cmp };

    ghost laws = { lists_po T.PartialOrd.laws };

    fn partial_cmp(&self, other: &Self) -> Option<Ordering> {
        self.as_slice().partial_cmp(other.as_slice())
    }
}

impl<T: Ord + Drop> Ord for Seq<T> {
    ghost cmp = { slice_cmp T.cmp };

    ghost total = { lists_total T.total };

    ghost matches_partial_cmp = { lists_agrees T.matches_partial_cmp };

    ghost matches_eq = { lists_ties T.cmp T.matches_eq };

    fn cmp(&self, other: &Self) -> Ordering {
        self.as_slice().cmp(other.as_slice())
    }
}

impl<T: Hash + Drop> Hash for Seq<T> {
    ghost hash_input = { fed.slice T.hash_input };

    ghost respects_eq = { (items_Alike (record { fed = T.respects_eq })).fed };

    fn hash<H: Hasher>(&self, state: &mut H) {
        self.as_slice().hash(state);
    }
}
