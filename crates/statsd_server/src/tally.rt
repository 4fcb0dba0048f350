//! What is kept of the parts that count.
ghost use Rattle.std.specs.Prelude.{◌≡◌, ◌<◌, ◌≤◌, ◌+◌, ◌^◌, ◌||◌, ◌∷◌, ◌++◌, [], ℕ, List, length, map, pos, Option};
ghost use Rattle.std.specs.Prelude.{Some, IfOk, OnOk, unwrap_or, vec_capacity, if◌then◌else◌};
ghost use Rattle.std.specs.List.{fold, AllByRecursion};
ghost use Rattle.metric.specs.declared.metric.Content.{Content};
ghost use Rattle.metric.specs.Series.{series_eq, Series as SeriesSeen};
ghost use Rattle.statsd_server.specs.Marked.{marked_cmp};
ghost use Rattle.statsd_server.specs.Counting.{with_part};
ghost use Rattle.statsd_server.specs.Kept.{is_it, is_named, is_new, level_for, level_held, part_of, said_by, HasStayed};
ghost use Rattle.statsd_server.specs.Kept.{IsPlaced, Keeps, LevelPlace, MemberPlace};
ghost use Rattle.statsd_server.specs.declared.placed.Placed.{Placed as PlacedSeen};
ghost use Rattle.statsd_server.specs.Member.{member_cmp};
ghost use Rattle.statsd_server.specs.Parts.{level_with};
ghost use Rattle.statsd_server.specs.Table.{held_by, place_by};
ghost use Rattle.statsd_server.specs.TallyView.{memory_of};

use crate::change::{Change, zero};
use crate::marked::Marked;
use crate::member::Member;
use crate::part::Part;
use crate::placed::{First, Placed};
use crate::summary::Summary;
use crate::table::Table;
use fixed_num::{Fixed, OutOfMemory};
use std::alloc::Global;

/// The places of so many series stay from one group to the next, beside twice as many as the group had.
const MORE_PLACES: usize = 1_000;

/// What is kept of the parts that count: of each series what is counted of it in the group in hand, the level of each
/// gauge since the start, the members that were named in the group, the series in it in the order of their first parts,
/// how many parts count in it, and how many lines and parts were left out.
#[derive(Drop)]
pub(crate) struct Tally {
    pub sums: Table<Marked, Summary>,
    pub levels: Table<Marked, Fixed>,
    pub members: Table<Member, ()>,
    pub order: Vec<First>,
    pub counted: u64,
    pub refused: u64,
}

/// A level, or 0 where none is held.
pub(crate) fn level_or_zero(level: Option<Fixed>) -> Fixed
    ensures { result ≡ unwrap_or level (pos 0) }
{
    level.unwrap_or(zero())
}

/// The place of a series, which is given one where it has none. What is held stays.
fn place_series<V: Drop>(
    table: &mut Table<Marked, V>,
    series: &Marked,
) -> Result<usize, OutOfMemory>
    ensures same { (other : SeriesSeen) → held_by marked_cmp table.new other ≡ held_by marked_cmp table.old other }
    ensures stays { (other : SeriesSeen) (at : ℕ) → place_by marked_cmp table.old other ≡ Some at
        → place_by marked_cmp table.new other ≡ Some at }
    ensures place { IfOk result (λ at. place_by marked_cmp table.new series.now ≡ Some at) }
{
    match table.place_of(series) {
        Some(at) => Ok(at),
        None => table.add(series.copy()?),
    }
}

/// The place of the level of a part's series, where the part has one.
fn place_level(levels: &mut Table<Marked, Fixed>, part: &Part) -> Result<usize, OutOfMemory>
    ensures same { (other : SeriesSeen) → level_held levels.new other ≡ level_held levels.old other }
    ensures stays { (other : SeriesSeen) (at : ℕ) → place_by marked_cmp levels.old other ≡ Some at
        → place_by marked_cmp levels.new other ≡ Some at }
    ensures place { IfOk result (LevelPlace levels.new part.now.series part.now.change) }
{
    match &part.change {
        Change::Sets(_) | Change::Moves(_) => place_series(levels, &part.series),
        Change::Adds(_) | Change::Took(_) | Change::Names(_) => Ok(0),
    }
}

/// The level that a change moves.
fn level_for(levels: &Table<Marked, Fixed>, change: &Change, at: usize) -> Fixed
    ensures { (series : SeriesSeen) → LevelPlace levels.now series change.now at
        → result ≡ level_for levels.now series change.now }
{
    match change {
        Change::Moves(_) => level_or_zero(levels.at(at)),
        Change::Adds(_) | Change::Sets(_) | Change::Took(_) | Change::Names(_) => zero(),
    }
}

/// Puts the level behind a change, where that is one of a gauge.
fn put_level(levels: &mut Table<Marked, Fixed>, change: &Change, at: usize, level: Fixed)
    ensures held { (series : SeriesSeen) → LevelPlace levels.old series change.now at
        → level ≡ level_with (level_for levels.old series change.now) change.now
        → (other : SeriesSeen) → level_held levels.new other
        ≡ if series_eq series other then level_with (level_held levels.old series) change.now
        else level_held levels.old other }
    ensures places { levels.new.places ≡ levels.old.places }
{
    match change {
        Change::Sets(_) | Change::Moves(_) => levels.put(at, level),
        Change::Adds(_) | Change::Took(_) | Change::Names(_) => {}
    }
}

/// The place of a member, where there is one.
fn place_member(
    members: &mut Table<Member, ()>,
    member: Option<Member>,
) -> Result<Option<usize>, OutOfMemory>
    ensures same { (other : Member) → is_named members.new other ≡ is_named members.old other }
    ensures stays { (other : Member) (at : ℕ) → place_by member_cmp members.old other ≡ Some at
        → place_by member_cmp members.new other ≡ Some at }
    ensures place { IfOk result (MemberPlace members.new member) }
{
    match member {
        Some(member) => Ok(Some(members.place(member)?)),
        None => Ok(None),
    }
}

/// Whether the member at a place, where there is one, isn't named yet.
fn is_new(members: &Table<Member, ()>, at: Option<usize>) -> bool
    ensures { (member : Option Member) → MemberPlace members.now member at → result ≡ is_new members.now member }
{
    match at {
        Some(at) => members.at(at).is_none(),
        None => false,
    }
}

/// Names the member at a place, where there is one.
fn put_member(members: &mut Table<Member, ()>, at: Option<usize>)
    ensures named { (member : Option Member) → MemberPlace members.old member at → (other : Member)
        → is_named members.new other ≡ (is_it member other || is_named members.old other) }
    ensures places { members.new.places ≡ members.old.places }
{
    match at {
        Some(at) => members.put(at, ()),
        None => {}
    }
}

/// Puts a series behind the others, where a part of it is the first one.
fn put_first(order: &mut Vec<First>, is_first: bool, first: First)
    requires { length order.old.items < vec_capacity order.old }
    ensures items { order.new.items ≡ if is_first then order.old.items ++ first ∷ [] else order.old.items }
    ensures room { vec_capacity order.new ≡ vec_capacity order.old }
{
    if is_first {
        order.push_reserved(first);
    }
}

impl Tally {
    /// Nothing is kept.
    pub(crate) fn new(alloc: Global) -> Tally
        ensures keeps { Keeps [] [] (memory_of result) }
        ensures counted { result.counted ≡ 0 }
        ensures refused { result.refused ≡ 0 }
    {
        Tally {
            sums: Table::new(alloc),
            levels: Table::new(alloc),
            members: Table::new(alloc),
            order: Vec::new(alloc),
            counted: 0,
            refused: 0,
        }
    }

    /// A part with its places. What is kept stays.
    fn place(&mut self, part: Part) -> Result<Placed, OutOfMemory>
        ensures stays { HasStayed (memory_of self.old) (memory_of self.new) }
        ensures part { IfOk result (λ placed. placed.part ≡ part) }
        ensures placed { IfOk result (IsPlaced (memory_of self.new)) }
    {
        let member = Member::named(&part)?;
        let sum = place_series(&mut self.sums, &part.series)?;
        let level = place_level(&mut self.levels, &part)?;
        let member = place_member(&mut self.members, member)?;
        Ok(Placed {
            part,
            sum,
            level,
            member,
        })
    }

    /// Parts with their places, and room for all of them. What is kept stays.
    pub(crate) fn place_all(
        &mut self,
        alloc: Global,
        parts: Vec<Part>,
    ) -> Result<Vec<Placed>, OutOfMemory>
        ensures stays { HasStayed (memory_of self.old) (memory_of self.new) }
        ensures parts { IfOk result (λ all. map part_of all.items ≡ parts.items) }
        ensures placed { IfOk result (λ all. AllByRecursion (IsPlaced (memory_of self.new)) all.items) }
        ensures space { OnOk result (length self.new.order.items + length parts.items ≤ vec_capacity self.new.order) }
    {
        self.order.reserve(parts.len())?;
        let mut all = Vec::with_capacity(alloc, parts.len())?;
        for part in parts {
            all.push(self.place(part)?)?;
        }
        Ok(all)
    }

    /// A part more, where it counts; else it is left out.
    fn add(&mut self, placed: Placed)
        requires placed { IsPlaced (memory_of self.old) placed }
        requires space { length self.old.order.items < vec_capacity self.old.order }
        requires few { self.old.counted + self.old.refused + 1 < 2 ^ 64 }
        ensures keeps { (past now : List Content) (part : Content) → said_by part ≡ placed.part
            → Keeps past now (memory_of self.old) → Keeps past (with_part past now part) (memory_of self.new) }
        ensures stays { (other : PlacedSeen) → IsPlaced (memory_of self.old) other → IsPlaced (memory_of self.new) other }
        ensures space { length self.new.order.items ≤ length self.old.order.items + 1 }
        ensures order { vec_capacity self.new.order ≡ vec_capacity self.old.order }
        ensures all { self.new.counted + self.new.refused ≡ self.old.counted + self.old.refused + 1 }
    {
        let Placed {
            part,
            sum,
            level,
            member,
        } = placed;
        let Part { series, change } = part;
        let summary = Summary::or_empty(self.sums.at(sum));
        let before = level_for(&self.levels, &change, level);
        match change.behind(summary.sum, before) {
            Some(totals) => {
                let fresh = is_new(&self.members, member);
                self.sums
                    .put(sum, summary.with(change.amount(), totals.sum, fresh));
                put_level(&mut self.levels, &change, level, totals.level);
                put_member(&mut self.members, member);
                put_first(&mut self.order, summary.count == 0, First { series, sum });
                self.counted += 1;
            }
            None => self.refused += 1,
        }
    }

    /// Parts more, in order: each counts, or is left out.
    fn add_all(&mut self, all: Vec<Placed>)
        requires placed { AllByRecursion (IsPlaced (memory_of self.old)) all.items }
        requires space { length self.old.order.items + length all.items ≤ vec_capacity self.old.order }
        requires few { self.old.counted + self.old.refused + length all.items < 2 ^ 64 }
        ensures keeps { (past now parts : List Content) → map said_by parts ≡ map part_of all.items
            → Keeps past now (memory_of self.old)
            → Keeps past (fold (with_part past) now parts) (memory_of self.new) }
        ensures all { self.new.counted + self.new.refused ≡ self.old.counted + self.old.refused + length all.items }
    {
        for placed in all {
            self.add(placed);
        }
    }

    /// What was read of a packet: so many lines more are refused, and parts more count, or are left out.
    pub(crate) fn add_reading(&mut self, all: Vec<Placed>, refused: u64)
        requires placed { AllByRecursion (IsPlaced (memory_of self.old)) all.items }
        requires space { length self.old.order.items + length all.items ≤ vec_capacity self.old.order }
        requires few { self.old.counted + self.old.refused + refused + length all.items < 2 ^ 64 }
        ensures keeps { (past now parts : List Content) → map said_by parts ≡ map part_of all.items
            → Keeps past now (memory_of self.old)
            → Keeps past (fold (with_part past) now parts) (memory_of self.new) }
        ensures all { self.new.counted + self.new.refused
            ≡ self.old.counted + self.old.refused + refused + length all.items }
    {
        self.refused += refused;
        self.add_all(all);
    }

    /// A new group begins. It takes no memory.
    pub(crate) fn clear(&mut self)
        ensures keeps { (past now : List Content) → Keeps past now (memory_of self.old)
            → Keeps (past ++ now) [] (memory_of self.new) }
        ensures counted { self.new.counted ≡ 0 }
        ensures refused { self.new.refused ≡ 0 }
    {
        let series = self.order.len();
        self.sums
            .forget(series.saturating_mul(2).saturating_add(MORE_PLACES));
        self.members.forget(0);
        self.order.clear();
        self.counted = 0;
        self.refused = 0;
    }
}
