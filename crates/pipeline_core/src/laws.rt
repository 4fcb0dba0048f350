//! Laws of journals. The body of each function is empty; its contract is the law.
ghost use Rattle.pipeline_core.specs.GroupLaws.{GroupTotals, ReportedOnce, SettledStays};
ghost use Rattle.pipeline_core.specs.Laws.{UntrackedHasNoGroups};
ghost use Rattle.pipeline_core.specs.Shapes.{EntriesHaveShape};
ghost use Rattle.pipeline_core.specs.Sums.{FatesAddUp};
ghost use Rattle.pipeline_core.specs.Windows.{NothingAggregates, RemovedHasNoWhole};

/// At each output the numbers of all fates add up to the routed metrics.
pub fn fates_add_up()
    ensures { FatesAddUp }
{}

/// Where no input is tracked a legal journal has no groups, and no group settles in it.
pub fn untracked_has_no_groups()
    ensures { UntrackedHasNoGroups }
{}

/// Without aggregators an item passes unless it was removed, and nothing is made.
pub fn nothing_aggregates()
    ensures { NothingAggregates }
{}

/// An item is removed exactly where the processors left nothing of it.
pub fn removed_has_no_whole()
    ensures { RemovedHasNoWhole }
{}

/// The entry of each call names what was handed in, whatever its group, its verdict, what is made by it and
/// its reports.
pub fn entries_have_shape()
    ensures { EntriesHaveShape }
{}

/// A group that has settled has no copies ever again.
pub fn settled_stays()
    ensures { SettledStays }
{}

/// Each group is reported at most once, not before its Gather, and exactly when it has settled; what is
/// reported of it stays true.
pub fn reported_once()
    ensures { ReportedOnce }
{}

/// The numbers of a journal count the groups of each input: those that are live, and those that are
/// delivered and rejected.
pub fn groups_counted()
    ensures { GroupTotals }
{}
