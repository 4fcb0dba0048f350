//! What is counted of a series.
ghost use Rattle.std.specs.Prelude.{◌≡◌, ◌+◌, ◌+ℤ◌, ◌<◌, ◌^◌, ◌==◌, [], unwrap_or, if◌then◌else◌};
ghost use Rattle.std.specs.Int.{int_max, int_min};
ghost use Rattle.statsd_server.specs.Folding.{with_amount};
ghost use Rattle.statsd_server.specs.Parts.{summary_of};

use crate::change::zero;
use fixed_num::Fixed;

/// What is counted of a series: how many changes there are, how many distinct members they name, and the sum, the least
/// and the greatest of their amounts, which are 0 where there is none.
#[derive(Clone, Copy, Debug)]
pub(crate) struct Summary {
    pub count: u64,
    pub distinct: u64,
    pub sum: Fixed,
    pub least: Fixed,
    pub greatest: Fixed,
}

impl Summary {
    /// That of no change.
    #[tactic(auto, unfolding(agg_stats::specs::Summary::sum_of, agg_keep::specs::Keyed::firsts))]
    pub(crate) fn empty() -> Summary
        ensures { result ≡ summary_of [] }
    {
        Summary {
            count: 0,
            distinct: 0,
            sum: zero(),
            least: zero(),
            greatest: zero(),
        }
    }

    /// What is held, or that of no change.
    pub(crate) fn or_empty(held: Option<Summary>) -> Summary
        ensures { result ≡ unwrap_or held (summary_of []) }
    {
        held.unwrap_or(Summary::empty())
    }

    /// That with a change more of an amount, with which the sum is this one, and perhaps a distinct member more. Fewer
    /// than 2^64 changes are counted.
    #[tactic(auto, unfolding(crate::specs::Folding::with_amount))]
    pub(crate) fn with(&self, amount: Fixed, sum: Fixed, fresh: bool) -> Summary
        requires { sum ≡ self.now.sum +ℤ amount }
        ensures { self.now.count + 1 < 2 ^ 64 → self.now.distinct + 1 < 2 ^ 64
            → result ≡ with_amount self.now amount fresh }
    {
        Summary {
            count: self.count.saturating_add(1),
            distinct: counted(self.distinct, fresh),
            sum,
            least: lower(self.count, self.least, amount),
            greatest: higher(self.count, self.greatest, amount),
        }
    }
}

/// A count, with one more where there is one.
fn counted(count: u64, more: bool) -> u64
    ensures { count + 1 < 2 ^ 64 → result ≡ if more then count + 1 else count }
{
    if more { count.saturating_add(1) } else { count }
}

/// The lower of the least number and another, which is the least where there was none.
fn lower(count: u64, least: Fixed, number: Fixed) -> Fixed
    ensures { result ≡ if count == 0 then number else int_min least number }
{
    if count == 0 || number.billionths() < least.billionths() {
        number
    } else {
        least
    }
}

/// The higher of the greatest number and another, which is the greatest where there was none.
fn higher(count: u64, greatest: Fixed, number: Fixed) -> Fixed
    ensures { result ≡ if count == 0 then number else int_max greatest number }
{
    if count == 0 || greatest.billionths() < number.billionths() {
        number
    } else {
        greatest
    }
}
