//! Reports that stand by rising number of their groups.
ghost use Rattle.std.specs.Prelude.{◌≡◌, ℕ, ◌+◌, ◌<◌, ◌≤◌, length};
ghost use Rattle.std.specs.Vec.{vec_len, vec_capacity};
ghost use Rattle.track_groups.specs.Settling.{RiseTold, IsPlaceOf, PutsTold};

use account::Report;

/// Where a group's report would stand among these.
fn place_among(reports: &[Report], number: u64) -> usize
    ensures within { result ≤ length reports.now }
    ensures place { RiseTold reports.now → IsPlaceOf number reports.now result }
{
    reports.partition_point(|report| report.group < number)
}

/// Puts what a call tells, if it tells anything, among these reports, for which there is room.
pub(crate) fn put_told(reports: &mut Vec<Report>, told: Option<Report>)
    requires { vec_len reports.old < vec_capacity reports.old }
    ensures put { PutsTold told reports.old.items reports.new.items }
    ensures few { vec_len reports.new ≤ vec_len reports.old + 1 }
    ensures kept { vec_capacity reports.new ≡ vec_capacity reports.old }
{
    let Some(report) = told else {
        return;
    };
    let at = place_among(reports, report.group);
    if reports.insert(at, report).is_err() {
        unreachable!();
    }
}
