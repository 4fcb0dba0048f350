//! The window that is open.
ghost use Rattle.std.specs.Prelude.{◌≡◌, ◌+ℤ◌, ◌-ℤ◌, ◌≤ℤ◌, ◌<ℤ◌, neg_ℤ, pos};
ghost use Rattle.std.specs.Int.{int_min};
ghost use Rattle.account.specs.AggLines.{IsLine};
ghost use Rattle.agg_bank.specs.Open.{begin_after, begin_at, is_open_to, IsBegin};
ghost use Rattle.agg_bank.specs.Windows.{last_moment};

use account::AggLine;
use agg_keep::Closing;
use fixed_num::Moment;

/// Where the window of a line begins in which a moment is: at the last multiple of the period that isn't behind it.
fn begin_at(line: AggLine, moment: i128) -> i128
    requires line { IsLine line }
    requires low { neg_ℤ (pos 36893488147419103232) ≤ℤ moment }
    requires high { moment ≤ℤ pos 36893488147419103232 }
    ensures value { result ≡ begin_at line moment }
    ensures before { result ≤ℤ moment }
    ensures within { moment <ℤ (result +ℤ line.period) }
{
    moment - moment.rem_euclid(line.period as i128)
}

/// Where the window of a line begins in which a start is.
pub(crate) fn begin_at_start(line: AggLine, start: Moment) -> i128
    requires { IsLine line }
    ensures value { result ≡ begin_at line start }
    ensures fits { IsBegin line result }
{
    begin_at(line, start as i128)
}

/// Where the window of a line begins behind a tick, or behind the stop, which began here before.
pub(crate) fn begin_after(line: AggLine, begin: i128, closing: Closing) -> i128
    requires line { IsLine line }
    requires begin { IsBegin line begin }
    ensures value { result ≡ begin_after line begin closing.moment closing.all }
    ensures fits { IsBegin line result }
{
    if closing.all {
        return begin;
    }
    begin.max(begin_at_tick(line, closing.moment))
}

/// Where the window of a line begins in which a moment less the delay is.
pub(crate) fn begin_at_tick(line: AggLine, moment: Moment) -> i128
    requires { IsLine line }
    ensures value { result ≡ begin_at line (moment -ℤ line.delay) }
    ensures fits { result ≤ℤ last_moment }
{
    begin_at(line, moment as i128 - line.delay as i128)
}

/// Is a time taken while the window of a line is open that begins here?
pub(crate) fn is_open_to(line: AggLine, begin: i128, time: Moment) -> bool
    requires line { IsLine line }
    requires begin { IsBegin line begin }
    ensures { result ≡ is_open_to line begin time }
{
    let first = begin - line.grace as i128;
    let last = begin + line.period as i128 + line.delay as i128;
    let time = time as i128;
    first <= time && time < last
}

/// The time of what is made of the members of the window of a line that begins here: its end, at most the greatest
/// moment.
pub(crate) fn end_time(line: AggLine, begin: i128) -> Moment
    requires line { IsLine line }
    requires begin { IsBegin line begin }
    ensures { result ≡ int_min (begin +ℤ line.period) last_moment }
{
    let end = begin + line.period as i128;
    if (i64::MAX as i128) < end {
        return i64::MAX;
    }
    end as i64
}
