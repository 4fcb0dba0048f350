//! Laws of trackers. The bodies of the functions are empty; their contracts are the laws.
ghost use Rattle.track_groups.specs.Calls.{StaysGone};
ghost use Rattle.track_groups.specs.Settling.{NoneGoes, OneGoes, AllTold, StillTracks};

/// A group that is no longer live never is again, whatever calls come: it is reported once.
pub fn law_gone()
    ensures { StaysGone }
{}

/// Where no copy is let go, all is as before; a copy more that is let go is one call of
/// [`Tracker::settle`](crate::Tracker::settle) more.
pub fn law_copies()
    ensures none { NoneGoes }
    ensures one { OneGoes }
{}

/// As copies are let go, each live group is live still or it is told of, and what holds of every tracker holds of what
/// is left.
pub fn law_told()
    ensures told { AllTold }
    ensures tracks { StillTracks }
{}
