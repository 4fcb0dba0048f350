//! Laws of lanes: what each call does to what waits, to the batch in flight and to the fate of each item.
//! The body of each function is empty; its contract is the law.
ghost use Rattle.out_lane.specs.LaneCalls.{CallsMeet};
ghost use Rattle.out_lane.specs.LaneCounts.{BecomesCounts};
ghost use Rattle.out_lane.specs.LaneLaws.{NewIsLane, PushMeets, BeginMeets, AcceptMeets, FailMeets};
ghost use Rattle.out_lane.specs.LaneLaws.{KeepsBuffered, WritesInOrder, FatesLast};

/// A new lane is the lane of no events.
pub fn law_new<T>()
    ensures { NewIsLane T }
{}

/// A push adds its event; what it hands back becomes Dropped.
pub fn law_push<T>()
    ensures { PushMeets T }
{}

/// A batch that is begun is of the next range; without one there is no next range, or one is open.
pub fn law_begin<T>()
    ensures { BeginMeets T }
{}

/// An accepted batch becomes Written.
pub fn law_accept<T>()
    ensures { AcceptMeets T }
{}

/// What a failed batch hands back becomes Dropped.
pub fn law_fail<T>()
    ensures { FailMeets T }
{}

/// What waits or is in flight is exactly what is Buffered.
pub fn positions_buffered<T>()
    ensures { KeepsBuffered T }
{}

/// No item that is newer than a Buffered one is Written.
pub fn law_order()
    ensures { WritesInOrder }
{}

/// Written and Dropped never change.
pub fn law_fates()
    ensures { FatesLast }
{}

/// After each list of calls, what waits and what is in flight is what their events say.
pub fn law_calls<T>()
    ensures { CallsMeet T }
{}

/// As many items as change their fate are no longer Buffered, and have the new fate.
pub fn law_counts<T>()
    ensures { BecomesCounts T }
{}
