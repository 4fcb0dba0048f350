//! A member of a set.
ghost use Rattle.std.specs.Prelude.{◌≡◌, IfOk};
ghost use Rattle.statsd_server.specs.Member.{member_named, member_same};

use crate::change::Change;
use crate::marked::Marked;
use crate::part::Part;
use crate::table::Key;
use fixed_num::OutOfMemory;
use metric::Text;

/// A member of a set, with the set's series: ordered by text, and those of one text by series.
#[derive(Debug, Drop, PartialEq, Eq, PartialOrd, Ord)]
pub(crate) struct Member {
    text: Text,
    series: Marked,
}

impl Member {
    /// The member that a part names.
    pub(crate) fn named(part: &Part) -> Result<Option<Member>, OutOfMemory>
        ensures { IfOk result (λ member. member ≡ member_named part.now.series part.now.change) }
    {
        match &part.change {
            Change::Names(text) => Ok(Some(Member {
                text: text.copy()?,
                series: part.series.copy()?,
            })),
            Change::Adds(_) | Change::Sets(_) | Change::Moves(_) | Change::Took(_) => Ok(None),
        }
    }
}

impl Key for Member {
    ghost decides = { member_same };
}
