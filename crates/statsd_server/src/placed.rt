//! Parts with their places.
use crate::marked::Marked;
use crate::part::Part;

/// A part with the places of what is kept of it: of what is counted of its series, of its series' level where it is a
/// gauge's, and of the member that it names.
#[derive(Drop)]
pub(crate) struct Placed {
    pub part: Part,
    pub sum: usize,
    pub level: usize,
    pub member: Option<usize>,
}

/// A series of which a part counts in the group, and the place of what is counted of it.
#[derive(Drop)]
pub(crate) struct First {
    pub series: Marked,
    pub sum: usize,
}
