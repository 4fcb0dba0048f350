//! The closing of a window.
use fixed_num::Moment;

/// A closing: the moment at which a window closes, and whether all series are given, as at a stop.
#[derive(Clone, Copy, Debug)]
pub struct Closing {
    pub moment: Moment,
    pub all: bool,
}
