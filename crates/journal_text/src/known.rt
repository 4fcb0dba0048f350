//! What is known of Routes before they are written.
ghost use Rattle.std.specs.Prelude.{◌≡◌};
ghost use Rattle.journal_text.specs.Known.{nothing_known};

/// What is known of a Route before it is written, so that it isn't looked for: where it is so the text is the same as
/// without it (`known_stays`).
#[derive(Clone, Copy, Debug, PartialEq, Eq)]
pub struct Known {
    /// Its whole, if it has one, equals its item.
    pub whole: bool,
    /// Each view at an aggregator equals the whole.
    pub aggs: bool,
    /// Each view at an output equals the whole.
    pub outs: bool,
}

impl Known {
    /// Nothing is known.
    pub fn nothing() -> Known
        ensures { result ≡ nothing_known }
    {
        Known {
            whole: false,
            aggs: false,
            outs: false,
        }
    }
}
