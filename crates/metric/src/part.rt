//! The parts of a metric that have names of their own.

/// A part of a metric that is looked for by its name.
#[derive(Clone, Copy, Debug, PartialEq, Eq)]
pub enum Part {
    /// The metric's name (the measurement of line protocol).
    Measurement,
    /// A tag, by its key.
    Tag,
    /// A field, by its key.
    Field,
}
