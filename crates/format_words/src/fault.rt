//! Why a text is no template, or not of the form that is wanted.
/// Why a text is no template.
#[derive(Clone, Copy, Debug, PartialEq, Eq)]
pub enum TemplateFault {
    /// No memory was left.
    OutOfMemory,
    /// The text is none.
    BadTemplate,
}

/// A text isn't of the form that is wanted.
#[derive(Clone, Copy, Debug, PartialEq, Eq)]
pub enum ShapeFault {
    /// It is of another form.
    Malformed,
}
