//! What a configuration says of formats: which are read and written, and Graphite's templates, of segments between dots and
//! pairs of a key and a value.
#![tactic(auto)]

mod fault;
mod format;
mod laws;
mod segments;
mod template;
mod template_text;

pub use fault::{ShapeFault, TemplateFault};
pub use format::{InFormat, OutFormat};
pub use laws::templates_are_spelled;
pub use segments::{pairs_of, segments_of};
pub use template::{Template, TemplatePart};
