//! Processors that edit each metric by itself: they rename its parts, and convert its tags and fields.
#![tactic(auto)]

mod convert;
mod number;
mod rename;
mod target;
mod value;

pub use convert::{Convert, ConvertRules};
pub use rename::{Rename, RenameRule, have_dests};
pub use target::Target;
