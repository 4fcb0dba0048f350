//! A processor that rewrites tags and text fields by patterns.
#![tactic(auto)]

mod rewrite;

pub use rewrite::{PatternFault, Rewrite, is_pattern};
