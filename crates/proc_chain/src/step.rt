//! What a configuration says of its processors.

use fixed_num::Seq;
use metric_filter::Filter;
use proc_edit::{Convert, Rename};
use proc_regex::Rewrite;

/// A processor of a configuration.
#[derive(Debug, Drop)]
pub struct Step {
    /// Which metrics it works on, and what of them it leaves. One that isn't selected passes as it is.
    pub filter: Filter,
    /// What is done with them.
    pub work: StepWork,
}

/// What a processor does with a metric.
#[derive(Debug, Drop)]
pub enum StepWork {
    /// Its name and keys are replaced.
    Rename(Rename),
    /// Its tags and fields are converted.
    Convert(Convert),
    /// It is removed where it repeats another of its series that came less than so many nanoseconds before it.
    Dedup(i64),
    /// Its tags and text fields are rewritten, by one rule after the other.
    Regex(Seq<Rewrite>),
}
