//! Metrics: a name, tags, fields and a time.
#![tactic(auto)]

mod builder;
mod change;
mod draft;
mod glob;
mod glob_scan;
mod glob_text;
mod in_place;
mod laws;
mod metric;
mod missing;
mod part;
mod plain;
mod series;
mod text;
mod value;
mod words;

pub use builder::{BuildFault, Builder, insert_tag};
pub use draft::{Draft, DraftFault};
pub use glob::{Element, Glob, GlobFault, tests_matches};
pub use laws::{first_order, growth, key_order};
pub use metric::{Content, Metric};
pub use missing::{are_filled, tag_copies};
pub use part::Part;
pub use plain::is_plain;
pub use series::Series;
pub use text::Text;
pub use value::Value;
