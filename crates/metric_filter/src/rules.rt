//! The rules of a filter, and what they test.
ghost use Rattle.std.specs.Prelude.{◌≡◌};
ghost use Rattle.metric_filter.specs.Filter.{keeps, passes, some_matches, some_tag, tags_pass};
ghost use Rattle.metric_filter.specs.Filter.{value_matches};
ghost use Rattle.metric.specs.Pairs.{value_at};

use fixed_num::Seq;
use metric::{Glob, Metric, Text};

/// The rules of a filter. An empty list tests nothing.
#[derive(Debug, Drop)]
pub struct FilterRules {
    /// Only metrics pass whose name one of these matches.
    pub namepass: Seq<Glob>,
    /// No metric passes whose name one of these matches.
    pub namedrop: Seq<Glob>,
    /// Only fields are left whose key one of these matches.
    pub fieldinclude: Seq<Glob>,
    /// No field is left whose key one of these matches.
    pub fieldexclude: Seq<Glob>,
    /// Only tags are left whose key one of these matches.
    pub taginclude: Seq<Glob>,
    /// No tag is left whose key one of these matches.
    pub tagexclude: Seq<Glob>,
    /// Only metrics pass that have a tag of one of these keys with a value that one of its globs matches.
    pub tagpass: Seq<(Text, Seq<Glob>)>,
    /// No metric passes that has a tag of one of these keys with a value that one of its globs matches.
    pub tagdrop: Seq<(Text, Seq<Glob>)>,
}

/// Does some glob match the text?
pub(crate) fn some_matches(globs: &[Glob], text: &str) -> bool
    ensures { result ≡ some_matches globs.now text.now }
{
    globs.iter().any(|glob| glob.matches(text))
}

/// Does some glob match the text, or is there none?
pub(crate) fn passes(globs: &[Glob], text: &str) -> bool
    ensures { result ≡ passes globs.now text.now }
{
    globs.is_empty() || some_matches(globs, text)
}

/// Is a key included, and not excluded?
pub(crate) fn keeps(include: &[Glob], exclude: &[Glob], key: &str) -> bool
    ensures { result ≡ keeps include.now exclude.now key.now }
{
    passes(include, key) && !some_matches(exclude, key)
}

/// Is some listed key a tag of the metric whose value one of its globs matches?
pub(crate) fn some_tag(listed: &[(Text, Seq<Glob>)], m: &Metric) -> bool
    ensures { result ≡ some_tag listed.now m.now.tags }
{
    listed.iter().any(|rule| value_matches(rule.1.as_slice(), m, rule.0.as_str()))
}

/// Is some listed key such a tag, or is none listed?
pub(crate) fn tags_pass(listed: &[(Text, Seq<Glob>)], m: &Metric) -> bool
    ensures { result ≡ tags_pass listed.now m.now.tags }
{
    listed.is_empty() || some_tag(listed, m)
}

/// Does some glob match the value of the tag of a key?
fn value_matches(globs: &[Glob], m: &Metric, key: &str) -> bool
    ensures { result ≡ value_matches globs.now (value_at m.now.tags key.now) }
{
    match m.tag(key) {
        Some(value) => some_matches(globs, value.as_str()),
        None => false,
    }
}
