//! The types of series.
ghost use Rattle.std.specs.Prelude.{◌≡◌};
ghost use Rattle.std.specs.Option.{option_copied};
ghost use Rattle.metric.specs.Pairs.{value_at};
ghost use Rattle.statsd_server.specs.Parts.{kind_named, kind_of, kind_said};

use metric::Text;

/// The type of a series.
#[derive(Clone, Copy, Debug, PartialEq, Eq)]
pub(crate) enum Kind {
    Counter,
    Gauge,
    Timing,
    Set,
}

/// The value of the tag of a key.
fn value_at<'a>(tags: &'a [(Text, Text)], key: &str) -> Option<&'a Text>
    ensures { option_copied result ≡ value_at tags.now key.now }
{
    tags.iter()
        .find(|tag| tag.0.as_str() == key)
        .map(|tag| &tag.1)
}

impl Kind {
    /// The type that a name says.
    fn named(name: &str) -> Kind
        ensures { result ≡ kind_named name.now }
    {
        match name {
            "counter" => Kind::Counter,
            "gauge" => Kind::Gauge,
            "timing" => Kind::Timing,
            _ => Kind::Set,
        }
    }

    /// The same, where there is one.
    fn said(name: Option<&Text>) -> Kind
        ensures { result ≡ kind_said (option_copied name.entry) }
    {
        match name {
            Some(name) => Kind::named(name.as_str()),
            None => Kind::Set,
        }
    }

    /// The type of a series, as the tag says among its tags.
    #[tactic(auto, unfolding(crate::specs::Parts::kind_of))]
    pub(crate) fn of(tags: &[(Text, Text)]) -> Kind
        ensures { result ≡ kind_of tags.now }
    {
        Kind::said(value_at(tags, "metric_type"))
    }
}
