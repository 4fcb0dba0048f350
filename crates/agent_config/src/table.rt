//! The table of the kinds of plugins, and of the keys of each table.
ghost use Rattle.std.specs.Prelude.{◌≡◌, option_map};
ghost use Rattle.agent_config.specs.Kinds.{keys_of, kind_key, kind_of, place_key, row_of};

use crate::agent_keys::agent_key;
use crate::aggregator_keys::{aggregator_key, basicstats_key, final_key};
use crate::fault::Class;
use crate::file_input::file_input_key;
use crate::file_output::file_output_key;
use crate::processor_keys::{converter_key, dedup_key, regex_key, rename_key};
use crate::shapes::Shape;
use crate::statsd_input::statsd_input_key;

/// The kinds of plugins.
#[derive(Clone, Copy)]
pub(crate) enum Kind {
    /// An input that reads a file.
    FileInput,
    /// An input that is a StatsD server.
    StatsdInput,
    /// An output that writes a file.
    FileOutput,
    /// A processor that converts tags and fields.
    Converter,
    /// A processor that removes what is repeated.
    Dedup,
    /// A processor that rewrites texts by patterns.
    Regex,
    /// A processor that renames.
    Rename,
    /// An aggregator of statistics.
    BasicStats,
    /// An aggregator that gives last metrics.
    Final,
    /// An aggregator that merges.
    Merge,
    /// An aggregator of least and greatest values.
    MinMax,
}

/// The kind of a class that has a name; None where there is none.
#[tactic(auto, unfolding(crate::specs::Kinds::kind_of))]
pub(crate) fn kind_of(class: &Class, name: &str) -> Option<Kind>
    ensures { result ≡ kind_of class.now name.now }
{
    match (class, name) {
        (Class::Inputs, "file") => Some(Kind::FileInput),
        (Class::Inputs, "statsd") => Some(Kind::StatsdInput),
        (Class::Outputs, "file") => Some(Kind::FileOutput),
        (Class::Processors, "converter") => Some(Kind::Converter),
        (Class::Processors, "dedup") => Some(Kind::Dedup),
        (Class::Processors, "regex") => Some(Kind::Regex),
        (Class::Processors, "rename") => Some(Kind::Rename),
        (Class::Aggregators, "basicstats") => Some(Kind::BasicStats),
        (Class::Aggregators, "final") => Some(Kind::Final),
        (Class::Aggregators, "merge") => Some(Kind::Merge),
        (Class::Aggregators, "minmax") => Some(Kind::MinMax),
        _ => None,
    }
}

impl Kind {
    /// What a key of a plugin of this kind takes; None where it isn't known.
    fn row_of(&self, key: &str) -> Option<Shape>
        ensures { result ≡ kind_key self.now key.now }
    {
        match self {
            Kind::FileInput => file_input_key(key),
            Kind::StatsdInput => statsd_input_key(key),
            Kind::FileOutput => file_output_key(key),
            Kind::Converter => converter_key(key),
            Kind::Dedup => dedup_key(key),
            Kind::Regex => regex_key(key),
            Kind::Rename => rename_key(key),
            Kind::BasicStats => basicstats_key(key),
            Kind::Final => final_key(key),
            Kind::Merge | Kind::MinMax => aggregator_key(key),
        }
    }

    /// The key of the list whose only text is the place of a plugin of this kind; None where it has no such key.
    pub(crate) fn place_key(&self) -> Option<&'static str>
        ensures { option_map (λ key. key.now) result ≡ place_key self.now }
    {
        match self {
            Kind::FileInput => Some("files"),
            Kind::FileOutput => Some("files"),
            _ => None,
        }
    }
}

/// Which table the keys are of.
#[derive(Clone, Copy)]
pub(crate) enum Keys {
    /// The table `agent`.
    Agent,
    /// A plugin of a kind.
    Plugin(Kind),
    /// A plugin of a kind that isn't known: it has no keys.
    Unknown,
}

impl Keys {
    /// What a key takes; None where it isn't known.
    pub(crate) fn row_of(&self, key: &str) -> Option<Shape>
        ensures { result ≡ row_of self.now key.now }
    {
        match self {
            Keys::Agent => agent_key(key),
            Keys::Plugin(kind) => kind.row_of(key),
            Keys::Unknown => None,
        }
    }
}

/// The keys of a plugin of a class, by the name of its kind.
pub(crate) fn keys_of(class: &Class, name: &str) -> Keys
    ensures { result ≡ keys_of class.now name.now }
{
    match kind_of(class, name) {
        Some(kind) => Keys::Plugin(kind),
        None => Keys::Unknown,
    }
}
