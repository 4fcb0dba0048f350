//! What can be wrong with a configuration.
ghost use Rattle.std.specs.Prelude.{◌≡◌};
ghost use Rattle.agent_config.specs.Found.{fault_of, found_view, whole, wrong, wrong_text, wrong_view};
ghost use Rattle.agent_config.specs.Told.{fault_told, kind_told};

use metric::Text;

/// What is wrong.
#[derive(Clone, Copy, Debug, PartialEq, Eq)]
pub enum ConfigKind {
    /// No memory was left.
    OutOfMemory,
    /// The text is above 1 MiB, isn't UTF-8, or is no TOML.
    NotToml,
    /// A class has no plugins of this kind.
    UnknownKind,
    /// A table has no such key.
    UnknownKey,
    /// A value has another type than its key takes.
    WrongType,
    /// A key that is needed isn't there.
    Missing,
    /// A value is outside of what its key takes.
    OutOfRange,
    /// A text is no glob.
    BadGlob,
    /// A text is no pattern.
    BadPattern,
    /// A text is no template.
    BadTemplate,
    /// A class has more than 16 plugins.
    TooManyPlugins,
    /// There is no input.
    NoInput,
    /// There is no output.
    NoOutput,
    /// A batch may hold more metrics than the buffer.
    BatchAboveLimit,
    /// Two plugins have one place, or an output has the journal's.
    SamePlace,
}

/// Where it is wrong.
#[derive(Clone, Copy, Debug, PartialEq, Eq)]
pub enum Class {
    /// The text, or its root table.
    Root,
    /// The table `agent`.
    Agent,
    /// The table `global_tags`.
    GlobalTags,
    /// An input.
    Inputs,
    /// A processor.
    Processors,
    /// An aggregator.
    Aggregators,
    /// An output.
    Outputs,
}

/// A fault of a configuration: what is wrong, where, and at which plugin of its class. Plugins are numbered
/// from 0, by their kinds in order of bytes, then by place; outside of plugins the number is 0.
#[derive(Clone, Copy, Debug, PartialEq, Eq)]
pub struct ConfigFault {
    /// What is wrong.
    pub kind: ConfigKind,
    /// Where.
    pub class: Class,
    /// At which plugin.
    pub number: u32,
}

/// A fault of a configuration, and what it is about.
#[derive(Drop)]
pub struct ListedFault {
    /// The fault.
    pub fault: ConfigFault,
    /// The key that it is about, or the name of a plugin's kind that isn't known. None where it is about a whole
    /// table, or about more than one.
    pub key: Option<Text>,
    /// The text in the key's value that is no glob, no pattern or no template, or the key of a table in it that
    /// isn't known, isn't there or has a value that it doesn't take.
    pub text: Option<Text>,
}

/// What is wrong with a text: each kind but that no memory was left.
#[derive(Clone, Copy)]
pub(crate) enum FaultKind {
    NotToml,
    UnknownKind,
    UnknownKey,
    WrongType,
    Missing,
    OutOfRange,
    BadGlob,
    BadPattern,
    BadTemplate,
    TooManyPlugins,
    NoInput,
    NoOutput,
    BatchAboveLimit,
    SamePlace,
}

impl FaultKind {
    /// As it is told.
    fn told(self) -> ConfigKind
        ensures { result ≡ kind_told self }
    {
        match self {
            FaultKind::NotToml => ConfigKind::NotToml,
            FaultKind::UnknownKind => ConfigKind::UnknownKind,
            FaultKind::UnknownKey => ConfigKind::UnknownKey,
            FaultKind::WrongType => ConfigKind::WrongType,
            FaultKind::Missing => ConfigKind::Missing,
            FaultKind::OutOfRange => ConfigKind::OutOfRange,
            FaultKind::BadGlob => ConfigKind::BadGlob,
            FaultKind::BadPattern => ConfigKind::BadPattern,
            FaultKind::BadTemplate => ConfigKind::BadTemplate,
            FaultKind::TooManyPlugins => ConfigKind::TooManyPlugins,
            FaultKind::NoInput => ConfigKind::NoInput,
            FaultKind::NoOutput => ConfigKind::NoOutput,
            FaultKind::BatchAboveLimit => ConfigKind::BatchAboveLimit,
            FaultKind::SamePlace => ConfigKind::SamePlace,
        }
    }
}

/// A fault of a text, before it is told: what is wrong, where, and at which plugin of its class.
#[derive(Clone, Copy)]
pub(crate) struct Fault {
    /// What is wrong.
    pub(crate) kind: FaultKind,
    /// Where.
    pub(crate) class: Class,
    /// At which plugin.
    pub(crate) number: u32,
}

impl Fault {
    /// As it is told.
    pub(crate) fn told(self) -> ConfigFault
        ensures { result ≡ fault_told self }
    {
        ConfigFault {
            kind: self.kind.told(),
            class: self.class,
            number: self.number,
        }
    }
}

/// What is wrong with a table: the key that it is about, the text in its value that is none of what the key takes,
/// and whether it only follows from another fault.
#[derive(Clone, Copy)]
pub(crate) struct Wrong<'a> {
    /// What is wrong.
    pub(crate) kind: FaultKind,
    /// The key, or the name of a plugin's kind; None where it is about a whole table, or about more than one.
    pub(crate) key: Option<&'a str>,
    /// The text that is no glob, no pattern or no template, or the key of a table in the key's value.
    pub(crate) text: Option<&'a str>,
    /// Does it come only of the default in a faulty value's place, or of a place that no value says?
    pub(crate) follows: bool,
}

impl<'a> Wrong<'a> {
    /// About a key.
    pub(crate) fn of_key(kind: FaultKind, key: &'a str) -> Wrong<'a>
        ensures { wrong_view result ≡ wrong kind key.now }
    {
        Wrong {
            kind,
            key: Some(key),
            text: None,
            follows: false,
        }
    }

    /// About a text in the value of a key.
    pub(crate) fn of_text(kind: FaultKind, key: &'a str, text: &'a str) -> Wrong<'a>
        ensures { wrong_view result ≡ wrong_text kind key.now text.now }
    {
        Wrong {
            kind,
            key: Some(key),
            text: Some(text),
            follows: false,
        }
    }

    /// About a whole table, or more than one.
    pub(crate) fn of_whole(kind: FaultKind, follows: bool) -> Wrong<'a>
        ensures { wrong_view result ≡ whole kind follows }
    {
        Wrong {
            kind,
            key: None,
            text: None,
            follows,
        }
    }
}

/// What is wrong, and where.
#[derive(Clone, Copy)]
pub(crate) struct Found<'a> {
    /// What is wrong.
    pub(crate) wrong: Wrong<'a>,
    /// In which class.
    pub(crate) class: Class,
    /// At which plugin.
    pub(crate) number: u32,
}

/// The fault, without what it is about.
pub(crate) fn fault_of(found: &Found) -> Fault
    ensures { result ≡ fault_of (found_view found.now) }
{
    Fault {
        kind: found.wrong.kind,
        class: found.class,
        number: found.number,
    }
}
