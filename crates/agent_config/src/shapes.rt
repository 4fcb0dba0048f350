//! What keys take.
ghost use Rattle.std.specs.Prelude.{◌≡◌, Some};
ghost use Rattle.agent_config.specs.Keys.{count_to, is_one_of, names_of, statistics, text_of, usual_name};

use crate::inner::Inner;

/// What a whole number may be, and what it is where nothing is said.
#[derive(Clone, Copy)]
pub(crate) struct CountRow {
    /// The greatest; the least is 1.
    pub(crate) most: u32,
    /// Where nothing is said.
    pub(crate) usual: u32,
}

/// How long a time may be, and how long it is where nothing is said, in nanoseconds.
#[derive(Clone, Copy)]
pub(crate) struct TimeRow {
    /// The least.
    pub(crate) least: i64,
    /// Where nothing is said.
    pub(crate) usual: i64,
}

/// Lists of names.
#[derive(Clone, Copy)]
pub(crate) enum Names {
    /// The formats that are read.
    ReadFormats,
    /// The formats that are written.
    WrittenFormats,
}

impl Names {
    /// Is it one of them?
    pub(crate) fn have(&self, name: &str) -> bool
        ensures { result ≡ is_one_of (names_of self.now) name.now }
    {
        match self {
            Names::ReadFormats => is_read_format(name),
            Names::WrittenFormats => is_written_format(name),
        }
    }

    /// The one where nothing is said.
    pub(crate) fn usual(&self) -> &'static str
        ensures { result.now ≡ usual_name self.now }
    {
        match self {
            Names::ReadFormats => "influx",
            Names::WrittenFormats => "influx",
        }
    }
}

/// Is it the name of a format that is read?
fn is_read_format(name: &str) -> bool
    ensures { result ≡ is_one_of (names_of Names.ReadFormats) name.now }
{
    matches!(name, "influx" | "statsd" | "graphite" | "openmetrics")
}

/// Is it the name of a format that is written?
fn is_written_format(name: &str) -> bool
    ensures { result ≡ is_one_of (names_of Names.WrittenFormats) name.now }
{
    matches!(name, "influx" | "graphite" | "openmetrics")
}

/// Is it the name of a statistic?
pub(crate) fn is_statistic(name: &str) -> bool
    ensures { result ≡ is_one_of statistics name.now }
{
    matches!(name, "sum" | "count" | "min" | "max")
}

/// What a text is where nothing is said.
#[derive(Clone, Copy)]
pub(crate) enum UsualText {
    /// The place of the journal.
    Journal,
    /// A point.
    Point,
    /// No text, as at a key that is needed.
    Nothing,
}

impl UsualText {
    /// As a text.
    pub(crate) fn text(&self) -> &'static str
        ensures { result.now ≡ text_of self.now }
    {
        match self {
            UsualText::Journal => "agent.journal",
            UsualText::Point => ".",
            UsualText::Nothing => "",
        }
    }
}

/// What a key takes: its row.
#[derive(Clone, Copy)]
pub(crate) enum Shape {
    /// Any value, without effect.
    Anything,
    /// A whole number.
    Count(CountRow),
    /// A truth value, which is this one where nothing is said.
    Truth(bool),
    /// A text that isn't empty, which is this one where nothing is said.
    Place(UsualText),
    /// Any text, the empty one too, which is this one where nothing is said.
    AnyText(UsualText),
    /// One of some names, which is the usual one of them where nothing is said.
    OneOf(Names),
    /// A list of templates.
    Templates,
    /// A list of one place.
    Files,
    /// A time.
    Time(TimeRow),
    /// A list of globs.
    Globs,
    /// A table of lists of globs.
    TagGlobs,
    /// Any whole number, which is 0 where nothing is said.
    WholeNumber,
    /// A table of keys of its own.
    Table(Inner),
    /// A list of tables of keys of their own.
    Tables(Inner),
    /// A list of names of statistics.
    Statistics,
}

/// The row of a whole number from 1 on.
pub(crate) fn count_to(most: u32, usual: u32) -> Option<Shape>
    ensures { result ≡ count_to most usual }
{
    Some(Shape::Count(CountRow { most, usual }))
}

/// The row of a time of so many nanoseconds or more.
pub(crate) fn time_from(least: i64, usual: i64) -> Option<Shape>
    ensures { result ≡ Some (Shape.Time (record { least = least; usual = usual })) }
{
    Some(Shape::Time(TimeRow { least, usual }))
}
