//! What is said of a fault of a configuration: where it is, and what would be right.
use crate::shown::Shown;
use crate::telegraf;
use agent_config::{Class, ConfigKind, FaultNames, ListedFault, PluginName, Takes, key_takes};
use std::alloc::{AllocError, Global};

/// How a number of a list is written.
fn ordinal(alloc: Global, number: usize) -> Result<String, AllocError> {
    let end = match (number % 10, number % 100) {
        (_, 11) | (_, 12) | (_, 13) => "th",
        (1, _) => "st",
        (2, _) => "nd",
        (3, _) => "rd",
        _ => "th",
    };
    format!(in alloc; "{number}{end}")
}

/// The table of a class in a file; that of plugins has a dot and their kind behind it.
fn class_name(class: &Class) -> &'static str {
    match class {
        Class::Root => "",
        Class::Agent => "agent",
        Class::GlobalTags => "global_tags",
        Class::Inputs => "inputs",
        Class::Processors => "processors",
        Class::Aggregators => "aggregators",
        Class::Outputs => "outputs",
    }
}

/// A plugin as its file has it: its table, and which of several it is.
fn plugin_words(alloc: Global, class: &Class, plugin: &PluginName) -> Result<String, AllocError> {
    let class = class_name(class);
    let kind = Shown(plugin.kind.as_str());
    if !plugin.is_listed {
        return format!(in alloc; "[{class}.{kind}]");
    }
    if plugin.of == 1 {
        return format!(in alloc; "[[{class}.{kind}]]");
    }
    let at = ordinal(alloc, plugin.at)?;
    let of = plugin.of;
    format!(in alloc; "[[{class}.{kind}]], the {at} of {of}")
}

/// Where a fault is: the table as the file has it, and a colon; nothing at the root.
fn place_words(
    alloc: Global,
    listed: &ListedFault,
    plugin: Option<&PluginName>,
) -> Result<String, AllocError> {
    let class = &listed.fault.class;
    if let Some(plugin) = plugin {
        let words = plugin_words(alloc, class, plugin)?;
        return format!(in alloc; "{words}: ");
    }
    let name = class_name(class);
    if name.is_empty() {
        return Ok(String::new(alloc));
    }
    format!(in alloc; "[{name}]: ")
}

/// What a key takes, in words.
fn taken_words(alloc: Global, taken: Takes) -> Result<String, AllocError> {
    let words = match taken {
        Takes::Number(most) => {
            return format!(in alloc; "a whole number, 1 to {most}, without quotes");
        }
        Takes::Anything => "any value",
        Takes::Truth => "true or false, without quotes",
        Takes::FilledText => "a text that isn't empty",
        Takes::AnyText => "a text",
        Takes::ReadFormat => {
            "\"influx\", \"statsd\", \"graphite\" or \"openmetrics\" (Telegraf's prometheus)"
        }
        Takes::WrittenFormat => {
            "\"influx\", \"graphite\" or \"openmetrics\" (Telegraf's prometheus)"
        }
        Takes::Templates => "a list of templates, as [\"measurement.host.field\"]",
        Takes::Files => "a list of one text that isn't empty, as [\"in.lp\"]",
        Takes::Time => {
            "a time above 0, as \"10s\", \"1m30s\" or \"24h\" (not \"1d\"), or a whole number of seconds"
        }
        Takes::TimeFromZero => {
            "a time, as \"10s\", \"1m30s\" or \"24h\" (not \"1d\"), or a whole number of seconds"
        }
        Takes::Globs => "a list of globs, as [\"cpu*\"]",
        Takes::TagGlobs =>
            "a table of lists of globs, as {host = [\"a*\"]}, under keys that aren't empty",
        Takes::WholeNumber => "a whole number, without quotes",
        Takes::Statistics => "a list of `sum`, `count`, `min` and `max`, as [\"sum\", \"count\"]",
        Takes::Replacements => {
            "a list of tables, each with `dest` and just one of `measurement`, `tag` and `field`"
        }
        Takes::FieldTargets => {
            "a table of lists of globs under `string`, `integer`, `unsigned`, `boolean`, `float` and `tag`"
        }
        Takes::TagTargets => {
            "a table of lists of globs under `string`, `integer`, `unsigned`, `boolean` and `float`"
        }
        Takes::Rewritings => {
            "a list of tables, each with `key`, `pattern`, `replacement` and, if it is another one, `result_key`"
        }
    };
    String::from_str(alloc, words)
}

/// What the key of a fault takes, in words.
fn right_words(
    alloc: Global,
    listed: &ListedFault,
    kind: &str,
    key: &str,
) -> Result<String, AllocError> {
    match listed.fault.class {
        Class::Root => return String::from_str(alloc, "takes a table"),
        Class::GlobalTags => {
            return String::from_str(alloc, "takes a text, under a key that isn't empty");
        }
        _ => {}
    }
    let Some(taken) = key_takes(&listed.fault.class, kind, key) else {
        return String::from_str(alloc, "takes another value");
    };
    let words = taken_words(alloc, taken)?;
    format!(in alloc; "takes {words}")
}

/// Which kinds a class has.
fn kinds_words(class: &Class) -> &'static str {
    match class {
        Class::Inputs => "there are no such inputs; there are `file` and `statsd`",
        Class::Outputs => "there are no such outputs; there is `file`",
        Class::Processors => {
            "there are no such processors; there are `converter`, `dedup`, `regex` and `rename`"
        }
        Class::Aggregators => {
            "there are no such aggregators; there are `basicstats`, `final`, `merge` and `minmax`"
        }
        _ => "there are no such plugins",
    }
}

/// What is said of a key that isn't known.
fn unknown_words(class: &Class, key: &str) -> &'static str {
    if let Some(words) = telegraf::about(class, key) {
        return words;
    }
    match class {
        Class::Root => {
            "there is no such table; there are agent, global_tags, inputs, processors, aggregators and outputs"
        }
        _ => "there is no such key",
    }
}

/// Why a text is no glob.
fn glob_words(text: &str) -> &'static str {
    if text.contains('{') || text.contains('}') {
        "is no glob: braces aren't taken, write a glob for each"
    } else {
        "is no glob: a set `[..]` has a character and an end, and a backslash one behind it"
    }
}

/// The text in the value of a key that is none of what it takes.
fn text_words(alloc: Global, listed: &ListedFault) -> Result<String, AllocError> {
    let text = match &listed.text {
        Some(text) => text.as_str(),
        None => "",
    };
    let words = match listed.fault.kind {
        ConfigKind::BadGlob => glob_words(text),
        ConfigKind::BadPattern => {
            "is no pattern: those of Rust's regex are taken, without look-around and back-references"
        }
        _ => "is no template: a filter, parts between points, and tags behind a space",
    };
    let text = Shown(text);
    format!(in alloc; "\"{text}\" {words}")
}

/// What is said of a fault that is about more than one key.
fn whole_words(
    alloc: Global,
    listed: &ListedFault,
    names: Option<&FaultNames>,
) -> Result<String, AllocError> {
    let words = match listed.fault.kind {
        ConfigKind::TooManyPlugins => "there are more than 16",
        ConfigKind::NoInput => "there is no input: [[inputs.file]] with files",
        ConfigKind::NoOutput => "there is no output: [[outputs.file]] with files",
        ConfigKind::BatchAboveLimit => {
            "metric_batch_size is above metric_buffer_limit (1000 and 10000 where nothing is said)"
        }
        ConfigKind::SamePlace => return same_words(alloc, listed, names),
        _ => "it is no table",
    };
    String::from_str(alloc, words)
}

/// The key at which the place of a plugin stands.
fn place_key(plugin: Option<&PluginName>) -> &'static str {
    match plugin {
        Some(plugin) if plugin.kind.as_str() == "statsd" => "service_address",
        _ => "files",
    }
}

/// Which other plugin has a place, or the journal.
fn same_words(
    alloc: Global,
    listed: &ListedFault,
    names: Option<&FaultNames>,
) -> Result<String, AllocError> {
    let (plugin, other) = match names {
        Some(names) => (names.plugin.as_ref(), names.other.as_ref()),
        None => (None, None),
    };
    let key = place_key(plugin);
    match other {
        Some(plugin) => {
            let other = plugin_words(alloc, &listed.fault.class, plugin)?;
            format!(in alloc; "{key}: {other}, has this place already")
        }
        None => format!(in alloc; "{key}: the journal has this place"),
    }
}

/// What a key takes in a table that stands in the value of another, by the kind of the plugin.
fn inner_taken_words(kind: &str, inner: &str) -> &'static str {
    match (kind, inner) {
        ("converter", _) => "a list of globs, as [\"cpu*\"]",
        (_, "pattern") => "a pattern, as \"^/v([0-9]+)/\"",
        (_, "replacement") | (_, "result_key") => "a text",
        _ => "a text that isn't empty",
    }
}

/// What is said of a key in a table that stands in the value of another.
fn inner_words(
    alloc: Global,
    listed: &ListedFault,
    kind: &str,
    key: &str,
    inner: &str,
) -> Result<String, AllocError> {
    let name = Shown(inner);
    let words = match listed.fault.kind {
        ConfigKind::UnknownKey => {
            let right = right_words(alloc, listed, kind, key)?;
            return format!(in alloc; "{right}, and has no key `{name}`");
        }
        _ => inner_taken_words(kind, inner),
    };
    match listed.fault.kind {
        ConfigKind::Missing => format!(in alloc; "`{name}` is missing in it, and takes {words}"),
        _ => format!(in alloc; "`{name}` in it takes {words}"),
    }
}

/// What is said of a key: what is wrong with it, and what would be right.
fn key_words(
    alloc: Global,
    listed: &ListedFault,
    kind: &str,
    key: &str,
) -> Result<String, AllocError> {
    match (listed.fault.kind, &listed.text) {
        (ConfigKind::BadGlob, _) | (ConfigKind::BadPattern, _) | (ConfigKind::BadTemplate, _) => {
            return text_words(alloc, listed);
        }
        (_, Some(inner)) => return inner_words(alloc, listed, kind, key, inner.as_str()),
        _ => {}
    }
    match listed.fault.kind {
        ConfigKind::UnknownKind => String::from_str(alloc, kinds_words(&listed.fault.class)),
        ConfigKind::UnknownKey => String::from_str(alloc, unknown_words(&listed.fault.class, key)),
        ConfigKind::Missing if key == "replace" => right_words(alloc, listed, kind, key),
        ConfigKind::Missing => {
            let right = right_words(alloc, listed, kind, key)?;
            format!(in alloc; "is missing, and {right}")
        }
        _ => right_words(alloc, listed, kind, key),
    }
}

/// The line that says a fault, behind the place of its configuration.
pub(crate) fn fault_words(
    alloc: Global,
    listed: &ListedFault,
    names: Option<&FaultNames>,
) -> Result<String, AllocError> {
    let plugin = match names {
        Some(names) => names.plugin.as_ref(),
        None => None,
    };
    let place = place_words(alloc, listed, plugin)?;
    let Some(key) = &listed.key else {
        let words = whole_words(alloc, listed, names)?;
        return format!(in alloc; "{place}{words}");
    };
    let kind = match plugin {
        Some(plugin) => plugin.kind.as_str(),
        None => "",
    };
    let words = key_words(alloc, listed, kind, key.as_str())?;
    if listed.fault.kind == ConfigKind::UnknownKind {
        return format!(in alloc; "{place}{words}");
    }
    let key = Shown(key.as_str());
    format!(in alloc; "{place}{key}: {words}")
}
