//! Tables inside the values of keys, and what their own keys take.
ghost use Rattle.std.specs.Prelude.{◌≡◌};
ghost use Rattle.agent_config.specs.Inner.{inner_key, replacement_key, rewrite_key, target_key};

/// The kinds of tables that stand inside values.
#[derive(Clone, Copy)]
pub(crate) enum Inner {
    /// What is renamed, and what to.
    Replacement,
    /// What fields are converted to.
    FieldTargets,
    /// What tags are converted to.
    TagTargets,
    /// By which pattern a tag or field is rewritten, and how.
    Rewriting,
}

/// What a key of a table inside a value takes.
#[derive(Clone, Copy)]
pub(crate) enum InnerShape {
    /// A text that isn't empty.
    FilledText,
    /// Any text.
    AnyText,
    /// A text that is a pattern.
    Pattern,
    /// A list of globs.
    Globs,
}

impl Inner {
    /// What a key of such a table takes; None where it isn't known.
    pub(crate) fn row_of(&self, key: &str) -> Option<InnerShape>
        ensures { result ≡ inner_key self.now key.now }
    {
        match self {
            Inner::Replacement => replacement_key(key),
            Inner::FieldTargets => {
                if key == "tag" {
                    return Some(InnerShape::Globs);
                }
                target_key(key)
            }
            Inner::TagTargets => target_key(key),
            Inner::Rewriting => rewrite_key(key),
        }
    }
}

/// What a key takes that says what is renamed, or what to.
fn replacement_key(key: &str) -> Option<InnerShape>
    ensures { result ≡ replacement_key key.now }
{
    match key {
        "measurement" | "tag" | "field" | "dest" => Some(InnerShape::FilledText),
        _ => None,
    }
}

/// What a key takes that is a type of fields.
fn target_key(key: &str) -> Option<InnerShape>
    ensures { result ≡ target_key key.now }
{
    match key {
        "string" | "integer" | "unsigned" | "boolean" | "float" => Some(InnerShape::Globs),
        _ => None,
    }
}

/// What a key takes that says how a text is rewritten.
fn rewrite_key(key: &str) -> Option<InnerShape>
    ensures { result ≡ rewrite_key key.now }
{
    match key {
        "key" => Some(InnerShape::FilledText),
        "pattern" => Some(InnerShape::Pattern),
        "replacement" | "result_key" => Some(InnerShape::AnyText),
        _ => None,
    }
}
