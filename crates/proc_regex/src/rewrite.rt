//! Rewriting.
ghost use Rattle.std.specs.Prelude.{◌≡◌, true, false, option_and_then, option_map, string_bytes};
ghost use Rattle.std.specs.Prelude.{IfErr, IfOk, OnOk};
ghost use Rattle.std.specs.Option.{option_copied};
ghost use Rattle.metric.specs.Metric.{IsFilled};
ghost use Rattle.proc_regex.specs.Pattern.{is_pattern};
ghost use Rattle.proc_regex.specs.Rewrite.{dest_of, has_keys, replaced_by_rule, rewritten, text_at};
ghost use Rattle.proc_regex.specs.Rewrite.{text_in, text_made, with_text};
ghost use Rattle.metric.specs.Pairs.{value_at};
ghost use Rattle.metric.specs.declared.part.Part.TheVariants.{Tag};
ghost use Rattle.proc_regex.specs.Search.{IsOf, SearchesFor};
ghost use Rattle.regex.specs.Strings.{regex_names, regex_source, IsReadFrom};

use fixed_num::OutOfMemory;
use metric::{Metric, Part, Text, Value};
use regex::{Error, Matcher, Regex, Template};
use std::alloc::Global;
use std::fmt;
use std::marker::Model;
use thiserror::Error;

/// Why there is no rewriting by a pattern.
#[derive(Clone, Copy, Debug, Error, PartialEq, Eq)]
pub enum PatternFault {
    /// No memory was left, or the pattern takes more than the 10 MiB that one may take.
    #[error("out of memory")]
    OutOfMemory,
    /// The text is no pattern, or one that is nested more than 250 deep.
    #[error("no pattern is spelled so")]
    BadPattern,
}

impl From<OutOfMemory> for PatternFault {
    ghost use Rattle.proc_regex.specs.declared.rewrite.PatternFault.TheVariants.{OutOfMemory};

    ghost from_gives = { λ _ fault. fault ≡ OutOfMemory };

    fn from(_fault: OutOfMemory) -> PatternFault {
        PatternFault::OutOfMemory
    }
}

/// A rule by which the value of a tag, or of a field that is a text, is rewritten (as Telegraf's processor regex does).
#[derive(Drop)]
pub struct Rewrite {
    alloc: Global,
    part: Part,
    key: Text,
    replacement: Text,
    result_key: Text,
    regex: Regex,
    // The replacement, read.
    template: Template,
}

impl Model for Rewrite {
    ghost use Rattle.std.specs.Prelude.{◌≡◌, true};
    ghost use Rattle.metric.specs.Metric.{IsFilled};
    ghost use Rattle.proc_regex.specs.Pattern.{is_pattern};
    ghost use Rattle.proc_regex.specs.Rewrite.{has_keys, Rule};
    ghost use Rattle.proc_regex.specs.Search.{IsOf};
    ghost use Rattle.regex.specs.Strings.{regex_names, regex_source, IsReadFrom};

    ghost Value = { Rule };

    ghost view = { λ r. record {
      part = r.part;
      key = r.key;
      pattern = regex_source r.regex;
      replacement = r.replacement;
      result_key = r.result_key;
    } };

    ghost invariant = { λ r. (has_keys r.part ≡ true)
        × IsFilled r.key
        × (is_pattern (regex_source r.regex) ≡ true)
        × IsOf (regex_source r.regex) r.regex
        × IsReadFrom (regex_names r.regex) r.replacement r.template };
}

impl Rewrite {
    /// The rule that looks at the tag or text field of a key, replaces each match of the pattern by the replacement, in
    /// which `$1`, `$name` and `${name}` are what a group matched and `$$` is a dollar sign, and sets the result under
    /// `result_key`, or under the key where that is empty. A pattern has the syntax of Rust's regex crate.
    ///
    /// `BadPattern` comes only where the text is no pattern, and Ok only where it is one.
    pub fn new(
        alloc: Global,
        part: Part,
        key: &str,
        pattern: &str,
        replacement: &str,
        result_key: &str,
    ) -> Result<Rewrite, PatternFault>
        requires part { has_keys part ≡ true }
        requires key { IsFilled key.now }
        ensures rule { IfOk result (λ r. r ≡ record {
          part = part;
          key = key.now;
          pattern = pattern.now;
          replacement = replacement.now;
          result_key = result_key.now;
        }) }
        ensures pattern { IfOk result (λ _. is_pattern pattern.now ≡ true) }
        ensures bad { IfErr result (λ fault. fault ≡ PatternFault.BadPattern → is_pattern pattern.now ≡ false) }
    {
        let regex = regex_of(alloc, pattern)?;
        let template = template_of(alloc, &regex, replacement)?;
        let key = Text::of(alloc, key)?;
        let replacement = Text::of(alloc, replacement)?;
        let result_key = Text::of(alloc, result_key)?;
        Ok(Rewrite {
            alloc,
            part,
            key,
            replacement,
            result_key,
            regex,
            template,
        })
    }

    /// What searches for the pattern; its caches grow as it is used.
    pub fn matcher(&self, alloc: Global) -> Result<Matcher<'_>, OutOfMemory>
        ensures { IfOk result (SearchesFor self.now.pattern) }
    {
        Ok(self.regex.matcher(alloc)?)
    }

    /// The metric rewritten, by a matcher that searches for the pattern: where the tag or text field has a match, the text
    /// with all matches replaced is set under the key for it. An empty text for a tag removes the tag of that key.
    /// Without a match nothing changes. After an error the metric is given up.
    pub fn apply(&self, matcher: &mut Matcher<'_>, m: Metric) -> Result<Metric, OutOfMemory>
        requires { SearchesFor self.now.pattern matcher.old }
        ensures answer { IfOk result (λ answer. answer ≡ rewritten self.now m) }
        ensures searches { SearchesFor self.now.pattern matcher.new }
    {
        let mut m = m;
        let Some(text) = self.text_made(matcher, &m)? else {
            return Ok(m);
        };
        set_text(self.alloc, self.part, &mut m, self.dest(), text)?;
        Ok(m)
    }

    // The text that the rule makes of the one it looks at; None where there is none, or it has no match.
    fn text_made(
        &self,
        matcher: &mut Matcher<'_>,
        m: &Metric,
    ) -> Result<Option<String>, OutOfMemory>
        requires { SearchesFor self.now.pattern matcher.old }
        ensures made { IfOk result (λ text. option_map string_bytes text ≡ text_made self.now m.now) }
        ensures searches { SearchesFor self.now.pattern matcher.new }
    {
        match text_at(self.part, m, self.key.as_str()) {
            Some(text) => self.replaced(matcher, text.as_str()),
            None => Ok(None),
        }
    }

    // A text with its matches replaced; None where it has none.
    fn replaced(&self, matcher: &mut Matcher<'_>, text: &str) -> Result<Option<String>, OutOfMemory>
        requires { SearchesFor self.now.pattern matcher.old }
        ensures made { IfOk result (λ made. option_map string_bytes made ≡ replaced_by_rule self.now text.now) }
        ensures searches { SearchesFor self.now.pattern matcher.new }
    {
        if !matcher.is_match(text) {
            return Ok(None);
        }
        let made = matcher.replace_all(self.alloc, text, &self.template)?;
        Ok(Some(made))
    }

    // The key under which the text stands that was made.
    fn dest(&self) -> &str
        ensures made { result.now ≡ dest_of self.now }
        ensures filled { IsFilled result.now }
    {
        if self.result_key.as_str().is_empty() {
            return self.key.as_str();
        }
        self.result_key.as_str()
    }
}

/// What a text is read as.
fn regex_of(alloc: Global, pattern: &str) -> Result<Regex, PatternFault>
    ensures source { IfOk result (λ r. regex_source r ≡ pattern.now) }
    ensures read { IfOk result (IsOf pattern.now) }
    ensures pattern { IfOk result (λ _. is_pattern pattern.now ≡ true) }
    ensures bad { IfErr result (λ fault. fault ≡ PatternFault.BadPattern → is_pattern pattern.now ≡ false) }
{
    match Regex::new(alloc, pattern) {
        Ok(regex) => Ok(regex),
        Err(Error::Syntax(_)) => Err(PatternFault::BadPattern),
        Err(_) => Err(PatternFault::OutOfMemory),
    }
}

/// Is a text a pattern? An error comes where no memory was left, or where the pattern takes more than the 10 MiB that one
/// may take.
pub fn is_pattern(alloc: Global, text: &str) -> Result<bool, OutOfMemory>
    ensures { IfOk result (λ answer. answer ≡ is_pattern text.now) }
{
    match regex_of(alloc, text) {
        Ok(_) => Ok(true),
        Err(PatternFault::BadPattern) => Ok(false),
        Err(PatternFault::OutOfMemory) => Err(OutOfMemory),
    }
}

/// What a replacement is read as.
fn template_of(alloc: Global, regex: &Regex, replacement: &str) -> Result<Template, OutOfMemory>
    ensures { IfOk result (IsReadFrom (regex_names regex.now) replacement.now) }
{
    Ok(Template::new(alloc, regex.capture_names(), replacement)?)
}

/// The text that stands under a key: the value of a tag, or of a field that is a text.
fn text_at<'m>(part: Part, m: &'m Metric, key: &str) -> Option<&'m Text>
    ensures { option_copied result ≡ text_at part m.now key.now }
{
    match part {
        Part::Measurement => None,
        Part::Tag => m.tag(key),
        Part::Field => text_field(m.fields(), key),
    }
}

/// The text that is the value of the field of a key.
fn text_field<'m>(fields: &'m [(Text, Value)], key: &str) -> Option<&'m Text>
    ensures { option_copied result ≡ option_and_then text_in (value_at fields.now key.now) }
{
    match field_at(fields, key) {
        Some(Value::Text(text)) => Some(text),
        _ => None,
    }
}

/// The value of the field of a key.
fn field_at<'m>(fields: &'m [(Text, Value)], key: &str) -> Option<&'m Value>
    ensures { option_copied result ≡ value_at fields.now key.now }
{
    fields
        .iter()
        .find(|field| field.0.as_str() == key)
        .map(|field| &field.1)
}

/// Sets a text under a key. No tag is empty, so that an empty text removes it.
fn set_text(
    alloc: Global,
    part: Part,
    m: &mut Metric,
    key: &str,
    text: String,
) -> Result<(), OutOfMemory>
    requires { IsFilled key.now }
    ensures { OnOk result (m.new ≡ with_text part m.old key.now (string_bytes text)) }
{
    match part {
        Part::Measurement => Ok(()),
        Part::Tag => set_tag(alloc, m, key, text.as_str()),
        Part::Field => m.set_field(alloc, key, Value::Text(Text::of_string(alloc, text)?)),
    }
}

/// Sets a tag, or removes it where the text is empty.
fn set_tag(alloc: Global, m: &mut Metric, key: &str, text: &str) -> Result<(), OutOfMemory>
    requires { IsFilled key.now }
    ensures { OnOk result (m.new ≡ with_text Tag m.old key.now text.now) }
{
    if text.is_empty() {
        m.drop_tag(alloc, key)?;
        return Ok(());
    }
    m.set_tag(alloc, key, text)
}

impl fmt::Debug for Rewrite {
    fn fmt<W: fmt::Write>(&self, f: &mut fmt::Formatter<W>) -> fmt::Result {
        f.debug_tuple("Rewrite").field(&self.regex).finish()
    }
}
