//! The metric that a word is.
ghost use Rattle.std.specs.Prelude.{◌≡◌, ◌<◌, ◌≤◌, ◌∷◌, ℕ, List, Option, length, option_map, IfOk};
ghost use Rattle.journal_text.specs.MetricText.{metric_text};
ghost use Rattle.std.specs.Str.{bytes_eq};
ghost use Rattle.metric.specs.declared.value.Value.TheVariants as value;
ghost use Rattle.journal_reader.specs.Words.{each};
ghost use Rattle.journal_reader.specs.MetricReading.{digit_of, unescaped, text_of, value_of, pair_of};
ghost use Rattle.journal_reader.specs.MetricReading.{series_of};
ghost use Rattle.journal_reader.specs.MetricReading.{plain_value_of, content_of, metric_of};

use crate::parts::{Parts, cut};
use crate::tags::is_metric;
use fixed_num::{Fixed, OutOfMemory, Seq, read_int, read_uint};
use journal_text::write_metric;
use metric::{Content, Metric, Text, Value};
use std::alloc::Global;
use text_buffer::TextBuffer;

/// The digit that a byte is.
#[tactic(auto, unfolding(crate::specs::MetricReading::digit_of))]
fn digit_of(b: u8) -> u8
    ensures value { result ≡ digit_of b }
    ensures bound { result < 16 }
{
    match b {
        b'0'..=b'9' => b - b'0',
        b'A'..=b'F' => b - b'A' + 10,
        _ => 0,
    }
}

/// The byte that stands first, where `%` and two digits stand for one, and what stands behind it.
fn meant_first<'a>(first: u8, others: &'a [u8]) -> (u8, &'a [u8])
    ensures value { unescaped (first ∷ others.now) ≡ result.0 ∷ unescaped result.1.now }
    ensures shorter { length result.1.now ≤ length others.now }
{
    if first != b'%' {
        return (first, others);
    }
    match others {
        [high, low, behind @ ..] => (digit_of(*high) * 16 + digit_of(*low), behind),
        _ => (first, others),
    }
}

/// A text without its escapes: `%` and two digits stand for a byte.
fn unescaped(alloc: Global, written: &[u8]) -> Result<Vec<u8>, OutOfMemory>
    ensures { IfOk result (λ text. text.items ≡ unescaped written.now) }
{
    let mut text = Vec::with_capacity(alloc, written.len())?;
    let mut rest = written;
    while let Some((first, others)) = rest.split_first() {
        let (byte, behind) = meant_first(*first, others);
        text.push(byte)?;
        rest = behind;
    }
    Ok(text)
}

/// The text that is written so, where it is UTF-8.
#[tactic(auto, unfolding(crate::specs::MetricReading::text_of))]
fn text_of(alloc: Global, written: &[u8]) -> Result<Option<Text>, OutOfMemory>
    ensures { IfOk result (λ text. text ≡ text_of written.now) }
{
    let bytes = unescaped(alloc, written)?;
    match str::from_utf8(bytes.as_slice()) {
        Ok(text) => {
            let text = Text::of(alloc, text)?;
            Ok(Some(text))
        }
        Err(_) => Ok(None),
    }
}

/// A text as a value.
fn text_value(alloc: Global, written: &[u8]) -> Result<Option<Value>, OutOfMemory>
    ensures { IfOk result (λ said. said ≡ option_map value.Text (text_of written.now)) }
{
    match text_of(alloc, written)? {
        Some(text) => Ok(Some(Value::Text(text))),
        None => Ok(None),
    }
}

/// A number or a truth value: the first byte tells the type.
#[tactic(auto, unfolding(crate::specs::MetricReading::plain_value_of))]
fn plain_value_of(written: &[u8]) -> Option<Value>
    ensures { result ≡ plain_value_of written.now }
{
    match written {
        [b'i', rest @ ..] => read_int(rest).ok().map(Value::Int),
        [b'u', rest @ ..] => read_uint(rest).ok().map(Value::Uint),
        [b'f', rest @ ..] => Fixed::read(rest).ok().map(Value::Fixed),
        [b'b', b't'] => Some(Value::Bool(true)),
        [b'b', b'f'] => Some(Value::Bool(false)),
        _ => None,
    }
}

/// A value: its first byte tells the type.
#[tactic(auto, unfolding(crate::specs::MetricReading::value_of))]
fn value_of(alloc: Global, written: &[u8]) -> Result<Option<Value>, OutOfMemory>
    ensures { IfOk result (λ said. said ≡ value_of written.now) }
{
    let Some((first, rest)) = written.split_first() else {
        return Ok(None);
    };
    if *first == b's' {
        return text_value(alloc, rest);
    }
    Ok(plain_value_of(written))
}

/// What stands behind a key: the text of a tag, or the value of a field.
trait Behind: Drop + Sized {
    /// What is written so, as contracts see it.
    ghost says: { List ℕ → Option Self };

    /// What is written so.
    fn of(alloc: Global, written: &[u8]) -> Result<Option<Self>, OutOfMemory>
        ensures { IfOk result (λ said. said ≡ says written.now) };
}

impl Behind for Text {
    ghost says = { text_of };

    fn of(alloc: Global, written: &[u8]) -> Result<Option<Text>, OutOfMemory> {
        text_of(alloc, written)
    }
}

impl Behind for Value {
    ghost says = { value_of };

    fn of(alloc: Global, written: &[u8]) -> Result<Option<Value>, OutOfMemory> {
        value_of(alloc, written)
    }
}

/// A tag or a field: a key, and what stands behind its equals sign.
#[tactic(auto, unfolding(crate::specs::MetricReading::pair_of))]
fn pair_of<B: Behind>(alloc: Global, written: &[u8]) -> Result<Option<(Text, B)>, OutOfMemory>
    ensures { IfOk result (λ pair. pair ≡ pair_of B.says written.now) }
{
    let Some((key, behind)) = cut(b'=', written) else {
        return Ok(None);
    };
    let Some(key) = text_of(alloc, key)? else {
        return Ok(None);
    };
    let Some(said) = B::of(alloc, behind)? else {
        return Ok(None);
    };
    Ok(Some((key, said)))
}

/// The tags or the fields that parts are.
fn pairs_of<B: Behind>(
    alloc: Global,
    parts: &mut Parts<'_>,
) -> Result<Option<Seq<(Text, B)>>, OutOfMemory>
    ensures { IfOk result (λ pairs. pairs ≡ each (pair_of B.says) parts.old) }
{
    let mut pairs = Seq::of(Vec::new(alloc));
    while let Some(part) = parts.next() {
        let Some(pair) = pair_of::<B>(alloc, part)? else {
            return Ok(None);
        };
        pairs.push(alloc, pair)?;
    }
    Ok(Some(pairs))
}

/// A name, and tags in the order in which they stand.
type Series = (Text, Seq<(Text, Text)>);

/// A name with tags behind it.
#[tactic(auto, unfolding(crate::specs::MetricReading::series_of, crate::specs::MetricReading::tag_of))]
fn series_of(alloc: Global, parts: &mut Parts<'_>) -> Result<Option<Series>, OutOfMemory>
    ensures { IfOk result (λ series. series ≡ series_of parts.old) }
{
    let Some(name) = parts.next() else {
        return Ok(None);
    };
    let Some(name) = text_of(alloc, name)? else {
        return Ok(None);
    };
    let Some(tags) = pairs_of::<Text>(alloc, parts)? else {
        return Ok(None);
    };
    Ok(Some((name, tags)))
}

/// What a word says as a metric: a name with tags, fields and a time.
#[tactic(auto, unfolding(crate::specs::MetricReading::content_of, crate::specs::MetricReading::field_of))]
fn content_of(alloc: Global, word: &[u8]) -> Result<Option<Content>, OutOfMemory>
    ensures { IfOk result (λ m. m ≡ content_of word.now) }
{
    let Some((series, behind)) = cut(b'|', word) else {
        return Ok(None);
    };
    let Some((fields, time)) = cut(b'|', behind) else {
        return Ok(None);
    };
    let Some((name, tags)) = series_of(alloc, &mut Parts::of(b';', series))? else {
        return Ok(None);
    };
    let Some(fields) = pairs_of::<Value>(alloc, &mut Parts::of(b';', fields))? else {
        return Ok(None);
    };
    let Ok(time) = read_int(time) else {
        return Ok(None);
    };
    Ok(Some(Content {
        name,
        tags,
        fields,
        time,
    }))
}

/// Whether a word is the one spelling of a metric.
fn is_spelled(alloc: Global, m: &Metric, word: &[u8]) -> Result<bool, OutOfMemory>
    ensures { IfOk result (λ is. is ≡ bytes_eq (metric_text m.now) word.now) }
{
    let mut line = TextBuffer::with_room(alloc, word.len() + 3)?;
    write_metric(alloc, m, &mut line)?;
    let [b'm', b' ', text @ .., b'\n'] = line.as_slice() else {
        return Ok(false);
    };
    Ok(text == word)
}

/// The metric that a word is, in its one spelling.
#[tactic(auto, unfolding(crate::specs::MetricReading::metric_of))]
pub(crate) fn metric_of(alloc: Global, word: &[u8]) -> Result<Option<Metric>, OutOfMemory>
    ensures { IfOk result (λ m. m ≡ metric_of word.now) }
{
    let Some(content) = content_of(alloc, word)? else {
        return Ok(None);
    };
    if !is_metric(alloc, &content)? {
        return Ok(None);
    }
    let m = Metric::of(alloc, content)?;
    if is_spelled(alloc, &m, word)? {
        Ok(Some(m))
    } else {
        Ok(None)
    }
}
