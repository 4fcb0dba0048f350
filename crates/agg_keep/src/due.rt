//! What a closing gives.
ghost use Rattle.std.specs.Prelude.{◌≡◌, ◌++◌, ◌||◌, ◌∷◌, [], ◌+ℤ◌, codes, int_le, map, IfOk, OnOk};
ghost use Rattle.std.specs.Option.{option_copied};
ghost use Rattle.metric.specs.Metric.{IsWord};
ghost use Rattle.agg_keep.specs.Final.{final_field, final_metric, given, gives, is_due};

use crate::closing::Closing;
use fixed_num::{Moment, OutOfMemory, Seq};
use metric::{Content, Metric, Text, Value, tag_copies};
use std::alloc::Global;

/// Does a closing give what is held of a series?
pub(crate) fn gives(timeout: i64, closing: Closing, held: Option<&Metric>) -> bool
    ensures { result ≡ gives timeout closing (option_copied held.entry) }
{
    match held {
        Some(m) => is_due(timeout, closing, m),
        None => false,
    }
}

/// Does a closing give a series whose last metric this is?
fn is_due(timeout: i64, closing: Closing, m: &Metric) -> bool
    ensures { result ≡ is_due timeout closing m.now }
{
    closing.all || is_over(timeout, closing.moment, m.time())
}

/// Are a time and the timeout behind it over at a moment? Their sum may be wider than a time.
fn is_over(timeout: i64, moment: Moment, time: Moment) -> bool
    ensures { result ≡ int_le (time +ℤ timeout) moment }
{
    let end = time as i128 + timeout as i128;
    end <= moment as i128
}

/// Appends what a closing gives of what is held of a series.
#[tactic(auto, unfolding(crate::specs::Final::given))]
pub(crate) fn append_given(
    alloc: Global,
    timeout: i64,
    closing: Closing,
    held: Option<&Metric>,
    made: &mut Vec<Metric>,
) -> Result<(), OutOfMemory>
    ensures { OnOk result
        (made.new.items ≡ made.old.items ++ given timeout closing (option_copied held.entry)) }
{
    let Some(m) = held else {
        return Ok(());
    };
    if !is_due(timeout, closing, m) {
        return Ok(());
    }
    made.push(final_metric(alloc, m)?)?;
    Ok(())
}

/// A metric with `_final` behind the keys of its fields.
fn final_metric(alloc: Global, m: &Metric) -> Result<Metric, OutOfMemory>
    ensures { IfOk result (λ final_one. final_one ≡ final_metric m.now) }
{
    m.shows_metric();
    let content = Content {
        name: m.name().copy()?,
        tags: tag_copies(alloc, m.tags(), 0)?,
        fields: final_fields(alloc, m.fields())?,
        time: m.time(),
    };
    Ok(Metric::of(alloc, content)?)
}

/// The fields with `_final` behind their keys.
fn final_fields(alloc: Global, fields: &[(Text, Value)]) -> Result<Seq<(Text, Value)>, OutOfMemory>
    ensures { IfOk result (λ given. given ≡ map final_field fields.now) }
{
    let mut given = Seq::with_room(alloc, fields.len())?;
    for field in fields {
        given.push(alloc, (final_key(alloc, &field.0)?, field.1.copy()?))?;
    }
    Ok(given)
}

/// A key with `_final` behind it.
fn final_key(alloc: Global, key: &Text) -> Result<Text, OutOfMemory>
    ensures { IfOk result (λ text. text ≡ key.now ++ codes "_final") }
{
    let mut text = String::new(alloc);
    text.push_str(key.as_str())?;
    text.push_str("_final")?;
    Text::of_string(alloc, text)
}
