//! Lists of fields.
ghost use Rattle.std.specs.Prelude.{◌≡◌, IfOk, OnOk};
ghost use Rattle.std.specs.List.{position};
ghost use Rattle.std.specs.Str.{bytes_eq};
ghost use Rattle.metric.specs.Pairs.{in_first_order_on, with_pair};

use fixed_num::OutOfMemory;
use metric::{Text, Value};
use std::alloc::Global;

/// The same fields.
pub(crate) fn field_copies(
    alloc: Global,
    fields: &[(Text, Value)],
) -> Result<Vec<(Text, Value)>, OutOfMemory>
    ensures { IfOk result (λ copies. copies.items ≡ fields.now) }
{
    let mut copies = Vec::with_capacity(alloc, fields.len())?;
    for field in fields {
        copies.push((field.0.copy()?, field.1.copy()?))?;
    }
    Ok(copies)
}

/// Puts fields over those of their keys, and behind the others where there is none.
#[tactic(auto, unfolding(metric::specs::Pairs::in_first_order_on))]
pub(crate) fn put_all(
    fields: &mut Vec<(Text, Value)>,
    given: &[(Text, Value)],
) -> Result<(), OutOfMemory>
    ensures { OnOk result (fields.new.items ≡ in_first_order_on fields.old.items given.now) }
{
    for field in given {
        put_field(fields, field.0.copy()?, field.1.copy()?)?;
    }
    Ok(())
}

/// Puts a field over the one of its key, or behind the others.
fn put_field(fields: &mut Vec<(Text, Value)>, key: Text, value: Value) -> Result<(), OutOfMemory>
    ensures { OnOk result (fields.new.items ≡ with_pair fields.old.items key value) }
{
    match index_of(fields.as_slice(), &key) {
        Some(i) => fields[i] = (key, value),
        None => fields.push((key, value))?,
    }
    Ok(())
}

/// Where the field of a key stands.
fn index_of(fields: &[(Text, Value)], key: &Text) -> Option<usize>
    ensures { result ≡ position (λ field. bytes_eq field.0 key.now) fields.now }
{
    fields
        .iter()
        .position(|field| field.0.as_str() == key.as_str())
}
