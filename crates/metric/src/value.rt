//! The value of a field.
ghost use Rattle.std.specs.Prelude.{◌≡◌, ◌++◌, IfOk, OnOk, OnErr};
ghost use Rattle.metric.specs.Metric.{IsValue};
ghost use Rattle.metric.specs.Numbers.{is_text, number_text};

use crate::Text;
use fixed_num::{Fixed, OutOfMemory};
use std::alloc::Global;
use text_buffer::TextBuffer;

/// The value of a field.
#[derive(Debug, PartialEq, Eq, Drop)]
pub enum Value {
    /// A signed whole number.
    Int(i64),
    /// An unsigned whole number.
    Uint(u64),
    /// A number with nine decimals.
    Fixed(Fixed),
    /// A truth value.
    Bool(bool),
    /// A text.
    Text(Text),
}

impl Value {
    /// An equal value. It takes no memory: a long text shares its bytes with it.
    pub fn copy(&self) -> Result<Value, OutOfMemory>
        ensures { IfOk result (λ copy. copy ≡ self.now) }
    {
        Ok(match self {
            Value::Int(n) => Value::Int(*n),
            Value::Uint(n) => Value::Uint(*n),
            Value::Fixed(n) => Value::Fixed(*n),
            Value::Bool(b) => Value::Bool(*b),
            Value::Text(text) => Value::Text(text.copy()?),
        })
    }

    /// Says to a caller's proof what is true of each value: a number is in the range of its type, a text is UTF-8.
    #[inline(always)]
    pub fn shows_value(&self)
        ensures { IsValue self.now }
    {
        match self {
            Value::Int(n) => {
                let _n = *n;
            }
            Value::Uint(n) => {
                let _n = *n;
            }
            Value::Fixed(n) => {
                let _n = n.billionths();
            }
            Value::Bool(_) => {}
            Value::Text(text) => {
                let _text = text.as_str();
            }
        }
    }

    /// Is it a text, which is no number?
    pub fn is_text(&self) -> bool
        ensures { result ≡ is_text self.now }
    {
        matches!(self, Value::Text(_))
    }

    /// Appends the number in decimal digits: a whole number, the canonical text of one with nine decimals, 1 or 0 for a
    /// truth value, nothing for a text. `OutOfMemory` leaves `out` as it was.
    #[tactic(auto, unfolding(crate::specs::Numbers::number_text))]
    pub fn append_number(&self, alloc: Global, out: &mut TextBuffer) -> Result<(), OutOfMemory>
        ensures ok { OnOk result (out.new.items ≡ out.old.items ++ number_text self.now) }
        ensures err { OnErr result (out.new.items ≡ out.old.items) }
    {
        match self {
            Value::Int(n) => out.push_int(*n)?,
            Value::Uint(n) => out.push_uint(*n)?,
            Value::Fixed(n) => n.append(alloc, out)?,
            Value::Bool(true) => out.push(b'1')?,
            Value::Bool(false) => out.push(b'0')?,
            Value::Text(_) => {}
        }
        Ok(())
    }
}
