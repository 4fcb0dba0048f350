//! Names as they are written: a byte outside of their alphabet is `_`, and `_` stands before a digit at the
//! front.
ghost use Rattle.std.specs.Prelude.{◌≡◌, IfOk, OnOk, map};
ghost use Rattle.text_parts.specs.Adds.{Adds};
ghost use Rattle.openmetrics_text.specs.Names.{ends, ends_label, ends_name};
ghost use Rattle.openmetrics_text.specs.Writing.{clean_byte, digit_mark, cleaned, family_words, family_of};

use crate::names::{Alphabet, begins_with_digit};
use fixed_num::OutOfMemory;
use std::alloc::Global;
use text_buffer::TextBuffer;
use text_parts::append_words;

/// Each byte as it stands in the name of a label: a letter, a digit or `_`, or `_` for another.
static LABEL_BYTES: [u8; 256] = *b"\
    ________________________________\
    ________________0123456789______\
    _ABCDEFGHIJKLMNOPQRSTUVWXYZ_____\
    _abcdefghijklmnopqrstuvwxyz_____\
    ________________________________\
    ________________________________\
    ________________________________\
    ________________________________";

/// Each byte as it stands in the name of a sample: the same, and the colon.
static NAME_BYTES: [u8; 256] = *b"\
    ________________________________\
    ________________0123456789:_____\
    _ABCDEFGHIJKLMNOPQRSTUVWXYZ_____\
    _abcdefghijklmnopqrstuvwxyz_____\
    ________________________________\
    ________________________________\
    ________________________________\
    ________________________________";

/// Puts each byte of a text as it stands in a name in an alphabet.
fn clean(alphabet: Alphabet, text: &mut TextBuffer)
    ensures { text.new.items ≡ map (clean_byte (ends alphabet)) text.old.items }
{
    match alphabet {
        Alphabet::Labels => text.translate(0, &LABEL_BYTES),
        Alphabet::Samples => text.translate(0, &NAME_BYTES),
    }
}

/// Appends the `_` that stands before a digit at the front of a text.
fn append_mark(out: &mut TextBuffer, text: &str) -> Result<(), OutOfMemory>
    ensures { Adds result out.old.items out.new.items (digit_mark text.now) }
{
    if begins_with_digit(text.as_bytes()) {
        out.push(b'_')?;
        return Ok(());
    }
    Ok(())
}

/// Appends a measurement and the key of a field that isn't `value`.
fn append_family_words(out: &mut TextBuffer, name: &str, key: &str) -> Result<(), OutOfMemory>
    ensures { Adds result out.old.items out.new.items (family_words name.now key.now) }
{
    append_words(out, name)?;
    if key == "value" {
        return Ok(());
    }
    out.push(b'_')?;
    append_words(out, key)?;
    Ok(())
}

/// The name of a label.
pub(crate) fn label_name(alloc: Global, key: &str) -> Result<Vec<u8>, OutOfMemory>
    ensures { IfOk result (λ name. name.items ≡ cleaned ends_label key.now) }
{
    let mut name = TextBuffer::with_room(alloc, key.len().saturating_add(1))?;
    append_mark(&mut name, key)?;
    append_words(&mut name, key)?;
    clean(Alphabet::Labels, &mut name);
    Ok(name.into_vec())
}

/// Puts each byte of a family as it stands in the name of a sample.
fn clean_family(family: &mut TextBuffer)
    ensures { family.new.items ≡ map (clean_byte ends_name) family.old.items }
{
    clean(Alphabet::Samples, family);
}

/// Writes the family of a field, in place of what stood there.
pub(crate) fn write_family(
    family: &mut TextBuffer,
    name: &str,
    key: &str,
) -> Result<(), OutOfMemory>
    ensures { OnOk result (family.new.items ≡ family_of name.now key.now) }
{
    family.clear();
    append_mark(family, name)?;
    append_family_words(family, name, key)?;
    clean_family(family);
    Ok(())
}
