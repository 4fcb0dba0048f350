//! Writing by appending to a lent text. A call that fails leaves the old text at the front, and perhaps a
//! part of what it writes behind it; `settle` cuts that off.
ghost use Rattle.std.specs.Prelude.{◌≡◌, ◌++◌, OnOk, OnErr, codes, decimal, take, flat_map};
ghost use Rattle.std.specs.Fmt.{signed_decimal};
ghost use Rattle.text_parts.specs.Adds.{Adds};

use fixed_num::OutOfMemory;
use text_buffer::TextBuffer;

/// Appends bytes.
pub fn append_bytes(out: &mut TextBuffer, bytes: &[u8]) -> Result<(), OutOfMemory>
    ensures { Adds result out.old.items out.new.items bytes.now }
{
    out.extend_from_slice(bytes)?;
    Ok(())
}

/// Appends words.
pub fn append_words(out: &mut TextBuffer, words: &str) -> Result<(), OutOfMemory>
    ensures { Adds result out.old.items out.new.items words.now }
{
    out.extend_from_slice(words.as_bytes())?;
    Ok(())
}

/// Appends labels, each with a number, and an end.
pub fn append_numbers(
    out: &mut TextBuffer,
    counts: &[(&str, u64)],
    end: &str,
) -> Result<(), OutOfMemory>
    ensures { Adds result out.old.items out.new.items
        (flat_map (λ count. count.0.now ++ decimal count.1) counts.now ++ end.now) }
{
    for (label, n) in counts {
        out.extend_from_slice(label.as_bytes())?;
        out.push_uint(*n)?;
    }
    out.extend_from_slice(end.as_bytes())?;
    Ok(())
}

/// Appends a number in decimal digits.
#[inline(always)]
pub fn append_uint(out: &mut TextBuffer, n: u64) -> Result<(), OutOfMemory>
    ensures { Adds result out.old.items out.new.items (decimal n) }
{
    out.push_uint(n)?;
    Ok(())
}

/// Appends a number in decimal digits, with `-` before them where it is negative.
#[inline(always)]
pub fn append_int(out: &mut TextBuffer, n: &i64) -> Result<(), OutOfMemory>
    ensures { Adds result out.old.items out.new.items (signed_decimal n.now) }
{
    out.push_int(*n)?;
    Ok(())
}

/// Appends words and a number.
#[inline(always)]
pub fn append_unsigned(out: &mut TextBuffer, words: &str, n: u64) -> Result<(), OutOfMemory>
    ensures { Adds result out.old.items out.new.items (words.now ++ decimal n) }
{
    append_words(out, words)?;
    append_uint(out, n)?;
    Ok(())
}

/// Appends words, a number and a newline.
#[inline(always)]
pub fn append_line(out: &mut TextBuffer, words: &str, n: u64) -> Result<(), OutOfMemory>
    ensures { Adds result out.old.items out.new.items (words.now ++ decimal n ++ codes "\n") }
{
    append_words(out, words)?;
    append_uint(out, n)?;
    append_words(out, "\n")?;
    Ok(())
}

/// Appends words and a number that may be negative.
#[inline(always)]
pub fn append_signed(out: &mut TextBuffer, words: &str, n: &i64) -> Result<(), OutOfMemory>
    ensures { Adds result out.old.items out.new.items (words.now ++ signed_decimal n.now) }
{
    append_words(out, words)?;
    append_int(out, n)?;
    Ok(())
}

/// Ends a writing, given the length that the text had before it: where memory was wanting the text is cut
/// back to that length, and so is as before. Gives what was given.
pub fn settle(
    out: &mut TextBuffer,
    len: usize,
    written: Result<(), OutOfMemory>,
) -> Result<(), OutOfMemory>
    ensures same { result ≡ written }
    ensures ok { OnOk written (out.new.items ≡ out.old.items) }
    ensures err { OnErr written (out.new.items ≡ take len out.old.items) }
{
    if written.is_err() {
        out.truncate(len);
    }
    written
}
