//! Parts of texts, and texts that grow.
use crate::pieces::put;
use fixed_num::OutOfMemory;
use std::alloc::Global;
use std::str;
use std::test::Fail;
use text_buffer::TextBuffer;
use text_parts::{
    Marks, Part, Placed, Separated, Words, append_bytes, append_escaped, append_escaped_byte,
    append_line, append_numbers, append_signed, append_unsigned, append_words, first_part,
    part_len, part_text, plain_bytes, settle,
};

/// A key of line protocol.
const KEY: Part = Part {
    ends: [b'=', b',', b' '],
    escapes: [b'=', b',', b' '],
    newlines: false,
};

/// The value of a label of OpenMetrics.
pub const LABEL: Part = Part {
    ends: [b'"', b'"', b'"'],
    escapes: [b'"', b'\\', b'n'],
    newlines: true,
};

/// Where texts begin whose parts have offsets.
const OFFSET: usize = 3;

/// Appends how many bytes the part at the front of a text has, and what it says.
pub fn append_part(
    alloc: Global,
    part: &Part,
    text: &[u8],
    out: &mut TextBuffer,
) -> Result<(), Fail> {
    let len = part_len(part, text);
    let plain = plain_bytes(alloc, part, &text[..len])?;
    let plain = str::from_utf8(plain.as_slice())?;
    put(out, format_args!("bytes {len}\nplain '{plain}'\n"))
}

/// Appends what a key at the front of a text says, as bytes and as a text.
pub fn append_key(alloc: Global, text: &str, out: &mut TextBuffer) -> Result<(), Fail> {
    append_part(alloc, &KEY, text.as_bytes(), out)?;
    if text.is_char_boundary(0) {
        let text = part_text(alloc, &KEY, text, 0)?;
        put(out, format_args!("text '{text}'\n"))?;
    }
    Ok(())
}

/// Appends the parts between the commas of a text, each with its offset.
pub fn append_separated(text: &str, out: &mut TextBuffer) -> Result<(), Fail> {
    let mut parts = Separated::of(
        b',',
        Placed {
            offset: OFFSET,
            text,
        },
    );
    for _part in 0..u64::MAX {
        match parts.next() {
            Some(part) => put(out, format_args!("{} {:?}\n", part.offset, part.text))?,
            None => break,
        }
    }
    Ok(())
}

/// Appends what stands before the first `=` of a text, and what behind it.
pub fn append_cut(text: &str, out: &mut TextBuffer) -> Result<(), Fail> {
    let (key, value) = first_part(b'=', text);
    put(out, format_args!("{key:?} {value:?}\n"))
}

/// Appends the words of a text, each with its offset.
pub fn append_offsets(text: &str, out: &mut TextBuffer) -> Result<(), Fail> {
    let mut words = Words::of(Placed {
        offset: OFFSET,
        text,
    });
    for _word in 0..u64::MAX {
        match words.next() {
            Some(word) => put(out, format_args!("{} {:?}\n", word.offset, word.text))?,
            None => break,
        }
    }
    Ok(())
}

/// What each call appends to a text.
fn grow(text: &mut TextBuffer) -> Result<(), OutOfMemory> {
    append_words(text, " words ")?;
    append_bytes(text, b"bytes")?;
    append_numbers(text, &[(" a ", 0), (" b ", 10)], " end")?;
    append_unsigned(text, " u ", u64::MAX)?;
    append_signed(text, " i ", &i64::MIN)?;
    append_line(text, " n ", 7)
}

/// Appends a text with what each call appends to it, and what is left of it after a call that failed.
pub fn append_text(alloc: Global, text: &str, out: &mut TextBuffer) -> Result<(), Fail> {
    let mut grown = TextBuffer::of(Vec::from_slice(alloc, text.as_bytes())?);
    grow(&mut grown)?;
    out.extend_from_slice(grown.as_slice())?;
    let settled = settle(&mut grown, text.len(), Err(OutOfMemory));
    out.extend_from_slice(grown.as_slice())?;
    put(out, format_args!("\n{settled:?}\n"))
}

/// Appends a text and a newline as they stand in the value of a label of OpenMetrics.
pub fn append_written_label(text: &str, out: &mut TextBuffer) -> Result<(), Fail> {
    let label = Marks {
        bytes: [b'"', b'\\', b'\n'],
        written: [b'"', b'\\', b'n'],
    };
    append_escaped(out, &label, text.as_bytes())?;
    append_escaped_byte(out, &label, b'\n')?;
    out.push(b'\n')?;
    Ok(())
}
