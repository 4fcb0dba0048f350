//! Texts in room that stands ready.
use crate::pieces::put;
use std::alloc::{AllocError, Global};
use std::str;
use std::test::Fail;
use text_buffer::{TextBuffer, WINDOW};

/// A table by which each byte is a cross.
static CROSSES: [u8; 256] = [b'x'; 256];

/// Appends a buffer's text and a newline.
fn show(buffer: &TextBuffer, out: &mut TextBuffer) -> Result<(), Fail> {
    let text = str::from_utf8(buffer.as_slice())?;
    put(out, format_args!("{text}, empty {}\n", buffer.is_empty()))
}

/// Appends by each call that may ask for memory.
fn grow(buffer: &mut TextBuffer, text: &str) -> Result<(), AllocError> {
    buffer.extend_from_slice(text.as_bytes())?;
    buffer.push(b'.')?;
    buffer.extend_from_front(b"first of them, and no other", 5)?;
    buffer.push_uint(0)?;
    buffer.push(b' ')?;
    buffer.push_uint(u64::MAX)?;
    buffer.push(b' ')?;
    buffer.push_int(i64::MIN)?;
    buffer.push(b' ')?;
    buffer.push_int(42)
}

/// Appends by each call that asks for none.
fn put_ready(buffer: &mut TextBuffer) -> Result<(), AllocError> {
    buffer.reserve(WINDOW + 6)?;
    buffer.put_byte(b'-');
    buffer.put_slice(b"slice");
    buffer.put_front(b"abcdefghijklmnopqrstuvwxyz", 3);
    Ok(())
}

/// Changes bytes of a text.
fn change(buffer: &mut TextBuffer) {
    if 1 < buffer.len() {
        buffer.set(1, b'_');
    }
    buffer.translate(buffer.len().min(3), &CROSSES);
    buffer.shrink_to(1);
}

/// Appends a buffer's text behind its calls.
pub fn append_buffered(alloc: Global, text: &str, out: &mut TextBuffer) -> Result<(), Fail> {
    let mut buffer = TextBuffer::with_room(alloc, 4)?;
    show(&buffer, out)?;
    grow(&mut buffer, text)?;
    show(&buffer, out)?;
    buffer.truncate(2);
    put_ready(&mut buffer)?;
    show(&buffer, out)?;
    change(&mut buffer);
    let mut again = TextBuffer::of(buffer.into_vec());
    show(&again, out)?;
    again.clear();
    show(&again, out)
}
