//! The texts of rows, and what comes of them.
use scenario_tables::{Part, Row};
use std::alloc::Global;
use std::fmt::{Display, Write};
use std::str;
use std::test::Fail;
use text_buffer::TextBuffer;

/// Appends words.
pub fn put<D: Display + Drop>(out: &mut TextBuffer, words: D) -> Result<(), Fail> {
    write!(out, "{words}")?;
    Ok(())
}

/// What stands before the first such mark in a text, and what behind it.
pub fn cut<'a>(text: &'a str, mark: &str) -> Result<(&'a str, &'a str), Fail> {
    match text.split_once(mark) {
        Some(parts) => Ok(parts),
        None => Err(Fail::new(format_args!("no {mark} in {text}"))),
    }
}

/// The text of a part of a row, each line with its newline; the empty one where the row has no such part.
pub fn setting(alloc: Global, row: &Row, key: &str) -> Result<String, Fail> {
    match row.part(key) {
        Some(part) => Ok(String::from_utf8(part.text(alloc)?)?),
        None => Ok(String::new(alloc)),
    }
}

/// Appends words so many times, with 0, 1, 2 and so on in the place of their `N`, where they have one.
fn append_copies(count: u32, words: &str, out: &mut TextBuffer) -> Result<(), Fail> {
    match words.split_once('N') {
        Some((front, back)) => {
            for i in 0..count {
                put(out, format_args!("{front}{i}{back}"))?;
            }
        }
        None => {
            for _copy in 0..count {
                out.extend_from_slice(words.as_bytes())?;
            }
        }
    }
    Ok(())
}

/// Appends a text in which `<<COUNT WORDS>>` stands for the words so many times.
fn append_repeated(text: &str, out: &mut TextBuffer) -> Result<(), Fail> {
    for part in text.split("<<") {
        match part.split_once(">>") {
            Some((mark, rest)) => {
                let (count, words) = cut(mark, " ")?;
                append_copies(count.parse()?, words, out)?;
                out.extend_from_slice(rest.as_bytes())?;
            }
            None => out.extend_from_slice(part.as_bytes())?,
        }
    }
    Ok(())
}

/// A piece, with the lines before and behind it that the row says, and with what is repeated where it says so;
/// with a newline behind it where pieces are whole lines.
pub fn whole(alloc: Global, row: &Row, part: &Part, piece: &[u8]) -> Result<Vec<u8>, Fail> {
    let mut text = TextBuffer::new(alloc);
    text.extend_from_slice(setting(alloc, row, "before")?.as_bytes())?;
    if row.part("repeats").is_some() {
        append_repeated(str::from_utf8(piece)?, &mut text)?;
    } else {
        text.extend_from_slice(piece)?;
    }
    if part.value == "whole lines" {
        text.push(b'\n')?;
    }
    text.extend_from_slice(setting(alloc, row, "behind")?.as_bytes())?;
    Ok(text.into_vec())
}
