//! Rows, their parts, and pieces with what is wanted of each.
use std::alloc::Global;
use std::rt::Files;
use std::test::Fail;
use std::{fs, mem};

/// The whole text of a table.
#[derive(Drop)]
pub struct Table {
    text: String,
}

/// A row of a table.
#[derive(Drop)]
pub struct Row<'a> {
    pub name: &'a str,
    pub parts: Vec<Part<'a>>,
}

/// A part of a row. There are no lines where the next mark follows at once.
#[derive(Clone, Copy)]
pub struct Part<'a> {
    pub key: &'a str,
    pub value: &'a str,
    lines: Option<&'a str>,
    is_escaped: bool,
}

/// A piece of a part's text, and what is wanted of it: lines joined by newlines, with none behind the last.
#[derive(Drop)]
pub struct Piece {
    pub text: Vec<u8>,
    pub wanted: Vec<u8>,
}

/// The first line of a text, and the lines behind it where there are any.
fn first_line(text: &str) -> (&str, Option<&str>) {
    match text.split_once('\n') {
        Some((first, lines)) => (first, Some(lines)),
        None => (text, None),
    }
}

impl Table {
    /// Reads the file of this name in the current folder.
    pub fn open<R: Files + AllocGlobal>(rt: &R, name: &str) -> Result<Table, Fail> {
        Ok(Table {
            text: fs::read_to_string(rt, name)?,
        })
    }

    /// The rows in their order.
    pub fn rows(&self, alloc: Global) -> Result<Vec<Row<'_>>, Fail> {
        let mut rows = Vec::new(alloc);
        for text in self.text.as_str().split("\n=== ").skip(1) {
            rows.push(Row::of(alloc, text.strip_suffix('\n').unwrap_or(text))?)?;
        }
        Ok(rows)
    }
}

impl<'a> Row<'a> {
    /// The row whose name is the first line.
    fn of(alloc: Global, text: &'a str) -> Result<Row<'a>, Fail> {
        let mut texts = text.split("\n--- ");
        let (name, lines) = first_line(texts.next().unwrap_or(""));
        let mut parts = Vec::new(alloc);
        if lines.is_some() {
            parts.push(Part {
                key: "",
                value: "",
                lines,
                is_escaped: false,
            })?;
        }
        for text in texts {
            parts.push(Part::of(text))?;
        }
        Ok(Row { name, parts })
    }

    /// The first part with this key.
    pub fn part(&self, key: &str) -> Option<Part<'a>> {
        self.parts.iter().find(|part| part.key == key).copied()
    }

    /// The value of the first part with this key; empty where there is none.
    pub fn value(&self, key: &str) -> &'a str {
        match self.part(key) {
            Some(part) => part.value,
            None => "",
        }
    }
}

impl<'a> Part<'a> {
    /// The part whose key and value are the first line.
    fn of(text: &'a str) -> Part<'a> {
        let (head, lines) = first_line(text);
        let (head, is_escaped) = match head.strip_suffix(" escaped") {
            Some(head) => (head, true),
            None => (head, false),
        };
        let (key, value) = head.split_once(' ').unwrap_or((head, ""));
        Part {
            key,
            value,
            lines,
            is_escaped,
        }
    }

    /// The text, each line with its newline.
    pub fn text(&self, alloc: Global) -> Result<Vec<u8>, Fail> {
        let mut text = Vec::new(alloc);
        if let Some(lines) = self.lines {
            self.append(lines, &mut text)?;
        }
        Ok(text)
    }

    /// The text's pieces: lines up to a line that begins with `=>`, which says behind a space what is wanted, as do those
    /// that follow it at once.
    pub fn pieces(&self, alloc: Global) -> Result<Vec<Piece>, Fail> {
        let mut pieces = Vec::new(alloc);
        let mut piece = Piece::new(alloc);
        for line in self.lines.unwrap_or("=>").split('\n') {
            if let Some(wanted) = line.strip_prefix("=>") {
                self.append(
                    wanted.strip_prefix(' ').unwrap_or(wanted),
                    &mut piece.wanted,
                )?;
            } else {
                if !piece.wanted.is_empty() {
                    pieces.push(mem::replace(&mut piece, Piece::new(alloc)).joined())?;
                }
                self.append(line, &mut piece.text)?;
            }
        }
        if piece.wanted.is_empty() {
            return Err(Fail::new("a piece without what is wanted of it"));
        }
        pieces.push(piece.joined())?;
        Ok(pieces)
    }

    /// Appends lines as they are, or what they say by escapes, and a newline.
    fn append(&self, lines: &str, out: &mut Vec<u8>) -> Result<(), Fail> {
        if self.is_escaped {
            append_unescaped(lines, out)?;
        } else {
            out.extend_from_slice(lines.as_bytes())?;
        }
        out.push(b'\n')?;
        Ok(())
    }
}

impl Piece {
    fn new(alloc: Global) -> Piece {
        Piece {
            text: Vec::new(alloc),
            wanted: Vec::new(alloc),
        }
    }

    /// Without the newline behind the last line.
    fn joined(mut self) -> Piece {
        let _ = self.text.pop();
        let _ = self.wanted.pop();
        self
    }
}

/// Appends what a text says by escapes. Between backslashes stand a letter with what follows it, or nothing where the
/// backslash itself is meant.
fn append_unescaped(text: &str, out: &mut Vec<u8>) -> Result<(), Fail> {
    let mut is_plain = true;
    for part in text.split('\\') {
        if is_plain {
            out.extend_from_slice(part.as_bytes())?;
            is_plain = false;
        } else if part.is_empty() {
            out.push(b'\\')?;
            is_plain = true;
        } else {
            let Some((byte, rest)) = escape(part) else {
                return Err(Fail::new(format_args!("no escape: {part}")));
            };
            out.push(byte)?;
            out.extend_from_slice(rest.as_bytes())?;
        }
    }
    if is_plain {
        return Err(Fail::new(format_args!("no escape at the end: {text}")));
    }
    Ok(())
}

/// The byte that an escape means, and what follows it.
fn escape(text: &str) -> Option<(u8, &str)> {
    match text.split_at_checked(1)? {
        ("n", rest) => Some((b'\n', rest)),
        ("r", rest) => Some((b'\r', rest)),
        ("t", rest) => Some((b'\t', rest)),
        ("x", rest) => {
            let (digits, rest) = rest.split_at_checked(2)?;
            Some((u8::from_str_radix(digits, 16).ok()?, rest))
        }
        _ => None,
    }
}
