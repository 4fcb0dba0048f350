//! The pieces that bytes are cut into.
use crate::{Calls, shown};
use agent_base::{CutKind, MemSource, Pieces};
use scenario_tables::Row;
use std::alloc::Global;
use std::test::Fail;

/// How a source's bytes are read and cut.
#[derive(Drop)]
pub struct PieceCalls {
    kind: CutKind,
    /// The reads that fail.
    fails: Vec<u64>,
    /// How many bytes `x` stand before a call's.
    before: usize,
    /// How many bytes a read gives at most.
    most: usize,
}

/// A piece in quotes, or how many bytes a long one has.
fn piece_text(alloc: Global, piece: &[u8]) -> Result<String, Fail> {
    if piece.len() < 100 {
        Ok(format!(in alloc; "\"{}\"", str::from_utf8(piece)?)?)
    } else {
        Ok(format!(in alloc; "{} bytes", piece.len())?)
    }
}

impl Calls for PieceCalls {
    fn begin(alloc: Global, row: &Row<'_>, word: &str) -> Result<PieceCalls, Fail> {
        let kind = match row.value("cut") {
            "lines" => CutKind::Lines,
            _ => CutKind::Expositions,
        };
        let mut fails = Vec::new(alloc);
        for number in row.value("fails").split_whitespace() {
            fails.push(number.parse().unwrap_or(0))?;
        }
        Ok(PieceCalls {
            kind,
            fails,
            before: row.value("before").parse().unwrap_or(0),
            most: word.parse().unwrap_or(1),
        })
    }

    /// The call is the bytes; each piece is given back before the next.
    fn make(&mut self, alloc: Global, call: &str) -> Result<String, Fail> {
        let mut bytes = vec![in alloc; b'x'; self.before]?;
        bytes.extend_from_slice(call.as_bytes())?;
        let mut source = MemSource::new(alloc, bytes, self.fails.clone()?, self.most.max(1));
        let mut pieces = Pieces::new(alloc, self.kind)?;
        let mut out = String::new(alloc);
        for _ in 0..9 {
            let answer = match pieces.next(&mut source) {
                Ok(Some(piece)) => {
                    let text = piece_text(alloc, piece.bytes())?;
                    pieces.take_back(piece);
                    text
                }
                Ok(None) => break,
                Err(fault) => shown(alloc, fault)?,
            };
            out.push_str(answer.as_str())?;
            out.push('\n')?;
        }
        out.push_str("end")?;
        Ok(out)
    }
}
