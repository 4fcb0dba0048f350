//! The sections of a line: its head, its parts, and the tags behind `|#`.
ghost use Rattle.std.specs.Prelude.{◌≡◌, ◌≤◌, ◌+◌, length, drop, IfOk};
ghost use Rattle.text_parts.specs.Chain.{Gives};
ghost use Rattle.text_parts.specs.Split.{Fits};
ghost use Rattle.statsd_text.specs.Sections.{is_marker, marker_len, before_marker, behind_marker, sections};
ghost use Rattle.statsd_text.specs.Views.{sections_view, part_at};

use crate::fault::{StatsdFault, StatsdKind, fault};
use text_parts::{Placed, ReadError, first_part};

/// The sections of a line.
#[derive(Clone, Copy)]
pub(crate) struct Line<'a> {
    /// What stands before the first `:`.
    pub head: &'a str,
    /// What stands behind it, up to the first `|#`.
    pub parts: Placed<'a>,
    /// What stands behind that, which is empty where there is no `|#`.
    pub tags: Placed<'a>,
}

/// Whether `|#` stands at an offset.
fn marker_at(bytes: &[u8], i: usize) -> bool
    requires { i ≤ length bytes.now }
    ensures { result ≡ is_marker (drop i bytes.now) }
{
    match &bytes[i..] {
        [b'|', next, ..] => *next == b'#',
        _ => false,
    }
}

/// How many bytes stand before the first `|#`; all of them where there is none.
fn marker_len(bytes: &[u8]) -> usize
    ensures value { result ≡ marker_len bytes.now }
    ensures bound { result ≤ length bytes.now }
{
    let mut i = 0;
    while i < bytes.len() {
        if marker_at(bytes, i) {
            return i;
        }
        i += 1;
    }
    i
}

/// What stands before the first `|#`, and what stands behind it; where there is none the whole text, and
/// nothing.
fn cut_at_marker(text: &str) -> (&str, &str)
    ensures front { result.0.now ≡ before_marker text.now }
    ensures len { length result.0.now ≡ marker_len text.now }
    ensures behind { result.1.now ≡ behind_marker text.now }
    ensures bound { length result.0.now + length result.1.now ≤ length text.now }
{
    let at = marker_len(text.as_bytes());
    if at == text.len() {
        return (text, "");
    }
    let (front, _) = text.split_at(at);
    let (_, behind) = text.split_at(at + 2);
    (front, behind)
}

/// The sections of a line.
#[tactic(auto, unfolding(crate::specs::Sections::sections))]
pub(crate) fn sections(piece: &str) -> Result<Line<'_>, ReadError<StatsdFault>>
    ensures gives { Gives sections_view result (sections piece.now) }
    ensures parts { IfOk result (λ line. Fits (part_at line.parts)) }
    ensures tags { IfOk result (λ line. Fits (part_at line.tags)) }
    ensures head { IfOk result (λ line. length line.head.now ≤ length piece.now) }
{
    let (head, rest) = first_part(b':', piece);
    let Some(rest) = rest else {
        return Err(fault(StatsdKind::NoColon, piece.len()));
    };
    let (parts, tags) = cut_at_marker(rest);
    let start = head.len() + 1;
    Ok(Line {
        head,
        parts: Placed {
            offset: start,
            text: parts,
        },
        tags: Placed {
            offset: start + parts.len() + 2,
            text: tags,
        },
    })
}
