//! Plain bytes, which no format of texts escapes.
ghost use Rattle.std.specs.Prelude.{◌≡◌, if◌then◌else◌};
ghost use Rattle.std.specs.List.{list_all};
ghost use Rattle.metric.specs.Plain.{is_plain};

/// `0` at the index of each plain byte, and `1` at every other one.
static MARKS: [u8; 256] = *b"\
    11111111111111111111111111111111\
    11111111111110010000000000011111\
    10000000000000000000000000011110\
    10000000000000000000000000011111\
    11111111111111111111111111111111\
    11111111111111111111111111111111\
    11111111111111111111111111111111\
    11111111111111111111111111111111";

/// The `0` of a plain byte, or the `1` of another.
#[inline(always)]
fn mark_of(b: u8) -> u8
    ensures { result ≡ (if is_plain b then 48 else 49) }
{
    MARKS[b as usize]
}

/// Is it a plain byte: an upper-case letter, a lower-case letter, a digit, or one of `_ . - :`?
#[inline]
pub fn is_plain(b: u8) -> bool
    ensures { result ≡ is_plain b }
{
    mark_of(b) == b'0'
}

/// Are all bytes plain? Each is looked at, with no branch on what it is.
pub(crate) fn are_plain(bytes: &[u8]) -> bool
    ensures { result ≡ list_all is_plain bytes.now }
{
    let mut marks = b'0';
    for b in bytes {
        marks |= mark_of(*b);
    }
    marks == b'0'
}
