//! Names of samples and of labels.
ghost use Rattle.std.specs.Prelude.{◌≡◌, ◌≤◌, length, slice_index};
ghost use Rattle.std.specs.Char.{is_ascii_digit};
ghost use Rattle.std.specs.List.{position, position_or_len};
ghost use Rattle.std.specs.Str.{IsUtf8, IsCharBoundary};
ghost use Rattle.openmetrics_text.specs.Names.{is_label_byte, is_of, ends, name_len, is_label, is_name};

/// An alphabet of names.
#[derive(Clone, Copy, Debug, PartialEq, Eq)]
pub(crate) enum Alphabet {
    /// That of labels: letters, digits and `_`.
    Labels,
    /// That of samples: the same, and the colon.
    Samples,
}

/// Whether a byte is of the alphabet of labels.
fn is_label_byte(byte: u8) -> bool
    ensures { result ≡ is_label_byte byte }
{
    byte.is_ascii_alphabetic() || byte.is_ascii_digit() || byte == b'_'
}

/// Whether a byte is of an alphabet.
#[inline(always)]
fn is_of(alphabet: Alphabet, byte: u8) -> bool
    ensures { result ≡ is_of alphabet byte }
{
    match alphabet {
        Alphabet::Labels => is_label_byte(byte),
        Alphabet::Samples => is_label_byte(byte) || byte == b':',
    }
}

/// The first byte that isn't of an alphabet.
#[inline(always)]
fn first_beyond(alphabet: Alphabet, bytes: &[u8]) -> Option<usize>
    ensures { result ≡ position (ends alphabet) bytes.now }
{
    bytes.iter().position(|byte| !is_of(alphabet, *byte))
}

/// The offset of the first byte that isn't of an alphabet; the length where there is none.
#[inline(always)]
fn name_end(alphabet: Alphabet, bytes: &[u8]) -> usize
    ensures { result ≡ position_or_len (ends alphabet) bytes.now }
{
    first_beyond(alphabet, bytes).unwrap_or(bytes.len())
}

/// Whether the first byte is a digit.
pub(crate) fn begins_with_digit(bytes: &[u8]) -> bool
    ensures { result ≡ is_ascii_digit (slice_index bytes.now 0) }
{
    match bytes {
        [first, ..] => first.is_ascii_digit(),
        [] => false,
    }
}

/// How many bytes the name in an alphabet has that a text begins with.
#[inline(always)]
#[tactic(auto, unfolding(crate::specs::Names::name_len))]
pub(crate) fn name_len(alphabet: Alphabet, bytes: &[u8]) -> usize
    ensures value { result ≡ name_len (ends alphabet) bytes.now }
    ensures bound { result ≤ length bytes.now }
    ensures boundary { IsUtf8 bytes.now → IsCharBoundary bytes.now result }
{
    if begins_with_digit(bytes) {
        return 0;
    }
    name_end(alphabet, bytes)
}

/// Whether a whole text is the name of a label, or empty.
pub(crate) fn is_label(text: &str) -> bool
    ensures { result ≡ is_label text.now }
{
    name_len(Alphabet::Labels, text.as_bytes()) == text.len()
}

/// Whether a whole text is the name of a sample.
pub(crate) fn is_name(text: &str) -> bool
    ensures { result ≡ is_name text.now }
{
    name_len(Alphabet::Samples, text.as_bytes()) == text.len() && !text.is_empty()
}
