//! Laws of parts.
ghost use Rattle.text_parts.specs.Escaped.{EscapedIsPart};
ghost use Rattle.text_parts.specs.Grammar.{PartIsRead, ReadIsPart};
ghost use Rattle.text_parts.specs.Split.{JoinedAreSplit, SplitAreJoined, FirstIsCut, CutIsFirst};
ghost use Rattle.text_parts.specs.Words.{SpacedAreWords, WordsAreSpaced};

/// A part before an end is read whole, and as what it means.
pub fn part_is_read()
    ensures { PartIsRead }
{}

/// Each text begins with a part, which is the one that is read, and its end stands behind it.
pub fn read_is_part()
    ensures { ReadIsPart }
{}

/// A text whose marks are escaped is a part that means the text, before an end.
pub fn escaped_is_part()
    ensures { EscapedIsPart }
{}

/// Texts without a separator, joined by it, are split into these texts; and a text is its parts joined by the
/// separator, which no part has.
pub fn parts_are_split()
    ensures joined { JoinedAreSplit }
    ensures split { SplitAreJoined }
{}

/// A text without a byte, and with the byte and a rest behind it, is cut behind the text; and a text is its
/// first part, which lacks the byte, alone or with the byte and what stands behind it.
pub fn text_is_cut()
    ensures cut { FirstIsCut }
    ensures first { CutIsFirst }
{}

/// Texts without spaces that aren't empty, with one or more spaces between them and any number around, are the
/// words of what is written so; and each text is written so.
pub fn words_are_spaced()
    ensures words { SpacedAreWords }
    ensures spaced { WordsAreSpaced }
{}
