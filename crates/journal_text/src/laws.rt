//! What the text of a journal means.
ghost use Rattle.journal_text.specs.JournalText.{TextGrows, FrontsStay, EqualAreSame};
ghost use Rattle.journal_text.specs.Known.{KnownStays, NothingStays};

/// A journal grows by the text of each entry: with one more entry its text is the text before,
/// followed by that of the entry. So the text of a front of a journal is a front of its text.
pub fn text_grows()
    ensures one { TextGrows }
    ensures fronts { FrontsStay }
{}

/// `=` stands exactly where two metrics are the same.
pub fn equal_are_same()
    ensures { EqualAreSame }
{}

/// The line of an entry is the same with what is known of it as without, where that is so, and where nothing is known.
pub fn known_stays()
    ensures known { KnownStays }
    ensures nothing { NothingStays }
{}
