//! What the text of a journal and its reading have to do with each other.
ghost use Rattle.journal_reader.specs.Meaning.{FaultIsWithin, FaultsStay, WrittenIsRead, ReadIsWritten, FrontsAreTorn};
ghost use Rattle.journal_reader.specs.Meaning.{FaultsAreFinal, TornGoesOn};

/// The text of a journal that can be spelled is read as it.
pub fn written_is_read()
    ensures { WrittenIsRead }
{}

/// A proper front of such a text is torn at its length, where it has the whole first line.
pub fn fronts_are_torn()
    ensures { FrontsAreTorn }
{}

/// Where a whole line is at fault, no such text begins with the text up to the end of that line.
pub fn faults_are_final()
    ensures { FaultsAreFinal }
{}

/// A text that no journal goes on from stays one, at the same place, whatever follows.
pub fn faults_stay()
    ensures { FaultsStay }
{}

/// A fault is in the text, or at its end.
pub fn fault_is_within()
    ensures { FaultIsWithin }
{}

/// What is read can be spelled, and its text is what was read.
pub fn read_is_written()
    ensures { ReadIsWritten }
{}

/// The whole lines of a torn text begin the text of a journal that can be spelled.
pub fn torn_goes_on()
    ensures { TornGoesOn }
{}
