//! States the laws of journals: they hold of the definitions alone, so the functions do nothing.
ghost use Rattle.day_journal.specs.Headers.{HeadersAreRead};
ghost use Rattle.day_journal.specs.Journals.{CutJournals, OneSpelling};

/// Groups that are written one after the other are read back, whatever they are: a journal has one spelling for each list of
/// groups.
pub fn one_journal_spelling()
    ensures holds { OneSpelling }
{}

/// Of a journal that was cut at any byte, the groups that are whole before the cut are read back, and no other entry. Its end
/// is torn at the last of them, or whole if it was cut there, and never damaged.
pub fn cut_journals()
    ensures holds { CutJournals }
{}

/// A header that was written is read back, whatever follows it.
pub fn headers_are_read()
    ensures holds { HeadersAreRead }
{}
