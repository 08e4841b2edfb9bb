//! Laws of the scenarios that are written: each is the contract of a call that does nothing.

ghost use Rattle.scen_lines.specs.Laws.{WrittenIsRead, NamesAreRead, WordsNameMaps};
ghost use Rattle.scen_lines.specs.Laws.{CostsTellLines, CostsAreReadable};

/// What is written is read as the entries that were written, and as no others.
pub fn written_is_read()
    ensures { WrittenIsRead }
{}

/// And with the names that were written.
pub fn names_are_read()
    ensures { NamesAreRead }
{}

/// The name that a word gives a map can stand in an entry.
pub fn words_name_maps()
    ensures { WordsNameMaps }
{}

/// The bucket and the length that are listed are those of the cost, and no others are.
pub fn costs_tell_lines()
    ensures { CostsTellLines }
{}

/// At most 2^24 moves of each kind have a bucket and a length that are read.
pub fn costs_are_readable()
    ensures { CostsAreReadable }
{}
