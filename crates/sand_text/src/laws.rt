//! The laws of a pile's text, as contracts of functions that do nothing.

ghost use Rattle.sand_text.specs.Laws.{StrangeByte, NumbersAreRuns, ReadAgain};

/// The first strange byte is neither a digit nor white space, and all such bytes before it are letters `c`. If there is
/// none, all such bytes of the text are letters `c`.
pub fn strange_byte()
    ensures { StrangeByte }
{}

/// The numbers of a text without a strange byte are its longest runs of digits.
pub fn numbers_are_runs()
    ensures { NumbersAreRuns }
{}

/// The written text of a pile is read as the same pile, or refused as Side if a side is over 256.
pub fn read_again()
    ensures { ReadAgain }
{}
