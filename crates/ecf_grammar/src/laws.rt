//! What holds of every reading, whoever does it.

ghost use Rattle.ecf_grammar.specs.Readings.{OneReading, ReadOrRefused, OneFault, TokensAreSpelled, TokensStandInOrder, PiecesHaveBytes, ReadingGoesOn};
ghost use Rattle.ecf_grammar.specs.Spellings.{LexemesBeginApart};

/// Longest match leaves no choice: a text reads as one list of tokens at most.
pub fn one_reading()
    ensures { OneReading }
{}

/// A text that reads as tokens has no fault.
pub fn read_or_refused()
    ensures { ReadOrRefused }
{}

/// A text has one fault at most, at one place.
pub fn one_fault()
    ensures { OneFault }
{}

/// The tokens of a text lie in it in order, and each one's bytes are spelled as its kind says.
pub fn tokens_in_place()
    ensures spelled { TokensAreSpelled }
    ensures in_order { TokensStandInOrder }
{}

/// A reading goes on by the longest piece at its end, be it a token or not; and each piece has some bytes, so that it ends.
pub fn reading_goes_on()
    ensures further { ReadingGoesOn }
    ensures some { PiecesHaveBytes }
{}

/// What begins a name, a number, a sign and a blank differs. A reserved word begins as a name does, and no sign of one byte or two
/// begins a comment.
pub fn lexemes_begin_apart()
    ensures { LexemesBeginApart }
{}
