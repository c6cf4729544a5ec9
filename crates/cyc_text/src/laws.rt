// What the definitions of lines and words mean for whoever writes a text.
ghost use Rattle.cyc_text.specs.Spans.{FirstLinesAreUnique, FirstWordsAreUnique};
ghost use Rattle.cyc_text.specs.Number.{TestTellsNumbers};
ghost use Rattle.cyc_text.specs.ReadBack.{WordsArePlain, WordsReadBack, LinesReadBack, NumbersAreWords, NumbersReadBack};

/// Each word of a line has a byte, and neither a space, a tab nor a `#`.
pub fn words_are_plain()
    ensures { WordsArePlain }
{}

/// Words that are written with one space between each two are the words of that line.
pub fn words_are_read_back()
    ensures { WordsReadBack }
{}

/// Lines that are written with a line feed behind each are the lines of that text.
pub fn lines_are_read_back()
    ensures { LinesReadBack }
{}

/// At most one span is the first line of a text from a place on.
pub fn first_lines_are_unique()
    ensures { FirstLinesAreUnique }
{}

/// At most one span is the first word of a line from a place on.
pub fn first_words_are_unique()
    ensures { FirstWordsAreUnique }
{}

/// The test in the definition of a number's value passes just the words that are numbers.
pub fn numbers_are_told()
    ensures { TestTellsNumbers }
{}

/// A number of at most 19 digits that is written in decimal is a word, and is read back.
pub fn numbers_are_read_back()
    ensures words { NumbersAreWords }
    ensures read_back { NumbersReadBack }
{}
