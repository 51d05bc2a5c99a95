ghost use Rattle.journal_text.specs.Laws.{DifferentNumbers, DifferentValues, DifferentTexts, EventsAreApart, OthersBegin, OutputTells};

/// The law of digits: numbers that differ have different digits, decimal ones of any size and hexadecimal ones of 32 bits.
pub fn numbers_that_differ_have_different_digits()
    ensures decimal { DifferentNumbers }
    ensures hexadecimal { DifferentValues }
{}

/// The law of the journal's text: histories that differ have different texts, where each word has a value of 32 bits.
pub fn histories_that_differ_have_different_texts()
    ensures { DifferentTexts }
{}

/// The law of the output: no line of a journal begins with the first word of another part, and each other part begins
/// with its own. So a journal with the other parts after it tells the history.
pub fn the_output_tells_the_history()
    ensures apart { EventsAreApart }
    ensures others { OthersBegin }
    ensures tells { OutputTells }
{}
