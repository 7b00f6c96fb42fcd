// What is proved of the words of patterns: each function stands for the statement that it ensures.
ghost use Rattle.patterns.specs.Laws.{ReadsBack, FitsWords};

// The words of a pattern that may be mean that pattern.
pub fn reads_back()
    ensures { ReadsBack }
{}

// They are 405, each below 2^64.
pub fn fits_words()
    ensures { FitsWords }
{}
