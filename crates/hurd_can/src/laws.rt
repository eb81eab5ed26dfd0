//! What the lines of what could be shown mean.
ghost use Rattle.hurd_can.specs.Laws.{FoundWaysShow, HelpersAreExact, OneCouldIsPrinted};

/// A law: one of the others is in a part's line exactly if his help is enough; and two of them are, exactly if their help is enough and neither's alone is.
pub fn helpers_are_exact()
    ensures { HelpersAreExact }
{}

/// A law: of a text one such text is printed.
pub fn one_could_is_printed()
    ensures { OneCouldIsPrinted }
{}

/// A law: a script that is printed for a set of helpers shows the part at the end of the text.
pub fn found_ways_show()
    ensures { FoundWaysShow }
{}
