//! What it means that nothing is said, and that what is said is one text.
ghost use Rattle.hurd_lessons.specs.Beside.{MatesAreMutual};
ghost use Rattle.hurd_lessons.specs.Lessons.{NothingBetween};
ghost use Rattle.hurd_lessons.specs.Told.{SeenInSentences, SeenIsOne, TaughtInSentences, TaughtIsOne, ToldApartIsOne, UntaughtWhereUnmoved};

/// A law: what others did taught some tasks nothing exactly where it left what these see as it was.
pub fn untaught_where_unmoved()
    ensures { UntaughtWhereUnmoved }
{}

/// A law: nothing is learned between a view and itself.
pub fn nothing_between()
    ensures { NothingBetween }
{}

/// A law: what is said of what others did is one text, and so are what differs between two worlds and all that some tasks see of one.
pub fn said_in_one_way()
    ensures taught { TaughtIsOne }
    ensures apart { ToldApartIsOne }
    ensures seen { SeenIsOne }
{}

/// A law: what is said of what others did, and of all that is seen, are sentences; so they can be read back.
pub fn said_in_sentences()
    ensures taught { TaughtInSentences }
    ensures seen { SeenInSentences }
{}

/// A law: what is paired in two scripts is of one sort, and each is the other's mate.
pub fn mates_are_mutual()
    ensures { MatesAreMutual }
{}
