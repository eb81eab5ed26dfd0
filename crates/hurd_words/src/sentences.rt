//! What it means that what is printed can be read back.
ghost use Rattle.hurd_words.specs.Turns.{ReadsBack, SpellsBack};

/// A law: what is printed of things that are done one after another is read in one way, and so are the words and names of users in it.
pub fn read_back()
    ensures turns { ReadsBack }
    ensures spelling { SpellsBack }
{}
