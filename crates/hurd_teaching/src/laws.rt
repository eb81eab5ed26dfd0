//! What it means that such outputs can be read back, and that what is printed is one text.
ghost use Rattle.std.specs.Prelude.{ℕ, Bool, List, Option};
ghost use Rattle.hurd_dialogue.specs.Sorts.{Sort};
ghost use Rattle.hurd_teaching.specs.Drawings.{drawing};
ghost use Rattle.hurd_teaching.specs.Lessons.{LessonsAreSentences};
ghost use Rattle.hurd_teaching.specs.Limits.{ShortenedAreSentences};
ghost use Rattle.hurd_teaching.specs.Programs.{PrintsOneText, learning, seeing};
ghost use Rattle.hurd_teaching.specs.Reading.{ReadBack};

/// A law: an output of such a program tells what was done, what was learned by it, and what was seen then.
pub fn outputs_are_read_back()
    ensures { ReadBack }
{}

/// A law: of a text one text is printed for those that WHO names.
pub fn one_text_is_printed()
    ensures { (sort : Sort) (most : Option ℕ) (word : List ℕ) → PrintsOneText (learning sort most word) }
{}

/// A law: of a text one text is printed of what those that WHO names see at its end.
pub fn one_sight_is_printed()
    ensures { (sort : Sort) (most : Option ℕ) (word : List ℕ) → PrintsOneText (seeing sort most word) }
{}

/// A law: what is said and shown is sentences, so that an output can be read back.
pub fn lessons_are_sentences()
    ensures { LessonsAreSentences }
{}

/// A law: so is what is printed of it, if that is limited.
pub fn shortened_are_sentences()
    ensures { ShortenedAreSentences }
{}

/// A law: of a text one picture is drawn.
pub fn one_picture_is_drawn()
    ensures { (sort : Sort) (can : Bool) (who : Option (List ℕ)) → PrintsOneText (drawing sort can who) }
{}
