//! What a witness is worth, and that one text is printed.
ghost use Rattle.std.specs.Prelude.{ℕ, List};
ghost use Rattle.hurd_dialogue.specs.Sorts.{Sort};
ghost use Rattle.hurd_teaching.specs.Programs.{PrintsOneText};
ghost use Rattle.hurd_witnesses.specs.Finding.{finding};
ghost use Rattle.hurd_witnesses.specs.Laws.{WitnessTells};

/// A law: a witness is answered otherwise by the transcripts of the two texts that it is added to.
pub fn witnesses_tell()
    ensures { WitnessTells }
{}

/// A law: of a text one text is printed for those that WHO names.
pub fn one_finding_is_printed()
    ensures { (sort : Sort) (word : List ℕ) → PrintsOneText (finding sort word) }
{}
