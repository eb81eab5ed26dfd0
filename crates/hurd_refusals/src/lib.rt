//! By which errors each of the thirty-seven calls may be refused.
#![tactic(auto)]

ghost use Rattle.hurd_refusals.specs.Errors.{LinksAreShort, RefusedByName};

/// Two laws. In a sound world each call is refused by one of the errors that `specs/Errors` lists for it, or not at all. ENOMEM is no error of the written machine, so
/// it is in no list. If the world has a link whose text is longer than a path, ENAMETOOLONG is possible too; but no words make such a link, and a link keeps its text.
pub fn calls_are_refused_by_name()
    ensures named { RefusedByName }
    ensures short { LinksAreShort }
{}
