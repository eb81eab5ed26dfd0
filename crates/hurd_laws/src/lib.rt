//! The step of a call, runs of calls, and the laws on what a set of tasks can learn.
#![tactic(auto)]

ghost use Rattle.hurd_laws.specs.After.{AfterRenamed, OwnFromLooks};
ghost use Rattle.hurd_laws.specs.Coalitions.{NeverTellsWithout, NeverWithout, OnlyMade, OnlyTogether, SeesMore, ViewsShrink};
ghost use Rattle.hurd_laws.specs.ComesToSee.{ComesToSee, ReachedBySending};
ghost use Rattle.hurd_laws.specs.Integrity.{Integrity};
ghost use Rattle.hurd_laws.specs.Paths.{PathStays};
ghost use Rattle.hurd_laws.specs.Refusals.{AnyOrder, RefusedChangesNothing, RefusedTouchesNothing};
ghost use Rattle.hurd_laws.specs.Spared.{IntegrityRun};
ghost use Rattle.hurd_laws.specs.Laws.{ChangesTouched, Confined, ConfinedRun, GoneUnseen, Isolated, IsolatedByView, NeverWantsMemory, OthersUnseen, OwnFromView, QuietUnmoved, SideBySide, StaysSound, ViewSettled};
ghost use Rattle.hurd_laws.specs.Untold.{NamesUntold, RaisedLooksSame, RenamedSound, SideBySideRenamed};

/// The laws: each clause is one, over the definitions alone, and nothing is computed. `specs/Laws`, `specs/Integrity`, `specs/Spared`,
/// `specs/Untold`, `specs/After`, `specs/Coalitions`, `specs/ComesToSee`, `specs/Refusals` and `specs/Paths`
/// say them in words.
///
/// `integrity`: in a step of a task of a set, a part that the set may not change stays as it was; or it goes, and nobody sees it afterwards; or it is
/// another's task, to which a right of the set's was sent.
/// Of a node that is there afterwards each attribute changes by its own reason alone: its kind, owner, group and mode, and the words stored
/// with it, where the set owns it; its size, links and parent, how many opens read and write it, and what is active on it, each where the set may change that.
/// In a directory an entry goes only where the set may take it out, and one comes only where it may enter.
///
/// `integrity_run`: over a run, a part that a set may change at none of its own calls, and that no call of the others touches, stays as it was, or went unseen.
/// A file that is there afterwards has the bytes, the kind, owner, group and mode, and the stored words that it had, where the set had it not open to
/// write, did not own it, and might not send its server away, at any of its calls, and no call of the others touched it. (Of a stream: nor to read.)
///
/// Nodes, servers and opens have names inside the machine, which count what their maker made; six laws say that no call tells them.
/// `names_untold`: no reply depends on how things are called inside, nor on how many things other tasks made.
/// `renamed_sound`: a sound world is sound with other names too, if each name's count is below what its task has made.
/// `side_by_side_renamed`: where a set of tasks makes the same calls in two runs, and each of them in worlds that look the same to it except for
/// names, it is told the same. `raised_looks_same`: a world where others have made more, which is gone, looks the same except for names; so that law
/// speaks of it.
/// `after_renamed`: where all that others made has other names, and they have made more, a call leaves the same except for those names.
/// `own_from_looks`: a call of a set of tasks, made in two worlds that look the same to it except for names of what others made, is told the same, and
/// they look the same to it afterwards.
///
/// Eight laws speak of all futures. `sees_more`, `views_shrink`: a larger set sees more, and two worlds that look the same to it look the same to a smaller
/// one. `only_together`: if the others touch nothing that a set sees, each of its tasks comes to see, of old things, only what the set together saw before;
/// `only_made`: and only nodes that the set saw, or made. `reached_by_sending`: a task that was sent all ports of a set sees what that set saw.
/// `comes_to_see`: so a task of a set can be shown a part of an old thing by the set's calls exactly if the set together sees it.
/// `never_without`: a part that some tasks guard, since all others together don't see it, is never seen without help from one of them.
/// `never_tells_without`: two worlds that differ only in such parts can never be told apart without them, even if each call is chosen by all replies so far.
///
/// `refused_changes_nothing`, `refused_touches_nothing`: a refused call changes nothing, except that a refused `fsys_startup` takes from its task what it was to
/// start; and it touches nothing. `any_order`: what is left after take-outs doesn't depend on their order. `path_stays`: what is at a path from the root stays
/// there, if a set may take no entry on the way at any of its calls, and no call of the others touches one of the directories.
pub fn laws()
    ensures changes_touched { ChangesTouched }
    ensures gone_unseen { GoneUnseen }
    ensures others_unseen { OthersUnseen }
    ensures own_from_view { OwnFromView }
    ensures stays_sound { StaysSound }
    ensures never_wants_memory { NeverWantsMemory }
    ensures confined { Confined }
    ensures confined_run { ConfinedRun }
    ensures isolated { Isolated }
    ensures quiet_unmoved { QuietUnmoved }
    ensures isolated_by_view { IsolatedByView }
    ensures side_by_side { SideBySide }
    ensures view_settled { ViewSettled }
    ensures integrity { Integrity }
    ensures integrity_run { IntegrityRun }
    ensures names_untold { NamesUntold }
    ensures renamed_sound { RenamedSound }
    ensures side_by_side_renamed { SideBySideRenamed }
    ensures raised_looks_same { RaisedLooksSame }
    ensures after_renamed { AfterRenamed }
    ensures own_from_looks { OwnFromLooks }
    ensures sees_more { SeesMore }
    ensures views_shrink { ViewsShrink }
    ensures only_together { OnlyTogether }
    ensures only_made { OnlyMade }
    ensures reached_by_sending { ReachedBySending }
    ensures comes_to_see { ComesToSee }
    ensures never_without { NeverWithout }
    ensures never_tells_without { NeverTellsWithout }
    ensures refused_changes_nothing { RefusedChangesNothing }
    ensures refused_touches_nothing { RefusedTouchesNothing }
    ensures any_order { AnyOrder }
    ensures path_stays { PathStays }
{}
