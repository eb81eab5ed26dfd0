//! What a session gives and asks for is its script's transcript.
ghost use Rattle.std.specs.Prelude.{◌≡◌, ◌++◌, List, Ok, Option};
ghost use Rattle.hurd_trans_iface.specs.Meaning.{Meaning};
ghost use Rattle.hurd_shell.specs.Outputs.{Came, Event, answers_in, told_in};
ghost use Rattle.hurd_shell.specs.Session.{Tells, View, left_in};
ghost use Rattle.hurd_shell.specs.Transcript.{Dialogue, Maker, parts_by, parts_of, says_by, wanted_of};

use crate::session::Want;
use hurd_trans_iface::Server;

/// A law: what a session told, on the way from s to x, is a front of what the written transcript tells from s on after the answers
/// that the session was given, and what it has left is the rest; so a server is asked for exactly where the transcript asks
/// for it, and at `Done` all is told.
pub fn outputs_are_the_transcript<S: Server>()
    ensures parts { (s x : View S) (events : List Event) → Came S.meaning s events x
        → (says : List (Option Meaning)) → parts_of (left_in S.meaning s) (answers_in events ++ says) ≡ told_in events ++ parts_of (left_in S.meaning x) says }
    ensures wanted { (s x : View S) (events : List Event) → Came S.meaning s events x
        → (says : List (Option Meaning)) → wanted_of (left_in S.meaning s) (answers_in events ++ says) ≡ wanted_of (left_in S.meaning x) says }
    ensures whole { (s x : View S) (events : List Event) → Came S.meaning s events x → Tells S.meaning x (Ok Want.Done) x
        → told_in events ≡ parts_of (left_in S.meaning s) (answers_in events) }
{}

/// A law: the parts that are told where a maker answers are those that the transcript tells after the maker's answers.
pub fn a_maker_answers()
    ensures { (make : Maker) (d : Dialogue) → parts_by make d ≡ parts_of d (says_by make d) }
{}
