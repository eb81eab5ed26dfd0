//! What a script tells a set of tasks does not depend on the others' commands, nor on internal names.
ghost use Rattle.hurd_shell.specs.Chosen.{ChosenCommandsTellNothing};
ghost use Rattle.hurd_shell.specs.Isolation.{AsWithoutOthers, CommandsSideBySide, IsolatedByView, IsolatedCommands, IsolatedScripts, OnePartEach, OwnCommandFromView, ScriptsSideBySide, ToldInTurn};
ghost use Rattle.hurd_shell.specs.Looks.{CommandsByLooks, OwnCommandFromLooks, ScriptsByLooks};

/// A law: each command has one part in what is told, and what is told of commands after others is what is told of them in the
/// world after those.
pub fn scripts_are_told_in_turn()
    ensures parts { OnePartEach }
    ensures turns { ToldInTurn }
{}

/// A law: a set of tasks is told the same by two scripts that begin with the same lines, in which it has the same commands after
/// these and the others' calls touch nothing that it sees; and so from any two worlds in which it has the same view.
pub fn scripts_are_isolated()
    ensures commands { IsolatedCommands }
    ensures scripts { IsolatedScripts }
{}

/// A law, finer than that: where each command of the others leaves what a set of tasks sees as it was, whatever its calls touch, the
/// set is told the same, and so what it is told without these commands.
pub fn unmoved_scripts_are_isolated()
    ensures views { IsolatedByView }
    ensures without { AsWithoutOthers }
{}

/// A law, and the strongest of these: where a set of tasks has the same commands in two scripts, and gives each of them where it sees the
/// same in both, it is told the same, whatever the others' commands did before; and so from any two worlds.
pub fn scripts_side_by_side()
    ensures commands { CommandsSideBySide }
    ensures scripts { ScriptsSideBySide }
{}

/// A law: the same where each of these commands is given in worlds that look the same except for internal names of what others made, which count
/// what these made unseen; and what one command is told, and leaves, goes by such looks alone.
pub fn scripts_side_by_side_renamed()
    ensures command { OwnCommandFromLooks }
    ensures commands { CommandsByLooks }
    ensures scripts { ScriptsByLooks }
{}

/// A law: what a command of some tasks is told, and what they see after it, depends on what they see before it alone. So where two scripts
/// tell them something else, they saw something else before that command.
pub fn own_commands_go_by_what_is_seen()
    ensures { OwnCommandFromView }
{}

/// A law: if two worlds look the same to some users, and only these give commands, each chosen by all answers so far, nobody can ever tell the two apart: the
/// commands are the same, and so are their answers and what these users see afterwards.
pub fn chosen_commands_tell_nothing()
    ensures { ChosenCommandsTellNothing }
{}
