//! What it means that nothing is learned.
ghost use Rattle.hurd_run.specs.Silence.{AsWithoutTheSilent};

/// A law: from a command on, where lessons have begun and nothing is learned, these users are told what they are told without the commands of others.
pub fn silent_commands_can_be_left_out()
    ensures { AsWithoutTheSilent }
{}
