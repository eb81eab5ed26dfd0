//! The commands that are tried.
ghost use Rattle.std.specs.Prelude.{◌≡◌, ◌++◌, ◌∷◌, [], IfOk, OnOk, map};
ghost use Rattle.hurd_witnesses.specs.Trials.{acts_on, child_commands, child_path, command, commands_on, line_by, lines_by, looks_at, trials_of, trials_on};

use crate::places::{child_in, is_path, word_in};
use hurd_creds::Bytes;
use std::alloc::{AllocError, Global};

/// How many commands are tried of a line at most.
const MOST_TRIALS: usize = 16;

/// Adds a command with a word in it.
fn push_command(
    alloc: Global,
    commands: &mut Vec<Bytes>,
    before: &[u8],
    word: &[u8],
    behind: &[u8],
) -> Result<(), AllocError>
    ensures { OnOk result (commands.new.items ≡ commands.old.items ++ command before.now word.now behind.now ∷ []) }
{
    let mut text = Vec::from_slice(alloc, before)?;
    text.extend_from_slice(word)?;
    text.extend_from_slice(behind)?;
    commands.push(Bytes::new(text))?;
    Ok(())
}

/// The path of an entry of a directory. Fails only if memory runs out.
fn child_path(alloc: Global, path: &[u8], name: &[u8]) -> Result<Vec<u8>, AllocError>
    ensures { IfOk result (λ text. text.items ≡ child_path path.now name.now) }
{
    let mut text = Vec::from_slice(alloc, path)?;
    if path.len() != 1 {
        text.push(b'/')?;
    }
    text.extend_from_slice(name)?;
    Ok(text)
}

/// Adds what can be asked of an entry of a node, where there is a name.
fn push_child_commands(
    alloc: Global,
    commands: &mut Vec<Bytes>,
    path: &[u8],
    name: &[u8],
) -> Result<(), AllocError>
    ensures { OnOk result (commands.new.items ≡ commands.old.items ++ child_commands path.now name.now) }
{
    if name.is_empty() {
        return Ok(());
    }
    let child = child_path(alloc, path, name)?;
    push_command(alloc, commands, b"ls -d ", child.as_slice(), b"")
}

/// Adds what shows a node.
fn push_looks(alloc: Global, commands: &mut Vec<Bytes>, path: &[u8]) -> Result<(), AllocError>
    ensures { OnOk result (commands.new.items ≡ commands.old.items ++ looks_at path.now) }
{
    push_command(alloc, commands, b"cat ", path, b"")?;
    push_command(alloc, commands, b"ls ", path, b"")?;
    push_command(alloc, commands, b"ls -d ", path, b"")
}

/// Adds what else can be asked of it.
fn push_acts(alloc: Global, commands: &mut Vec<Bytes>, path: &[u8]) -> Result<(), AllocError>
    ensures { OnOk result (commands.new.items ≡ commands.old.items ++ acts_on path.now) }
{
    push_command(alloc, commands, b"showtrans ", path, b"")?;
    push_command(alloc, commands, b"fsysopts ", path, b"")?;
    push_command(alloc, commands, b"put ", path, b" x")?;
    push_command(alloc, commands, b"rmdir ", path, b"")?;
    push_command(alloc, commands, b"rm ", path, b"")?;
    push_command(alloc, commands, b"settrans ", path, b"")?;
    push_command(alloc, commands, b"settrans -g ", path, b"")?;
    push_command(alloc, commands, b"chmod 644 ", path, b"")?;
    Ok(())
}

/// What can be asked of a node by its path, and of an entry of it. Fails only if memory runs out.
fn commands_on(alloc: Global, path: &[u8], name: &[u8]) -> Result<Vec<Bytes>, AllocError>
    ensures { IfOk result (λ commands. commands.items ≡ commands_on path.now name.now) }
{
    let mut commands = Vec::new(alloc);
    push_looks(alloc, &mut commands, path)?;
    push_child_commands(alloc, &mut commands, path, name)?;
    push_acts(alloc, &mut commands, path)?;
    Ok(commands)
}

/// A line of a script: a user's command. Fails only if memory runs out.
fn line_by(alloc: Global, command: &[u8], user: &[u8]) -> Result<Bytes, AllocError>
    ensures { IfOk result (λ line. line ≡ line_by command.now user.now) }
{
    let mut line = Vec::from_slice(alloc, user)?;
    line.push(b' ')?;
    line.extend_from_slice(command)?;
    Ok(Bytes::new(line))
}

/// Adds a command by each of these users.
fn push_lines(
    alloc: Global,
    lines: &mut Vec<Bytes>,
    command: &[u8],
    users: &[Bytes],
) -> Result<(), AllocError>
    ensures { OnOk result (lines.new.items ≡ lines.old.items ++ map (line_by command.now) users.now) }
{
    for user in users {
        lines.push(line_by(alloc, command, user.as_slice())?)?;
    }
    Ok(())
}

/// Each command by each of these users. Fails only if memory runs out.
fn lines_by(alloc: Global, users: &[Bytes], commands: &[Bytes]) -> Result<Vec<Bytes>, AllocError>
    ensures { IfOk result (λ lines. lines.items ≡ lines_by users.now commands.now) }
{
    let mut lines = Vec::new(alloc);
    for command in commands {
        push_lines(alloc, &mut lines, command.as_slice(), users)?;
    }
    Ok(lines)
}

/// The first 16 commands that these users can give on a path, and on an entry of it if there is a name; none if the place is no path. Fails only if memory runs out.
pub fn trials_on(
    alloc: Global,
    users: &[Bytes],
    path: &[u8],
    name: &[u8],
) -> Result<Vec<Bytes>, AllocError>
    ensures { IfOk result (λ trials. trials.items ≡ trials_on users.now path.now name.now) }
{
    if !is_path(path) {
        return Ok(Vec::new(alloc));
    }
    let commands = commands_on(alloc, path, name)?;
    let mut trials = lines_by(alloc, users, commands.as_slice())?;
    trials.truncate(MOST_TRIALS);
    Ok(trials)
}

/// What is tried of what a line tells. Fails only if memory runs out.
pub(crate) fn trials_of(
    alloc: Global,
    users: &[Bytes],
    line: &[u8],
) -> Result<Vec<Bytes>, AllocError>
    ensures { IfOk result (λ trials. trials.items ≡ trials_of users.now line.now) }
{
    let path = word_in(alloc, line)?;
    let name = child_in(alloc, line)?;
    trials_on(alloc, users, path.as_slice(), name.as_slice())
}
