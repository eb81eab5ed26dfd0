//! A script from a seed.
ghost use Rattle.std.specs.Prelude.{◌≡◌, ◌≤◌, ◌++◌, IfOk, None, OnOk, length};
ghost use Rattle.hurd_script.specs.Script.{bad, commands_of};
ghost use Rattle.hurd_sample.specs.Written.{commands_text, script_text, user_lines};

use crate::command::Drawn;
use crate::fault::SampleFault;
use crate::scene::Scene;
use hurd_creds::MOST_SCRIPT;
use std::alloc::{AllocError, Global};

/// The users of each script.
const USERS: &str = "user alice 1000 1000,100\nuser bob 1001 1001,100\nuser carol 1002 1002\n";

/// No command is written in fewer bytes.
const LEAST_COMMAND: u64 = 8;

/// A random script of so many commands, good and the same for the same seed: three users; homes, a directory for all and a box; then
/// what they do there.
///
/// Errors: `TooLong` where so many commands have no room in 1,048,576 bytes; `Memory` where memory is refused.
pub fn sample_script(alloc: Global, seed: u64, count: u64) -> Result<Vec<u8>, SampleFault>
    ensures good { IfOk result (λ text. bad text.items ≡ None) }
    ensures size { IfOk result (λ text. length text.items ≤ 1048576) }
    ensures count { IfOk result (λ text. length (commands_of text.items) ≡ count) }
{
    if count > MOST_SCRIPT as u64 / LEAST_COMMAND {
        return Err(SampleFault::TooLong);
    }
    let commands = draw(alloc, seed, count)?;
    let text = script_of(alloc, commands.as_slice())?;
    if text.len() > MOST_SCRIPT {
        return Err(SampleFault::TooLong);
    }
    Ok(text)
}

/// So many commands.
fn draw(alloc: Global, seed: u64, count: u64) -> Result<Vec<Drawn>, AllocError>
    ensures { IfOk result (λ commands. length commands.items ≡ count) }
{
    let mut scene = Scene::new(alloc, seed);
    let mut commands = Vec::new(alloc);
    for number in 0..count {
        commands.push(scene.command(alloc, number)?)?;
    }
    Ok(commands)
}

/// The script of these commands.
fn script_of(alloc: Global, commands: &[Drawn]) -> Result<Vec<u8>, AllocError>
    ensures { IfOk result (λ text. text.items ≡ script_text commands.now) }
{
    let mut text = Vec::new(alloc);
    text.extend_from_slice(USERS.as_bytes())?;
    push_commands(&mut text, commands)?;
    Ok(text)
}

/// Writes commands, one after another.
fn push_commands(text: &mut Vec<u8>, commands: &[Drawn]) -> Result<(), AllocError>
    ensures { OnOk result (text.new.items ≡ text.old.items ++ commands_text commands.now) }
{
    for command in commands {
        command.push(text)?;
    }
    Ok(())
}
