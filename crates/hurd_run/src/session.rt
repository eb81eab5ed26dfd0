//! A session whose servers are made of the words that it asks for.
ghost use Rattle.std.specs.Prelude.{◌≡◌, ◌≤◌, ℕ, None, Ok, IfErr, IfOk, OnOk, List, length, map, string_bytes};
ghost use Rattle.hurd_tmpfs.specs.Tree.{new_tmpfs};
ghost use Rattle.hurd_script.specs.Flaws.{FaultOf};
ghost use Rattle.hurd_script.specs.Script.{bad, commands_of, names_of, users_of};
ghost use Rattle.hurd_shell.specs.Session.{BegunWith};
ghost use Rattle.hurd_kinds.specs.Boxes.{box_meaning};
ghost use Rattle.hurd_world.specs.Boot.{boot_of};
ghost use Rattle.hurd_world.specs.Held.{state_of};
ghost use Rattle.hurd_world.specs.Noting.{NotesWhatIsTouched};
ghost use Rattle.hurd_dialogue.specs.Parts.{Goes};
ghost use Rattle.hurd_run.specs.Faults.{NotBooted, NotRead};
ghost use Rattle.hurd_shell.specs.Scripts.{scripts, way_of};

use hurd_dialogue::{boxed, complaint};
use hurd_kinds::{ServerBox, server_for};
use hurd_script::{Script, ScriptFault, parse_script};
use hurd_shell::{Session, Want};
use hurd_terminal::Fault;
use hurd_trans_iface::Server;
use hurd_words::answers::Answer;
use std::alloc::{AllocError, Global};

/// Reads a script's text.
///
/// `Bad` with the line at which it is bad, `Memory`.
pub(crate) fn parsed(alloc: Global, text: &[u8]) -> Result<Script, Fault>
    ensures ok { IfOk result (λ script. (bad text.now ≡ None) × (map string_bytes script.names.items ≡ names_of text.now)
        × (script.users.items ≡ users_of text.now) × (script.commands.items ≡ commands_of text.now)) }
    ensures few { IfOk result (λ script. length script.names.items ≤ 64) }
    ensures err { IfErr result (λ fault. NotRead text.now fault) }
{
    match parse_script(alloc, text) {
        Ok(script) => Ok(script),
        Err(ScriptFault::Bad { line, .. }) => Err(Fault::Bad { line }),
        Err(ScriptFault::Memory) => Err(Fault::Memory),
    }
}

/// The same of a script that was not read for this reason.
fn blamed(alloc: Global, text: &[u8], fault: ScriptFault) -> Result<Vec<u8>, AllocError>
    requires { FaultOf text.now fault }
    ensures { IfOk result (λ said. said.items ≡ scripts.complaint text.now) }
{
    match fault {
        ScriptFault::Bad { line, flaw } => {
            complaint(alloc, ": bad script: ", text, line, flaw.text())
        }
        ScriptFault::Memory => Err(AllocError),
    }
}

/// What is said after the name of a file whose script is bad: the line, why, and what is there; of a good one nothing. Fails only if memory runs out.
pub(crate) fn complaint_of(alloc: Global, text: &[u8]) -> Result<Vec<u8>, AllocError>
    ensures { IfOk result (λ said. said.items ≡ scripts.complaint text.now) }
{
    match parse_script(alloc, text) {
        Ok(_) => Ok(Vec::new(alloc)),
        Err(fault) => blamed(alloc, text, fault),
    }
}

/// A session of a script over an empty tree.
///
/// Errors, in order: `Boot` with the world's refusal, `Memory`.
#[tactic(auto, using(hurd_tmpfs::proofs::Beginning::begins_tree))]
pub(crate) fn booted<S: Server>(
    alloc: Global,
    script: Script,
    root: S,
) -> Result<Box<Session<S>>, Fault>
    requires { S.meaning root ≡ new_tmpfs }
    ensures ok { IfOk result (λ session. (boot_of new_tmpfs script.users.items ≡ Ok tt)
        × BegunWith S.meaning new_tmpfs script.users.items script.commands.items session.value) }
    ensures err { IfErr result (λ fault. NotBooted script.users.items fault) }
{
    Ok(boxed(alloc, Session::begin(alloc, script, root)?)?)
}

/// What the next command of a session is answered, with the servers that it asks for on the way, as far as their words make any; none at its end. Fails only if
/// memory runs out.
pub(crate) fn next_part(
    alloc: Global,
    session: &mut Session<ServerBox>,
) -> Result<Option<Answer>, AllocError>
    ensures goes { IfOk result (λ answer. (names : List (List ℕ)) → Goes (way_of session.old names) answer (way_of session.new names)) }
    ensures noted { OnOk result (NotesWhatIsTouched (state_of box_meaning session.old.world) (state_of box_meaning session.new.world)) }
{
    'asked: loop {
        match session.next(alloc) {
            Ok(Want::Output(answer)) => return Ok(Some(answer)),
            Ok(Want::Server(words)) => {
                let server = server_for(alloc, &words)?;
                session.answer(alloc, server);
            }
            Ok(Want::Done) => return Ok(None),
            Err(_) => return Err(AllocError),
        }
    }
}
