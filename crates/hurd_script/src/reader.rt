//! Reading a script.
ghost use Rattle.std.specs.Prelude.{[], ◌≡◌, ◌==◌, ◌<◌, ◌≤◌, IfErr, false, IfOk, List, None, OnOk, Some, length, map, string_bytes, ℕ};
ghost use Rattle.hurd_creds.specs.Limits.{most_tasks};
ghost use Rattle.hurd_words.specs.Lines.{is_skipped};
ghost use Rattle.std.specs.List.{slice_split};
ghost use Rattle.hurd_words.specs.Reading.{good_words, said};
ghost use Rattle.hurd_words.specs.Words.{text_of};
ghost use Rattle.hurd_script.specs.Flaws.{FaultOf, TellsFlaw, LineFaultOf, ReadsLine, command_flaw, fault_at, late_flaw, line_flaw, name_flaw, user_flaw, words_flaw};
ghost use Rattle.hurd_script.specs.Reading.{standing, with_command, with_declared, with_line, with_user, with_words};
ghost use Rattle.hurd_script.specs.Commands.{command_of};
ghost use Rattle.hurd_script.specs.Script.{bad, commands_of, first_bad, names_of, users_of};
ghost use Rattle.hurd_words.specs.Users.{Declaration, declaration_of, ids_from, listed};

use crate::command::{Command, verb_of};
use crate::flaw::{LineFault, ScriptFlaw};
use crate::header::header;
use hurd_creds::{Ids, MOST_SCRIPT, MOST_TASKS, TaskId};
use hurd_words::fault::ReadFault;
use hurd_words::lines::is_skipped;
use hurd_words::users::{ids_from, is_taken, is_user_line, is_user_name, task_of};
use hurd_words::words::{pieces, words_of};
use std::alloc::{AllocError, Global};
use std::marker::Model;

/// A script that was read.
#[derive(Debug, Drop)]
pub struct Script {
    /// The names of the users, by task: root first.
    pub names: Vec<String>,
    /// Their ids.
    pub users: Vec<Ids>,
    pub commands: Vec<Command>,
}

/// Why a script was not read.
#[derive(Clone, Copy, Debug, PartialEq, Eq)]
pub enum ScriptFault {
    /// It is bad at this line, counted from 1, and for this reason; at line 0 where it is longer than 1,048,576 bytes.
    Bad { line: u64, flaw: ScriptFlaw },
    Memory,
}

impl From<AllocError> for ScriptFault {
    ghost use Rattle.std.specs.Prelude.{◌≡◌};
    ghost use Rattle.hurd_script.specs.declared.reader.ScriptFault.TheVariants.{Memory};

    ghost from_gives = { λ _ e. e ≡ Memory };

    fn from(_error: AllocError) -> ScriptFault {
        ScriptFault::Memory
    }
}

/// What the lines so far have said.
#[derive(Drop)]
struct Reader {
    names: Vec<String>,
    users: Vec<Ids>,
    commands: Vec<Command>,
    begun: bool,
}

impl Model for Reader {
    ghost use Rattle.std.specs.Prelude.{◌≤◌, map, string_bytes, vec_len};
    ghost use Rattle.hurd_script.specs.Reading.{Standing, coded_standing};

    ghost Value = { Standing };

    ghost coded = { coded_standing };

    ghost view = { λ r. record { names = map string_bytes r.names.items; users = r.users.items; commands = r.commands.items; begun = r.begun } };

    ghost invariant = { λ r. vec_len r.names ≤ 64 };
}

impl Reader {
    /// Root is there from the start.
    fn new(alloc: Global) -> Result<Reader, AllocError>
        ensures { IfOk result (λ reader. reader ≡ standing []) }
    {
        let mut names = Vec::new(alloc);
        names.push(String::from_str(alloc, "root")?)?;
        let mut users = Vec::new(alloc);
        let Ok(root) = Ids::new(alloc, &[0], &[0]) else {
            return Err(AllocError);
        };
        users.push(root)?;
        Ok(Reader {
            names,
            users,
            commands: Vec::new(alloc),
            begun: false,
        })
    }

    /// Why nobody of this name may be declared now, if so.
    #[tactic(auto, unfolding(crate::specs::Flaws::name_flaw))]
    fn name_flaw(&self, name: &str) -> Option<ScriptFlaw>
        ensures { result ≡ name_flaw self.now.names name.now }
    {
        if !is_user_name(name) {
            Some(ScriptFlaw::UserName)
        } else if is_taken(self.names.as_slice(), name) {
            Some(ScriptFlaw::TakenName)
        } else if self.names.len() >= MOST_TASKS {
            Some(ScriptFlaw::UserCount)
        } else {
            None
        }
    }

    /// One user more.
    fn add_user(&mut self, name: String, ids: Ids) -> Result<(), AllocError>
        requires { length self.old.names < most_tasks }
        ensures { OnOk result (Some self.new ≡ with_user self.old (string_bytes name) (Some ids)) }
    {
        self.names.push(name)?;
        self.users.push(ids)?;
        Ok(())
    }

    /// Declares a user, of ids in these lists.
    #[tactic(auto, unfolding(crate::specs::Flaws::name_flaw))]
    fn declare(
        &mut self,
        alloc: Global,
        name: &str,
        uids: &str,
        gids: &str,
    ) -> Result<(), LineFault>
        requires { self.old.begun ≡ false }
        ensures read { let user : Declaration = record { name = name.now; uids = uids.now; gids = gids.now } in
            ReadsLine (λ _. self.new) (with_declared self.old (Some user)) result }
        ensures blamed { let user : Declaration = record { name = name.now; uids = uids.now; gids = gids.now } in
            TellsFlaw (user_flaw self.old.names (Some user)) result }
    {
        if let Some(flaw) = self.name_flaw(name) {
            return Err(LineFault::Bad(flaw));
        }
        let name = String::from_str(alloc, name)?;
        let ids = ids_of(alloc, uids, gids)?;
        self.add_user(name, ids)?;
        Ok(())
    }

    /// Reads a user line's words where no command came.
    fn take_declaration(&mut self, alloc: Global, words: &[String]) -> Result<(), LineFault>
        requires { self.old.begun ≡ false }
        ensures read { ReadsLine (λ _. self.new) (with_declared self.old (declaration_of (map string_bytes words.now))) result }
        ensures blamed { TellsFlaw (user_flaw self.old.names (declaration_of (map string_bytes words.now))) result }
    {
        let [_, name, uids, gids] = words else {
            return Err(LineFault::Bad(ScriptFlaw::UserForm));
        };
        self.declare(alloc, name.as_str(), uids.as_str(), gids.as_str())
    }

    /// Reads a user line's words.
    fn take_user(&mut self, alloc: Global, words: &[String]) -> Result<(), LineFault>
        ensures read { ReadsLine (λ _. self.new) (with_declared self.old (declaration_of (map string_bytes words.now))) result }
        ensures blamed { TellsFlaw (late_flaw self.old (declaration_of (map string_bytes words.now))) result }
    {
        if self.begun {
            return Err(LineFault::Bad(ScriptFlaw::LateUser));
        }
        self.take_declaration(alloc, words)
    }

    /// Reads a command line, of these words.
    fn take_command(
        &mut self,
        alloc: Global,
        line: &[u8],
        mut words: Vec<String>,
    ) -> Result<(), LineFault>
        ensures read { ReadsLine (λ _. self.new) (with_command self.old (command_of self.old.names line.now (map string_bytes words.items))) result }
        ensures blamed { TellsFlaw (command_flaw self.old.names (map string_bytes words.items)) result }
    {
        if words.is_empty() {
            return Err(LineFault::Bad(ScriptFlaw::NoCommand));
        }
        let name = words.remove(0);
        let Some(task) = task_of(self.names.as_slice(), name.as_str()) else {
            return Err(LineFault::Bad(ScriptFlaw::NoUser));
        };
        if words.is_empty() {
            return Err(LineFault::Bad(ScriptFlaw::NoCommand));
        }
        let verb = words.remove(0);
        let Some(verb) = verb_of(verb.as_str()) else {
            return Err(LineFault::Bad(ScriptFlaw::OtherCommand));
        };
        let header = header(alloc, name.as_str(), line)?;
        self.commands
            .push(Command::new(TaskId(task as u32), header, verb, words))?;
        self.begun = true;
        Ok(())
    }

    /// Reads a line that is not skipped, of these words.
    #[tactic(auto, unfolding(crate::specs::Flaws::words_flaw))]
    fn take_words(
        &mut self,
        alloc: Global,
        line: &[u8],
        words: Vec<String>,
    ) -> Result<(), LineFault>
        ensures read { ReadsLine (λ _. self.new) (with_words self.old line.now (map string_bytes words.items)) result }
        ensures blamed { TellsFlaw (words_flaw self.old (map string_bytes words.items)) result }
    {
        if is_user_line(words.as_slice()) {
            self.take_user(alloc, words.as_slice())
        } else {
            self.take_command(alloc, line, words)
        }
    }

    /// Reads a line.
    fn take_line(&mut self, alloc: Global, line: &[u8]) -> Result<(), LineFault>
        ensures read { ReadsLine (λ _. self.new) (with_line self.old line.now) result }
        ensures blamed { TellsFlaw (line_flaw self.old line.now) result }
    {
        if is_skipped(line) {
            return Ok(());
        }
        let words = words_on(alloc, line)?;
        self.take_words(alloc, line, words)
    }
}

/// The words of a line.
fn words_on(alloc: Global, line: &[u8]) -> Result<Vec<String>, LineFault>
    ensures read { ReadsLine (λ v. map string_bytes v.items) (good_words text_of (slice_split (λ b. b == 32) line.now)) result }
    ensures blamed { TellsFlaw (Some ScriptFlaw.Word) result }
{
    match words_of(alloc, line) {
        Ok(words) => Ok(words),
        Err(ReadFault::Bad) => Err(LineFault::Bad(ScriptFlaw::Word)),
        Err(ReadFault::Memory) => Err(LineFault::Memory),
    }
}

/// The ids that two lists name.
fn ids_of(alloc: Global, uids: &str, gids: &str) -> Result<Ids, LineFault>
    ensures read { ReadsLine (λ ids. ids) (ids_from (listed uids.now) (listed gids.now)) result }
    ensures blamed { TellsFlaw (Some ScriptFlaw.UserIds) result }
{
    match ids_from(alloc, uids, gids) {
        Ok(ids) => Ok(ids),
        Err(ReadFault::Bad) => Err(LineFault::Bad(ScriptFlaw::UserIds)),
        Err(ReadFault::Memory) => Err(LineFault::Memory),
    }
}

/// Reads the lines of a script.
fn read_lines(alloc: Global, lines: &[&[u8]]) -> Result<Reader, ScriptFault>
    ensures good { IfOk result (λ reader. (first_bad (said lines.now) ≡ None) × (reader ≡ standing (said lines.now))) }
    ensures fault { IfErr result (λ e. LineFaultOf (said lines.now) e) }
{
    let mut reader = Reader::new(alloc)?;
    for (index, line) in lines.iter().enumerate() {
        match reader.take_line(alloc, line) {
            Ok(()) => {}
            Err(fault) => return Err(fault_at(fault, index as u64 + 1)),
        }
    }
    Ok(reader)
}

/// The fault of a line.
fn fault_at(fault: LineFault, line: u64) -> ScriptFault
    ensures { result ≡ fault_at fault line }
{
    match fault {
        LineFault::Bad(flaw) => ScriptFault::Bad { line, flaw },
        LineFault::Memory => ScriptFault::Memory,
    }
}

/// Reads a script: its users, root first, and its commands.
///
/// Errors: `Bad` at line 0 for a script of more than 1,048,576 bytes; else `Bad` at its first bad line,
/// one with a byte or a backslash that no word has, a user line after a command or of another form, or
/// another line that doesn't begin with a user's name and a command; with the first of these tests that it
/// fails. `Memory` where memory is refused.
///
/// Limits: 63 users besides root, names of 1 to 16 lower-case letters and digits that begin with a
/// letter, and 32 different uids and gids each.
pub fn parse_script(alloc: Global, script: &[u8]) -> Result<Script, ScriptFault>
    ensures good { IfOk result (λ s. (bad script.now ≡ None) × (map string_bytes s.names.items ≡ names_of script.now) × (s.users.items ≡ users_of script.now) × (s.commands.items ≡ commands_of script.now)) }
    ensures few { IfOk result (λ s. length s.names.items ≤ 64) }
    ensures fault { IfErr result (λ e. FaultOf script.now e) }
{
    if script.len() > MOST_SCRIPT {
        return Err(ScriptFault::Bad {
            line: 0,
            flaw: ScriptFlaw::Length,
        });
    }
    let lines = pieces(alloc, script, b'\n')?;
    let reader = read_lines(alloc, lines.as_slice())?;
    Ok(Script {
        names: reader.names,
        users: reader.users,
        commands: reader.commands,
    })
}
