//! A session.
ghost use Rattle.std.specs.Prelude.{◌≡◌, true, false, [], None, Some, IfOk, IfErr, IfSome, OnOk, Ok, Err, if◌then◌else◌};
ghost use Rattle.std.specs.Option.{option_map};
ghost use Rattle.hurd_creds.specs.declared.name.TaskId.{TaskId};
ghost use Rattle.hurd_trans_iface.specs.Meaning.{Begins};
ghost use Rattle.hurd_machine.specs.World as machine;
ghost use Rattle.hurd_machine.specs.Sound.{Sound};
ghost use Rattle.hurd_script.specs.Script.{bad, users_of};
ghost use Rattle.hurd_touches.specs.declared.noted.Noted.{Noted};
ghost use Rattle.hurd_world.specs.Boot.{boot_of};
ghost use Rattle.hurd_world.specs.Held.{state_of, world_of};
ghost use Rattle.hurd_world.specs.Noting.{NotesWhatIsTouched};
ghost use Rattle.hurd_shell.specs.Session.{Begun, BegunWith, waits_for, BeginFault, HangsTogether, NewFault, NotTaken, Takes, TakesUnlessFailed, Tells, command_on, has_failed, left_in, next_task};
ghost use Rattle.hurd_shell.specs.Transcript.{Dialogue, part_by, answer_to, ends, played, tells};
ghost use Rattle.hurd_shell.specs.Turns.{Stands, turn_on};

use crate::answers::{bring, go_without};
use crate::fault::{NoMemory, SessionFault, SupplyFault};
use crate::phase::Phase;
use crate::stages::{begin, resume};
use crate::transcript::{Turn, told};
use hurd_creds::{Errno, TaskId};
use hurd_script::{Command, Script, ScriptFault, parse_script};
use hurd_trans_iface::{Server, Words};
use hurd_words::answers::Answer;
use hurd_world::World;
use std::alloc::{AllocError, Global};
use std::marker::Model;
use std::mem::replace;

/// What a session gives its caller.
#[derive(Debug, Drop)]
pub enum Want {
    /// What one command is answered.
    Output(Answer),
    /// A server of these words is to be supplied, or none.
    Server(Words),
    /// All parts were given.
    Done,
}

/// A script on its way through a world of its own.
///
/// A command may stop for a server that its caller makes: `next` answers `Want::Server` until `supply` or `supply_none` answers it.
#[derive(Drop)]
pub struct Session<S: Server = Box<dyn Server>> {
    world: World<S>,
    commands: Vec<Command>,
    given: usize,
    phase: Phase,
}

impl<S: Server> Model for Session<S> {
    ghost use Rattle.hurd_shell.specs.Session.{View, coded_view};

    ghost Value = { View S };

    ghost coded = { coded_view S.code };

    ghost view = { λ s. record { world = s.world; commands = s.commands.items; given = s.given; phase = s.phase } };
}

/// Goes on with a command, up to its end or to a server that it waits for. Fails only if memory runs out.
fn take_turn<S: Server>(
    world: &mut World<S>,
    alloc: Global,
    command: &Command,
    phase: Phase,
) -> Result<Turn, AllocError>
    ensures ok { IfOk result (λ turn. (next : machine.World → Dialogue)
        → played command.now.task (command_on phase command.now) (world_of S.meaning world.old) (λ r y. tells (part_by command.now (answer_to command.now r) y) (next y))
        ≡ turn_on command.now next turn (world_of S.meaning world.new)) }
    ensures sound { Sound (world_of S.meaning world.old) → OnOk result (Sound (world_of S.meaning world.new)) }
    ensures noted { OnOk result (NotesWhatIsTouched (state_of S.meaning world.old) (state_of S.meaning world.new)) }
{
    match phase {
        Phase::Between => told(alloc, command, begin(world, alloc, command)),
        Phase::Waiting(waiting) => Ok(Turn::Waits(waiting)),
        Phase::Answered(stage, answer) => {
            let progress = resume(world, alloc, command.task(), stage.into_stage(), answer);
            told(alloc, command, progress)
        }
        Phase::Failed => Err(AllocError),
    }
}

/// What the caller is given after a turn, how many commands are made then, and how far the next one is. Fails only if memory runs out.
fn stand(
    alloc: Global,
    turn: Turn,
    made: usize,
    given: &mut usize,
    phase: &mut Phase,
) -> Result<Want, AllocError>
    ensures ok { IfOk result (λ want. Stands turn made given.old want given.new phase.new) }
    ensures err { IfErr result (λ e. phase.new ≡ phase.old) }
{
    match turn {
        Turn::Told(answer) => {
            *given = made;
            *phase = Phase::Between;
            Ok(Want::Output(answer))
        }
        Turn::Waits(waiting) => {
            let words = waiting.words.copied(alloc)?;
            *phase = Phase::Waiting(waiting);
            Ok(Want::Server(words))
        }
    }
}

impl<S: Server> Session<S> {
    /// Reads a script and boots its world over a root server, which some words made. A refused call drops the server.
    ///
    /// Errors, in order: `BadScript` with the line at which the script is bad, `Boot` with the world's refusal; `Memory` at
    /// any point.
    pub fn new(alloc: Global, script: &[u8], root: S) -> Result<Session<S>, SessionFault>
        requires { Begins (S.meaning root) }
        ensures ok { IfOk result (λ s. (bad script.now ≡ None) × (boot_of (S.meaning root) (users_of script.now) ≡ Ok tt)
            × Begun S.meaning (S.meaning root) script.now s) }
        ensures err { IfErr result (λ e. NewFault (S.meaning root) script.now e) }
    {
        match parse_script(alloc, script) {
            Ok(script) => Session::begin(alloc, script, root),
            Err(ScriptFault::Bad { line, .. }) => Err(SessionFault::BadScript { line }),
            Err(ScriptFault::Memory) => Err(SessionFault::Memory),
        }
    }

    /// Boots the world of a script that was read over a root server, which some words made. A refused call drops the server.
    ///
    /// Errors, in order: `Boot` with the world's refusal, `Memory`.
    pub fn begin(alloc: Global, script: Script, root: S) -> Result<Session<S>, SessionFault>
        requires { Begins (S.meaning root) }
        ensures ok { IfOk result (λ s. (boot_of (S.meaning root) script.users.items ≡ Ok tt)
            × BegunWith S.meaning (S.meaning root) script.users.items script.commands.items s) }
        ensures err { IfErr result (λ e. BeginFault (S.meaning root) script.users.items e) }
    {
        let Script {
            users,
            commands,
            ..
        } = script;
        match World::boot(alloc, root, users) {
            Ok(world) => Ok(Session {
                world,
                commands,
                given: 0,
                phase: Phase::Between,
            }),
            Err((Errno::ENOMEM, _)) => Err(SessionFault::Memory),
            Err((errno, _)) => Err(SessionFault::Boot(errno)),
        }
    }

    /// Whether memory was refused.
    fn has_failed(&self) -> bool
        ensures { result ≡ has_failed self.now }
    {
        matches!(self.phase, Phase::Failed)
    }

    /// Notes from now on which parts calls touch.
    pub fn note(&mut self)
        ensures { (self.new.commands ≡ self.old.commands) × (self.new.given ≡ self.old.given) × (self.new.phase ≡ self.old.phase)
            × (self.new.world.core ≡ self.old.world.core) × (self.new.world.noted ≡ Noted.These []) }
    {
        self.world.note();
    }

    /// The world, as the commands so far left it.
    pub fn world(&self) -> &World<S>
        ensures { result.now ≡ self.now.world }
    {
        &self.world
    }

    /// How many commands are made.
    pub fn made(&self) -> usize
        ensures { result ≡ self.now.given }
    {
        self.given
    }

    /// The task whose command is next, or is on its way; none after the last.
    pub fn task(&self) -> Option<TaskId>
        ensures { option_map (λ (t : TaskId). t.0) result ≡ next_task self.now }
    {
        match self.commands.get(self.given) {
            Some(command) => Some(command.task()),
            None => None,
        }
    }

    /// What the next command is answered, `Server` with the words of a server that it waits for, until that is supplied
    /// or refused, or `Done`, for good, after the last.
    ///
    /// `Memory`, from then on at every call, if memory ran out.
    pub fn next(&mut self, alloc: Global) -> Result<Want, SessionFault>
        ensures tells { has_failed self.old ≡ false → Tells S.meaning self.old result self.new }
        ensures done { has_failed self.old ≡ false → left_in S.meaning self.old ≡ ends → (result ≡ Ok Want.Done) × (self.new ≡ self.old) }
        ensures sound { HangsTogether S.meaning self.old → HangsTogether S.meaning self.new }
        ensures stays { has_failed self.old ≡ true → (result ≡ Err SessionFault.Memory) × (self.new ≡ self.old) }
        ensures noted { OnOk result (NotesWhatIsTouched (state_of S.meaning self.old.world) (state_of S.meaning self.new.world)) }
    {
        if self.has_failed() {
            return Err(SessionFault::Memory);
        }
        if self.given >= self.commands.len() {
            return Ok(Want::Done);
        }
        let phase = replace(&mut self.phase, Phase::Failed);
        let command = &self.commands[self.given];
        let turn = take_turn(&mut self.world, alloc, command, phase)?;
        let made = self.given + 1;
        Ok(stand(alloc, turn, made, &mut self.given, &mut self.phase)?)
    }

    /// Whether a server is waited for.
    fn waits(&self) -> bool
        ensures { result ≡ waits_for self.now }
    {
        matches!(self.phase, Phase::Waiting(_)) && self.given < self.commands.len()
    }

    /// Why no answer is taken where none is waited for.
    fn not_taken(&self) -> SupplyFault
        ensures { result ≡ (if has_failed self.now then SupplyFault.Memory else SupplyFault.NotWanted) }
    {
        if self.has_failed() {
            SupplyFault::Memory
        } else {
            SupplyFault::NotWanted
        }
    }

    /// Supplies the server that `next` asked for. The call that takes it is made at once; where that drops it or sends it back,
    /// `next` goes on with the refusal.
    ///
    /// Errors, with the server: `NotWanted` where none is asked for, and then nothing is changed; `Memory`, from then on at every
    /// call, where memory was refused.
    pub fn supply(&mut self, alloc: Global, server: S) -> Result<(), (SupplyFault, S)>
        requires { Begins (S.meaning server) }
        ensures ok { OnOk result (Takes S.meaning self.old (Some (S.meaning server)) self.new) }
        ensures err { IfErr result (λ e. NotTaken self.old e.0 self.new × (e.1 ≡ server)) }
        ensures sound { HangsTogether S.meaning self.old → HangsTogether S.meaning self.new }
        ensures stays { has_failed self.old ≡ true → (result ≡ Err (SupplyFault.Memory, server)) × (self.new ≡ self.old) }
        ensures noted { OnOk result (NotesWhatIsTouched (state_of S.meaning self.old.world) (state_of S.meaning self.new.world)) }
    {
        if !self.waits() {
            return Err((self.not_taken(), server));
        }
        let task = self.commands[self.given].task();
        let Phase::Waiting(waiting) = replace(&mut self.phase, Phase::Failed) else {
            return Err((SupplyFault::Memory, server));
        };
        match bring(&mut self.world, alloc, task, waiting, server) {
            Ok((stage, answer)) => {
                self.phase = Phase::Answered(stage, answer);
                Ok(())
            }
            Err(server) => Err((SupplyFault::Memory, server)),
        }
    }

    /// Says that there is no server of the words that `next` asked for.
    ///
    /// Errors: `NotWanted` where none is asked for, and then nothing is changed; `Memory`, from then on at every call, where memory
    /// was refused.
    pub fn supply_none(&mut self, alloc: Global) -> Result<(), SupplyFault>
        ensures ok { OnOk result (Takes S.meaning self.old None self.new) }
        ensures err { IfErr result (λ e. NotTaken self.old e self.new) }
        ensures sound { HangsTogether S.meaning self.old → HangsTogether S.meaning self.new }
        ensures stays { has_failed self.old ≡ true → (result ≡ Err SupplyFault.Memory) × (self.new ≡ self.old) }
        ensures noted { OnOk result (NotesWhatIsTouched (state_of S.meaning self.old.world) (state_of S.meaning self.new.world)) }
    {
        if !self.waits() {
            return Err(self.not_taken());
        }
        let task = self.commands[self.given].task();
        let Phase::Waiting(waiting) = replace(&mut self.phase, Phase::Failed) else {
            return Err(SupplyFault::Memory);
        };
        match go_without(&mut self.world, alloc, task, waiting) {
            Ok((stage, answer)) => {
                self.phase = Phase::Answered(stage, answer);
                Ok(())
            }
            Err(NoMemory) => Err(SupplyFault::Memory),
        }
    }

    /// Answers what `next` asked for: with the server, or that there is none. Where memory is refused, `next` tells that.
    pub fn answer(&mut self, alloc: Global, server: Option<S>)
        requires begins { IfSome server (λ s. Begins (S.meaning s)) }
        requires waits { waits_for self.old ≡ true }
        ensures takes { TakesUnlessFailed S.meaning self.old (option_map S.meaning server) self.new }
        ensures noted { has_failed self.new ≡ false → NotesWhatIsTouched (state_of S.meaning self.old.world) (state_of S.meaning self.new.world) }
    {
        match server {
            Some(server) => {
                let _ = self.supply(alloc, server);
            }
            None => {
                let _ = self.supply_none(alloc);
            }
        }
    }
}
