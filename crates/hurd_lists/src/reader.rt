//! Reading a list of calls.
ghost use Rattle.std.specs.Prelude.{◌≡◌, ◌==◌, codes, length, not};
ghost use Rattle.std.specs.List.{slice_split};
ghost use Rattle.hurd_words.specs.Reading.{good_words, said};
ghost use Rattle.hurd_words.specs.Users.{begins_with};
ghost use Rattle.hurd_lists.specs.Arguments.{ids_of, task_of};
ghost use Rattle.hurd_lists.specs.Calls.{begun, call_of, server_of};
ghost use Rattle.hurd_lists.specs.Flaws.{Gives, found_or};
ghost use Rattle.hurd_lists.specs.Words.{bytes_of};
ghost use Rattle.hurd_machine.specs.Calls.{call_by};
ghost use Rattle.hurd_lists.specs.Lists.{Parses, Standing, call_from, fault_at, listed_by, read_from, reading_of, said_by, said_onto, said_task, unsaid, verb_named, with_line, with_task};

use crate::arguments::{ids, task, text};
use crate::calls::{call_of, server_of};
use crate::flaw::{LineFault, ListFlaw, or_flaw};
use crate::verb::{Verb, verb_of};
use crate::words::words_of;
use hurd_creds::{Bytes, Ids, MOST_SCRIPT, MOST_TASKS, TaskId};
use hurd_machine::Call;
use hurd_trans_iface::{Server, Words};
use hurd_words::lines::{is_skipped, skip_spaces, without_end};
use hurd_words::words::pieces;
use std::alloc::{AllocError, Global};

/// A call of a list. It has no server in it, and a start without one is a start that failed: who makes the call makes the
/// server of the words first, and puts it in by `with_server`.
#[derive(Drop)]
pub struct ListedCall<S = Box<dyn Server>> {
    /// The task that makes it.
    pub task: TaskId,
    pub call: Call<S>,
    /// Its line, without outer spaces.
    pub line: Bytes,
    /// The words of the server that it brings, if it brings one.
    pub server: Option<Words>,
}

/// What a line of a list says.
#[derive(Drop)]
pub enum LineSaid<S = Box<dyn Server>> {
    /// Nothing: it is empty, only spaces, or a comment.
    Nothing,
    /// There is a task with these ids.
    Task(Ids),
    Call(ListedCall<S>),
}

/// A list of calls that was read.
#[derive(Drop)]
pub struct CallList<S = Box<dyn Server>> {
    /// The ids of the tasks.
    pub tasks: Vec<Ids>,
    pub calls: Vec<ListedCall<S>>,
}

/// Why a list of calls was not read.
#[derive(Clone, Copy, Debug, PartialEq, Eq)]
pub enum ListFault {
    /// It is bad at this line, counted from 1, and for this reason; at line 0 where it is longer than 1,048,576 bytes.
    Bad { line: u64, flaw: ListFlaw },
    Memory,
}

impl From<AllocError> for ListFault {
    ghost use Rattle.std.specs.Prelude.{◌≡◌};
    ghost use Rattle.hurd_lists.specs.declared.reader.ListFault.TheVariants.{Memory};

    ghost from_gives = { λ _ e. e ≡ Memory };

    fn from(_error: AllocError) -> ListFault {
        ListFault::Memory
    }
}

impl<S: Server> CallList<S> {
    /// No task, and no call.
    fn new(alloc: Global) -> CallList<S>
        ensures { said_by S.meaning result ≡ unsaid }
    {
        CallList {
            tasks: Vec::new(alloc),
            calls: Vec::new(alloc),
        }
    }

    /// Reads a line.
    fn take_line(&mut self, alloc: Global, line: &[u8]) -> Result<(), LineFault>
        ensures { Gives (λ _. said_by S.meaning self.new) (with_line (said_by S.meaning self.old) line.now) result }
    {
        match read_line(alloc, self.tasks.len(), !self.calls.is_empty(), line)? {
            LineSaid::Nothing => {}
            LineSaid::Task(ids) => self.tasks.push(ids)?,
            LineSaid::Call(call) => self.calls.push(call)?,
        }
        Ok(())
    }
}

/// The ids of a task line's words, after so many tasks; `late` if a call came before it.
fn task_said(alloc: Global, tasks: usize, late: bool, words: &[Bytes]) -> Result<Ids, LineFault>
    ensures { (s : Standing) → length s.tasks ≡ tasks → not (length s.calls == 0) ≡ late → Gives (said_task s) (with_task s words.now) result }
{
    let [_, uids, gids] = words else {
        return Err(LineFault::Bad(ListFlaw::TaskForm));
    };
    if late {
        return Err(LineFault::Bad(ListFlaw::LateTask));
    }
    if tasks >= MOST_TASKS {
        return Err(LineFault::Bad(ListFlaw::TaskCount));
    }
    ids_on(alloc, uids.as_slice(), gids.as_slice())
}

/// Reads a line of a list, after so many tasks; `late` if a call came before it. Errors as of `parse_calls`.
pub fn read_line<S: Server>(
    alloc: Global,
    tasks: usize,
    late: bool,
    line: &[u8],
) -> Result<LineSaid<S>, LineFault>
    ensures { (s : Standing) → length s.tasks ≡ tasks → not (length s.calls == 0) ≡ late → Gives (said_onto S.meaning s) (with_line s line.now) result }
{
    if is_skipped(line) {
        return Ok(LineSaid::Nothing);
    }
    let words = words_on(alloc, line)?;
    if is_task_line(words.as_slice()) {
        Ok(LineSaid::Task(task_said(alloc, tasks, late, words.as_slice())?))
    } else {
        Ok(LineSaid::Call(call_on(alloc, line, words.as_slice())?))
    }
}

/// The words of a line.
fn words_on(alloc: Global, line: &[u8]) -> Result<Vec<Bytes>, LineFault>
    ensures { Gives (λ v. v.items) (found_or ListFlaw.Word (good_words bytes_of (slice_split (λ b. b == 32) line.now))) result }
{
    or_flaw(words_of(alloc, line), ListFlaw::Word)
}

/// The ids that two lists name.
fn ids_on(alloc: Global, uids: &[u8], gids: &[u8]) -> Result<Ids, LineFault>
    ensures { Gives (λ ids. ids) (found_or ListFlaw.TaskIds (ids_of uids.now gids.now)) result }
{
    or_flaw(ids(alloc, uids, gids), ListFlaw::TaskIds)
}

/// The task of a number.
fn task_on(number: &[u8]) -> Result<TaskId, LineFault>
    ensures { Gives (λ task. task) (found_or ListFlaw.TaskNumber (task_of number.now)) result }
{
    or_flaw(task(number), ListFlaw::TaskNumber)
}

/// The call of a name with these arguments.
fn named_call<S: Server>(alloc: Global, verb: Verb, args: &[Bytes]) -> Result<Call<S>, LineFault>
    ensures { Gives (λ call. call_by S.meaning call) (found_or ListFlaw.Arguments (call_of verb args.now)) result }
{
    or_flaw(call_of(alloc, verb, args), ListFlaw::Arguments)
}

/// The words of the server that it brings, if it brings one.
fn named_server(alloc: Global, verb: Verb, args: &[Bytes]) -> Result<Option<Words>, LineFault>
    ensures { Gives begun (found_or ListFlaw.Server (server_of verb args.now)) result }
{
    or_flaw(server_of(alloc, verb, args), ListFlaw::Server)
}

/// What the call of a name is.
fn verb_on(name: &[u8]) -> Result<Verb, LineFault>
    ensures { Gives (λ verb. verb) (found_or ListFlaw.OtherCall (verb_named name.now)) result }
{
    match verb_named(name) {
        Some(verb) => Ok(verb),
        None => Err(LineFault::Bad(ListFlaw::OtherCall)),
    }
}

/// The call of a line of these words.
fn call_on<S: Server>(
    alloc: Global,
    line: &[u8],
    words: &[Bytes],
) -> Result<ListedCall<S>, LineFault>
    ensures { Gives (listed_by S.meaning) (call_from line.now words.now) result }
{
    let [number, name, args @ ..] = words else {
        return Err(LineFault::Bad(ListFlaw::CallForm));
    };
    let task = task_on(number.as_slice())?;
    let verb = verb_on(name.as_slice())?;
    let call = named_call(alloc, verb, args)?;
    let server = named_server(alloc, verb, args)?;
    let line = Bytes::copied(alloc, without_end(skip_spaces(line)))?;
    Ok(ListedCall {
        task,
        call,
        line,
        server,
    })
}

/// The call of a name.
pub fn verb_named(name: &[u8]) -> Option<Verb>
    ensures { result ≡ verb_named name.now }
{
    match text(name) {
        Ok(name) => verb_of(name),
        Err(_) => None,
    }
}

/// Whether the first word is `task`.
fn is_task_line(words: &[Bytes]) -> bool
    ensures { result ≡ begins_with (codes "task") words.now }
{
    match words.first() {
        Some(word) => word.is(b"task"),
        None => false,
    }
}

/// Reads the lines of a list.
fn read_lines<S: Server>(alloc: Global, lines: &[&[u8]]) -> Result<CallList<S>, ListFault>
    ensures { Parses S.meaning (read_from 1 unsaid (said lines.now)) result }
{
    let mut list = CallList::new(alloc);
    for (index, line) in lines.iter().enumerate() {
        match list.take_line(alloc, line) {
            Ok(()) => {}
            Err(fault) => return Err(fault_at(fault, index as u64 + 1)),
        }
    }
    Ok(list)
}

/// The fault of a line.
fn fault_at(fault: LineFault, line: u64) -> ListFault
    ensures { result ≡ fault_at fault line }
{
    match fault {
        LineFault::Bad(flaw) => ListFault::Bad { line, flaw },
        LineFault::Memory => ListFault::Memory,
    }
}

/// Reads a list of calls: the ids of its tasks, and the calls.
///
/// Errors: `Bad` at line 0 for a list of more than 1,048,576 bytes; else `Bad` at its first bad line, one with a byte or a
/// backslash that no word has, a task line of another form, after a call or one too many, another line that is
/// no call, or words after `box` that no kind of server takes; with the first of these tests that it fails.
/// `Memory` where memory is refused.
///
/// Limits: 64 tasks, and 32 different uids and gids each.
pub fn parse_calls<S: Server>(alloc: Global, list: &[u8]) -> Result<CallList<S>, ListFault>
    ensures { Parses S.meaning (reading_of list.now) result }
{
    if list.len() > MOST_SCRIPT {
        return Err(ListFault::Bad {
            line: 0,
            flaw: ListFlaw::Length,
        });
    }
    let lines = pieces(alloc, list, b'\n')?;
    read_lines(alloc, lines.as_slice())
}
