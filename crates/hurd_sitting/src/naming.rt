//! The tasks that a word names by their numbers.
ghost use Rattle.std.specs.Prelude.{◌≢◌, [], Some, IfErr, IfOk};
ghost use Rattle.std.specs.Option.{option_map};
ghost use Rattle.hurd_calls.specs.Tasks.{task_of};
ghost use Rattle.hurd_sitting.specs.Watching.{NotWatched, Watches};

use hurd_calls::{RunningCalls, task_of};
use hurd_creds::TaskId;
use hurd_dialogue::{Telling, boxed};
use hurd_teaching::{Learners, Naming, tasks_of};
use hurd_terminal::Fault;
use std::alloc::Global;

/// So many tasks, by their numbers.
#[derive(Drop)]
struct Numbered(usize);

impl Naming for Numbered {
    ghost tasks = { λ n. task_of n.0 };

    fn task_of(&self, name: &str) -> Option<TaskId> {
        task_of(self.0, name)
    }
}

/// Those of so many tasks whose numbers stand in a word between commas, where it has any bytes. They are called as a list calls them: lessons begin at once,
/// and what they see is not shown.
///
/// Errors, in order: `Unknown` where one of them isn't there; `Memory` at any point.
fn named(alloc: Global, count: usize, who: &[u8]) -> Result<Box<Learners>, Fault>
    requires { who.now ≢ [] }
    ensures ok { IfOk result (λ learners. Watches count who.now (Some learners.value)) }
    ensures err { IfErr result (λ fault. NotWatched count who.now fault) }
{
    let Ok(word) = str::from_utf8(who) else {
        return Err(Fault::Unknown);
    };
    let Some(tasks) = tasks_of(alloc, &Numbered(count), word)? else {
        return Err(Fault::Unknown);
    };
    let names = RunningCalls::called(alloc, word, tasks.as_slice())?;
    let learners = Learners::called(alloc, tasks, names, Vec::new(alloc), 0)?;
    Ok(boxed(alloc, learners)?)
}

/// The same; nobody where it has none.
pub(crate) fn watched(
    alloc: Global,
    count: usize,
    who: &[u8],
) -> Result<Option<Box<Learners>>, Fault>
    ensures ok { IfOk result (λ learners. Watches count who.now (option_map (λ v. v.value) learners)) }
    ensures err { IfErr result (λ fault. NotWatched count who.now fault) }
{
    if who.is_empty() {
        return Ok(None);
    }
    Ok(Some(named(alloc, count, who)?))
}
