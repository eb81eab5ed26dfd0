//! Those that WHO names.
ghost use Rattle.std.specs.Prelude.{◌≡◌, [], IfOk, List, Option, Vec, drop, ℕ};
ghost use Rattle.std.specs.Global.{Global};
ghost use Rattle.std.specs.Option.{option_map};
ghost use Rattle.hurd_creds.specs.declared.name.TaskId.{TaskId};
ghost use Rattle.hurd_words.specs.Lines.{lines_of};
ghost use Rattle.hurd_teaching.specs.Learners.{AddsName, Named, numbers, tasks_named};
ghost use Rattle.hurd_teaching.specs.Looks.{asks_of, starts_of};

use crate::learners::Learners;
use crate::looks::{asked_looks, lessons_begin};
use hurd_creds::TaskId;
use hurd_dialogue::Telling;
use hurd_words::users::parts;
use std::alloc::{AllocError, Global};

/// Who tells tasks by their names.
pub trait Naming {
    // The task of each name.
    ghost tasks: { Self → List ℕ → Option ℕ };

    /// The task of a name, if there is one.
    fn task_of(&self, name: &str) -> Option<TaskId>
        ensures { option_map (λ (t : TaskId). t.0) result ≡ tasks self.now name.now };
}

impl<T: Telling> Naming for T {
    ghost tasks = { λ t. (T.way t).finds };

    fn task_of(&self, name: &str) -> Option<TaskId> {
        self.finds(name)
    }
}

/// One task more, of a name; whether there is one. Fails only if memory runs out.
fn add_task<N: Naming>(tasks: &mut Vec<TaskId>, naming: &N, name: &str) -> Result<bool, AllocError>
    ensures { IfOk result (λ found. AddsName (N.tasks naming.now) name.now (numbers tasks.old.items) found (numbers tasks.new.items)) }
{
    match naming.task_of(name) {
        Some(task) => {
            tasks.push(task)?;
            Ok(true)
        }
        None => Ok(false),
    }
}

/// The tasks of those whose names stand in a word between commas; none where one of them isn't found. Fails only if memory runs out.
pub fn tasks_of<N: Naming>(
    alloc: Global,
    naming: &N,
    word: &str,
) -> Result<Option<Vec<TaskId>>, AllocError>
    ensures { IfOk result (λ tasks. tasks_named (N.tasks naming.now) word.now ≡ option_map (λ (v : Vec TaskId Global). numbers v.items) tasks) }
{
    let names = parts(alloc, word)?;
    let mut tasks = Vec::new(alloc);
    for name in names.as_slice() {
        if !add_task(&mut tasks, naming, name)? {
            return Ok(None);
        }
    }
    Ok(Some(tasks))
}

/// Those whose names stand in a word between commas, of a text that was begun: lessons begin at once, and what they see is not asked for. None where one of
/// them isn't in it. Fails only if memory runs out.
pub fn learners_at_once<T: Telling>(
    alloc: Global,
    telling: &T,
    word: &str,
) -> Result<Option<Learners>, AllocError>
    ensures { IfOk result (λ learners. Named (tasks_named (T.way telling.now).finds word.now) (T.sort.called word.now) [] 0 learners) }
{
    let Some(tasks) = tasks_of(alloc, telling, word)? else {
        return Ok(None);
    };
    let names = T::called(alloc, word, tasks.as_slice())?;
    Ok(Some(Learners::called(alloc, tasks, names, Vec::new(alloc), 0)?))
}

/// Those whose names stand in a word between commas, of a text that was begun, with where it asks what they see, and where lessons begin; none where one of
/// them isn't in it. Fails only if memory runs out.
pub fn learners_of<T: Telling>(
    alloc: Global,
    telling: &T,
    word: &str,
    text: &[u8],
) -> Result<Option<Learners>, AllocError>
    ensures { IfOk result (λ learners. Named (tasks_named (T.way telling.now).finds word.now) (T.sort.called word.now)
        (drop (T.way telling.now).heading (asks_of (lines_of text.now))) (starts_of (T.way telling.now).heading (lines_of text.now)) learners) }
{
    let Some(tasks) = tasks_of(alloc, telling, word)? else {
        return Ok(None);
    };
    let looks = asked_looks(alloc, text, telling.heading())?;
    let from = lessons_begin(alloc, text, telling.heading())?;
    let names = T::called(alloc, word, tasks.as_slice())?;
    Ok(Some(Learners::called(alloc, tasks, names, looks, from)?))
}
