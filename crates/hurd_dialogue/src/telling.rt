//! A text on its way.
ghost use Rattle.std.specs.Prelude.{◌≡◌, [], IfErr, IfOk, OnOk, map, string_bytes};
ghost use Rattle.std.specs.Option.{option_map};
ghost use Rattle.hurd_creds.specs.declared.name.TaskId.{TaskId};
ghost use Rattle.hurd_kinds.specs.Boxes.{box_meaning};
ghost use Rattle.hurd_machine.specs.Sound.{Sound};
ghost use Rattle.hurd_touches.specs.declared.noted.Noted.{Noted};
ghost use Rattle.hurd_world.specs.Held.{world_of};
ghost use Rattle.hurd_world.specs.Noting.{NotesWhatIsTouched};
ghost use Rattle.hurd_dialogue.specs.Parts.{Goes, Way, next_task, standing};
ghost use Rattle.hurd_dialogue.specs.Sorts.{Begins, NotBegun, Sort};

use hurd_creds::TaskId;
use hurd_kinds::ServerBox;
use hurd_terminal::Fault;
use hurd_words::answers::Answer;
use hurd_world::{Noted, World};
use std::alloc::{AllocError, Global};

/// A text on its way through a world of its own, begun over an empty tree in memory, with the servers that its words make.
pub trait Telling: Drop {
    // What texts of its sort are.
    ghost sort: { Sort };

    // How far it is.
    ghost way: { Self → Way };

    // The parts that calls touched since these were to be noted.
    ghost noted: { Self → Noted };

    /// Begins a text.
    ///
    /// Errors, in order: `Bad` with the line at which it is bad, `Boot` with its world's refusal; `Memory` at any point.
    fn begun(alloc: Global, text: &[u8]) -> Result<Box<Self>, Fault>
        ensures ok { IfOk result (λ telling. Begins sort text.now (way telling.value)) }
        ensures sound { IfOk result (λ telling. Sound (way telling.value).world) }
        ensures err { IfErr result (λ fault. NotBegun sort text.now fault) };

    /// What the next part is answered; none if all were told, and then nothing changes. Fails only if memory runs out: the part is lost, and the text is to be
    /// dropped.
    fn next(&mut self, alloc: Global) -> Result<Option<Answer>, AllocError>
        ensures goes { IfOk result (λ answer. Goes (way self.old) answer (way self.new)) }
        ensures noted { OnOk result (NotesWhatIsTouched (standing (way self.old) (noted self.old)) (standing (way self.new) (noted self.new))) };

    /// Notes from now on which parts calls touch.
    fn note(&mut self)
        ensures way { way self.new ≡ way self.old }
        ensures noted { noted self.new ≡ Noted.These [] };

    /// The parts that calls touched since `note`, or any.
    fn noted(&self) -> &Noted
        ensures { result.now ≡ noted self.now };

    /// The task of the next part; none where all were told.
    fn task(&self) -> Option<TaskId>
        ensures { option_map (λ (t : TaskId). t.0) result ≡ next_task (way self.now).left };

    /// How many parts were told.
    fn told(&self) -> usize
        ensures { result ≡ (way self.now).told };

    /// The world, as the parts so far left it.
    fn world(&self) -> &World<ServerBox>
        ensures { world_of box_meaning result.now ≡ (way self.now).world };

    /// By how many lines that say something its parts are preceded, and one.
    fn heading(&self) -> usize
        ensures { result ≡ (way self.now).heading };

    /// The names of its tasks, in order; none where these have no names.
    fn names(&self) -> &[String]
        ensures { map string_bytes result.now ≡ (way self.now).names };

    /// The task of a name, if it is in the text.
    fn finds(&self, name: &str) -> Option<TaskId>
        ensures { option_map (λ (t : TaskId). t.0) result ≡ (way self.now).finds name.now };

    /// What the tasks of a word are called. Fails only if memory runs out.
    fn called(alloc: Global, word: &str, tasks: &[TaskId]) -> Result<Vec<u8>, AllocError>
        ensures { IfOk result (λ names. names.items ≡ sort.called word.now tasks.now) };

    /// What is done in a text of its sort, as ` command`.
    fn thing() -> &'static [u8]
        ensures { result.now ≡ sort.thing };

    /// What is said after the name of a file whose text is bad: the line, why, and what is there; of a good text nothing. Fails only if memory runs out.
    fn complaint(alloc: Global, text: &[u8]) -> Result<Vec<u8>, AllocError>
        ensures { IfOk result (λ said. said.items ≡ sort.complaint text.now) };

    /// What is said in front of somebody who isn't in a text.
    fn stranger() -> &'static [u8]
        ensures { result.now ≡ sort.stranger };
}
