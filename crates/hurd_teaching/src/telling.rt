//! What is said after what each task did, and what is shown.
ghost use Rattle.std.specs.Prelude.{◌≡◌, ◌++◌, if◌then◌else◌, true, false, IfErr, IfOk, OnOk};
ghost use Rattle.std.specs.Io.KnownBytes.{Appends};
ghost use Rattle.hurd_world.specs.Held.{world_of};
ghost use Rattle.hurd_words.specs.Turns.{paragraph};
ghost use Rattle.hurd_lessons.specs.Told.{counted};
ghost use Rattle.hurd_terminal.specs.Faults.{AppendsFront, IsPrintFault};
ghost use Rattle.hurd_teaching.specs.Limits.{shortened};
ghost use Rattle.hurd_teaching.specs.Telling.{SaysOf, Shows};
ghost use Rattle.hurd_teaching.specs.Watched.{SeenOf, Sees};

use crate::learners::Learners;
use crate::limits::shortened;
use crate::seeing::view_of;
use crate::watch::Watch;
use hurd_creds::Bytes;
use hurd_lessons::{Tally, seen};
use hurd_terminal::{Fault, Output};
use hurd_trans_iface::Server;
use hurd_words::answers::Answer;
use hurd_words::marks::push_marked;
use hurd_world::World;
use std::alloc::{AllocError, Global};
use std::io::Write;

/// Looks at what these see before something is done, unless that was done, or nothing is to be said. Fails only if memory runs out.
pub fn look_before<S: Server>(
    alloc: Global,
    world: &World<S>,
    learners: &Learners,
    watch: &mut Watch,
    quiet: bool,
) -> Result<(), AllocError>
    requires { SeenOf learners.now.tasks.items (world_of S.meaning world.now) watch.old.seen }
    ensures sees { OnOk result (quiet ≡ false → Sees learners.now.tasks.items (world_of S.meaning world.now) watch.new.seen) }
    ensures kept { OnOk result (quiet ≡ true → watch.new ≡ watch.old) }
{
    if !quiet {
        watch.look(alloc, world, learners.tasks.as_slice())?;
    }
    Ok(())
}

/// What is said after what was done: nothing where nothing is to be said, and then these are looked at anew; else what they learn by it. Fails only if
/// memory runs out.
pub fn said<S: Server>(
    alloc: Global,
    world: &World<S>,
    learners: &Learners,
    watch: &mut Watch,
    quiet: bool,
) -> Result<Bytes, AllocError>
    ensures { IfOk result (λ text. SaysOf learners.now.tasks.items learners.now.who.items quiet (world_of S.meaning world.now) watch.old.seen watch.new.seen text) }
{
    if quiet {
        watch.forget();
        return Ok(Bytes::new(Vec::new(alloc)));
    }
    watch.learned(
        alloc,
        world,
        learners.tasks.as_slice(),
        learners.who.as_slice(),
    )
}

/// The same; and nothing where it is known that what these see is as it was.
pub fn said_if_moved<S: Server>(
    alloc: Global,
    world: &World<S>,
    learners: &Learners,
    watch: &mut Watch,
    quiet: bool,
    unmoved: bool,
) -> Result<Bytes, AllocError>
    requires { unmoved ≡ true → (quiet ≡ false) × Sees learners.now.tasks.items (world_of S.meaning world.now) watch.old.seen }
    ensures { IfOk result (λ text. SaysOf learners.now.tasks.items learners.now.who.items quiet (world_of S.meaning world.now) watch.old.seen watch.new.seen text) }
{
    if unmoved {
        return Ok(Bytes::new(Vec::new(alloc)));
    }
    said(alloc, world, learners, watch, quiet)
}

/// What is shown after what was done: all that these see, where that is asked for. Fails only if memory runs out.
pub fn shown<S: Server>(
    alloc: Global,
    world: &World<S>,
    learners: &Learners,
    asked: bool,
) -> Result<Bytes, AllocError>
    ensures { IfOk result (λ text. Shows learners.now.tasks.items learners.now.sees.items asked (world_of S.meaning world.now) text) }
{
    if !asked {
        return Ok(Bytes::new(Vec::new(alloc)));
    }
    let view = view_of(alloc, world, learners.tasks.as_slice())?;
    seen(alloc, learners.sees.as_slice(), &view)
}

/// How often others taught something, with one thing more that was done.
pub(crate) fn counted(tally: Tally, quiet: bool, said: &Bytes) -> Tally
    ensures { result ≡ (if quiet then tally else counted tally said.now) }
{
    if quiet { tally } else { tally.count(said) }
}

/// A paragraph: an answer, what is said after it, and what is shown after that. Fails only if memory runs out.
pub fn paragraph(
    alloc: Global,
    answer: &Answer,
    said: &Bytes,
    shown: &Bytes,
) -> Result<Vec<u8>, AllocError>
    ensures { IfOk result (λ text. text.items ≡ paragraph answer.now (said.now ++ shown.now)) }
{
    let mut text = Vec::new(alloc);
    push_marked(&mut text, answer)?;
    text.extend_from_slice(said.as_slice())?;
    text.extend_from_slice(shown.as_slice())?;
    text.push(b'\n')?;
    Ok(text)
}

/// Prints a paragraph: an answer, what is said after it, and what is shown after that, of each at most so many bytes, if that is limited.
///
/// `Write`: then only some first bytes were printed; `Memory`, and then nothing was.
pub(crate) fn print_all<W: Write>(
    alloc: Global,
    most: Option<usize>,
    learners: &Learners,
    answer: &Answer,
    said: Bytes,
    shown: Bytes,
    output: &mut Output<W>,
) -> Result<(), Fault>
    ensures ok { OnOk result (Appends (W.contents output.old.writer) (W.contents output.new.writer)
        (paragraph answer.now (shortened most learners.now.who.items said ++ shortened most learners.now.sees.items shown))) }
    ensures err { IfErr result (λ fault. IsPrintFault output.new fault × AppendsFront (W.contents output.old.writer) (W.contents output.new.writer)
        (paragraph answer.now (shortened most learners.now.who.items said ++ shortened most learners.now.sees.items shown))) }
{
    let said = shortened(alloc, most, learners.who.as_slice(), said)?;
    let shown = shortened(alloc, most, learners.sees.as_slice(), shown)?;
    let text = paragraph(alloc, answer, &said, &shown)?;
    output.print(text.as_slice())
}
