//! What commands do with an open node.
ghost use Rattle.std.specs.Prelude.{◌≡◌, ◌++◌, ◌∷◌, [], List, ℕ, IfOk, OnOk, filter};
ghost use Rattle.hurd_machine.specs.declared.call.Call.TheVariants as Call;
ghost use Rattle.hurd_machine.specs.declared.call.PlainCall.TheVariants as PlainCall;
ghost use Rattle.hurd_shell.specs.Commands as written;
ghost use Rattle.hurd_client.specs.Programs.{done_of, made};
ghost use Rattle.hurd_shell.specs.Progress.{Ran};
ghost use Rattle.hurd_shell.specs.Stages.{node_work_of};

use crate::calls;
use crate::fault::Stop;
use hurd_creds::{Bytes, Errno, Mode, TaskId};
use hurd_trans_iface::{Names, Server, Words};
use hurd_words::answers::{Content, Ending};
use hurd_words::printing::{stat_line, words_line};
use hurd_world::World;
use std::alloc::{AllocError, Global};

/// How many reads `cat` makes at most.
const MOST_READS: u32 = 16;

/// What a command puts out, and what ends it.
#[derive(Debug, Drop)]
pub(crate) struct Printed {
    pub(crate) output: Content,
    pub(crate) ending: Ending,
}

/// What a command does with its open node, where it stops for nothing.
#[derive(Debug, Drop)]
pub(crate) enum NodeWork {
    Cat,
    Ls,
    Stat,
    Put(Bytes),
    Chmod(Mode),
    Chown(u32, u32),
    Showtrans,
    /// With no words the options are shown, else set.
    Fsysopts(Words),
    /// A directory of this name is made in the open one.
    Mkdir(Bytes),
    Rm(Bytes),
    Rmdir(Bytes),
}

/// This text is put out, and the command is done.
pub(crate) fn prints(output: Vec<u8>) -> Printed
    ensures { result ≡ written.prints output.items }
{
    Printed {
        output: Content::Text(Bytes::new(output)),
        ending: Ending::Done,
    }
}

/// These names are, each kept apart.
fn lists(names: Names) -> Printed
    ensures { result ≡ written.lists names }
{
    Printed {
        output: Content::Names(names),
        ending: Ending::Done,
    }
}

/// This text is put out, and then a call is refused.
pub(crate) fn refuses(output: Vec<u8>, errno: Errno) -> Printed
    ensures { result ≡ written.refuses output.items errno }
{
    Printed {
        output: Content::Text(Bytes::new(output)),
        ending: Ending::Refused(errno),
    }
}

/// The words of a command are not those that it has.
pub(crate) fn misused(alloc: Global) -> Printed
    ensures { result ≡ written.misused }
{
    Printed {
        output: Content::Text(Bytes::new(Vec::new(alloc))),
        ending: Ending::Usage,
    }
}

/// `cat`: prints a file.
fn cat<S: Server>(
    world: &mut World<S>,
    alloc: Global,
    task: TaskId,
    port: u64,
) -> Result<Printed, Stop>
    ensures { Ran S.meaning task.0 (written.cat port) world.old result world.new }
{
    let mut output = Vec::new(alloc);
    let mut reads = MOST_READS;
    while reads > 0 {
        reads -= 1;
        match calls::read(world, alloc, task, port) {
            Ok(bytes) => {
                if bytes.is_empty() {
                    return Ok(prints(output));
                }
                output.extend_from_slice(bytes.as_slice())?;
            }
            Err(Stop::Refused(errno)) => return Ok(refuses(output, errno)),
            Err(Stop::Memory) => return Err(Stop::Memory),
        }
    }
    Ok(prints(output))
}

/// Whether `ls` prints a name: neither `.` nor `..`.
fn is_shown(name: &Bytes) -> bool
    ensures { result ≡ written.is_shown name.now }
{
    !name.is(b".") && !name.is(b"..")
}

/// Adds a name that is shown.
fn add_shown(shown: &mut Names, name: Bytes) -> Result<(), AllocError>
    ensures { OnOk result ((rest : List (List ℕ)) → shown.new ++ filter written.is_shown rest ≡ shown.old ++ filter written.is_shown (name ∷ rest)) }
{
    if is_shown(&name) {
        shown.push(name)?;
    }
    Ok(())
}

/// The names that are shown.
fn shown_names(alloc: Global, names: Names) -> Result<Names, AllocError>
    ensures { IfOk result (λ shown. shown ≡ filter written.is_shown names) }
{
    let mut shown = Names::new(alloc);
    for name in names.into_vec() {
        add_shown(&mut shown, name)?;
    }
    Ok(shown)
}

/// `ls`: prints the names in a directory.
fn ls<S: Server>(
    world: &mut World<S>,
    alloc: Global,
    task: TaskId,
    port: u64,
) -> Result<Printed, Stop>
    ensures { Ran S.meaning task.0 (written.ls port) world.old result world.new }
{
    let names = calls::names(world, alloc, task, port)?;
    Ok(lists(shown_names(alloc, names)?))
}

/// `ls -d`: prints what is told of a node.
fn stat<S: Server>(
    world: &mut World<S>,
    alloc: Global,
    task: TaskId,
    port: u64,
) -> Result<Printed, Stop>
    ensures { Ran S.meaning task.0 (written.stat port) world.old result world.new }
{
    let stat = calls::stat(world, alloc, task, port)?;
    Ok(prints(stat_line(alloc, &stat)?))
}

/// `put`: writes a file anew.
fn put<S: Server>(
    world: &mut World<S>,
    alloc: Global,
    task: TaskId,
    port: u64,
    text: Bytes,
) -> Result<Printed, Stop>
    ensures { Ran S.meaning task.0 (written.put text port) world.old result world.new }
{
    calls::cut(world, alloc, task, port)?;
    calls::write(world, alloc, task, port, text)?;
    Ok(prints(Vec::new(alloc)))
}

/// `chmod`: sets a node's mode.
fn chmod<S: Server>(
    world: &mut World<S>,
    alloc: Global,
    task: TaskId,
    port: u64,
    mode: Mode,
) -> Result<Printed, Stop>
    ensures { Ran S.meaning task.0 (written.chmod mode port) world.old result world.new }
{
    calls::chmod(world, alloc, task, port, mode)?;
    Ok(prints(Vec::new(alloc)))
}

/// `chown`: gives a node to an owner and a group.
fn chown<S: Server>(
    world: &mut World<S>,
    alloc: Global,
    task: TaskId,
    port: u64,
    owner: u32,
    group: u32,
) -> Result<Printed, Stop>
    ensures { Ran S.meaning task.0 (written.chown owner group port) world.old result world.new }
{
    calls::chown(world, alloc, task, port, owner, group)?;
    Ok(prints(Vec::new(alloc)))
}

/// `showtrans`: prints the words of the passive translator.
fn showtrans<S: Server>(
    world: &mut World<S>,
    alloc: Global,
    task: TaskId,
    port: u64,
) -> Result<Printed, Stop>
    ensures { Ran S.meaning task.0 (written.showtrans port) world.old result world.new }
{
    let words = calls::passive(world, alloc, task, port)?;
    Ok(prints(words_line(alloc, words.as_slice())?))
}

/// Prints the options of a server.
fn show_options<S: Server>(
    world: &mut World<S>,
    alloc: Global,
    task: TaskId,
    control: u64,
) -> Result<Printed, Stop>
    ensures { Ran S.meaning task.0 (written.options [] control) world.old result world.new }
{
    let words = calls::options(world, alloc, task, control)?;
    Ok(prints(words_line(alloc, words.as_slice())?))
}

/// Gives a server options, and prints nothing.
fn set_options<S: Server>(
    world: &mut World<S>,
    alloc: Global,
    task: TaskId,
    control: u64,
    words: Words,
) -> Result<Printed, Stop>
    ensures { Ran S.meaning task.0 (written.silent (made (Call.Plain (PlainCall.FsysSetOptions control words)) done_of)) world.old result world.new }
{
    calls::set_options(world, alloc, task, control, words)?;
    Ok(prints(Vec::new(alloc)))
}

/// Shows the options of a server, or gives it these.
fn options<S: Server>(
    world: &mut World<S>,
    alloc: Global,
    task: TaskId,
    control: u64,
    words: Words,
) -> Result<Printed, Stop>
    ensures { Ran S.meaning task.0 (written.options words control) world.old result world.new }
{
    if words.has_any() {
        set_options(world, alloc, task, control, words)
    } else {
        show_options(world, alloc, task, control)
    }
}

/// `fsysopts`: shows the options of a node's server, or gives it these.
fn fsysopts<S: Server>(
    world: &mut World<S>,
    alloc: Global,
    task: TaskId,
    port: u64,
    words: Words,
) -> Result<Printed, Stop>
    ensures { Ran S.meaning task.0 (written.fsysopts words port) world.old result world.new }
{
    let control = calls::control(world, alloc, task, port)?;
    let done = options(world, alloc, task, control, words);
    calls::deallocate(world, alloc, task, control)?;
    done
}

/// `mkdir`: makes a directory in an open one.
fn mkdir<S: Server>(
    world: &mut World<S>,
    alloc: Global,
    task: TaskId,
    dir: u64,
    name: Bytes,
) -> Result<Printed, Stop>
    ensures { Ran S.meaning task.0 (written.mkdir dir name) world.old result world.new }
{
    calls::mkdir(world, alloc, task, dir, name)?;
    Ok(prints(Vec::new(alloc)))
}

/// `rm`: takes the name of a file away.
fn rm<S: Server>(
    world: &mut World<S>,
    alloc: Global,
    task: TaskId,
    dir: u64,
    name: Bytes,
) -> Result<Printed, Stop>
    ensures { Ran S.meaning task.0 (written.rm dir name) world.old result world.new }
{
    calls::unlink(world, alloc, task, dir, name)?;
    Ok(prints(Vec::new(alloc)))
}

/// `rmdir`: removes a directory.
fn rmdir<S: Server>(
    world: &mut World<S>,
    alloc: Global,
    task: TaskId,
    dir: u64,
    name: Bytes,
) -> Result<Printed, Stop>
    ensures { Ran S.meaning task.0 (written.rmdir dir name) world.old result world.new }
{
    calls::rmdir(world, alloc, task, dir, name)?;
    Ok(prints(Vec::new(alloc)))
}

/// Does a command's work with its open node.
pub(crate) fn work_on<S: Server>(
    world: &mut World<S>,
    alloc: Global,
    task: TaskId,
    port: u64,
    work: NodeWork,
) -> Result<Printed, Stop>
    ensures { Ran S.meaning task.0 (node_work_of work port) world.old result world.new }
{
    match work {
        NodeWork::Cat => cat(world, alloc, task, port),
        NodeWork::Ls => ls(world, alloc, task, port),
        NodeWork::Stat => stat(world, alloc, task, port),
        NodeWork::Put(text) => put(world, alloc, task, port, text),
        NodeWork::Chmod(mode) => chmod(world, alloc, task, port, mode),
        NodeWork::Chown(owner, group) => chown(world, alloc, task, port, owner, group),
        NodeWork::Showtrans => showtrans(world, alloc, task, port),
        NodeWork::Fsysopts(words) => fsysopts(world, alloc, task, port, words),
        NodeWork::Mkdir(name) => mkdir(world, alloc, task, port, name),
        NodeWork::Rm(name) => rm(world, alloc, task, port, name),
        NodeWork::Rmdir(name) => rmdir(world, alloc, task, port, name),
    }
}
