//! Opening what a path leads to.
ghost use Rattle.std.specs.Prelude.{◌≡◌, Some};
ghost use Rattle.hurd_sitting.specs.Kept.{SameWatch};
ghost use Rattle.hurd_c.specs.Ends.{KeepsWatch};
ghost use Rattle.hurd_c.specs.Openings.{OpenedIn, OpenedOf, how_at, opened, unended};

use crate::calls::{Answered, unanswered};
use crate::handle::Handle;
use hurd_client::OpenHow;
use hurd_creds::{Bytes, Errno, TaskId};
use hurd_kinds::ServerBox;
use hurd_machine::Reply;
use hurd_numbers::{Numbers, figures_of, mode, open_flags};
use hurd_sitting::Sitting;
use hurd_words::fault::ReadFault;
use std::alloc::Global;
use std::mem::replace;

/// What is said of an opening that ended: its port, or its refusal.
fn opened(end: Result<u64, Errno>, told: usize) -> Answered
    ensures { result ≡ opened end told }
{
    let reply: Reply<ServerBox> = match end {
        Ok(port) => Reply::Port(port),
        Err(errno) => Reply::Refused(errno),
    };
    Answered {
        status: 0,
        reply: figures_of(&reply),
        length: 0,
        told,
    }
}

/// What is said of an opening that was not made to its end.
fn unended(status: u32, told: usize) -> Answered
    ensures { result ≡ unended status told }
{
    Answered {
        told,
        ..unanswered(status)
    }
}

/// Opens a path in a sitting.
fn opened_by(
    alloc: Global,
    sitting: &mut Sitting,
    numbers: &Numbers,
    path: Bytes,
    how: OpenHow,
) -> Answered
    ensures opened { OpenedIn (Some how) numbers.now path sitting.old result sitting.new }
    ensures watch { SameWatch sitting.old sitting.new }
{
    let end = sitting.open(alloc, TaskId(numbers.task), numbers.port, path, how);
    let told = sitting.told().len();
    match end {
        Ok(end) => opened(end, told),
        Err(ReadFault::Bad) => unended(7, told),
        Err(ReadFault::Memory) => unended(3, told),
    }
}

/// Opens the path of numbers and bytes in a sitting.
fn opened_in(alloc: Global, sitting: &mut Sitting, numbers: &Numbers, path: &[u8]) -> Answered
    ensures opened { OpenedIn (how_at numbers.now) numbers.now path.now sitting.old result sitting.new }
    ensures watch { SameWatch sitting.old sitting.new }
{
    let Ok(flags) = open_flags(numbers.flags) else {
        return unanswered(7);
    };
    let how = OpenHow {
        flags,
        mode: mode(numbers.mode),
    };
    match Bytes::copied(alloc, path) {
        Ok(path) => opened_by(alloc, sitting, numbers, path, how),
        Err(_) => unanswered(3),
    }
}

/// Opens what a path leads to, as commands of a script do, and says the port or the refusal. Of the numbers it takes the task, the port of the directory that the
/// path starts at, the flags, and the mode of a file that is made. The calls that it makes are kept in place of what was told before, each as `hurd_make` tells it.
#[unsafe(no_mangle)]
pub extern "C" fn hurd_open(
    alloc: Global,
    world: &mut Handle,
    numbers: &Numbers,
    path: &[u8],
) -> Answered
    ensures opened { OpenedOf numbers.now path.now world.old.value result world.new.value }
    ensures watch { KeepsWatch world.old.value world.new.value }
{
    match replace(world, Handle::none(alloc)).taken() {
        Some(mut sitting) => {
            let answer = opened_in(alloc, &mut sitting, numbers, path);
            *world = Handle::of(sitting);
            answer
        }
        None => unanswered(4),
    }
}
