//! One call as numbers and bytes.
ghost use Rattle.std.specs.Prelude.{◌≡◌, Some, IfErr, IfOk};
ghost use Rattle.hurd_kinds.specs.Boxes.{box_meaning};
ghost use Rattle.hurd_lists.specs.Lists.{listed_by};
ghost use Rattle.hurd_machine.specs.Calls.{reply_by};
ghost use Rattle.hurd_numbers.specs.Calls.{numbered};
ghost use Rattle.hurd_numbers.specs.Figures.{plain, reply_bytes};
ghost use Rattle.hurd_sitting.specs.Kept.{SameWatch};
ghost use Rattle.hurd_c.specs.Calls.{CalledIn, CalledOf, Lined, answered, unanswered};
ghost use Rattle.hurd_c.specs.Ends.{KeepsWatch, over};

use crate::exports::copied;
use crate::handle::Handle;
use crate::said::{Said, ending, status_only};
use hurd_kinds::ServerBox;
use hurd_lists::ListedCall;
use hurd_machine::Reply;
use hurd_numbers::{Figures, Numbers, bytes_of, call_of, figures_of, line_of, no_figures};
use hurd_sitting::Sitting;
use hurd_words::fault::ReadFault;
use std::alloc::{AllocError, Global};
use std::mem::replace;

/// How a call ended, and its reply.
#[repr(C)]
#[derive(Clone, Copy, Debug)]
pub struct Answered {
    /// 0 the call was made; 3 memory was refused, and it was made, or nothing changed; 4 there is no world; 7 these numbers and bytes make no call.
    pub status: u32,
    /// The numbers of the reply; all 0 if there is none.
    pub reply: Figures,
    /// How many bytes the reply has: more than were copied if there was too little room.
    pub length: usize,
    /// How many bytes are told of what those learn who are watched.
    pub told: usize,
}

/// What is said where there is no reply.
pub(crate) fn unanswered(status: u32) -> Answered
    ensures { result ≡ unanswered status }
{
    Answered {
        status,
        reply: no_figures(),
        length: 0,
        told: 0,
    }
}

/// What is said of a reply, whose bytes are copied as far as there is room. Fails only if memory runs out: then nothing is copied.
fn copied_reply(
    alloc: Global,
    reply: Reply<ServerBox>,
    told: usize,
    out: &mut [u8],
) -> Result<Answered, AllocError>
    ensures ok { IfOk result (λ answer. (answer ≡ answered (reply_by box_meaning reply) told) × (out.new ≡ over (reply_bytes (reply_by box_meaning reply)) out.old)) }
    ensures err { IfErr result (λ _. out.new ≡ out.old) }
{
    let figures = figures_of(&reply);
    let bytes = bytes_of(alloc, reply)?;
    copied(bytes.as_slice(), 0, out);
    Ok(Answered {
        status: 0,
        reply: figures,
        length: bytes.len(),
        told,
    })
}

/// Makes a call in a sitting.
fn called(
    alloc: Global,
    sitting: &mut Sitting,
    listed: ListedCall<ServerBox>,
    out: &mut [u8],
) -> Answered
    ensures called { CalledIn (Some (listed_by box_meaning listed)) sitting.old result sitting.new out.old out.new }
    ensures watch { SameWatch sitting.old sitting.new }
{
    let Ok(reply) = sitting.call(alloc, listed) else {
        return unanswered(3);
    };
    match copied_reply(alloc, reply, sitting.told().len(), out) {
        Ok(answer) => answer,
        Err(_) => unanswered(3),
    }
}

/// Makes the call of numbers and bytes in a sitting.
fn called_by(
    alloc: Global,
    sitting: &mut Sitting,
    numbers: &Numbers,
    bytes: &[u8],
    out: &mut [u8],
) -> Answered
    ensures called { CalledIn (numbered numbers.now bytes.now) sitting.old result sitting.new out.old out.new }
    ensures watch { SameWatch sitting.old sitting.new }
{
    match call_of(alloc, numbers, bytes) {
        Ok(listed) => called(alloc, sitting, listed, out),
        Err(ReadFault::Bad) => unanswered(7),
        Err(ReadFault::Memory) => unanswered(3),
    }
}

/// Makes one call, of numbers and bytes, and says its reply in numbers. Copies the bytes of the reply as far as there is room. What those learn who are watched
/// is kept in place of what was told before.
#[unsafe(no_mangle)]
pub extern "C" fn hurd_call(
    alloc: Global,
    world: &mut Handle,
    numbers: &Numbers,
    bytes: &[u8],
    out: &mut [u8],
) -> Answered
    ensures called { CalledOf numbers.now bytes.now world.old.value result world.new.value out.old out.new }
    ensures watch { KeepsWatch world.old.value world.new.value }
{
    match replace(world, Handle::none(alloc)).taken() {
        Some(mut sitting) => {
            let answer = called_by(alloc, &mut sitting, numbers, bytes, out);
            *world = Handle::of(sitting);
            answer
        }
        None => unanswered(4),
    }
}

/// Copies the line of a list that makes the call of these numbers and bytes, without a newline, as far as there is room. There is none if they make no call, or if
/// it is longer than a list may be.
#[unsafe(no_mangle)]
pub extern "C" fn hurd_line(alloc: Global, numbers: &Numbers, bytes: &[u8], out: &mut [u8]) -> Said
    ensures { Lined numbers.now bytes.now result out.old out.new }
{
    match line_of::<ServerBox>(alloc, numbers, bytes) {
        Ok(line) => {
            copied(line.as_slice(), 0, out);
            ending(Ok(()), line.len())
        }
        Err(ReadFault::Bad) => status_only(7),
        Err(ReadFault::Memory) => status_only(3),
    }
}
