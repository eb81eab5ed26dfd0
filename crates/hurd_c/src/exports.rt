//! The functions that C calls.
ghost use Rattle.std.specs.Prelude.{◌≡◌, None, drop, length, min};
ghost use Rattle.hurd_sitting.specs.Kept.{SameWatch, told_in};
ghost use Rattle.hurd_c.specs.Ends.{Began, BegunWith, KeepsWatch, Made, MadeIn, Watched, WatchedIn, over, told_of};

use crate::handle::Handle;
use crate::said::{Said, ending, status_only};
use hurd_sitting::Sitting;
use std::alloc::Global;
use std::mem::replace;

/// Copies bytes from one on, as far as there is room, and gives how many these are.
pub(crate) fn copied(bytes: &[u8], from: usize, out: &mut [u8]) -> usize
    ensures bytes { out.new ≡ over (drop from bytes.now) out.old }
    ensures count { result ≡ min (length (drop from bytes.now)) (length out.old) }
{
    let start = from.min(bytes.len());
    let rest = &bytes[start..];
    let count = rest.len().min(out.len());
    out[..count].copy_from_slice(&rest[..count]);
    count
}

/// Lets the world go that is there, and begins that of a list's tasks over an empty tree in memory. Makes the list's calls, keeps what they tell, and copies
/// of that what there is room for. Where the list begins none, there is no world.
#[unsafe(no_mangle)]
pub extern "C" fn hurd_begin(alloc: Global, world: &mut Handle, list: &[u8], out: &mut [u8]) -> Said
    ensures began { Began list.now result world.new.value }
    ensures tasks { BegunWith list.now world.new.value }
    ensures copied { out.new ≡ over (told_of world.new.value) out.old }
{
    hurd_end(alloc, world);
    match Sitting::begun(alloc, list) {
        Ok(sitting) => {
            let length = sitting.told().len();
            copied(sitting.told(), 0, out);
            *world = Handle::of(sitting);
            ending(Ok(()), length)
        }
        Err(fault) => ending(Err(fault), 0),
    }
}

/// Makes the calls of a text in a sitting.
fn made(alloc: Global, sitting: &mut Sitting, calls: &[u8]) -> Said
    ensures made { MadeIn calls.now sitting.old result sitting.new }
    ensures watch { SameWatch sitting.old sitting.new }
{
    let ended = sitting.make(alloc, calls);
    ending(ended, sitting.told().len())
}

/// Makes the calls of a text one after another. Keeps what they tell, and what those learn who are watched, in place of what was told before, and copies
/// of that what there is room for.
#[unsafe(no_mangle)]
pub extern "C" fn hurd_make(alloc: Global, world: &mut Handle, calls: &[u8], out: &mut [u8]) -> Said
    ensures made { Made calls.now world.old.value result world.new.value }
    ensures watch { KeepsWatch world.old.value world.new.value }
    ensures copied { out.new ≡ over (told_of world.new.value) out.old }
{
    match replace(world, Handle::none(alloc)).taken() {
        Some(mut sitting) => {
            let said = made(alloc, &mut sitting, calls);
            copied(sitting.told(), 0, out);
            *world = Handle::of(sitting);
            said
        }
        None => status_only(4),
    }
}

/// Watches the tasks that a word names in a sitting.
fn watched(alloc: Global, sitting: &mut Sitting, who: &[u8]) -> Said
    ensures { WatchedIn who.now sitting.old result sitting.new }
{
    let ended = sitting.watch(alloc, who);
    ending(ended, sitting.told().len())
}

/// From now on `hurd_make` adds, after each call by others, what the tasks in `who` learn from it, and `hurd_call` tells that alone; their numbers are separated by
/// commas. If `who` is empty, nothing is added.
/// What was told before stays told. Where one of them isn't there, or memory is refused, nothing changes.
#[unsafe(no_mangle)]
pub extern "C" fn hurd_watch(alloc: Global, world: &mut Handle, who: &[u8]) -> Said
    ensures { Watched who.now world.old.value result world.new.value }
{
    match replace(world, Handle::none(alloc)).taken() {
        Some(mut sitting) => {
            let said = watched(alloc, &mut sitting, who);
            *world = Handle::of(sitting);
            said
        }
        None => status_only(4),
    }
}

/// Copies what the last text told, from a byte on, as far as there is room. Gives how many bytes these are.
#[unsafe(no_mangle)]
pub extern "C" fn hurd_told(alloc: Global, world: &mut Handle, from: usize, out: &mut [u8]) -> usize
    ensures same { world.new.value ≡ world.old.value }
    ensures copied { out.new ≡ over (drop from (told_of world.old.value)) out.old }
    ensures count { result ≡ min (length (drop from (told_of world.old.value))) (length out.old) }
{
    match replace(world, Handle::none(alloc)).taken() {
        Some(sitting) => {
            let count = copied(sitting.told(), from, out);
            *world = Handle::of(sitting);
            count
        }
        None => 0,
    }
}

/// Lets the world go. There is none afterwards.
#[unsafe(no_mangle)]
pub extern "C" fn hurd_end(alloc: Global, world: &mut Handle)
    ensures { world.new.value ≡ None }
{
    *world = Handle::none(alloc);
}
