//! A list of calls from a seed.
ghost use Rattle.std.specs.Prelude.{◌≡◌, ◌≤◌, IfOk, length, true};
ghost use Rattle.hurd_lists.specs.Lists.{reading_of};
ghost use Rattle.hurd_sample.specs.Listed.{HasCalls};

use crate::board::Board;
use crate::fault::SampleFault;
use hurd_creds::MOST_SCRIPT;
use hurd_lists::{CallList, ListFault, parse_calls};
use std::alloc::{AllocError, Global};

/// The tasks of each list: root, alice, bob, and one without ids.
const TASKS: &[u8] = b"task 0 0\ntask 1000 1000,100\ntask 1001 1001,100\ntask - -\n";

/// No call is written in fewer bytes.
const LEAST_CALL: u64 = 8;

/// What is in place of a line that is no call.
const LOOK: &[u8] = b"0 io_stat 1";

/// A random list of so many calls, good and the same for the same seed: four tasks; a directory for all and a server; then what they
/// call. What was drawn is read before it is given.
///
/// Errors: `TooLong` where so many calls have no room in 1,048,576 bytes; `Memory` where memory is refused; `Unread` where what was drawn is no such list.
pub fn sample_calls(alloc: Global, seed: u64, count: u64) -> Result<Vec<u8>, SampleFault>
    ensures good { IfOk result (λ text. HasCalls count (reading_of text.items)) }
    ensures size { IfOk result (λ text. length text.items ≤ 1048576) }
{
    if count > MOST_SCRIPT as u64 / LEAST_CALL {
        return Err(SampleFault::TooLong);
    }
    let text = drawn(alloc, seed, count)?;
    if text.len() > MOST_SCRIPT {
        return Err(SampleFault::TooLong);
    }
    if !has_calls(alloc, text.as_slice(), count)? {
        return Err(SampleFault::Unread);
    }
    Ok(text)
}

/// The tasks, and so many calls. A line that is no call is a look at the root.
fn drawn(alloc: Global, seed: u64, count: u64) -> Result<Vec<u8>, AllocError> {
    let mut board = Board::new(alloc, seed)?;
    let mut text = Vec::from_slice(alloc, TASKS)?;
    for number in 0..count {
        let line = board.call(alloc, number)?;
        if has_calls(alloc, line.as_bytes(), 1)? {
            text.extend_from_slice(line.as_bytes())?;
        } else {
            text.extend_from_slice(LOOK)?;
        }
        text.push(b'\n')?;
    }
    Ok(text)
}

/// Whether a text is a good list of so many calls. Fails only if memory runs out.
fn has_calls(alloc: Global, text: &[u8], count: u64) -> Result<bool, AllocError>
    ensures { IfOk result (λ has. has ≡ true → HasCalls count (reading_of text.now)) }
{
    let list: CallList = match parse_calls(alloc, text) {
        Ok(list) => list,
        Err(ListFault::Memory) => return Err(AllocError),
        Err(ListFault::Bad { line: _, flaw: _ }) => return Ok(false),
    };
    Ok(list.calls.len() as u64 == count)
}
