//! A text from its beginning to its end, and what is seen there.
ghost use Rattle.std.specs.Prelude.{◌≡◌, ◌≢◌, true, Err, IfOk};
ghost use Rattle.hurd_terminal.specs.Runs.{Adds};
ghost use Rattle.hurd_dialogue.specs.Parts.{world_behind};
ghost use Rattle.hurd_teaching.specs.Programs.{seeing};
ghost use Rattle.hurd_teaching.specs.Telling.{Shows};

use crate::learners::Learners;
use crate::limits::shortened;
use crate::naming::learners_of;
use crate::telling::shown;
use hurd_creds::Bytes;
use hurd_dialogue::{Telling, play_silently};
use hurd_terminal::{Fault, Output};
use std::alloc::{AllocError, Global};
use std::io::Write;

/// All that some see at the end of a text. Fails only if memory runs out.
fn seen_at_end<T: Telling>(
    alloc: Global,
    telling: &mut T,
    learners: &Learners,
) -> Result<Bytes, AllocError>
    ensures { IfOk result (λ text. Shows learners.now.tasks.items learners.now.sees.items true (world_behind (T.way telling.old).world (T.way telling.old).left) text) }
{
    play_silently(alloc, telling)?;
    shown(alloc, telling.world(), learners, true)
}

/// Begins a text, and prints all that those that WHO names see at its end; or at most `most` bytes of it, in whole lines, and then a line that says how many
/// bytes more there are.
///
/// `Bad` with the line at which it is bad, `Boot` with its world's refusal, `Unknown` where somebody is named who isn't in it; `Memory`: then nothing is
/// printed. `Write`: then a front is.
pub fn see_text<T: Telling, W: Write>(
    alloc: Global,
    word: &str,
    most: Option<usize>,
    text: &[u8],
    output: &mut Output<W>,
) -> Result<(), Fault>
    ensures adds { Adds (seeing T.sort most word.now) text.now (W.contents output.old.writer) (W.contents output.new.writer) result }
    ensures read { result ≢ Err Fault.Read }
    ensures write { result ≡ Err Fault.Write → output.new.failed ≡ true }
{
    let mut telling = T::begun(alloc, text)?;
    let Some(learners) = learners_of(alloc, &*telling, word, text)? else {
        return Err(Fault::Unknown);
    };
    let seen = seen_at_end(alloc, &mut *telling, &learners)?;
    let seen = shortened(alloc, most, learners.sees.as_slice(), seen)?;
    output.print(seen.as_slice())
}
