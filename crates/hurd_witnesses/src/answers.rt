//! What the last command of a text is told.
ghost use Rattle.std.specs.Prelude.{◌≡◌, ◌≢◌, None, IfOk};
ghost use Rattle.std.specs.List.{last_or};
ghost use Rattle.hurd_dialogue.specs.Parts.{answers};
ghost use Rattle.hurd_terminal.specs.declared.fault.Fault.{Fault};
ghost use Rattle.hurd_witnesses.specs.Answers.{answer_of, is_ended, unended};

use hurd_dialogue::Telling;
use hurd_terminal::Fault;
use hurd_words::answers::Answer;
use std::alloc::{AllocError, Global};

/// The last part that a text has still to tell; none where all were told. Fails only if memory runs out.
fn last_part<T: Telling>(alloc: Global, telling: &mut T) -> Result<Option<Answer>, AllocError>
    ensures { IfOk result (λ part. part ≡ last_or None (answers (T.way telling.old).left)) }
{
    let mut last = None;
    while let Some(part) = telling.next(alloc)? {
        last = Some(part);
    }
    Ok(last)
}

/// What a text tells that was not begun: nothing. Fails only if memory runs out.
fn nothing_told(fault: Fault) -> Result<Option<Answer>, AllocError>
    ensures { IfOk result (λ told. (told ≡ None) × (fault ≢ Fault.Memory)) }
{
    match fault {
        Fault::Memory => Err(AllocError),
        Fault::Read | Fault::Write | Fault::Bad { .. } | Fault::Unknown | Fault::Boot(_) => Ok(
            None,
        ),
    }
}

/// What the last command of a text is told; nothing where the text is bad. Fails only if memory runs out.
pub(crate) fn answer<T: Telling>(alloc: Global, text: &[u8]) -> Result<Option<Answer>, AllocError>
    ensures { IfOk result (λ told. told ≡ answer_of T.sort text.now) }
{
    match T::begun(alloc, text) {
        Ok(mut telling) => last_part(alloc, &mut *telling),
        Err(fault) => nothing_told(fault),
    }
}

/// Whether a text ends with a newline.
fn is_ended(text: &[u8]) -> bool
    ensures { result ≡ is_ended text.now }
{
    match text.get(text.len().saturating_sub(1)) {
        Some(byte) => *byte == b'\n',
        None => false,
    }
}

/// A text without the newline that it ends with.
pub(crate) fn unended(text: &[u8]) -> &[u8]
    ensures { result.now ≡ unended text.now }
{
    if is_ended(text) {
        &text[..text.len().saturating_sub(1)]
    } else {
        text
    }
}
