//! A text with what some learn of it, and how they could be told it.
ghost use Rattle.std.specs.Prelude.{◌≡◌, ◌≢◌, ◌-◌, [], true, Err, IfErr, IfOk, None};
ghost use Rattle.hurd_teaching.specs.Programs.{learning};
ghost use Rattle.hurd_terminal.specs.Runs.{Adds, IsTaken, Prints};
ghost use Rattle.hurd_terminal.specs.declared.fault.Fault.{Fault};
ghost use Rattle.hurd_witnesses.specs.Finding.{finding};
ghost use Rattle.hurd_witnesses.specs.Witnesses.{IsWitnessed};

use crate::answers::unended;
use crate::hunt::hunt_of;
use crate::lines::witnessed;
use hurd_dialogue::Telling;
use hurd_teaching::learn_text;
use hurd_terminal::{Fault, Output};
use std::alloc::{AllocError, Global};
use std::io::Write;

/// Why a text is not kept in memory: what can't be written there finds none.
fn kept_fault(fault: Fault) -> Fault
    ensures { (fault ≡ Fault.Write → result ≡ Fault.Memory) × (fault ≢ Fault.Write → result ≡ fault) }
{
    match fault {
        Fault::Write => Fault::Memory,
        Fault::Read | Fault::Bad { .. } | Fault::Unknown | Fault::Boot(_) | Fault::Memory => fault,
    }
}

/// What is printed of a text for those that WHO names. Faults as of `learn_text`, but `Memory` for `Write`.
fn learned<T: Telling>(alloc: Global, word: &str, text: &[u8]) -> Result<Vec<u8>, Fault>
    ensures ok { IfOk result (λ printed. IsTaken (learning T.sort None word.now) text.now × (learning T.sort None word.now).IsAll text.now printed.items) }
    ensures err { IfErr result (λ fault. (fault ≢ Fault.Read) × (fault ≢ Fault.Write) × Prints (finding T.sort word.now) text.now (Err fault) []) }
{
    let mut kept = Output::new(Vec::new(alloc));
    match learn_text::<T, Vec<u8>>(alloc, word, None, text, &mut kept) {
        Ok(()) => Ok(kept.writer),
        Err(fault) => Err(kept_fault(fault)),
    }
}

/// By how many lines that say something the parts of a text are preceded. Fails if memory runs out, or if the text is bad.
pub fn lines_before<T: Telling>(alloc: Global, text: &[u8]) -> Result<usize, AllocError>
    ensures { IfOk result (λ lines. lines ≡ T.sort.heading text.now - 1) }
{
    match T::begun(alloc, text) {
        Ok(telling) => Ok(telling.heading().saturating_sub(1)),
        Err(_) => Err(AllocError),
    }
}

/// What was printed of a text, with how those that WHO names could be told each thing. Fails if memory runs out, or if the text is bad.
fn witnessed_text<T: Telling>(
    alloc: Global,
    word: &str,
    text: &[u8],
    learned: &[u8],
) -> Result<Vec<u8>, AllocError>
    ensures { IfOk result (λ printed. IsWitnessed T.sort word.now text.now learned.now printed.items) }
{
    let first = lines_before::<T>(alloc, text)?;
    let hunt = hunt_of(alloc, word, text, first)?;
    witnessed::<T>(alloc, &hunt, unended(learned))
}

/// Prints what `learn_text` prints, and after each line of what those that WHO names learn how they could be told it: a command of theirs that is
/// answered otherwise after what was done than before it, with both answers; or how many were tried in vain.
///
/// `Bad` with the line at which it is bad, `Boot` with its world's refusal, `Unknown` where somebody is named who isn't in it; `Memory`: then nothing is
/// printed. `Write`: then a front is.
pub fn find_text<T: Telling, W: Write>(
    alloc: Global,
    word: &str,
    text: &[u8],
    output: &mut Output<W>,
) -> Result<(), Fault>
    ensures adds { Adds (finding T.sort word.now) text.now (W.contents output.old.writer) (W.contents output.new.writer) result }
    ensures read { result ≢ Err Fault.Read }
    ensures write { result ≡ Err Fault.Write → output.new.failed ≡ true }
{
    let learned = learned::<T>(alloc, word, text)?;
    let found = witnessed_text::<T>(alloc, word, text, learned.as_slice())?;
    output.print(found.as_slice())
}
