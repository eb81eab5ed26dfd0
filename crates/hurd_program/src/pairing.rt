//! Two scripts are run side by side.
ghost use Rattle.std.specs.Prelude.{◌≡◌, ◌⊎◌, ◌++◌, ℕ, List, Result, Err, IfOk, OnOk, codes};
ghost use Rattle.hurd_shell.specs.Scripts.{scripts};
ghost use Rattle.hurd_terminal.specs.Faults.{Says, line_of, status_of};
ghost use Rattle.hurd_terminal.specs.declared.fault.Fault.{Fault};
ghost use Rattle.hurd_words.specs.Escapes.{escaped};
ghost use Rattle.hurd_pairs.specs.declared.difference.PairFault.{PairFault};
ghost use Rattle.hurd_pairs.specs.declared.difference.Verdict.{Verdict};
ghost use Rattle.hurd_program.specs.Pairs.{IsBlamed, PairEnds, PairExits, at_line, mismatch_text, other_command, pair_line, pair_status};

use crate::performing::{blame, named_line, stranger};
use crate::request::TextSort;
use hurd_pairs::{Mismatch, PairFault, Verdict, compare_scripts, line_in_script};
use hurd_run::RunningScript;
use hurd_terminal::{Fault, Input, Output, finish, read_text};
use itoa::Buffer;
use std::alloc::{AllocError, Global};
use std::io::{Read, Write};

/// Adds a line of a file, as `:7`.
fn push_at(text: &mut Vec<u8>, line: usize) -> Result<(), AllocError>
    ensures { OnOk result (text.new.items ≡ text.old.items ++ at_line line) }
{
    text.push(b':')?;
    text.extend_from_slice(Buffer::new().format(line).as_bytes())
}

/// Adds what is said of the first file, and its name.
fn push_file(text: &mut Vec<u8>, said: &[u8], first: &[u8]) -> Result<(), AllocError>
    ensures { OnOk result (text.new.items ≡ text.old.items ++ (said.now ++ first.now)) }
{
    text.extend_from_slice(said)?;
    text.extend_from_slice(first)
}

/// Adds what is said of the first file, its name, and a line of it.
fn push_file_at(
    text: &mut Vec<u8>,
    said: &[u8],
    first: &[u8],
    line: usize,
) -> Result<(), AllocError>
    ensures { OnOk result (text.new.items ≡ text.old.items ++ (said.now ++ (first.now ++ at_line line))) }
{
    push_file(text, said, first)?;
    push_at(text, line)
}

/// What is said after the name of the second file if a command differs, with its lines in both, if it has lines there. Fails only if memory runs out.
fn other_command(
    alloc: Global,
    first: &[u8],
    one: Option<usize>,
    two: Option<usize>,
) -> Result<Vec<u8>, AllocError>
    ensures { IfOk result (λ text. text.items ≡ other_command first.now one two) }
{
    let mut text = Vec::new(alloc);
    match (one, two) {
        (Some(one), Some(two)) => {
            push_at(&mut text, two)?;
            push_file_at(&mut text, b": not comparable: differs from ", first, one)?;
            Ok(text)
        }
        (Some(one), None) => {
            push_file_at(
                &mut text,
                b": not comparable: lacks the command at ",
                first,
                one,
            )?;
            Ok(text)
        }
        (None, Some(two)) => {
            push_at(&mut text, two)?;
            push_file(&mut text, b": not comparable: no such command in ", first)?;
            Ok(text)
        }
        (None, None) => {
            text.extend_from_slice(b": not comparable")?;
            Ok(text)
        }
    }
}

/// What is said after the name of the second file if two good scripts cannot be compared. Fails only if memory runs out.
fn mismatch_line(
    alloc: Global,
    first: &[u8],
    one: &[u8],
    two: &[u8],
    why: Mismatch,
) -> Result<Vec<u8>, AllocError>
    ensures { IfOk result (λ text. text.items ≡ mismatch_text first.now one.now two.now why ++ codes "\n") }
{
    let mut text = match why {
        Mismatch::Users => {
            let mut text = Vec::from_slice(
                alloc,
                b": not comparable: its users differ from those of ",
            )?;
            text.extend_from_slice(first)?;
            text
        }
        Mismatch::Commands {
            one: made,
            two: other,
        } => {
            let line = line_in_script(alloc, one, made)?;
            let second = line_in_script(alloc, two, other)?;
            other_command(alloc, first, line, second)?
        }
    };
    text.push(b'\n')?;
    Ok(text)
}

/// Says that two good scripts cannot be compared, or that memory ran out for that; returns the exit status.
fn say_mismatch<E: Write>(
    alloc: Global,
    first: &[u8],
    second: &[u8],
    one: &[u8],
    two: &[u8],
    why: Mismatch,
    errors: &mut Output<E>,
) -> u8
    ensures { (ended : Result Verdict PairFault) × ((ended ≡ Err (PairFault.NoPair why)) ⊎ (ended ≡ Err (PairFault.First Fault.Memory)))
        × ((word : List ℕ) → Says E.contents errors.old errors.new (pair_line word first.now second.now one.now two.now ended)) × (result ≡ pair_status ended) }
{
    match mismatch_line(alloc, first, one, two, why) {
        Ok(text) => finish(Err(Fault::Unknown), second, b"", text.as_slice(), errors),
        Err(_) => finish(Err(Fault::Memory), second, b"", b"", errors),
    }
}

/// Says that somebody is named who isn't in a script, or that memory was refused for that; returns the exit status.
fn say_stranger<E: Write>(alloc: Global, who: &str, file: &[u8], errors: &mut Output<E>) -> u8
    ensures { (ended : Result (Unit {0}) Fault) × ((ended ≡ Err Fault.Unknown) ⊎ (ended ≡ Err Fault.Memory))
        × ((complaint : List ℕ) → Says E.contents errors.old errors.new (line_of file.now complaint (scripts.stranger ++ (escaped who.now ++ codes "\n")) ended))
        × (result ≡ status_of ended) }
{
    match named_line(alloc, stranger(TextSort::Script), who) {
        Ok(line) => finish(Err(Fault::Unknown), file, b"", line.as_slice(), errors),
        Err(_) => finish(Err(Fault::Memory), file, b"", b"", errors),
    }
}

/// Says of a script why it isn't told, or that memory was refused for that; returns the exit status.
fn say_fault<E: Write>(
    alloc: Global,
    who: &str,
    file: &[u8],
    text: &[u8],
    fault: Fault,
    errors: &mut Output<E>,
) -> u8
    ensures { IsBlamed who.now file.now text.now fault E.contents errors.old errors.new result }
{
    match fault {
        Fault::Bad { line } => blame(alloc, TextSort::Script, text, line, file, errors),
        Fault::Unknown => say_stranger(alloc, who, file, errors),
        Fault::Read | Fault::Write | Fault::Boot(_) | Fault::Memory => {
            finish(Err(fault), file, b"", b"", errors)
        }
    }
}

/// Compares two scripts, and says of a fault why, by the names of their files; returns the exit status.
fn compare_read<W: Write, E: Write>(
    alloc: Global,
    who: &str,
    first: &[u8],
    second: &[u8],
    one: &[u8],
    two: &[u8],
    output: &mut Output<W>,
    errors: &mut Output<E>,
) -> u8
    ensures { PairEnds who.now first.now second.now one.now two.now W.contents E.contents output.old output.new errors.old errors.new result }
{
    match compare_scripts::<RunningScript, W>(alloc, who, one, two, output) {
        Ok(Verdict::Same) => 0,
        Ok(Verdict::Different) => 3,
        Err(PairFault::First(fault)) => say_fault(alloc, who, first, one, fault, errors),
        Err(PairFault::Second(fault)) => say_fault(alloc, who, second, two, fault, errors),
        Err(PairFault::NoPair(why)) => say_mismatch(alloc, first, second, one, two, why, errors),
    }
}

/// The whole program for two files: reads two scripts, prints where those that WHO names first see something different in the second, and where they first
/// get a different reply, and says of a fault why, by the names of the files; returns the exit status: 0 if they get the same replies, 3 if they get a different
/// one, 1 for a bad script, if somebody is named who isn't in it, and for scripts that cannot be compared, 2 for all else.
pub fn perform_pair<R: Read, Q: Read, W: Write, E: Write>(
    alloc: Global,
    who: &str,
    first: &[u8],
    second: &[u8],
    one: &mut Input<R>,
    two: &mut Input<Q>,
    output: &mut Output<W>,
    errors: &mut Output<E>,
) -> u8
    ensures { PairExits who.now first.now second.now R.remaining Q.remaining W.contents E.contents one.old one.new two.old two.new output.old output.new errors.old errors.new result }
{
    let text = match read_text(alloc, one) {
        Ok(text) => text,
        Err(fault) => return finish(Err(fault), first, b"", b"", errors),
    };
    match read_text(alloc, two) {
        Ok(other) => compare_read(
            alloc,
            who,
            first,
            second,
            text.as_slice(),
            other.as_slice(),
            output,
            errors,
        ),
        Err(fault) => finish(Err(fault), second, b"", b"", errors),
    }
}
