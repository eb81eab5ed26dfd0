//! A record from its first byte to its end.
ghost use Rattle.std.specs.Prelude.{◌≡◌, ◌++◌, IfErr, IfOk, codes};
ghost use Rattle.hurd_record.specs.Faults.{Ended, IsRecordFault, IsTellFault};
ghost use Rattle.hurd_record.specs.Reports.{stranger_of, word_of};

use crate::judging::{BadLine, Judging, Lines};
use crate::report::Report;
use hurd_creds::MOST_SCRIPT;
use hurd_terminal::{Fault, Input, Output, finish};
use hurd_words::escapes::push_escaped;
use memchr::memchr;
use std::alloc::{AllocError, Global};
use std::io::{Read, Write};

/// How many bytes one read asks for.
const READ_BYTES: usize = 65_536;

/// Whether no line ends in a text after its first bytes, and it is no longer than a line may be.
fn is_mid_line(text: &[u8], before: usize) -> bool {
    match text.get(before..) {
        Some(new) => memchr(b'\n', new).is_none() && text.len() <= MOST_SCRIPT,
        None => false,
    }
}

/// Judges what was read and not judged yet: the lines that end in it; and the last, if nothing comes after it or it is longer than a line may be. Gives
/// what is left to judge, or the bad line.
fn judge_read<'a, W: Write>(
    alloc: Global,
    report: &Report,
    judging: &mut Judging,
    text: &'a [u8],
    more: bool,
    output: &mut Output<W>,
) -> Result<Lines<'a>, Fault>
    ensures { IfErr result (λ fault. IsTellFault output.new fault) }
{
    let left = match judging.take_lines(alloc, report, text, output)? {
        Lines::Left(left) => left,
        Lines::Bad(bad) => return Ok(Lines::Bad(bad)),
    };
    if more && left.len() <= MOST_SCRIPT {
        return Ok(Lines::Left(left));
    }
    match judging.take_line(alloc, report, left, output)? {
        Some(bad) => Ok(Lines::Bad(bad)),
        None => Ok(Lines::Left(b"")),
    }
}

/// Reads and judges a record to its end or to its first bad line, which it gives.
///
/// `Read` if a read fails, or there are 18,446,744,073,709,551,615 without an end; else as `Judging::take_line`.
fn judge_all<R: Read, W: Write>(
    alloc: Global,
    report: &Report,
    judging: &mut Judging,
    input: &mut Input<R>,
    output: &mut Output<W>,
) -> Result<Option<BadLine>, Fault>
    ensures { IfErr result (λ fault. IsRecordFault input.new output.new fault) }
{
    let mut buffer = [0; READ_BYTES];
    let mut text = Vec::new(alloc);
    for _ in 0..u64::MAX {
        let before = text.len();
        let more = input.read_more(&mut buffer, &mut text)?;
        if more && is_mid_line(text.as_slice(), before) {
            continue;
        }
        match judge_read(alloc, report, judging, text.as_slice(), more, output)? {
            Lines::Bad(bad) => return Ok(Some(bad)),
            Lines::Left(_) if !more => return Ok(None),
            Lines::Left(left) => {
                let left = Vec::from_slice(alloc, left)?;
                text = left;
            }
        }
    }
    input.failed = true;
    Err(Fault::Read)
}

/// Reads and judges a record, and prints what the report has of it; gives the bad line that ended it, if one did.
fn print_record<R: Read, W: Write>(
    alloc: Global,
    report: &Report,
    input: &mut Input<R>,
    output: &mut Output<W>,
) -> Result<Option<BadLine>, Fault>
    ensures { IfErr result (λ fault. IsRecordFault input.new output.new fault) }
{
    let mut judging = Judging::new(alloc);
    let bad = judge_all(alloc, report, &mut judging, input, output)?;
    judging.end(alloc, report, output)?;
    Ok(bad)
}

/// What is said after the name of a file where somebody is named who isn't in it; nothing if nobody is named. Fails only if memory runs out.
fn stranger(alloc: Global, report: &Report) -> Result<Vec<u8>, AllocError>
    ensures { IfOk result (λ line. line.items ≡ stranger_of (word_of report.now)) }
{
    let mut line = Vec::new(alloc);
    if let Some(who) = report.who() {
        line.extend_from_slice(b": no such task: ")?;
        push_escaped(&mut line, who.as_bytes())?;
        line.push(b'\n')?;
    }
    Ok(line)
}

/// The whole program: reads a record, prints what the report has of it, and says of a fault why, by the name of its file; returns the exit status.
pub fn perform_record<R: Read, W: Write, E: Write>(
    alloc: Global,
    report: &Report,
    file: &[u8],
    input: &mut Input<R>,
    output: &mut Output<W>,
    errors: &mut Output<E>,
) -> u8
    ensures { Ended file.now (stranger_of (word_of report.now)) E.contents input.new output.new errors.old errors.new result }
{
    let Ok(stranger) = stranger(alloc, report) else {
        return finish(Err(Fault::Memory), file, b"", b"", errors);
    };
    match print_record(alloc, report, input, output) {
        Ok(None) => finish(Ok(()), file, b"", b"", errors),
        Ok(Some(BadLine { line, complaint })) => {
            finish(
                Err(Fault::Bad { line }),
                file,
                complaint.as_slice(),
                b"",
                errors,
            )
        }
        Err(fault) => finish(Err(fault), file, b"", stranger.as_slice(), errors),
    }
}
