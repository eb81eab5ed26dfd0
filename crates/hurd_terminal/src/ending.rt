//! How a program ends.
ghost use Rattle.std.specs.Prelude.{◌≡◌, ◌+◌, ◌≤◌, ◌++◌, OnOk, IfErr, length, true, Err};
ghost use Rattle.std.specs.Io.KnownBytes.{Appends};
ghost use Rattle.hurd_terminal.specs.Faults.{AppendsFront, Says, line_of, of_file, refusal_by, status_of};

use crate::fault::Fault;
use crate::print::Output;
use arrayvec::ArrayString;
use hurd_creds::Errno;
use std::io::Write;

/// Room for the longest text after the name of a file.
const TAIL_BYTES: usize = 64;

/// Three texts, one after another.
fn joined(first: &str, second: &str, third: &str) -> ArrayString<TAIL_BYTES>
    requires { length first.now + (length second.now + length third.now) ≤ 64 }
    ensures { result.bytes ≡ first.now ++ second.now ++ third.now }
{
    let mut text = ArrayString::new();
    text.push_str(first);
    text.push_str(second);
    text.push_str(third);
    text
}

/// What comes after the name of a file whose world is refused. Takes no memory.
fn refusal_by(errno: Errno) -> ArrayString<TAIL_BYTES>
    ensures { result.bytes ≡ refusal_by errno }
{
    joined(": cannot create the initial tree: ", errno.name(), "\n")
}

/// Prints a line of a file: its name, and a tail after it.
///
/// `Write` where a write fails: then only some first bytes of it were printed.
fn say_of<E: Write>(file: &[u8], tail: &[u8], errors: &mut Output<E>) -> Result<(), Fault>
    ensures ok { OnOk result (Appends (E.contents errors.old.writer) (E.contents errors.new.writer) (of_file file.now tail.now)
        × (errors.new.failed ≡ errors.old.failed)) }
    ensures err { IfErr result (λ fault. (errors.new.failed ≡ true)
        × AppendsFront (E.contents errors.old.writer) (E.contents errors.new.writer) (of_file file.now tail.now)) }
{
    errors.print(b"hurd: ")?;
    errors.print(file)?;
    errors.print(tail)
}

/// Prints the line of a fault, as far as it can be written. Takes no memory.
fn say<E: Write>(
    fault: Fault,
    file: &[u8],
    complaint: &[u8],
    stranger: &[u8],
    errors: &mut Output<E>,
) -> Result<(), Fault>
    ensures ok { OnOk result (Appends (E.contents errors.old.writer) (E.contents errors.new.writer) (line_of file.now complaint.now stranger.now (Err fault))
        × (errors.new.failed ≡ errors.old.failed)) }
    ensures err { IfErr result (λ e. (errors.new.failed ≡ true)
        × AppendsFront (E.contents errors.old.writer) (E.contents errors.new.writer) (line_of file.now complaint.now stranger.now (Err fault))) }
{
    match fault {
        Fault::Read => say_of(file, b": cannot read\n", errors),
        Fault::Write => errors.print(b"hurd: cannot write\n"),
        Fault::Bad { .. } => say_of(file, complaint, errors),
        Fault::Unknown => say_of(file, stranger, errors),
        Fault::Boot(errno) => say_of(file, refusal_by(errno).as_str().as_bytes(), errors),
        Fault::Memory => errors.print(b"hurd: out of memory\n"),
    }
}

/// The exit status after a fault.
fn status(fault: Fault) -> u8
    ensures { result ≡ status_of (Err fault) }
{
    match fault {
        Fault::Bad { .. } | Fault::Unknown => 1,
        Fault::Read | Fault::Write | Fault::Boot(_) | Fault::Memory => 2,
    }
}

/// Ends a program: says of a file why there was a fault, as far as that can be written, and gives the exit status. `complaint` comes after the
/// file's name where its text is bad, `stranger` where somebody is named who isn't in it. Takes no memory.
pub fn finish<E: Write>(
    ended: Result<(), Fault>,
    file: &[u8],
    complaint: &[u8],
    stranger: &[u8],
    errors: &mut Output<E>,
) -> u8
    ensures status { result ≡ status_of ended }
    ensures line { Says E.contents errors.old errors.new (line_of file.now complaint.now stranger.now ended) }
{
    match ended {
        Ok(()) => 0,
        Err(fault) => {
            let _ = say(fault, file, complaint, stranger, errors);
            status(fault)
        }
    }
}
