//! The line of a transcript that names a command.
ghost use Rattle.std.specs.Prelude.{◌≡◌, IfOk};
ghost use Rattle.hurd_script.specs.Commands.{behind_name, header_of};

use hurd_creds::Bytes;
use hurd_words::lines::{skip_spaces, skip_word, without_end};
use std::alloc::{AllocError, Global};

/// The line of a transcript that names a command: the user's name, `$ `, and the line after the name.
pub fn header(alloc: Global, name: &str, line: &[u8]) -> Result<Bytes, AllocError>
    ensures { IfOk result (λ header. header ≡ header_of name.now line.now) }
{
    let mut header = Vec::from_slice(alloc, name.as_bytes())?;
    header.extend_from_slice(b"$ ")?;
    header.extend_from_slice(behind_name(line))?;
    Ok(Bytes::new(header))
}

/// The line after its first word, without outer spaces.
fn behind_name(line: &[u8]) -> &[u8]
    ensures { result.now ≡ behind_name line.now }
{
    without_end(skip_spaces(skip_word(skip_spaces(line))))
}
