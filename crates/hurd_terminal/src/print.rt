//! Printing parts of output.
ghost use Rattle.std.specs.Prelude.{◌≡◌, ◌≤◌, true, false, IfOk, IfErr, OnOk, length, take};
ghost use Rattle.std.specs.Io.KnownBytes.{Appends, Keeps};
ghost use Rattle.hurd_terminal.specs.Faults.{AppendsFront};

use crate::fault::Fault;
use std::io::{ErrorKind, Write};

/// A writer, and whether a write failed.
#[derive(Drop)]
pub struct Output<W> {
    /// The writer.
    pub writer: W,
    /// Whether a write failed, or took nothing.
    pub failed: bool,
}

impl<W: Write> Output<W> {
    /// This writer.
    pub fn new(writer: W) -> Output<W>
        ensures { result ≡ record { writer = writer; failed = false } }
    {
        Output {
            writer,
            failed: false,
        }
    }

    /// Makes one write: how many bytes it took, none where it was interrupted.
    ///
    /// `Write` where the write fails or takes nothing.
    fn write_some(&mut self, bytes: &[u8]) -> Result<usize, Fault>
        ensures bound { IfOk result (λ count. count ≤ length bytes.now) }
        ensures ok { IfOk result (λ count. Appends (W.contents self.old.writer) (W.contents self.new.writer) (take count bytes.now)
            × (self.new.failed ≡ self.old.failed)) }
        ensures err { IfErr result (λ fault. (fault ≡ Fault.Write) × (self.new.failed ≡ true)
            × Keeps (W.contents self.old.writer) (W.contents self.new.writer)) }
    {
        match self.writer.write(bytes) {
            Ok(count) if count > 0 => Ok(count),
            Err(error) if error.kind() == ErrorKind::Interrupted => Ok(0),
            _ => {
                self.failed = true;
                Err(Fault::Write)
            }
        }
    }

    /// Prints bytes. An interrupted write is made again.
    ///
    /// `Write` where a write fails or takes nothing: then only some first bytes were printed.
    pub fn print(&mut self, bytes: &[u8]) -> Result<(), Fault>
        ensures ok { OnOk result (Appends (W.contents self.old.writer) (W.contents self.new.writer) bytes.now
            × (self.new.failed ≡ self.old.failed)) }
        ensures err { IfErr result (λ fault. (fault ≡ Fault.Write) × (self.new.failed ≡ true)
            × AppendsFront (W.contents self.old.writer) (W.contents self.new.writer) bytes.now) }
    {
        let mut rest = bytes;
        for _ in 0..u64::MAX {
            if rest.is_empty() {
                return Ok(());
            }
            let count = self.write_some(rest)?;
            rest = &rest[count..];
        }
        self.failed = true;
        Err(Fault::Write)
    }
}
