//! Reading a text.
ghost use Rattle.hurd_creds.specs.Limits.{most_script};
ghost use Rattle.std.specs.Prelude.{◌≡◌, ◌+◌, ◌<◌, ◌≤◌, ◌++◌, ◌⊎◌, ℕ, List, true, false, IfOk, IfErr, IfSome, OnOk, length, take};
ghost use Rattle.std.specs.Io.KnownBytes.{Consumes, IsAtEnd};
ghost use Rattle.hurd_terminal.specs.Faults.{IsReadFault};

use crate::fault::Fault;
use hurd_creds::{Bytes, MOST_SCRIPT};
use std::alloc::Global;
use std::io::{ErrorKind, Read};

/// How many reads are made of a text at most.
const MOST_READS: u32 = 2_097_152;

/// How many bytes are read at most: one more than a text may have.
const MOST_BYTES: usize = MOST_SCRIPT + 1;

/// How many bytes one read asks for.
const READ_BYTES: usize = 4096;

/// A reader of which a limited number of reads is made.
#[derive(Drop)]
pub struct Input<R> {
    /// The reader.
    pub reader: R,
    /// How many reads may still be made.
    pub reads_left: u32,
    /// Whether a read failed.
    pub failed: bool,
}

impl<R: Read> Input<R> {
    /// This reader, of which 2,097,152 reads may be made.
    pub fn new(reader: R) -> Input<R>
        ensures { result ≡ record { reader = reader; reads_left = 2097152; failed = false } }
    {
        Input {
            reader,
            reads_left: MOST_READS,
            failed: false,
        }
    }

    /// This reader, of which 4,294,967,295 reads may be made: for a text of any length.
    pub fn long(reader: R) -> Input<R>
        ensures { result ≡ record { reader = reader; reads_left = 4294967295; failed = false } }
    {
        Input {
            reader,
            reads_left: u32::MAX,
            failed: false,
        }
    }

    /// Makes one read, and adds what it gives to a text; tells whether there may be more. An interrupted read gives nothing.
    ///
    /// `Read` where the read fails, or none may be made; else `Memory`.
    pub fn read_more(&mut self, buffer: &mut [u8], text: &mut Vec<u8>) -> Result<bool, Fault>
        requires { 0 < length buffer.old }
        ensures ok { IfOk result (λ goes_on. (bytes : List ℕ)
            × Consumes (R.remaining self.old.reader) (R.remaining self.new.reader) bytes × (text.new.items ≡ text.old.items ++ bytes)
            × (length bytes ≤ length buffer.old) × (goes_on ≡ false → IsAtEnd (R.remaining self.new.reader))) }
        ensures counted { OnOk result ((self.new.reads_left + 1 ≡ self.old.reads_left) × (self.new.failed ≡ self.old.failed)) }
        ensures err { IfErr result (λ fault. IsReadFault self.new fault) }
        ensures failed { IfErr result (λ fault. fault ≡ Fault.Read → (self.new.failed ≡ true) ⊎ (self.old.reads_left ≡ 0)) }
    {
        if self.reads_left == 0 {
            return Err(Fault::Read);
        }
        self.reads_left -= 1;
        match self.reader.read(buffer) {
            Ok(count) => {
                text.extend_from_slice(&buffer[..count])?;
                Ok(count > 0)
            }
            Err(error) => {
                if error.kind() == ErrorKind::Interrupted {
                    return Ok(true);
                }
                self.failed = true;
                Err(Fault::Read)
            }
        }
    }
}

/// Reads a text: what a reader has left, or the first 1,048,577 bytes of it, which no text may have, and no byte more.
///
/// An interrupted read is made again. `Read` where a read fails, or where 2,097,152 reads don't reach the end; else `Memory`.
pub fn read_text<R: Read>(alloc: Global, input: &mut Input<R>) -> Result<Bytes, Fault>
    ensures ok { IfOk result (λ text. IfSome (R.remaining input.old.reader) (λ bytes. text ≡ take (most_script + 1) bytes)) }
    ensures consumed { IfOk result (λ text. Consumes (R.remaining input.old.reader) (R.remaining input.new.reader) text) }
    ensures err { IfErr result (λ fault. IsReadFault input.new fault) }
{
    let mut text = Vec::new(alloc);
    let mut buffer = [0; READ_BYTES];
    loop {
        let wanted = READ_BYTES.min(MOST_BYTES - text.len());
        if !input.read_more(&mut buffer[..wanted], &mut text)? {
            return Ok(Bytes::new(text));
        }
        if text.len() >= MOST_BYTES {
            return Ok(Bytes::new(text));
        }
    }
}
