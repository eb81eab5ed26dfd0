//! Output of which only so much is printed.
ghost use Rattle.std.specs.Prelude.{◌≡◌, ◌≤◌, ◌-◌, ◌++◌, Some, codes, decimal, false, length, IfOk, IfSome};
ghost use Rattle.std.specs.Io.KnownBytes.{WriteAppends};

use arrayvec::ArrayString;
use itoa::Buffer;
use std::io;
use std::io::Write;

/// The exit status if there was more output than may be printed.
pub const LIMITED: u8 = 4;

/// Room for the line that says so.
const LINE_BYTES: usize = 80;

/// What is said if only so many bytes were printed. Takes no memory.
pub fn cut_line(most: usize) -> ArrayString<LINE_BYTES>
    ensures { result.bytes ≡ codes "hurd: the rest of the output is left out (--max-output " ++ (decimal most ++ codes ")\n") }
{
    let mut number = Buffer::new();
    let mut line = ArrayString::new();
    line.push_str("hurd: the rest of the output is left out (--max-output ");
    line.push_str(number.format(most));
    line.push_str(")\n");
    line
}

/// A writer that takes at most so many bytes, if that is limited.
#[derive(Drop)]
pub struct Limited<W> {
    writer: W,
    /// How many bytes it still takes; `None` if it takes any number.
    left: Option<usize>,
    /// Whether it took fewer bytes than it was given, since there were more than it takes.
    pub cut: bool,
}

impl<W: Write> Limited<W> {
    /// This writer, which takes at most so many bytes.
    pub fn new(writer: W, most: Option<usize>) -> Limited<W>
        ensures { result ≡ record { writer = writer; left = most; cut = false } }
    {
        Limited {
            writer,
            left: most,
            cut: false,
        }
    }

    /// How many of so many bytes it takes.
    fn room(&self, count: usize) -> usize
        ensures most { result ≤ count }
        ensures left { IfSome self.now.left (λ left. result ≤ left) }
    {
        match self.left {
            Some(left) => left.min(count),
            None => count,
        }
    }

    /// It takes so many bytes fewer from now on.
    fn spend(&mut self, count: usize)
        ensures same { self.new.writer ≡ self.old.writer }
        ensures left { IfSome self.old.left (λ left. self.new.left ≡ Some (left - count)) }
    {
        if let Some(left) = self.left {
            self.left = Some(left.saturating_sub(count));
        }
    }

    /// Makes one write of as many bytes as it takes: how many were written. It takes as many fewer from then on.
    fn write_within(&mut self, bytes: &[u8]) -> io::Result<usize>
        ensures bound { IfOk result (λ count. count ≤ length bytes.now) }
        ensures within { IfOk result (λ count. IfSome self.old.left (λ left. (count ≤ left) × (self.new.left ≡ Some (left - count)))) }
        ensures appends { WriteAppends (W.contents self.old.writer) (W.contents self.new.writer) result bytes.now }
    {
        let room = self.room(bytes.len());
        let count = self.writer.write(&bytes[..room])?;
        self.spend(count);
        Ok(count)
    }
}

impl<W: Write> Write for Limited<W> {
    ghost contents = { λ l. W.contents l.writer };

    fn write(&mut self, buf: &[u8]) -> io::Result<usize> {
        if self.left == Some(0) && !buf.is_empty() {
            self.cut = true;
            return Ok(0);
        }
        self.write_within(buf)
    }

    fn flush(&mut self) -> io::Result<()> {
        self.writer.flush()
    }
}
