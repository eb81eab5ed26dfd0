//! A random text is printed.
ghost use Rattle.std.specs.Prelude.{◌≡◌, true, ℕ, List, Err, IfOk};
ghost use Rattle.std.specs.Io.KnownBytes.{Appends};
ghost use Rattle.hurd_terminal.specs.Faults.{Says};
ghost use Rattle.hurd_program.specs.Samples.{IsSample, PrintsSample, SampleEnds, sample_line};

use crate::request::TextSort;
use hurd_sample::{SampleFault, sample_calls, sample_script};
use hurd_terminal::Output;
use std::alloc::Global;
use std::io::Write;

/// Why no random text was printed, or only a front of one.
#[derive(Clone, Copy, Debug, PartialEq, Eq)]
pub enum SampleTrouble {
    /// So many commands or calls have no room in a text.
    TooLong,
    Memory,
    /// The output can't be written.
    Write,
    /// What was drawn is no text of the sort.
    Unread,
}

/// A random text of a sort.
///
/// Errors: `TooLong`, `Memory`, `Unread`.
fn sample(alloc: Global, sort: TextSort, seed: u64, count: u64) -> Result<Vec<u8>, SampleFault>
    ensures { IfOk result (λ text. IsSample sort count text.items) }
{
    match sort {
        TextSort::Script => sample_script(alloc, seed, count),
        TextSort::Calls => sample_calls(alloc, seed, count),
    }
}

/// Prints a random text.
fn print_sample<W: Write>(
    alloc: Global,
    sort: TextSort,
    seed: u64,
    count: u64,
    output: &mut Output<W>,
) -> Result<(), SampleTrouble>
    ensures prints { (printed : List ℕ) × Appends (W.contents output.old.writer) (W.contents output.new.writer) printed × PrintsSample sort count result printed }
    ensures write { result ≡ Err SampleTrouble.Write → output.new.failed ≡ true }
{
    let text = match sample(alloc, sort, seed, count) {
        Ok(text) => text,
        Err(SampleFault::TooLong) => return Err(SampleTrouble::TooLong),
        Err(SampleFault::Memory) => return Err(SampleTrouble::Memory),
        Err(SampleFault::Unread) => return Err(SampleTrouble::Unread),
    };
    match output.print(text.as_slice()) {
        Ok(()) => Ok(()),
        Err(_) => Err(SampleTrouble::Write),
    }
}

/// What is said of it.
fn line_of(trouble: SampleTrouble) -> &'static [u8]
    ensures { result.now ≡ sample_line (Err trouble) }
{
    match trouble {
        SampleTrouble::TooLong => b"hurd: that many don't fit in 1048576 bytes\n",
        SampleTrouble::Memory => b"hurd: out of memory\n",
        SampleTrouble::Write => b"hurd: cannot write\n",
        SampleTrouble::Unread => b"hurd: no such sample can be drawn\n",
    }
}

/// Says why no text was printed, or only a front of one.
fn say<E: Write>(trouble: SampleTrouble, errors: &mut Output<E>)
    ensures { Says E.contents errors.old errors.new (sample_line (Err trouble)) }
{
    let _ = errors.print(line_of(trouble));
}

/// The whole program for a random text: prints a script of so many commands, or a list of so many calls, the same for the same seed, and says why there is none;
/// returns the exit status: 0 where all was printed, 2 where so many have no room, where there is no memory, and where a write failed.
pub fn perform_sample<W: Write, E: Write>(
    alloc: Global,
    sort: TextSort,
    seed: u64,
    count: u64,
    output: &mut Output<W>,
    errors: &mut Output<E>,
) -> u8
    ensures { SampleEnds sort count W.contents E.contents output.old output.new errors.old errors.new result }
{
    match print_sample(alloc, sort, seed, count, output) {
        Ok(()) => 0,
        Err(trouble) => {
            say(trouble, errors);
            2
        }
    }
}
