//! How often others taught something.
ghost use Rattle.std.specs.Prelude.{◌≡◌, IfOk};
ghost use Rattle.hurd_lessons.specs.Told.{counted, last_line, of_others, one_more};

use hurd_creds::Bytes;
use itoa::Buffer;
use std::alloc::{AllocError, Global};

/// How many things others did, and how many of these taught something.
#[derive(Clone, Copy)]
pub struct Tally {
    pub others: u64,
    pub taught: u64,
}

/// One more, up to the greatest number that there is room for.
fn one_more(number: u64) -> u64
    ensures { result ≡ one_more number }
{
    number.saturating_add(1)
}

/// What comes after the number of things that others did.
fn of_others(number: u64) -> &'static [u8]
    ensures { result.now ≡ of_others number }
{
    if number == 1 {
        b" by others\n"
    } else {
        b"s by others\n"
    }
}

impl Tally {
    /// Others did nothing yet.
    pub fn new() -> Tally
        ensures { result ≡ record { others = 0; taught = 0 } }
    {
        Tally {
            others: 0,
            taught: 0,
        }
    }

    /// Others did one more thing, which taught something where anything is said of it.
    pub fn count(self, text: &Bytes) -> Tally
        ensures { result ≡ counted self text.now }
    {
        Tally {
            others: one_more(self.others),
            taught: if text.is_empty() {
                self.taught
            } else {
                one_more(self.taught)
            },
        }
    }

    /// The last line: these learned from so many of so many things, as ` command`. Fails only if memory runs out.
    pub fn line(self, alloc: Global, names: &[u8], thing: &[u8]) -> Result<Vec<u8>, AllocError>
        ensures { IfOk result (λ line. line.items ≡ last_line names.now thing.now self) }
    {
        let mut line = Vec::from_slice(alloc, names)?;
        line.extend_from_slice(b" learned from ")?;
        line.extend_from_slice(Buffer::new().format(self.taught).as_bytes())?;
        line.extend_from_slice(b" of ")?;
        line.extend_from_slice(Buffer::new().format(self.others).as_bytes())?;
        line.extend_from_slice(thing)?;
        line.extend_from_slice(of_others(self.others))?;
        Ok(line)
    }
}
