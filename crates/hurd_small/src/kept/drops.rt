//! What a drip says of itself, and the bytes that it gave.
ghost use Rattle.std.specs.Prelude.{◌≡◌, ◌≤◌, true, length, replicate, refl, IfOk};
ghost use Rattle.hurd_trans_iface.specs.Kinds.Drip.{drop_byte, drops_of, most_drops, says_drops};
ghost use Rattle.hurd_trans_iface.specs.declared.begun.ServerKind.TheVariants.{Drip as DripKind};

use crate::keeper::Keeper;
use crate::words::no_options;
use hurd_creds::{Bytes, Errno, Kind, MOST_SIZE, long_number};
use hurd_trans_iface::{Names, Root, Words};
use std::alloc::{AllocError, Global};

/// The most bytes that a drip has, all of them.
const DROPS: [u8; 1000] = [b'.'; 1000];

/// How many bytes there are, and how many of them were given.
#[derive(Debug, Drop)]
pub struct Drops {
    /// The word that says how many there are.
    pub(crate) digits: Bytes,
    pub(crate) count: usize,
    pub(crate) given: usize,
    /// The word says the number.
    ghost counted: { drops_of digits ≡ count },
    ghost few: { count ≤ most_drops },
    ghost within: { given ≤ count },
    /// With the program's name it is within the limits of words.
    ghost short: { length digits ≤ 4 },
}

impl Drops {
    /// As many bytes as these digits say, none of them given.
    pub(crate) fn counted_by(alloc: Global, digits: &[u8]) -> Result<Drops, AllocError>
        requires { says_drops digits.now ≡ true }
        ensures { IfOk result (λ s. (s.digits ≡ digits.now) × (s.given ≡ 0)) }
    {
        let count = count_in(digits);
        Ok(Drops {
            digits: Bytes::copied(alloc, digits)?,
            count,
            given: 0,
        })
    }
}

/// How many bytes a word says.
fn count_in(digits: &[u8]) -> usize
    ensures { result ≡ drops_of digits.now }
{
    match long_number(digits) {
        Some(count) => count as usize,
        None => 0,
    }
}

#[tactic(auto, unfolding(crate::specs::Calls::AnswersSo, crate::specs::Calls::Tries, crate::specs::Calls::TakesNone, crate::specs::Calls::Readable))]
impl Keeper for Drops {
    ghost kind = { λ _. DripKind };

    ghost text = { λ s. s.digits };

    ghost held = { λ s. replicate s.given drop_byte };

    ghost no_tree = { λ _. refl };

    fn root(&self) -> Root {
        Root {
            is_stream: true,
            ..Root::plain(Kind::File)
        }
    }

    fn said(&self) -> &[u8] {
        self.digits.as_slice()
    }

    fn options(&self, alloc: Global) -> Result<Words, Errno> {
        Words::with_argument(alloc, b"/hurd/drip", self.digits.as_slice())
    }

    fn set_options(&mut self, _alloc: Global, words: &Words) -> Result<(), Errno> {
        no_options(words)
    }

    fn targets(&self, alloc: Global) -> Result<Names, Errno> {
        Ok(Names::new(alloc))
    }

    fn begin(&mut self) {
        self.given = 0;
    }

    fn size(&self) -> u64 {
        (self.count - self.given) as u64
    }

    fn bytes(&self) -> &[u8] {
        &DROPS[..self.given]
    }

    fn read(
        &mut self,
        alloc: Global,
        _at: u64,
        amount: u64,
        _writers: u128,
    ) -> Result<Bytes, Errno> {
        if self.given == self.count {
            return Err(Errno::EIO);
        }
        if amount == 0 {
            return Ok(Bytes::new(Vec::new(alloc)));
        }
        let drop = Bytes::copied(alloc, b".")?;
        self.given += 1;
        Ok(drop)
    }

    fn write(&mut self, _at: u64, _bytes: &[u8], _readers: u128) -> Result<u64, Errno> {
        Err(Errno::EOPNOTSUPP)
    }

    fn set_size(&mut self, size: u64) -> Result<(), Errno> {
        if size > MOST_SIZE {
            return Err(Errno::EFBIG);
        }
        Err(Errno::EOPNOTSUPP)
    }

    fn readable(&self, _at: u64) -> u64 {
        u64::from(self.given < self.count)
    }

    fn counts(&self) -> bool {
        false
    }
}
