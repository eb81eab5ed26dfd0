//! A server of one node of which nothing changes.
ghost use Rattle.std.specs.Prelude.{◌≡◌, ℕ, List, []};
ghost use Rattle.hurd_trans_iface.specs.Meaning.{new_server};
ghost use Rattle.hurd_trans_iface.specs.declared.begun.ServerKind.{ServerKind};
ghost use Rattle.hurd_small.specs.Meanings.{meaning_as};

use crate::keeper::Keeper;
use crate::lone::Lone;
use crate::presence::Presence;
use crate::single::Single;
use hurd_creds::{Bytes, Errno, MOST_SIZE};
use hurd_trans_iface::{Names, Root, Words};
use std::alloc::Global;

/// What a server says of its one node, which holds no bytes and which nothing changes.
#[derive(Debug, Drop)]
pub struct Still<S> {
    pub(crate) single: S,
}

impl<S: Single> Lone<Still<S>> {
    /// The server of a node that has no name yet.
    pub fn unnamed(single: S) -> Lone<Still<S>>
        ensures { (kind : S → ServerKind) (text : S → List ℕ) → meaning_as kind text result ≡ new_server (kind single) (text single) }
    {
        Lone {
            keeper: Still { single },
            presence: Presence::Nameless,
        }
    }
}

#[tactic(auto, unfolding(crate::specs::Calls::AnswersSo, crate::specs::Calls::Tries, crate::specs::Calls::TakesNone, crate::specs::Calls::Readable))]
impl<S: Single> Keeper for Still<S> {
    ghost kind = { λ s. S.kind s.single };

    ghost text = { λ s. S.text s.single };

    ghost held = { λ _. [] };

    ghost no_tree = { λ s. S.no_tree s.single };

    fn root(&self) -> Root {
        self.single.root()
    }

    fn said(&self) -> &[u8] {
        self.single.said()
    }

    fn options(&self, alloc: Global) -> Result<Words, Errno> {
        self.single.options(alloc)
    }

    fn set_options(&mut self, alloc: Global, words: &Words) -> Result<(), Errno> {
        self.single.set_options(alloc, words)
    }

    fn targets(&self, alloc: Global) -> Result<Names, Errno> {
        self.single.targets(alloc)
    }

    fn begin(&mut self) {}

    fn size(&self) -> u64 {
        self.single.size()
    }

    fn bytes(&self) -> &[u8] {
        &[]
    }

    fn read(
        &mut self,
        alloc: Global,
        at: u64,
        amount: u64,
        _writers: u128,
    ) -> Result<Bytes, Errno> {
        self.single.read(alloc, at, amount)
    }

    fn write(&mut self, _at: u64, bytes: &[u8], _readers: u128) -> Result<u64, Errno> {
        self.single.takes()?;
        Ok(bytes.len() as u64)
    }

    fn set_size(&mut self, size: u64) -> Result<(), Errno> {
        if size > MOST_SIZE {
            return Err(Errno::EFBIG);
        }
        self.single.takes()
    }

    fn readable(&self, at: u64) -> u64 {
        self.single.readable(at)
    }

    fn counts(&self) -> bool {
        false
    }
}
