//! What a union says of itself.
ghost use Rattle.std.specs.Prelude.{◌≡◌, ◌∷◌, [], Ok, IfOk, codes, refl};
ghost use Rattle.hurd_trans_iface.specs.declared.begun.ServerKind.TheVariants.{Union as UnionKind};
ghost use Rattle.hurd_trans_iface.specs.Kinds.Union.{words_of};
ghost use Rattle.hurd_trans_iface.specs.Words.{IsWithinLimits};

use hurd_creds::{Bytes, Errno, Kind};
use hurd_small::{Single, no_options};
use hurd_trans_iface::{Crossing, Names, Root, Words};
use std::alloc::{AllocError, Global};

/// The paths of the directories that a union shows.
#[derive(Debug, Drop)]
pub struct Branches {
    pub(crate) paths: Names,
    /// The paths as one text.
    pub(crate) text: Bytes,
    /// The text says the paths.
    ghost same: { paths ≡ words_of text },
    /// With the program's name they are within the limits of words.
    ghost short: { IsWithinLimits (codes "/hurd/union" ∷ paths) },
}

impl Single for Branches {
    ghost kind = { λ _. UnionKind };

    ghost text = { λ s. s.text };

    ghost no_tree = { λ _. refl };

    ghost no_bytes = { λ _. refl };

    ghost no_count = { λ _. refl };

    fn root(&self) -> Root {
        Root {
            crossing: Crossing::Union,
            ..Root::plain(Kind::Dir)
        }
    }

    fn said(&self) -> &[u8] {
        self.text.as_slice()
    }

    fn options(&self, alloc: Global) -> Result<Words, Errno> {
        Words::with_arguments(alloc, b"/hurd/union", self.paths.as_slice())
    }

    fn set_options(&mut self, _alloc: Global, words: &Words) -> Result<(), Errno> {
        no_options(words)
    }

    fn targets(&self, alloc: Global) -> Result<Names, Errno> {
        Ok(copies(alloc, self.paths.as_slice())?)
    }

    fn size(&self) -> u64 {
        0
    }

    fn read(&self, _alloc: Global, _at: u64, _amount: u64) -> Result<Bytes, Errno> {
        Err(Errno::EISDIR)
    }

    fn takes(&self) -> Result<(), Errno> {
        Err(Errno::EBADF)
    }

    fn readable(&self, _at: u64) -> u64 {
        0
    }
}

/// A copy of each of these paths; of none it takes no memory.
pub(crate) fn copies(alloc: Global, paths: &[Bytes]) -> Result<Names, AllocError>
    ensures is { IfOk result (λ copies. copies ≡ paths.now) }
    ensures nothing { paths.now ≡ [] → result ≡ Ok [] }
{
    let mut copies = Names::new(alloc);
    for path in paths {
        copies.push(Bytes::copied(alloc, path.as_slice())?)?;
    }
    Ok(copies)
}
