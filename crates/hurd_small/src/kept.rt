//! What servers of one node keep, of all kinds of which more than options changes.
ghost use Rattle.std.specs.Option.{option_map};
ghost use Rattle.std.specs.Prelude.{◌≡◌, true, Some, None, IfOk, IfErr, MatchOption};
ghost use Rattle.hurd_trans_iface.specs.Meaning.{begin, new_server};
ghost use Rattle.hurd_trans_iface.specs.Sayings.{IsFit, server_said};
ghost use Rattle.hurd_small.specs.Kept.{is_kept, keeping, keeps_no_tree, kept_meaning, only_kept};

mod drops;
mod pipe;

use crate::keeper::Keeper;
use crate::lone::Lone;
use crate::presence::Presence;
pub use drops::Drops;
use hurd_creds::{Bytes, Errno};
use hurd_trans_iface::{Begun, Names, Root, ServerKind, Words, begun_by};
pub use pipe::Pipe;
use std::alloc::{AllocError, Global};

/// What a server of one node keeps of which more than options changes, whatever its kind is.
#[derive(Drop)]
pub enum Kept {
    /// A stream of as many bytes as its text says, one for each read, after which reads fail (this project's own).
    Drops(Drops),
    /// A pipe: bytes between those who write them and those who read them (the Hurd's `/hurd/fifo`).
    Pipe(Pipe),
}

/// A server of one node of which more than options changes.
pub type KeptServer = Lone<Kept>;

/// What a call on a keeper gives, whatever its kind is.
macro_rules! kept {
    ($of:expr, $keeper:ident => $call:expr) => {
        match $of {
            Kept::Drops($keeper) => $call,
            Kept::Pipe($keeper) => $call,
        }
    };
}

impl Keeper for Kept {
    ghost kind = { λ s. (keeping s).kind };

    ghost text = { λ s. (keeping s).text };

    ghost held = { λ s. (keeping s).held };

    ghost no_tree = { keeps_no_tree };

    fn root(&self) -> Root {
        kept!(self, keeper => keeper.root())
    }

    fn said(&self) -> &[u8] {
        kept!(self, keeper => keeper.said())
    }

    fn options(&self, alloc: Global) -> Result<Words, Errno> {
        kept!(self, keeper => keeper.options(alloc))
    }

    fn set_options(&mut self, alloc: Global, words: &Words) -> Result<(), Errno> {
        kept!(self, keeper => keeper.set_options(alloc, words))
    }

    fn targets(&self, alloc: Global) -> Result<Names, Errno> {
        kept!(self, keeper => keeper.targets(alloc))
    }

    fn begin(&mut self) {
        kept!(self, keeper => keeper.begin())
    }

    fn size(&self) -> u64 {
        kept!(self, keeper => keeper.size())
    }

    fn bytes(&self) -> &[u8] {
        kept!(self, keeper => keeper.bytes())
    }

    fn read(&mut self, alloc: Global, at: u64, amount: u64, writers: u128) -> Result<Bytes, Errno> {
        kept!(self, keeper => keeper.read(alloc, at, amount, writers))
    }

    fn write(&mut self, at: u64, bytes: &[u8], readers: u128) -> Result<u64, Errno> {
        kept!(self, keeper => keeper.write(at, bytes, readers))
    }

    fn set_size(&mut self, size: u64) -> Result<(), Errno> {
        kept!(self, keeper => keeper.set_size(size))
    }

    fn readable(&self, at: u64) -> u64 {
        kept!(self, keeper => keeper.readable(at))
    }

    fn counts(&self) -> bool {
        kept!(self, keeper => keeper.counts())
    }
}

/// What a server of this kind keeps at first, to which this is said; none where its kind is of another sort.
#[tactic(auto, using(crate::specs::Kept::not_kept))]
fn keeper_of(alloc: Global, begun: Begun<'_>) -> Result<Option<Kept>, AllocError>
    requires { IsFit begun }
    ensures is { IfOk result (λ keeper. option_map (λ k. new_server (keeping k).kind (keeping k).text) keeper ≡ only_kept (Some (server_said begun.entry))) }
    ensures err { IfErr result (λ _. is_kept begun.entry.kind ≡ true) }
{
    Ok(match begun.kind {
        ServerKind::Drip => Some(Kept::Drops(Drops::counted_by(alloc, begun.text)?)),
        ServerKind::Fifo => Some(Kept::Pipe(Pipe::empty())),
        _ => None,
    })
}

impl Lone<Kept> {
    /// The server that these words make, of one of those kinds. It has no root until one is named.
    ///
    /// Errors, in order: `EINVAL` other words; `ENOMEM`.
    pub fn new(alloc: Global, words: &Words) -> Result<KeptServer, Errno>
        ensures begins { IfOk result (λ s. begin words.now ≡ Some (kept_meaning s)) }
        ensures rootless { IfOk result (λ s. (kept_meaning s).root ≡ None) }
        ensures err { IfErr result
            (λ e. MatchOption (only_kept (begin words.now)) (e ≡ Errno.EINVAL) (λ _. e ≡ Errno.ENOMEM)) }
    {
        words.known();
        let Some(begun) = begun_by(words.as_slice()) else {
            return Err(Errno::EINVAL);
        };
        match KeptServer::said(alloc, begun)? {
            Some(server) => Ok(server),
            None => Err(Errno::EINVAL),
        }
    }

    /// The server to which this is said; none where its kind is of another sort. It has no root until one is named.
    pub fn said(alloc: Global, begun: Begun<'_>) -> Result<Option<KeptServer>, AllocError>
        requires { IsFit begun }
        ensures is { IfOk result (λ server. option_map kept_meaning server ≡ only_kept (Some (server_said begun.entry))) }
        ensures err { IfErr result (λ _. is_kept begun.entry.kind ≡ true) }
    {
        match keeper_of(alloc, begun)? {
            Some(keeper) => Ok(Some(Lone {
                keeper,
                presence: Presence::Nameless,
            })),
            None => Ok(None),
        }
    }
}
