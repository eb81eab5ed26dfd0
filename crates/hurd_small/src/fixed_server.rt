//! A server of one node of which nothing but options changes.
ghost use Rattle.std.specs.Option.{option_map};
ghost use Rattle.std.specs.Prelude.{◌≡◌, ◌≤◌, true, if◌then◌else◌, length, Some, None, IfOk, IfErr, IfSome, MatchOption};
ghost use Rattle.hurd_trans_iface.specs.Kinds.Hello.{most_text};
ghost use Rattle.hurd_trans_iface.specs.Meaning.{begin, new_server};
ghost use Rattle.hurd_trans_iface.specs.Sayings.{IsFit, server_said};
ghost use Rattle.hurd_small.specs.Fixed.{fixed_meaning};
ghost use Rattle.hurd_small.specs.FixedKinds.{is_fixed, kind_of, only_fixed};

use crate::fixed::Fixed;
use crate::fixed_kind::FixedKind;
use crate::lone::Lone;
use crate::still::Still;
use hurd_creds::{Bytes, Errno};
use hurd_trans_iface::{Begun, Words, begun_by};
use std::alloc::{AllocError, Global};

/// A server of one node of which nothing but options changes.
pub type FixedServer = Lone<Still<Fixed>>;

/// The kind and the text that words say, lent; none where they make a server of another kind.
#[tactic(auto, using(crate::proofs::FixedLaws::fixed_short))]
fn fixed_in(begun: Begun<'_>) -> Option<(FixedKind, &[u8])>
    requires { IsFit begun }
    ensures is { option_map (λ said. new_server (kind_of said.0) said.1.now) result ≡ only_fixed (Some (server_said begun.entry)) }
    ensures short { IfSome result (λ said. length said.1.now ≤ most_text) }
{
    let kind = FixedKind::among(begun.kind)?;
    Some((kind, begun.text))
}

impl Lone<Still<Fixed>> {
    /// The server that these words make, of one of those kinds. It has no root until one is named.
    ///
    /// Errors, in order: `EINVAL` other words; `ENOMEM`.
    pub fn new(alloc: Global, words: &Words) -> Result<FixedServer, Errno>
        ensures begins { IfOk result (λ s. begin words.now ≡ Some (fixed_meaning s)) }
        ensures rootless { IfOk result (λ s. (fixed_meaning s).root ≡ None) }
        ensures err { IfErr result
            (λ e. MatchOption (only_fixed (begin words.now)) (e ≡ Errno.EINVAL) (λ _. e ≡ Errno.ENOMEM)) }
    {
        words.known();
        let Some(begun) = begun_by(words.as_slice()) else {
            return Err(Errno::EINVAL);
        };
        match FixedServer::said(alloc, begun)? {
            Some(server) => Ok(server),
            None => Err(Errno::EINVAL),
        }
    }

    /// The server to which this is said; none where its kind is of another sort. It has no root until one is named.
    pub fn said(alloc: Global, begun: Begun<'_>) -> Result<Option<FixedServer>, AllocError>
        requires { IsFit begun }
        ensures is { IfOk result (λ server. option_map fixed_meaning server ≡ only_fixed (Some (server_said begun.entry))) }
        ensures err { IfErr result (λ _. is_fixed begun.entry.kind ≡ true) }
    {
        match fixed_in(begun) {
            Some((kind, text)) => Ok(Some(FixedServer::of_kind(alloc, kind, text)?)),
            None => Ok(None),
        }
    }

    /// The server of this kind and text. It has no root until one is named.
    pub fn of_kind(alloc: Global, kind: FixedKind, text: &[u8]) -> Result<FixedServer, AllocError>
        requires { length text.now ≤ most_text }
        ensures { IfOk result (λ s. fixed_meaning s ≡ new_server (kind_of kind) text.now) }
    {
        Ok(Lone::unnamed(Fixed {
            kind,
            text: Bytes::copied(alloc, text)?,
        }))
    }
}
