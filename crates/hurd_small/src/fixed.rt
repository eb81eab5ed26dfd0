//! What a server of one node says of itself, where nothing but options changes that.
ghost use Rattle.std.specs.Prelude.{◌≡◌, ◌≤◌, ℕ, [], length, replicate, Ok};
ghost use Rattle.hurd_creds.specs.Memory.{Meets};
ghost use Rattle.hurd_trans_iface.specs.Kinds.Hello.{most_text};
ghost use Rattle.hurd_small.specs.FixedKinds.{begins_empty, counts_nothing, keeps_nothing, kind_of};

use crate::contents::new_text;
use crate::fixed_kind::FixedKind;
use crate::single::Single;
use crate::text;
use crate::words::no_options;
use hurd_creds::{Bytes, Errno, Kind, MOST_READ};
use hurd_trans_iface::{Crossing, Names, Root, Words, is_absolute};
use std::alloc::Global;

/// A kind and a text, which words can say.
#[derive(Debug, Drop)]
pub struct Fixed {
    pub(crate) kind: FixedKind,
    /// What its words say: the text of a hello, the path of a link, `fd` of a magical link, and of a stream nothing.
    pub(crate) text: Bytes,
    /// With the program's name it is within the limits of words.
    ghost short: { length text ≤ most_text },
}

impl Single for Fixed {
    ghost kind = { λ s. kind_of s.kind };

    ghost text = { λ s. s.text };

    ghost no_tree = { λ s. keeps_nothing s.kind };

    ghost no_bytes = { λ s. begins_empty s.kind s.text };

    ghost no_count = { λ s. counts_nothing s.kind };

    fn root(&self) -> Root {
        match self.kind {
            FixedKind::Hello => Root::plain(Kind::File),
            FixedKind::Null | FixedKind::Zero => Root {
                is_stream: true,
                ..Root::plain(Kind::Char)
            },
            FixedKind::Symlink => Root {
                crossing: Crossing::Link {
                    absolute: is_absolute(self.text.as_slice()),
                },
                ..Root::plain(Kind::Link)
            },
            FixedKind::Firmlink => Root {
                crossing: Crossing::Firm,
                ..Root::plain(Kind::File)
            },
            FixedKind::Magic => Root {
                crossing: Crossing::Link { absolute: true },
                ..Root::plain(Kind::Link)
            },
        }
    }

    fn said(&self) -> &[u8] {
        self.text.as_slice()
    }

    fn options(&self, alloc: Global) -> Result<Words, Errno> {
        let text = self.text.as_slice();
        match self.kind {
            FixedKind::Hello => {
                let mut word = Vec::from_slice(alloc, b"--contents=")?;
                word.extend_from_slice(text)?;
                Words::with_argument(alloc, b"/hurd/hello", word.as_slice())
            }
            FixedKind::Null => Words::named(alloc, b"/hurd/null"),
            FixedKind::Zero => Words::named(alloc, b"/hurd/zero"),
            FixedKind::Symlink => Words::with_argument(alloc, b"/hurd/symlink", text),
            FixedKind::Firmlink => Words::with_argument(alloc, b"/hurd/firmlink", text),
            FixedKind::Magic => Words::with_argument(alloc, b"/hurd/magic", text),
        }
    }

    fn set_options(&mut self, alloc: Global, words: &Words) -> Result<(), Errno> {
        match self.kind {
            FixedKind::Hello => {
                if let Some(text) = new_text(words.as_slice())? {
                    *self = Fixed {
                        kind: FixedKind::Hello,
                        text: Bytes::copied(alloc, text)?,
                    };
                }
                Ok(())
            }
            FixedKind::Null
            | FixedKind::Zero
            | FixedKind::Symlink
            | FixedKind::Firmlink
            | FixedKind::Magic => no_options(words),
        }
    }

    fn targets(&self, alloc: Global) -> Result<Names, Errno> {
        let mut targets = Names::new(alloc);
        match self.kind {
            FixedKind::Firmlink => targets.push(Bytes::copied(alloc, self.text.as_slice())?)?,
            FixedKind::Hello
            | FixedKind::Null
            | FixedKind::Zero
            | FixedKind::Symlink
            | FixedKind::Magic => {}
        }
        Ok(targets)
    }

    fn size(&self) -> u64 {
        match self.kind {
            FixedKind::Hello | FixedKind::Symlink | FixedKind::Magic => self.text.len() as u64,
            FixedKind::Null | FixedKind::Zero | FixedKind::Firmlink => 0,
        }
    }

    fn read(&self, alloc: Global, at: u64, amount: u64) -> Result<Bytes, Errno> {
        match self.kind {
            FixedKind::Hello | FixedKind::Symlink | FixedKind::Magic => {
                text::read(alloc, self.text.as_slice(), at, amount)
            }
            FixedKind::Null | FixedKind::Firmlink => Ok(Bytes::new(Vec::new(alloc))),
            FixedKind::Zero => zeros(alloc, amount),
        }
    }

    fn takes(&self) -> Result<(), Errno> {
        match self.kind {
            FixedKind::Null | FixedKind::Zero => Ok(()),
            FixedKind::Hello | FixedKind::Symlink | FixedKind::Firmlink | FixedKind::Magic => {
                Err(Errno::EOPNOTSUPP)
            }
        }
    }

    fn readable(&self, at: u64) -> u64 {
        match self.kind {
            FixedKind::Hello | FixedKind::Symlink | FixedKind::Magic => {
                (self.text.len() as u64).saturating_sub(at)
            }
            FixedKind::Null | FixedKind::Firmlink => 0,
            FixedKind::Zero => MOST_READ,
        }
    }
}

/// So many zero bytes; of none it takes no memory.
///
/// Errors: `ENOMEM`.
fn zeros(alloc: Global, amount: u64) -> Result<Bytes, Errno>
    ensures given { Meets (Ok (replicate amount 0)) result }
    ensures nothing { replicate {A = ℕ} amount 0 ≡ [] → result ≡ Ok [] }
{
    if amount == 0 {
        return Ok(Bytes::new(Vec::new(alloc)));
    }
    Ok(Bytes::new(vec![in alloc; 0; amount as usize]?))
}
