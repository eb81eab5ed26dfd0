//! The limit of a tree.
ghost use Rattle.std.specs.Prelude.{◌≡◌, ◌≤◌, length, option_copied, IfOk, IfErr, IfSome, Ok, Err};
ghost use Rattle.std.specs.List.{list_all};
ghost use Rattle.hurd_creds.specs.Memory.{Meets};
ghost use Rattle.hurd_creds.specs.Numbers.{long_number_of};
ghost use Rattle.hurd_trans_iface.specs.Kinds.Tmpfs.{has_size, most_digits, tmpfs, tmpfs_options};
ghost use Rattle.hurd_trans_iface.specs.Totals.{space_with};

use hurd_creds::{Bytes, Errno, long_number};
use hurd_trans_iface::{Words, size_in};
use std::alloc::{AllocError, Global};

/// The most that the files of a tree that entries name may have in all, if that is limited.
#[derive(Drop)]
pub(crate) struct Limit {
    /// The digits that say it; none where there is no limit.
    pub(crate) digits: Bytes,
    /// What they say.
    pub(crate) most: Option<u64>,
    /// With the program's name they are within the limits of words.
    ghost short: { length digits ≤ most_digits },
    /// It is the number that the digits say.
    ghost said: { most ≡ long_number_of digits },
}

impl Limit {
    /// The limit that these digits say.
    pub(crate) fn said(alloc: Global, digits: &[u8]) -> Result<Limit, AllocError>
        requires { length digits.now ≤ most_digits }
        ensures { IfOk result (λ limit. limit.digits ≡ digits.now) }
    {
        let most = long_number(digits);
        Ok(Limit {
            digits: Bytes::copied(alloc, digits)?,
            most,
        })
    }

    /// How much more there may be, where there is a limit and there is so much.
    pub(crate) fn space(&self, total: u128) -> Option<u64>
        ensures { result ≡ space_with (long_number_of self.now.digits) total }
    {
        match self.most {
            Some(most) => Some((most as u128).saturating_sub(total) as u64),
            None => None,
        }
    }

    /// The program and, where there is a limit, the word that says it.
    ///
    /// Errors: `ENOMEM`.
    pub(crate) fn options(&self, alloc: Global) -> Result<Words, Errno>
        ensures { Meets (Ok (tmpfs.options self.now.digits)) result }
    {
        let digits = self.digits.as_slice();
        if digits.is_empty() {
            return Words::named(alloc, b"/hurd/tmpfs");
        }
        let mut word = Vec::from_slice(alloc, b"--size=")?;
        word.extend_from_slice(digits)?;
        Words::with_argument(alloc, b"/hurd/tmpfs", word.as_slice())
    }
}

/// Whether a word says a size.
fn has_size(word: &[u8]) -> bool
    ensures { result ≡ has_size word.now }
{
    size_in(word).is_some()
}

/// Whether each of these words says a size.
fn all_have_sizes(words: &[Bytes]) -> bool
    ensures { result ≡ list_all has_size words.now }
{
    words.iter().all(|word| has_size(word.as_slice()))
}

/// The digits that options give: those of the last word, where each says a size, and none without words.
///
/// Errors: `EINVAL` other words.
pub(crate) fn new_digits(words: &[Bytes]) -> Result<Option<&[u8]>, Errno>
    ensures ok { IfOk result (λ digits. tmpfs_options words.now ≡ Ok (option_copied digits)) }
    ensures few { IfOk result (λ digits. IfSome digits (λ ds. length ds.now ≤ most_digits)) }
    ensures err { IfErr result (λ e. tmpfs_options words.now ≡ Err e) }
{
    if !all_have_sizes(words) {
        return Err(Errno::EINVAL);
    }
    let Some(word) = words.last() else {
        return Ok(None);
    };
    match size_in(word.as_slice()) {
        Some(digits) => Ok(Some(digits)),
        None => Err(Errno::EINVAL),
    }
}
