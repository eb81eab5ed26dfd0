//! Things of two views that are to be the same except for names.
ghost use Rattle.std.specs.Prelude.{IfOk, map};
ghost use Rattle.std.specs.Option.{option_map};
ghost use Rattle.hurd_looks.specs.Pairings.{PairUp};

use crate::pairs::Pairs;
use hurd_creds::Name;
use std::alloc::AllocError;

/// What is in both views, with names in it.
pub(crate) trait Meet {
    ghost use Rattle.hurd_creds.specs.declared.name.Name.{Name};

    // With other names.
    ghost renamed: { (Name → Name) → Self → Self };

    /// Pairs the names of both in their order; whether these are then the same except for names. Fails only if memory runs out.
    fn meet(&self, other: &Self, pairs: &mut Pairs) -> Result<bool, AllocError>
        ensures { IfOk result (λ met. PairUp renamed self.now other.now pairs.old met pairs.new) };
}

impl Meet for Name {
    ghost renamed = { λ f n. f n };

    fn meet(&self, other: &Name, pairs: &mut Pairs) -> Result<bool, AllocError> {
        pairs.pair(*self, *other)
    }
}

impl<T: Meet> Meet for Option<T> {
    ghost use Rattle.std.specs.Option.{option_map};

    ghost renamed = { λ f o. option_map (T.renamed f) o };

    fn meet(&self, other: &Option<T>, pairs: &mut Pairs) -> Result<bool, AllocError> {
        match (self, other) {
            (Some(one), Some(other)) => one.meet(other, pairs),
            (None, None) => Ok(true),
            _ => Ok(false),
        }
    }
}

/// Pairs the names of some things with those of as many others, in their order; whether all are the same except for names. Fails only if memory runs out.
pub(crate) fn meet_all<T: Meet>(
    some: &[T],
    others: &[T],
    pairs: &mut Pairs,
) -> Result<bool, AllocError>
    ensures { IfOk result (λ met. PairUp (λ f xs. map (T.renamed f) xs) some.now others.now pairs.old met pairs.new) }
{
    if some.len() != others.len() {
        return Ok(false);
    }
    for i in 0..some.len() {
        if !some[i].meet(&others[i], pairs)? {
            return Ok(false);
        }
    }
    Ok(true)
}
