//! Bytes that contracts see as a list.
ghost use Rattle.std.specs.Prelude.{◌≡◌, ◌==◌, ◌↔◌, [], Ok, drop, length, take, IsTrue, IfOk};
ghost use Rattle.std.specs.Str.{bytes_eq};

use crate::same::Same;
use std::alloc::{AllocError, Global};
use std::marker::Model;

/// Any bytes: a text, a path, what a read gave.
#[derive(Debug, Drop)]
pub struct Bytes {
    items: Vec<u8>,
}

impl Model for Bytes {
    ghost use Rattle.std.specs.Prelude.{ℕ, List};

    ghost Value = { List ℕ };

    ghost view = { λ b. b.items.items };
}

/// At most so many bytes from a place on.
fn part(bytes: &[u8], at: u64, amount: u64) -> &[u8]
    ensures { result.now ≡ take amount (drop at bytes.now) }
{
    let from = at.min(bytes.len() as u64) as usize;
    let rest = &bytes[from..];
    let count = amount.min(rest.len() as u64) as usize;
    &rest[..count]
}

impl Bytes {
    /// A copy of these bytes.
    pub fn copied(alloc: Global, bytes: &[u8]) -> Result<Bytes, AllocError>
        ensures { IfOk result (λ b. b ≡ bytes.now) }
    {
        Ok(Bytes {
            items: Vec::from_slice(alloc, bytes)?,
        })
    }

    /// A copy of at most so many of these bytes from a place on; where there are none, no memory is taken.
    pub fn part(alloc: Global, bytes: &[u8], at: u64, amount: u64) -> Result<Bytes, AllocError>
        ensures is { IfOk result (λ b. b ≡ take amount (drop at bytes.now)) }
        ensures nothing { take amount (drop at bytes.now) ≡ [] → result ≡ Ok [] }
    {
        let some = part(bytes, at, amount);
        if some.is_empty() {
            return Ok(Bytes::new(Vec::new(alloc)));
        }
        Bytes::copied(alloc, some)
    }

    /// These very bytes.
    pub fn new(items: Vec<u8>) -> Bytes
        ensures { result ≡ items.items }
    {
        Bytes { items }
    }

    /// The bytes.
    pub fn as_slice(&self) -> &[u8]
        ensures { result.now ≡ self.now }
    {
        self.items.as_slice()
    }

    /// These bytes as a vector.
    pub fn into_vec(self) -> Vec<u8>
        ensures { result.items ≡ self }
    {
        let Bytes { items } = self;
        items
    }

    /// How many bytes.
    pub fn len(&self) -> usize
        ensures { result ≡ length self.now }
    {
        self.items.len()
    }

    /// Whether there is no byte.
    pub fn is_empty(&self) -> bool
        ensures { result ≡ (length self.now == 0) }
    {
        self.items.is_empty()
    }

    /// Whether these are the same bytes.
    pub fn is(&self, other: &[u8]) -> bool
        ensures { result ≡ bytes_eq self.now other.now }
    {
        self.as_slice() == other
    }

    /// Whether these are the same bytes as the other. Takes no memory.
    pub fn is_same(&self, other: &Bytes) -> bool
        ensures { IsTrue result ↔ (self.now ≡ other.now) }
    {
        self.is(other.as_slice())
    }
}

impl Same for Bytes {
    fn same(&self, other: &Bytes) -> bool {
        self.is_same(other)
    }
}
