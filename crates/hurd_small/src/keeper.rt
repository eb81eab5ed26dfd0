//! What a server of one node says itself, and what it keeps of the node.
ghost use Rattle.std.specs.Prelude.{◌≡◌, ℕ, false, List, [], Ok};
ghost use Rattle.hurd_creds.specs.Memory.{Meets, Steps};
ghost use Rattle.hurd_trans_iface.specs.Behaviour.{reading, resizing, writing};
ghost use Rattle.hurd_trans_iface.specs.Meaning.{behaviour_of, counts_opens, keeps_tree, options_of, root_of, targets_of};
ghost use Rattle.hurd_trans_iface.specs.declared.begun.ServerKind.{ServerKind};
ghost use Rattle.hurd_small.specs.Calls.{AnswersSo, Readable, TakesNone, Tries};
ghost use Rattle.hurd_small.specs.Lone.{body_with, text_taken};

use hurd_creds::{Bytes, Errno};
use hurd_trans_iface::{Names, Root, Words};
use std::alloc::Global;

/// What a server of one node says of it, and what it keeps: options change the one; reads and writes the other. Nothing but options, and what says what
/// the node is, is asked where the node isn't there.
pub trait Keeper: Drop {
    // The kind of its server.
    ghost kind: { Self → ServerKind };

    // The text of its server.
    ghost text: { Self → List ℕ };

    // What it keeps of the node: the bytes in it, none where that is a directory.
    ghost held: { Self → List ℕ };

    /// What the node is.
    fn root(&self) -> Root
        ensures { result ≡ root_of (kind self.now) (text self.now) };

    /// The text, lent: none where its kind takes none.
    fn said(&self) -> &[u8]
        ensures { result.now ≡ text self.now };

    /// The program and its words, as they would be given to make such a server.
    ///
    /// Errors: `ENOMEM`.
    fn options(&self, alloc: Global) -> Result<Words, Errno>
        ensures { Meets (Ok (options_of (kind self.now) (text self.now))) result };

    /// Takes other options in place of those that it has, which may give it another text; without words nothing changes, and no memory is taken.
    ///
    /// Errors, in order: `EINVAL` words that this kind doesn't take, or options past the limits of words; `ENOMEM`.
    fn set_options(&mut self, alloc: Global, words: &Words) -> Result<(), Errno>
        ensures steps { Steps (text self.old) (text_taken ((behaviour_of (kind self.old)).set_options words.now) (text self.old)) result (text self.new) }
        ensures kind { kind self.new ≡ kind self.old }
        ensures held { held self.new ≡ held self.old }
        ensures no_words { words.now ≡ [] → result ≡ Ok tt };

    /// The paths of the nodes that it aims at, in order. Where there are none, no memory is taken.
    ///
    /// Errors: `ENOMEM`.
    fn targets(&self, alloc: Global) -> Result<Names, Errno>
        ensures meets { Meets (Ok (targets_of (kind self.now) (text self.now))) result }
        ensures nothing { targets_of (kind self.now) (text self.now) ≡ [] → result ≡ Ok [] };

    /// The node begins: it holds what its kind says that it does at first.
    fn begin(&mut self)
        ensures kind { kind self.new ≡ kind self.old }
        ensures text { text self.new ≡ text self.old }
        ensures held { held self.new ≡ (behaviour_of (kind self.old)).first (text self.old) };

    /// The node's size, in bytes.
    fn size(&self) -> u64
        ensures { result ≡ (behaviour_of (kind self.now)).size (text self.now) (body_with (kind self.now) (text self.now) (held self.now)) };

    /// The bytes in the node, lent.
    fn bytes(&self) -> &[u8]
        ensures { result.now ≡ held self.now };

    /// At most `amount` bytes from `at` on, where so many opens write the node; where there are none, no memory is taken.
    ///
    /// Errors: what its kind says, else `ENOMEM`.
    fn read(&mut self, alloc: Global, at: u64, amount: u64, writers: u128) -> Result<Bytes, Errno>
        ensures steps { Tries (reading at amount writers) (kind self.old) (text self.old) (held self.old) result (text self.new) (held self.new) }
        ensures nothing { TakesNone (reading at amount writers) (kind self.old) (text self.old) (held self.old) result }
        ensures kind { kind self.new ≡ kind self.old }
        ensures text { text self.new ≡ text self.old };

    /// Puts bytes at a place, where so many opens read the node, and answers how many are taken. Takes no memory.
    ///
    /// Errors: what its kind says.
    fn write(&mut self, at: u64, bytes: &[u8], readers: u128) -> Result<u64, Errno>
        ensures steps { AnswersSo (writing at bytes.now readers) (kind self.old) (text self.old) (held self.old) result (text self.new) (held self.new) }
        ensures kind { kind self.new ≡ kind self.old }
        ensures text { text self.new ≡ text self.old };

    /// Cuts the bytes to a size, or grows them. Takes no memory.
    ///
    /// Errors: what its kind says.
    fn set_size(&mut self, size: u64) -> Result<(), Errno>
        ensures steps { AnswersSo (resizing size) (kind self.old) (text self.old) (held self.old) result (text self.new) (held self.new) }
        ensures kind { kind self.new ≡ kind self.old }
        ensures text { text self.new ≡ text self.old };

    /// How many bytes there are to read at a place.
    fn readable(&self, at: u64) -> u64
        ensures { Readable (kind self.now) (text self.now) (held self.now) at result };

    /// Whether reads and writes go by how many opens write and read the node.
    fn counts(&self) -> bool
        ensures { result ≡ counts_opens (kind self.now) };

    // Nothing is made in it.
    ghost no_tree: { (s : Self) → keeps_tree (kind s) ≡ false };
}
