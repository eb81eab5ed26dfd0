//! What a server of one node says itself.
ghost use Rattle.std.specs.Prelude.{◌≡◌, ℕ, false, List, [], Ok};
ghost use Rattle.hurd_creds.specs.Memory.{Meets, Steps};
ghost use Rattle.hurd_trans_iface.specs.Nodes.{Node, is_dir};
ghost use Rattle.hurd_trans_iface.specs.Behaviour.{told_of};
ghost use Rattle.hurd_trans_iface.specs.Meaning.{behaviour_of, counts_opens, keeps_tree, options_of, root_body, root_of, targets_of};
ghost use Rattle.hurd_trans_iface.specs.declared.begun.ServerKind.{ServerKind};
ghost use Rattle.hurd_small.specs.Lone.{IsGiven, IsPut, IsCut, text_taken};

use hurd_creds::{Bytes, Errno};
use hurd_trans_iface::{Names, Root, Words};
use std::alloc::Global;

/// What a server of one node says of it: options alone change that, and nothing else is asked where the node isn't there.
pub trait Single: Drop {
    // The kind of its server.
    ghost kind: { Self → ServerKind };

    // The text of its server.
    ghost text: { Self → List ℕ };

    /// What the node is.
    fn root(&self) -> Root
        ensures { result ≡ root_of (kind self.now) (text self.now) };

    /// The text, lent: none where its kind takes none.
    fn said(&self) -> &[u8]
        ensures { result.now ≡ text self.now };

    /// The program and its words, as they would be given to make such a server.
    ///
    /// Errors: `ENOMEM`.
    fn options(&self, alloc: Global) -> Result<Words, Errno>
        ensures { Meets (Ok (options_of (kind self.now) (text self.now))) result };

    /// Takes other options in place of those that it has, which may give it another text; without words nothing changes, and no memory is taken.
    ///
    /// Errors, in order: `EINVAL` words that this kind doesn't take, or options past the limits of words; `ENOMEM`.
    fn set_options(&mut self, alloc: Global, words: &Words) -> Result<(), Errno>
        ensures steps { Steps (text self.old) (text_taken ((behaviour_of (kind self.old)).set_options words.now) (text self.old)) result (text self.new) }
        ensures kind { kind self.new ≡ kind self.old }
        ensures no_words { words.now ≡ [] → result ≡ Ok tt };

    /// The paths of the nodes that it aims at, in order. Where there are none, no memory is taken.
    ///
    /// Errors: `ENOMEM`.
    fn targets(&self, alloc: Global) -> Result<Names, Errno>
        ensures meets { Meets (Ok (targets_of (kind self.now) (text self.now))) result }
        ensures nothing { targets_of (kind self.now) (text self.now) ≡ [] → result ≡ Ok [] };

    /// The node's size, in bytes.
    fn size(&self) -> u64
        ensures { result ≡ (behaviour_of (kind self.now)).size (text self.now) (root_body (is_dir (root_of (kind self.now) (text self.now)).kind) []) };

    /// At most `amount` bytes from `at` on; where there are none, no memory is taken.
    ///
    /// Errors: `EISDIR` of a directory, else `ENOMEM`.
    fn read(&self, alloc: Global, at: u64, amount: u64) -> Result<Bytes, Errno>
        ensures given { (x : Node) (writers : ℕ) → IsGiven ((behaviour_of (kind self.now)).read (text self.now) x at amount writers) result }
        ensures nothing { (x : Node) (writers : ℕ) → told_of ((behaviour_of (kind self.now)).read (text self.now) x at amount writers) ≡ Ok [] → result ≡ Ok [] };

    /// Whether bytes that are written are taken, and dropped; so are sizes up to 16,777,216.
    ///
    /// Errors: `EOPNOTSUPP`, or `EBADF` of a directory.
    fn takes(&self) -> Result<(), Errno>
        ensures bytes { (x : Node) (at : ℕ) (bs : List ℕ) (readers : ℕ) → IsPut ((behaviour_of (kind self.now)).write (text self.now) x at bs readers) bs result }
        ensures sizes { (x : Node) (size : ℕ) → IsCut ((behaviour_of (kind self.now)).set_size (text self.now) x size) size result };

    /// How many bytes there are to read at a place.
    fn readable(&self, at: u64) -> u64
        ensures { (x : Node) → result ≡ (behaviour_of (kind self.now)).readable (text self.now) x at };

    // Nothing is made in it.
    ghost no_tree: { (s : Self) → keeps_tree (kind s) ≡ false };

    // Nothing is in it at first.
    ghost no_bytes: { (s : Self) → (behaviour_of (kind s)).first (text s) ≡ [] };

    // Nothing that it says goes by who reads it or writes it.
    ghost no_count: { (s : Self) → counts_opens (kind s) ≡ false };
}
