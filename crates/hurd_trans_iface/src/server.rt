//! The trait of servers.
ghost use Rattle.std.specs.Prelude.{◌≡◌, ◌+◌, true, [], length, None, Ok, IfSome, option_copied};
ghost use Rattle.std.specs.Option.{option_map};
ghost use Rattle.std.specs.FinMap as fin;
ghost use Rattle.hurd_creds.specs.Memory.{Meets, Steps};
ghost use Rattle.hurd_trans_iface.specs.Nodes.{AllListed, Reaches, attrs_of, body_of, content_of, passive_of};
ghost use Rattle.hurd_trans_iface.specs.Answers.{entry_of, names_of, make_of, link_of, rename_of};
ghost use Rattle.hurd_trans_iface.specs.Behaviour.{reading, writing, resizing};
ghost use Rattle.hurd_trans_iface.specs.Meaning.{Meaning, root_of, options_of, targets_of, begin_root_after, step_of, set_options_step, make_step, link_step, unlink_step, rename_step, edit_header_step, forget_after, readable_of, counts_opens, keeps_tree, space_of};
ghost use Rattle.hurd_trans_iface.specs.Totals.{total_in};

use crate::header_edit::HeaderEdit;
use crate::names::Names;
use crate::new_node::NewNode;
use crate::root::Root;
use crate::words::Words;
use hurd_creds::{Attrs, Bytes, Errno, Mode, NodeName};
use std::alloc::Global;

/// A server of nodes, as a boxed object that the core owns (GNU Hurd Reference Manual, Translators; `fs.defs`, `io.defs`).
///
/// What changes something and may need memory changes nothing where it is refused.
pub trait Server: Drop {
    ghost meaning: { Self → Meaning };

    /// Names the root and says its owner, group and mode; once, when the box is attached. Takes no memory.
    fn begin_root(&mut self, root: NodeName, owner: u32, group: u32, mode: Mode)
        requires { (meaning self.old).root ≡ None }
        ensures { meaning self.new ≡ begin_root_after (meaning self.old) root owner group mode };

    /// What the root is, also before it has a name.
    fn root(&self) -> Root
        ensures { result ≡ root_of (meaning self.now).kind (meaning self.now).text };

    /// The text that its words gave it, lent: none where its kind takes none. Takes no memory.
    fn text(&self) -> &[u8]
        ensures { result.now ≡ (meaning self.now).text };

    /// The program and its words, as they would be given to make such a server now (`fsys_get_options`, `fsys.defs`).
    ///
    /// Errors: `ENOMEM`.
    fn options(&self, alloc: Global) -> Result<Words, Errno>
        ensures { Meets (Ok (options_of (meaning self.now).kind (meaning self.now).text)) result };

    /// Takes other options in place of those that it has (`fsys_set_options`, `fsys.defs`); without words nothing changes, and no memory is taken.
    ///
    /// Errors, in order: `EINVAL` words that this kind doesn't take, or options past the limits of words; `ENOMEM`.
    fn set_options(&mut self, alloc: Global, words: &Words) -> Result<(), Errno>
        ensures steps { Steps (meaning self.old) (set_options_step words.now (meaning self.old)) result (meaning self.new) }
        ensures no_words { words.now ≡ [] → result ≡ Ok tt };

    /// The paths of the nodes that it aims at, in order: what they lead to when the server is attached are its targets. Where there are none, no memory is taken.
    ///
    /// Errors: `ENOMEM`.
    fn targets(&self, alloc: Global) -> Result<Names, Errno>
        ensures meets { Meets (Ok (targets_of (meaning self.now).kind (meaning self.now).text)) result }
        ensures nothing { targets_of (meaning self.now).kind (meaning self.now).text ≡ [] → result ≡ Ok [] };

    /// The attributes of a node, if the server has it.
    fn attrs(&self, node: NodeName) -> Option<Attrs>
        ensures { result ≡ option_map attrs_of (fin.get (meaning self.now).nodes node) };

    /// The node of this name in a directory.
    fn step(&self, dir: NodeName, name: &[u8]) -> Option<NodeName>
        ensures { result ≡ entry_of name.now (body_of (meaning self.now).nodes dir) };

    /// The names in a directory, in order of making, without `.` and `..`.
    ///
    /// Errors, in order: `EDIED` no such node, `ENOTDIR`, `ENOMEM`.
    fn names(&self, alloc: Global, dir: NodeName) -> Result<Names, Errno>
        ensures { Meets (names_of (body_of (meaning self.now).nodes dir)) result };

    /// At most `amount` bytes of a file from `at` on, where so many opens write it; where there are none, no memory is taken.
    ///
    /// Errors, in order: `EDIED` no such node, `EISDIR`, of a pipe `EWOULDBLOCK`, of a drip `EIO`, `ENOMEM`.
    fn read(
        &mut self,
        alloc: Global,
        node: NodeName,
        at: u64,
        amount: u64,
        writers: u128,
    ) -> Result<Bytes, Errno>
        ensures steps { Steps (meaning self.old) (step_of (reading at amount writers) node (meaning self.old)) result (meaning self.new) }
        ensures nothing { (step_of (reading at amount writers) node (meaning self.old)).0 ≡ Ok [] → result ≡ Ok [] };

    /// Puts bytes into a file at `at`, where so many opens read it, and answers how many; a gap becomes zero bytes, no data grows nothing. Takes no memory where
    /// there is no data, where the file has the bytes that are written over, and in a stream.
    ///
    /// Errors, in order: `EDIED` no such node, `EBADF` a directory, `EFBIG` an end past 16,777,216, of a pipe `EPIPE` and `EWOULDBLOCK`, `ENOSPC` a file that would grow past the limit of its tree, `ENOMEM`.
    fn write(&mut self, node: NodeName, at: u64, bytes: &[u8], readers: u128) -> Result<u64, Errno>
        ensures steps { Steps (meaning self.old) (step_of (writing at bytes.now readers) node (meaning self.old)) result (meaning self.new) }
        ensures within { Reaches (body_of (meaning self.old).nodes node) (at + length bytes.now) → result ≡ (step_of (writing at bytes.now readers) node (meaning self.old)).0 }
        ensures nothing { bytes.now ≡ [] → result ≡ (step_of (writing at bytes.now readers) node (meaning self.old)).0 }
        ensures stream { (root_of (meaning self.old).kind (meaning self.old).text).is_stream ≡ true → result ≡ (step_of (writing at bytes.now readers) node (meaning self.old)).0 };

    /// Cuts a file, or grows it by zero bytes. A cut takes no memory, nor does a stream.
    ///
    /// Errors, in order: `EDIED` no such node, `EFBIG` a size past 16,777,216, `EBADF` a directory, `ENOSPC` a file that would grow past the limit of its tree, `ENOMEM`.
    fn set_size(&mut self, node: NodeName, size: u64) -> Result<(), Errno>
        ensures steps { Steps (meaning self.old) (step_of (resizing size) node (meaning self.old)) result (meaning self.new) }
        ensures cut { Reaches (body_of (meaning self.old).nodes node) size → result ≡ (step_of (resizing size) node (meaning self.old)).0 }
        ensures stream { (root_of (meaning self.old).kind (meaning self.old).text).is_stream ≡ true → result ≡ (step_of (resizing size) node (meaning self.old)).0 };

    /// The bytes that a node holds, lent, if the server has it and it is no directory; what reads make of the server's text is none of them. Takes no memory.
    fn content(&self, node: NodeName) -> Option<&[u8]>
        ensures { option_copied result ≡ content_of (meaning self.now).nodes node };

    /// How many bytes there are to read at a place, none in a directory; if the server has the node. Takes no memory.
    fn readable(&self, node: NodeName, at: u64) -> Option<u64>
        ensures { result ≡ readable_of (meaning self.now) node at };

    /// Makes a node in a directory: under a name, or without an entry, so that it is like one that has lost its only one. Whether it may be made is for who asks.
    ///
    /// Errors: `ENOMEM`.
    fn make(
        &mut self,
        alloc: Global,
        dir: NodeName,
        entry: Option<&[u8]>,
        new: NewNode,
    ) -> Result<(), Errno>
        requires { let m = meaning self.old in make_of (keeps_tree m.kind) (option_copied entry) new.kind (fin.get m.nodes dir) ≡ Ok tt }
        ensures { Steps (meaning self.old) (make_step dir (option_copied entry.entry) new (meaning self.old)) result (meaning self.new) };

    /// Gives a file another name in a directory. Whether it may get one is for who asks.
    ///
    /// Errors: `ENOMEM`.
    fn link(
        &mut self,
        alloc: Global,
        dir: NodeName,
        name: &[u8],
        node: NodeName,
    ) -> Result<(), Errno>
        requires { let m = meaning self.old in link_of (keeps_tree m.kind) (space_of m) name.now true (fin.get m.nodes dir) (fin.get m.nodes node) ≡ Ok tt }
        ensures { Steps (meaning self.old) (link_step dir name.now node (meaning self.old)) result (meaning self.new) };

    /// Takes the first entry of a name out of a directory: of what it names, a directory loses its parent, and any other node a link. Whether that is a directory, and
    /// whether it is empty, is for who asks. Takes no memory.
    ///
    /// Errors, in order: `EDIED` no such directory, `ENOTDIR`, `EROFS` the server keeps no tree, `ENOENT`.
    fn unlink(&mut self, dir: NodeName, name: &[u8]) -> Result<(), Errno>
        ensures { (result, meaning self.new) ≡ unlink_step dir name.now (meaning self.old) };

    /// Takes the first entry `name` out of a directory and puts it last into another one, or the same, as `new`: in place of the entry of that name, where there is
    /// one, whose node loses it as by `unlink`. A directory gets its new parent. Where both entries name one node nothing changes. Whether the entry may go,
    /// and what the two nodes are, is for who asks.
    ///
    /// Errors: `ENOMEM`.
    fn rename(
        &mut self,
        alloc: Global,
        dir: NodeName,
        name: &[u8],
        to: NodeName,
        new: &[u8],
    ) -> Result<(), Errno>
        requires { let m = meaning self.old in rename_of (keeps_tree m.kind) name.now true (fin.get m.nodes dir) (fin.get m.nodes to) ≡ Ok tt }
        ensures { Steps (meaning self.old) (rename_step dir name.now to new.now (meaning self.old)) result (meaning self.new) };

    /// The words of the passive translator of a node, lent, if the server has the node and there are any. Takes no memory.
    fn passive(&self, node: NodeName) -> Option<&Words>
        ensures { option_copied result ≡ passive_of (fin.get (meaning self.now).nodes node) };

    /// Edits what the header of a node says: a server that keeps a tree stores owner, group and mode, and the words of passive translators. Whether words may be stored
    /// with the node is for who asks. Takes no memory.
    ///
    /// Errors, in order: `EDIED` no such node, `EOPNOTSUPP` the server keeps no tree.
    fn edit_header(&mut self, node: NodeName, edit: HeaderEdit) -> Result<(), Errno>
        ensures { (result, meaning self.new) ≡ edit_header_step node edit (meaning self.old) };

    /// Lets a node go that nothing keeps any more, if the server has it; what entries name it stays. Takes no memory.
    fn forget(&mut self, node: NodeName)
        ensures { meaning self.new ≡ forget_after (meaning self.old) node };

    /// The nodes that no entry names, and maybe others, lent; none where the server doesn't say, and each of its nodes may be one. What is on the list is looked at by
    /// itself whenever something may have gone, so a short one serves best. Takes no memory.
    fn nameless(&self) -> Option<&[NodeName]>
        ensures { IfSome (option_copied result) (λ names. AllListed (meaning self.now).nodes names) };

    /// Whether `read` and `write` go by how many opens write and read the node: of any other server they are asked with none. Takes no memory.
    fn counts(&self) -> bool
        ensures { result ≡ counts_opens (meaning self.now).kind };

    /// How much more the server's files that entries name may have in all, if that is limited. Takes no memory.
    fn space(&self) -> Option<u64>
        ensures { result ≡ space_of (meaning self.now) };

    /// What those files have in all, of a server that keeps a tree. Takes no memory.
    fn total(&self) -> u128
        ensures { keeps_tree (meaning self.now).kind ≡ true → result ≡ total_in (meaning self.now).nodes };

    /// The server is about to be sent away (`fsys_goaway`, `fsys.defs`). Takes no memory.
    fn goaway(&mut self)
        ensures { meaning self.new ≡ meaning self.old };
}
