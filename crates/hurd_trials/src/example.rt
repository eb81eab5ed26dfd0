//! A first program over the tree: root writes a notice and puts a server on a second file, and alice reads both.
//!
//! To make a program of your own of it, copy this file and `example/tree.rt` into the `src` of a crate. In `crates.txt`
//! that crate needs hurd_creds, hurd_trans_iface, hurd_small, hurd_tmpfs, hurd_kinds, hurd_machine, hurd_world and
//! bitflags. Beside the two write a `main.rt`:
//!
//! ```
//! #![tactic(auto)]
//!
//! mod example;
//!
//! fn main(rt: HostRuntime) -> std::io::Result<()> {
//!     example::start(&rt)
//! }
//! ```

ghost use Rattle.std.specs.Prelude.{◌≡◌, IfOk};
ghost use Rattle.hurd_trans_iface.specs.Meaning.{Begins};
ghost use Rattle.hurd_small.specs.Fixed.{fixed_meaning};
ghost use Rattle.hurd_tmpfs.specs.Tree.{new_tmpfs};

mod tree;

use hurd_creds::{Errno, OpenFlags};
use hurd_kinds::empty_tree;
use hurd_small::FixedServer;
use hurd_trans_iface::{Server, Words};
use std::alloc::Global;
use std::io;
use tree::{ALICE, ROOT, Tree};

/// A server that gives a text.
fn hello(alloc: Global) -> Result<Box<FixedServer>, Errno>
    ensures { IfOk result (λ server. Begins (fixed_meaning server.value)) }
{
    let words = Words::new(alloc, &[b"/hurd/hello", b"--contents=Good morning"])?;
    Box::new(alloc, FixedServer::new(alloc, &words)?).map_err(|_| Errno::ENOMEM)
}

/// What alice is told.
#[derive(Drop)]
struct Told {
    notice: String,
    /// Why she may not write the notice.
    refusal: Option<Errno>,
    greeting: String,
}

/// root writes the notice and puts a server on a second file; alice reads both.
fn visit<S: Server>(tree: &mut Tree<S>, server: S) -> Result<Told, Errno>
    requires { Begins (S.meaning server) }
{
    tree.write(ROOT, "notice", "Closed on Mondays")?;
    let notice = tree.read(ALICE, "notice")?;
    let refusal = tree.open(ALICE, "notice", OpenFlags::WRITE).err();
    tree.attach(ROOT, "greeting", server)?;
    let greeting = tree.read(ALICE, "greeting")?;
    Ok(Told {
        notice,
        refusal,
        greeting,
    })
}

/// Begins a tree over the boot server, and what is done in it.
fn tour<S: Server>(alloc: Global, boot: S, server: S) -> Result<Told, Errno>
    requires boot { S.meaning boot ≡ new_tmpfs }
    requires server { Begins (S.meaning server) }
{
    let mut tree = Tree::begin(alloc, boot)?;
    visit(&mut tree, server)
}

/// Makes both servers, and takes the tour.
fn program(alloc: Global) -> Result<Told, Errno> {
    let server: Box<dyn Server> = hello(alloc)?;
    let boot: Box<dyn Server> = empty_tree(alloc)?;
    tour(alloc, boot, server)
}

/// Does it, and prints what alice is told.
pub fn start(rt: &HostRuntime) -> io::Result<()> {
    match program(rt.alloc()) {
        Ok(
            Told {
                notice,
                refusal,
                greeting,
            },
        ) => {
            println!(rt; "notice: {notice}")?;
            println!(rt; "to write it: {}", refusal.map_or("done", Errno::name))?;
            println!(rt; "greeting: {greeting}")
        }
        Err(errno) => println!(rt; "refused: {}", errno.name()),
    }
}
