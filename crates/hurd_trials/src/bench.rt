//! Measures the work of a user on files: how long one call after another takes in a tree of so many files.
//!
//! `hurd_trials bench NODES [hello|firmlink]` makes that many files, from 1 to 10,000,000, in directories of at most 1,000, does each
//! kind of work on them or on some of them, and prints for each kind how many times it was done and how many nanoseconds one
//! took. The servers that come are hellos, or firm links to the first directory, beside each of at most 100,000 files. With no
//! argument there are 100 files and no times are printed, so that each run prints the same.
//!
//! Status 1 with one line, the usage or the error of a call that was refused.

ghost use Rattle.std.specs.Prelude.{IfOk};
ghost use Rattle.hurd_trans_iface.specs.Meaning.{Begins};
ghost use Rattle.hurd_small.specs.Fixed.{fixed_meaning};
ghost use Rattle.hurd_kinds.specs.Boxes.{box_meaning};

mod arguments;
mod fault;
mod files;
mod row;
mod tree;
mod work;

use arguments::{Asked, Kind};
use fault::Fault;
use files::Files;
use hurd_creds::Errno;
use hurd_dialogue::boxed;
use hurd_kinds::{ServerBox, empty_tree};
use hurd_small::FixedServer;
use hurd_trans_iface::{Server, Words};
use row::Row;
use std::alloc::Global;
use std::process::ExitCode;
use std::rt::Clock;
use tree::Tree;
use work::Work;

/// After so many seconds no more servers are made: each makes what comes later dearer.
const LONG_ENOUGH: u64 = 10;

/// A server that gives a short text.
fn hello(alloc: Global) -> Result<Box<FixedServer>, Errno>
    ensures { IfOk result (λ server. Begins (fixed_meaning server.value)) }
{
    let words = Words::new(alloc, &[b"/hurd/hello", b"--contents=morning"])?;
    Box::new(alloc, FixedServer::new(alloc, &words)?).map_err(|_| Errno::ENOMEM)
}

/// A server that leads to the first directory.
fn firmlink(alloc: Global) -> Result<Box<FixedServer>, Errno>
    ensures { IfOk result (λ server. Begins (fixed_meaning server.value)) }
{
    let words = Words::new(alloc, &[b"/hurd/firmlink", b"/d0"])?;
    Box::new(alloc, FixedServer::new(alloc, &words)?).map_err(|_| Errno::ENOMEM)
}

/// A server of a kind.
#[tactic(auto, unfolding(hurd_kinds::specs::Boxes::box_meaning))]
fn new_server(alloc: Global, kind: Kind) -> Result<ServerBox, Errno>
    ensures { IfOk result (λ server. Begins (box_meaning server)) }
{
    if matches!(kind, Kind::Firmlink) {
        return Ok(ServerBox::Fixed(firmlink(alloc)?));
    }
    Ok(ServerBox::Fixed(hello(alloc)?))
}

/// Does these kinds of work one after another, and prints the row of each.
fn work_on<S: Server>(
    rt: &(impl Clock + Print),
    tree: &mut Tree<S>,
    works: &[Work],
    asked: Asked,
) -> Result<(), Fault> {
    for work in works {
        let mut row = Row::begin(rt, *work)?;
        row.add(tree.repeat(*work, asked.files)?);
        row.print(rt, asked.timed)?;
    }
    Ok(())
}

/// Makes the directories and does what is done before servers come; then their row begins.
fn before_servers<S: Server>(
    rt: &(impl Clock + Print),
    tree: &mut Tree<S>,
    asked: Asked,
) -> Result<Row, Fault> {
    tree.make_directories(asked.files.directories())?;
    work_on(rt, tree, &Work::BEFORE_SERVERS, asked)?;
    Row::begin(rt, Work::Serve)
}

/// Puts one server more, which some words made, on a file; whether the work has gone on for so long that it ends, which it never has where no
/// times are printed.
fn serve_one<S: Server>(
    rt: &impl Clock,
    tree: &mut Tree<S>,
    row: &mut Row,
    number: usize,
    server: S,
    asked: Asked,
) -> Result<bool, Fault>
    requires { Begins (S.meaning server) }
{
    tree.serve(number, server)?;
    row.add(1);
    Ok(asked.timed && row.took(rt)?.as_secs() >= LONG_ENOUGH)
}

/// Puts servers on files of which the work takes one after another.
#[tactic(auto, unfolding(hurd_kinds::specs::Boxes::box_meaning))]
fn serve_all(
    rt: &impl Clock,
    alloc: Global,
    tree: &mut Tree<ServerBox>,
    row: &mut Row,
    asked: Asked,
) -> Result<(), Fault> {
    for number in (0..asked.files.count).step_by(asked.stride()) {
        let server = new_server(alloc, asked.kind)?;
        if serve_one(rt, tree, row, number, server, asked)? {
            break;
        }
    }
    Ok(())
}

/// Does each kind of work, and prints its row. The names are taken away last but servers, so that these come into a full tree.
fn measure_in(
    rt: &(impl Clock + Print),
    alloc: Global,
    tree: &mut Tree<ServerBox>,
    asked: Asked,
) -> Result<(), Fault> {
    let mut row = before_servers(rt, tree, asked)?;
    serve_all(rt, alloc, tree, &mut row, asked)?;
    let served = row.times();
    row.print(rt, asked.timed)?;
    work_on(rt, tree, &[Work::Unlink], asked)?;
    send_away(rt, tree, served, asked)
}

/// Sends the servers away again, and prints that row.
fn send_away<S: Server>(
    rt: &(impl Clock + Print),
    tree: &mut Tree<S>,
    served: u64,
    asked: Asked,
) -> Result<(), Fault> {
    let mut row = Row::begin(rt, Work::SendAway)?;
    tree.send_all_away(asked.files.count, asked.stride(), served)?;
    row.add(served);
    row.print(rt, asked.timed)
}

/// Begins a tree, and measures the work in it.
#[tactic(auto, unfolding(hurd_kinds::specs::Boxes::box_meaning))]
fn measure(rt: &(impl Clock + Print), alloc: Global, asked: Asked) -> Result<(), Fault> {
    let boot = ServerBox::Tmpfs(empty_tree(alloc).map_err(Errno::from)?);
    let mut tree = boxed(alloc, Tree::begin(alloc, boot)?).map_err(Errno::from)?;
    measure_in(rt, alloc, &mut tree, asked)
}

/// The whole program, up to the first fault.
fn program(rt: &HostRuntime, words: &[String]) -> Result<(), Fault> {
    measure(rt, rt.alloc(), Asked::read(words)?)
}

/// Does what the words after `bench` ask for, and says what went wrong.
pub fn start(rt: &HostRuntime, words: &[String]) -> ExitCode {
    match program(rt, words) {
        Ok(()) => ExitCode::SUCCESS,
        Err(fault) => {
            let _ = println!(rt; "{fault}");
            ExitCode::FAILURE
        }
    }
}
