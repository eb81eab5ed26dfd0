//! Which translator is to be started first, where a lookup comes to one that waits.
ghost use Rattle.std.specs.Prelude.{◌≡◌, is_some};
ghost use Rattle.hurd_trans_iface.specs.Kinds.Firmlink.{firm_text};
ghost use Rattle.hurd_machine.specs.World.{words_at};
ghost use Rattle.hurd_core.specs.Core.{world_of};
ghost use Rattle.hurd_lookup.specs.Nested.{FindsAsleep, FindsFirst, first_asleep, needed, passed, says_aims, words_aims};

use crate::lent::lent;
use crate::resolve::{Landing, path_end};
use hurd_core::Core;
use hurd_creds::{Bytes, Errno, Ids, NodeName};
use hurd_trans_iface::{Server, is_firm, says_targets};
use std::alloc::Global;

/// So many nodes are asked at most: the one that the lookup comes to, and 8 that are needed one for the other.
const MOST_ASKED: u64 = 9;

/// Whether the words after `/hurd/firmlink` make a firm link: one path from the root of the tree.
fn says_target(arguments: &[Bytes]) -> bool
    ensures { result ≡ is_some (firm_text arguments.now) }
{
    match arguments {
        [path] => is_firm(path),
        _ => false,
    }
}

/// Whether these words make a server that aims at what the words after its program's name say.
#[tactic(auto, unfolding(crate::specs::Nested::says_aims))]
fn says_aims(program: &Bytes, arguments: &[Bytes]) -> bool
    ensures { result ≡ says_aims program.now arguments.now }
{
    if program.is(b"/hurd/firmlink") {
        says_target(arguments)
    } else {
        program.is(b"/hurd/union") && says_targets(arguments)
    }
}

/// The paths at which a server aims that these words make, lent; none where they make none. Takes no memory.
fn aims(words: &[Bytes]) -> &[Bytes]
    ensures { result.now ≡ words_aims words.entry.now }
{
    let Some((program, arguments)) = words.split_first() else {
        return &[];
    };
    if says_aims(program, arguments) {
        arguments
    } else {
        &[]
    }
}

/// The words that are stored with a node, lent; none where there are none.
fn words_at<S: Server>(core: &Core<S>, node: NodeName) -> &[Bytes]
    ensures { result.now ≡ words_at (world_of S.meaning core.entry.now) node }
{
    match core.passive(node) {
        Some(words) => words.as_slice(),
        None => &[],
    }
}

/// What waits at the end of a path, if something does: any refusal is passed over. `ENOMEM` is none.
fn passed(end: Result<Landing, Errno>) -> Result<Option<NodeName>, Errno>
    ensures { result ≡ passed end }
{
    match end {
        Ok(Landing::Sleeps(node)) => Ok(Some(node)),
        Ok(Landing::Lands(_)) => Ok(None),
        Err(Errno::ENOMEM) => Err(Errno::ENOMEM),
        Err(_) => Ok(None),
    }
}

/// The first node at which a translator waits at the end of one of these paths. `ENOMEM`, not where there is none.
#[tactic(auto, using(crate::proofs::NestedLaws::passed_is))]
fn first_asleep<S: Server>(
    core: &Core<S>,
    alloc: Global,
    ids: &Ids,
    paths: &[Bytes],
) -> Result<Option<NodeName>, Errno>
    ensures { let w = world_of S.meaning core.now in FindsAsleep w paths.now (first_asleep w ids.now paths.now) result }
{
    match paths {
        [] => Ok(None),
        [path, paths @ ..] => match passed(path_end(core, alloc, ids, path.as_slice()))? {
            Some(node) => Ok(Some(node)),
            None => first_asleep(core, alloc, ids, paths),
        },
    }
}

/// The node whose translator is to be started before the one that waits on this node, if there is one. Where the words have no targets, the node isn't asked whose it is.
///
/// `ENOMEM`, not where the words have no targets.
fn needed<S: Server>(
    core: &Core<S>,
    alloc: Global,
    ids: &Ids,
    node: NodeName,
) -> Result<Option<NodeName>, Errno>
    ensures { let w = world_of S.meaning core.now in FindsAsleep w (words_aims (words_at w node)) (needed w ids.now node) result }
{
    let paths = aims(words_at(core, node));
    if paths.is_empty() {
        return Ok(None);
    }
    let Some(attrs) = core.attrs(node) else {
        return Ok(None);
    };
    let own = lent(alloc, ids, attrs.owner)?;
    first_asleep(core, alloc, &own, paths)
}

/// The node whose translator is to be started first by a task with these ids, that the one that waits on this node can be started: one at which the targets of its words end,
/// where one does, else this node; and of that again the same. Nothing is opened, made or started.
///
/// Errors: `ELOOP` a ninth is needed after it; `ENOMEM`, not where its words have no targets.
pub fn first_unstarted<S: Server>(
    core: &Core<S>,
    alloc: Global,
    ids: &Ids,
    node: NodeName,
) -> Result<NodeName, Errno>
    ensures { FindsFirst (world_of S.meaning core.now) ids.now node result }
{
    let mut here = node;
    let mut left = MOST_ASKED;
    while left > 0 {
        left -= 1;
        match needed(core, alloc, ids, here)? {
            None => return Ok(here),
            Some(other) => here = other,
        }
    }
    Err(Errno::ELOOP)
}
