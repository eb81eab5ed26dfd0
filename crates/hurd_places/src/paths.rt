//! The way by which a node was found, in words.
ghost use Rattle.std.specs.Prelude.{◌≡◌, ◌<◌, ◌≤◌, if◌then◌else◌, ◌^◌, ◌++◌, ◌∷◌, length, option_and_then, IfOk, OnOk, Some};
ghost use Rattle.hurd_sight.specs.Found.{found_from, why_of};
ghost use Rattle.hurd_views.specs.Views.{row_at};
ghost use Rattle.hurd_places.specs.Places.{underlying, count_to, entry_name, is_alike, is_covered, level_along, level_by, covered_path, name_in, name_text, numbered, or_root, path_along, step_by, way_of, way_to};

use crate::labels::{Wanted, push_label_or};
use crate::servers::{is_covered, target_at};
use hurd_creds::NodeName;
use hurd_sight::{Found, Why};
use hurd_views::{BodyRow, EntryRow, View};
use hurd_words::printing::push_number;
use hurd_words::spelling::push_spelled_name;
use std::alloc::{AllocError, Global};

/// What stands for a name that isn't seen, and for a node.
const UNSEEN: &[u8] = b"(unseen)";

/// The node from which a node was found, if it was found from one.
fn found_from(found: &Found, node: NodeName) -> Option<NodeName>
    ensures { result ≡ option_and_then found_from (why_of node found.now) }
{
    match found.why(node)? {
        Why::Child(from)
        | Why::Parent(from)
        | Why::Active(from)
        | Why::ServerRoot(from)
        | Why::Target(from) => Some(from),
        Why::Root | Why::Held | Why::Way | Why::Controlled | Why::Pending => None,
    }
}

/// The nodes by which a node was found, itself first.
fn way_to(alloc: Global, found: &Found, node: NodeName) -> Result<Vec<NodeName>, AllocError>
    ensures { IfOk result (λ way. way.items ≡ way_to (length found.now) found.now (Some node)) }
{
    let mut way = Vec::new(alloc);
    let mut at = Some(node);
    for _ in 0..found.len() {
        let Some(node) = at else {
            return Ok(way);
        };
        way.push(node)?;
        at = found_from(found, node);
    }
    Ok(way)
}

/// The name of the first entry that has a node; none where there is no such entry.
fn entry_name(entries: &[EntryRow], node: NodeName) -> &[u8]
    ensures { result.now ≡ entry_name entries.now node }
{
    for entry in entries {
        if entry.node == node {
            return entry.name.as_slice();
        }
    }
    b""
}

/// The same of a body that may be seen.
fn name_in(body: &Option<Option<BodyRow>>, node: NodeName) -> &[u8]
    ensures { result.now ≡ name_in body.now node }
{
    match body {
        Some(Some(BodyRow::Entries(entries))) => entry_name(entries.as_slice(), node),
        _ => b"",
    }
}

/// Adds a name as it is in a path.
fn push_name_text(text: &mut Vec<u8>, name: &[u8]) -> Result<(), AllocError>
    ensures { OnOk result (text.new.items ≡ text.old.items ++ name_text name.now) }
{
    if name.is_empty() {
        return text.extend_from_slice(UNSEEN);
    }
    push_spelled_name(text, name)
}

/// Adds what an entry of a directory adds to the path of its node.
fn push_entry(
    text: &mut Vec<u8>,
    view: &View,
    directory: NodeName,
    node: NodeName,
) -> Result<(), AllocError>
    ensures { OnOk result (text.new.items ≡ text.old.items ++ (47 ∷ name_text (name_in (row_at view.now.rows directory).body node))) }
{
    text.push(b'/')?;
    let name = match view.rows.get(directory) {
        Some(row) => name_in(&row.body, node),
        None => b"",
    };
    push_name_text(text, name)
}

/// Adds a word and a number in brackets.
fn push_numbered(text: &mut Vec<u8>, word: &[u8], number: u64) -> Result<(), AllocError>
    ensures { OnOk result (text.new.items ≡ text.old.items ++ numbered word.now number) }
{
    text.push(b'(')?;
    text.extend_from_slice(word)?;
    push_number(text, number)?;
    text.push(b')')?;
    Ok(())
}

/// Whether two ways to be found are counted together.
fn is_alike(why: Why, other: Why) -> bool
    ensures { result ≡ is_alike why other }
{
    match (why, other) {
        (Why::Way, Why::Way) => true,
        (Why::Controlled, Why::Controlled) => true,
        (Why::Pending, Why::Pending) => true,
        _ => false,
    }
}

/// One where something holds, else none.
fn one_if(holds: bool) -> u64
    ensures number { result ≡ (if holds then 1 else 0) }
    ensures small { result ≤ 1 }
{
    if holds { 1 } else { 0 }
}

/// How many of the found nodes, up to this one, were found in such a way.
#[tactic(auto, using(crate::proofs::PlaceLaws::here))]
fn count_to(why: Why, node: NodeName, found: &Found) -> u64
    ensures { result ≡ count_to why node found.now }
{
    let mut count = 0;
    for i in 0..found.len() {
        let Some((other, other_why)) = found.get(i) else {
            return count;
        };
        count += one_if(is_alike(why, other_why));
        if node == other {
            return count;
        }
    }
    count
}

/// A path that has no step yet is the root's.
pub(crate) fn fill_root(path: &mut Vec<u8>) -> Result<(), AllocError>
    ensures { OnOk result (path.new.items ≡ or_root path.old.items) }
{
    if path.is_empty() {
        path.push(b'/')?;
    }
    Ok(())
}

/// Adds what stands for the active server that a node is underlying.
fn push_underlying(path: &mut Vec<u8>, level: u64) -> Result<(), AllocError>
    ensures { OnOk result (path.new.items ≡ path.old.items ++ underlying level) }
{
    if level == 0 {
        return path.extend_from_slice(b"(underlying)");
    }
    push_numbered(path, b"underlying", level)
}

/// Marks the path of a node on which a server is active.
pub(crate) fn mark(
    path: &mut Vec<u8>,
    view: &View,
    node: NodeName,
    level: u64,
) -> Result<(), AllocError>
    ensures { OnOk result (path.new.items ≡ covered_path (is_covered view.now node) path.old.items level) }
{
    if !is_covered(view, node) {
        return Ok(());
    }
    fill_root(path)?;
    push_underlying(path, level)
}

/// The path of a node that is held begins with the right that it was found by.
fn begin_held(path: &mut Vec<u8>, view: &View, node: NodeName) -> Result<(), AllocError>
    ensures { OnOk result (path.new.items ≡ step_by view.now node path.old.items 0 (Some Why.Held)) }
{
    path.clear();
    path.push(b'(')?;
    push_label_or(path, view, Wanted::Node(node), b"held")?;
    path.push(b')')?;
    Ok(())
}

/// A path that begins with a word, and how many nodes were found so.
fn begin_counted(
    path: &mut Vec<u8>,
    view: &View,
    node: NodeName,
    why: Why,
    word: &[u8],
) -> Result<(), AllocError>
    ensures { OnOk result (path.new.items ≡ numbered word.now (count_to why node view.now.sight.found)) }
{
    path.clear();
    let count = count_to(why, node, view.sight.nodes());
    push_numbered(path, word, count)
}

/// The path of a node by why it was found, from the path and the level of the node from which it was found.
fn step(
    path: &mut Vec<u8>,
    view: &View,
    node: NodeName,
    level: u64,
    why: Option<Why>,
) -> Result<(), AllocError>
    ensures { OnOk result (path.new.items ≡ step_by view.now node path.old.items level why) }
{
    match why {
        None => {
            path.clear();
            path.extend_from_slice(UNSEEN)
        }
        Some(Why::Root) => {
            path.clear();
            Ok(())
        }
        Some(Why::Held) => begin_held(path, view, node),
        Some(Why::Way) => begin_counted(path, view, node, Why::Way, b"way"),
        Some(Why::Controlled) => begin_counted(path, view, node, Why::Controlled, b"controlled"),
        Some(Why::Pending) => begin_counted(path, view, node, Why::Pending, b"pending"),
        Some(Why::Child(directory)) => {
            mark(path, view, directory, level)?;
            push_entry(path, view, directory, node)
        }
        Some(Why::Active(_)) => Ok(()),
        Some(Why::Parent(from)) => {
            mark(path, view, from, level)?;
            path.extend_from_slice(b"(parent)")
        }
        Some(Why::ServerRoot(from)) => {
            mark(path, view, from, level)?;
            path.extend_from_slice(b"(root)")
        }
        Some(Why::Target(from)) => {
            mark(path, view, from, level)?;
            push_numbered(path, b"target", target_at(view, from, node))
        }
    }
}

/// One more where a node is the root of an active server, else none.
fn next_level(why: Option<Why>, level: u64) -> u64
    requires { level < 2 ^ 63 }
    ensures { result ≡ level_by why level }
{
    match why {
        Some(Why::Active(_)) => level + 1,
        _ => 0,
    }
}

/// A node's own path, and how many active servers lead to it.
pub(crate) struct Spot {
    pub path: Vec<u8>,
    pub level: u64,
}

/// The spot of a node at the end of a way, which comes first.
fn along(alloc: Global, view: &View, mut way: Vec<NodeName>) -> Result<Spot, AllocError>
    ensures path { IfOk result (λ spot. spot.path.items ≡ path_along view.now way.items) }
    ensures level { IfOk result (λ spot. spot.level ≡ level_along view.now way.items) }
{
    let mut path = Vec::new(alloc);
    let mut level = 0;
    while let Some(node) = way.pop() {
        let why = view.sight.nodes().why(node);
        step(&mut path, view, node, level, why)?;
        level = next_level(why, level);
    }
    Ok(Spot { path, level })
}

/// The spot of a node.
pub(crate) fn spot_of(alloc: Global, view: &View, node: NodeName) -> Result<Spot, AllocError>
    ensures path { IfOk result (λ spot. spot.path.items ≡ path_along view.now (way_of view.now node)) }
    ensures level { IfOk result (λ spot. spot.level ≡ level_along view.now (way_of view.now node)) }
{
    let way = way_to(alloc, view.sight.nodes(), node)?;
    along(alloc, view, way)
}
