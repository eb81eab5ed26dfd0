//! Which parts of what all users see together are listed, and in which order.
ghost use Rattle.std.specs.Prelude.{◌≡◌, ◌++◌, not, slice_get, option_copied, IfOk, OnOk};
ghost use Rattle.hurd_nodes.specs.Shown.{shown};
ghost use Rattle.hurd_sight.specs.Looks.{sees_with};
ghost use Rattle.hurd_views.specs.Views.{row_at};
ghost use Rattle.hurd_can.specs.Listed.{body_at, has_bytes, has_entries, is_node, kept_if, listed, part_if, parts_at, parts_in, parts_of};

use hurd_creds::Name;
use hurd_nodes::Nodes;
use hurd_sight::{SeenPart, Sight};
use hurd_trans_iface::Server;
use hurd_views::{BodyRow, View};
use std::alloc::{AllocError, Global};

/// Which parts are listed together.
#[derive(Clone, Copy, Debug, PartialEq, Eq)]
pub enum Group {
    /// What is in files.
    Bytes,
    /// What is in directories.
    Entries,
    /// The nodes themselves.
    Nodes,
    /// All else.
    Rest,
}

/// What is in a node, if that is seen and the node is there.
pub(crate) fn body_at(view: &View, name: Name) -> Option<&BodyRow>
    ensures { option_copied result ≡ body_at view.now name }
{
    match view.rows.get(name) {
        Some(row) => match &row.body {
            Some(Some(body)) => Some(body),
            _ => None,
        },
        None => None,
    }
}

/// Whether these are bytes.
fn has_bytes(body: Option<&BodyRow>) -> bool
    ensures { result ≡ has_bytes (option_copied body.entry) }
{
    matches!(body, Some(BodyRow::Bytes(_)))
}

/// Whether these are entries.
pub(crate) fn has_entries(body: Option<&BodyRow>) -> bool
    ensures { result ≡ has_entries (option_copied body.entry) }
{
    matches!(body, Some(BodyRow::Entries(_)))
}

/// Whether a node is seen that is there.
fn is_node(view: &View, name: Name) -> bool
    ensures { result ≡ is_node (row_at view.now.rows name).attributes }
{
    match view.rows.get(name) {
        Some(row) => match &row.attributes {
            Some(node) => node.attrs.is_some(),
            None => false,
        },
        None => false,
    }
}

/// Adds a part, where the test holds.
fn add_if(parts: &mut Vec<SeenPart>, holds: bool, part: SeenPart) -> Result<(), AllocError>
    ensures { OnOk result (parts.new.items ≡ parts.old.items ++ part_if holds part) }
{
    if holds {
        parts.push(part)?;
    }
    Ok(())
}

/// Adds all other parts of a thing, of which everybody together sees something.
fn add_rest(parts: &mut Vec<SeenPart>, view: &View, name: Name) -> Result<(), AllocError>
    ensures { OnOk result (parts.new.items ≡ parts.old.items ++ parts_in Group.Rest view.now name) }
{
    add_if(
        parts,
        view.tells(SeenPart::Empty(name)),
        SeenPart::Empty(name),
    )?;
    add_if(
        parts,
        view.tells(SeenPart::Ends(name)),
        SeenPart::Ends(name),
    )?;
    add_if(
        parts,
        view.tells(SeenPart::Open(name)),
        SeenPart::Open(name),
    )?;
    add_if(
        parts,
        view.tells(SeenPart::Options(name)),
        SeenPart::Options(name),
    )?;
    add_if(
        parts,
        view.tells(SeenPart::Text(name)),
        SeenPart::Text(name),
    )?;
    add_if(
        parts,
        view.tells(SeenPart::Users(name)),
        SeenPart::Users(name),
    )?;
    add_if(
        parts,
        view.tells(SeenPart::Total(name)),
        SeenPart::Total(name),
    )
}

/// Adds the parts of a thing in a group.
fn add_parts(
    parts: &mut Vec<SeenPart>,
    group: Group,
    view: &View,
    name: Name,
) -> Result<(), AllocError>
    ensures { OnOk result (parts.new.items ≡ parts.old.items ++ parts_in group view.now name) }
{
    match group {
        Group::Bytes => add_if(parts, has_bytes(body_at(view, name)), SeenPart::Body(name)),
        Group::Entries => add_if(
            parts,
            has_entries(body_at(view, name)),
            SeenPart::Body(name),
        ),
        Group::Nodes => add_if(parts, is_node(view, name), SeenPart::Attributes(name)),
        Group::Rest => add_rest(parts, view, name),
    }
}

/// Adds the parts in a group of the thing at an index, if there are so many.
fn add_at(
    parts: &mut Vec<SeenPart>,
    group: Group,
    view: &View,
    index: usize,
) -> Result<(), AllocError>
    ensures { OnOk result (parts.new.items ≡ parts.old.items ++ parts_at group view.now (slice_get view.now.rows index)) }
{
    match view.rows.name_at(index) {
        Some(name) => add_parts(parts, group, view, name),
        None => Ok(()),
    }
}

/// Adds the parts in a group.
fn add_group(parts: &mut Vec<SeenPart>, group: Group, view: &View) -> Result<(), AllocError>
    ensures { OnOk result (parts.new.items ≡ parts.old.items ++ parts_of group view.now view.now.rows) }
{
    for i in 0..view.rows.len() {
        add_at(parts, group, view, i)?;
    }
    Ok(())
}

/// The parts that are listed of what is seen: bytes, entries, nodes, and all others if they are wanted. Fails only if memory runs out.
fn listed(alloc: Global, view: &View, every: bool) -> Result<Vec<SeenPart>, AllocError>
    ensures { IfOk result (λ parts. parts.items ≡ listed every view.now) }
{
    let mut parts = Vec::new(alloc);
    add_group(&mut parts, Group::Bytes, view)?;
    add_group(&mut parts, Group::Entries, view)?;
    add_group(&mut parts, Group::Nodes, view)?;
    if every {
        add_group(&mut parts, Group::Rest, view)?;
    }
    Ok(parts)
}

/// Those of these parts that a look doesn't show. Fails only if memory runs out.
fn not_shown<S: Server>(
    alloc: Global,
    nodes: &Nodes<S>,
    sight: &Sight,
    parts: &[SeenPart],
) -> Result<Vec<SeenPart>, AllocError>
    ensures { IfOk result (λ left. left.items ≡ kept_if (λ p. not (sees_with (shown S.meaning nodes.now) sight.now p)) parts.now) }
{
    let mut left = Vec::new(alloc);
    for part in parts {
        add_if(&mut left, !sight.sees(nodes, *part), *part)?;
    }
    Ok(left)
}

/// The parts that are listed of what is seen, except those that a look shows. Fails only if memory runs out.
pub fn unseen<S: Server>(
    alloc: Global,
    nodes: &Nodes<S>,
    sight: &Sight,
    view: &View,
    every: bool,
) -> Result<Vec<SeenPart>, AllocError>
    ensures { IfOk result (λ parts. parts.items ≡ kept_if (λ p. not (sees_with (shown S.meaning nodes.now) sight.now p)) (listed every view.now)) }
{
    let parts = listed(alloc, view, every)?;
    not_shown(alloc, nodes, sight, parts.as_slice())
}
