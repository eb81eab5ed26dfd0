//! Where something is that is seen, in words.
ghost use Rattle.std.specs.Prelude.{◌≡◌, IfOk};
ghost use Rattle.hurd_places.specs.Places.{node_path, node_place, open_place, place_by, server_path};

use crate::labels::{Wanted, push_beside, push_label_or};
use crate::paths::{Spot, fill_root, mark, spot_of};
use crate::servers::server_node;
use hurd_creds::{Name, NodeName, OpenName, ServerName};
use hurd_views::{Row, View};
use std::alloc::{AllocError, Global};

/// The path of a node. Fails only if memory runs out.
pub fn node_path(alloc: Global, view: &View, node: NodeName) -> Result<Vec<u8>, AllocError>
    ensures { IfOk result (λ path. path.items ≡ node_path view.now node) }
{
    let Spot { mut path, level } = spot_of(alloc, view, node)?;
    mark(&mut path, view, node, level)?;
    fill_root(&mut path)?;
    Ok(path)
}

/// Where a node is: its path, and the ports on it. Fails only if memory runs out.
pub fn node_place(alloc: Global, view: &View, node: NodeName) -> Result<Vec<u8>, AllocError>
    ensures { IfOk result (λ place. place.items ≡ node_place view.now node) }
{
    let mut place = node_path(alloc, view, node)?;
    push_beside(&mut place, view, node)?;
    Ok(place)
}

/// Where an open is: at the first right that has it.
fn open_place(alloc: Global, view: &View, open_name: OpenName) -> Result<Vec<u8>, AllocError>
    ensures { IfOk result (λ place. place.items ≡ open_place view.now open_name) }
{
    let mut place = Vec::new(alloc);
    push_label_or(&mut place, view, Wanted::Open(open_name), b"(open)")?;
    Ok(place)
}

/// Where a server is: at its first node, or else at the first on which it is active. Fails only if memory runs out.
pub fn server_path(alloc: Global, view: &View, server: ServerName) -> Result<Vec<u8>, AllocError>
    ensures { IfOk result (λ path. path.items ≡ server_path view.now server) }
{
    let Some(node) = server_node(view, server) else {
        return Vec::from_slice(alloc, b"(server)");
    };
    let mut path = node_path(alloc, view, node)?;
    path.extend_from_slice(b" (server)")?;
    Ok(path)
}

/// Where that is of which a row tells: a node, an open, or a server. Fails only if memory runs out.
pub fn place(alloc: Global, view: &View, name: Name, row: &Row) -> Result<Vec<u8>, AllocError>
    ensures { IfOk result (λ place. place.items ≡ place_by view.now name row.now) }
{
    if row.attributes.is_some() {
        return node_place(alloc, view, name);
    }
    if row.opened.is_some() {
        return open_place(alloc, view, name);
    }
    server_path(alloc, view, name)
}
