//! By what a lookup goes, and the ports that it makes.
ghost use Rattle.std.specs.Prelude.{◌≡◌, ◌<◌, [], length, drop, IfSome, IfOk, Ok};
ghost use Rattle.hurd_creds.specs.Memory.{Meets};
ghost use Rattle.hurd_ports.specs.Limits.{most_parents};
ghost use Rattle.hurd_core.specs.Core.{Does, room_asks, world_of};
ghost use Rattle.hurd_machine.specs.Change.{opening};
ghost use Rattle.hurd_lookup.specs.Lookup.{no_ids, ways_into};
ghost use Rattle.hurd_lookup.specs.Ends.{authority_of, port_of, port_told, port_without_ids, ways_by};

use hurd_core::Core;
use hurd_creds::{Errno, Ids, NodeName, OpenFlags, TaskId};
use hurd_ports::{Parent, Parents};
use hurd_trans_iface::Server;
use std::alloc::{AllocError, Global};

/// By what a lookup goes: the ids that it asks with, and the ways that it came in by.
#[derive(Clone, Copy, Debug)]
pub(crate) struct Authority<'a> {
    pub(crate) ids: &'a Ids,
    pub(crate) ways: &'a Parents,
}

/// A port that is to be made.
#[derive(Debug, Drop)]
pub(crate) struct NewPort {
    pub(crate) node: NodeName,
    pub(crate) ids: Ids,
    pub(crate) parents: Parents,
}

impl Authority<'_> {
    /// The ways, after the one by which a server was entered, if one was.
    pub(crate) fn ways_by(
        &self,
        alloc: Global,
        entered: Option<Parent>,
    ) -> Result<Parents, AllocError>
        requires { IfSome entered (λ way. length (authority_of self.now).ways < most_parents) }
        ensures { IfOk result (λ ways. ways ≡ ways_by entered (authority_of self.now).ways) }
    {
        match entered {
            Some(way) => self.ways.entered(alloc, way),
            None => self.ways.copied(alloc),
        }
    }

    /// The ways, where the latest leads into a branch of the union that it came in by.
    pub(crate) fn ways_into(&self, alloc: Global, branch: NodeName) -> Result<Parents, AllocError>
        ensures { IfOk result (λ ways. ways ≡ ways_into branch (authority_of self.now).ways) }
    {
        let ways = self.ways.as_slice();
        let Some(way) = ways.first() else {
            return Ok(Parents::none(alloc));
        };
        let way = Parent {
            at: branch,
            parent: way.parent,
        };
        self.ways.left(alloc)?.entered(alloc, way)
    }

    /// A port with the ids that this goes by.
    #[inline(always)]
    pub(crate) fn port(
        &self,
        alloc: Global,
        node: NodeName,
        entered: Option<Parent>,
    ) -> Result<NewPort, AllocError>
        requires { IfSome entered (λ way. length (authority_of self.now).ways < most_parents) }
        ensures { IfOk result (λ port. port_of port
            ≡ record { node = node; ids = (authority_of self.now).ids; parents = ways_by entered (authority_of self.now).ways }) }
    {
        Ok(NewPort {
            node,
            ids: self.ids.copied(alloc)?,
            parents: self.ways_by(alloc, entered)?,
        })
    }
}

impl NewPort {
    /// A port without ids.
    pub(crate) fn without_ids(
        alloc: Global,
        node: NodeName,
        parents: Parents,
    ) -> Result<NewPort, Errno>
        ensures { Meets (Ok (port_without_ids node parents)) (port_told result) }
    {
        Ok(NewPort {
            node,
            ids: Ids::new(alloc, &[], &[])?,
            parents,
        })
    }

    /// Makes the port, with an open of these modes.
    ///
    /// Errors, in order: `ESRCH` no such task, `EOVERFLOW`, `ENOMEM`.
    #[inline(always)]
    pub(crate) fn open<S: Server>(
        self,
        core: &mut Core<S>,
        task: TaskId,
        modes: OpenFlags,
    ) -> Result<u64, Errno>
        ensures { let w = world_of S.meaning core.old in let e = port_of self in
            Does w (room_asks w task.0 1) (λ x. opening task.0 x e.node e.ids e.parents modes) (λ x. x.next) result (world_of S.meaning core.new) }
    {
        let NewPort { node, ids, parents } = self;
        core.open(task, node, ids, parents, modes)
    }
}
