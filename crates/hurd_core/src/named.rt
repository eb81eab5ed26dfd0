//! What rights name, as nodes ask it.
use hurd_creds::{NodeName, ServerName};
use hurd_nodes::Namings;
use hurd_ports::Ports;

/// The ports of tasks, asked what their rights name.
#[derive(Clone, Copy)]
pub(crate) struct NamedByRights<'a> {
    pub(crate) ports: &'a Ports,
}

impl Namings for NamedByRights<'_> {
    ghost use Rattle.hurd_machine.specs.Change.{outside_by};

    ghost outside = { λ n. outside_by n.ports.now.state.tasks };

    fn names(&self, node: NodeName) -> bool {
        self.ports.names_node(node)
    }

    fn controls(&self, server: ServerName) -> bool {
        self.ports.controls(server)
    }
}
