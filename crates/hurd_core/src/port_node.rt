//! The node of a port.
use hurd_creds::Attrs;
use hurd_ports::IoRight;
use hurd_trans_iface::Words;

/// What a port names: its right, and of the right's node the attributes, and the words of its passive translator, if there are any.
#[derive(Clone, Copy, Debug)]
pub struct PortNode<'a> {
    pub right: &'a IoRight,
    pub attrs: Attrs,
    pub words: Option<&'a Words>,
}
