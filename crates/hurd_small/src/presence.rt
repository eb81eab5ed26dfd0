//! The one node of a server, and whether it is there.
ghost use Rattle.std.specs.Prelude.{◌≡◌, ℕ, List, IfSome};
ghost use Rattle.std.specs.Option.{option_map};
ghost use Rattle.std.specs.FinMap as fin;
ghost use Rattle.hurd_trans_iface.specs.declared.begun.ServerKind.{ServerKind};
ghost use Rattle.hurd_small.specs.Lone.{node_of, nodes_of};

use hurd_creds::{Mode, NodeName};

/// A node with its name, owner, group and mode.
#[derive(Clone, Copy, Debug)]
pub(crate) struct LoneNode {
    pub(crate) name: NodeName,
    pub(crate) owner: u32,
    pub(crate) group: u32,
    pub(crate) mode: Mode,
}

/// The one node of a server, from before it has a name till after it is forgotten.
#[derive(Clone, Copy, Debug)]
pub(crate) enum Presence {
    Nameless,
    There(LoneNode),
    Forgotten(NodeName),
}

impl Presence {
    /// The node of a name, if it is there.
    #[tactic(auto, using(crate::proofs::LoneLaws::find_there, crate::proofs::LoneLaws::find_apart, crate::proofs::LoneLaws::find_nameless))]
    pub(crate) fn find(&self, node: NodeName) -> Option<LoneNode>
        ensures found { (kind : ServerKind) (text : List ℕ) (held : List ℕ) → option_map (node_of kind text held) result ≡ fin.get (nodes_of kind text held self.now) node }
        ensures there { IfSome result (λ lone. (self.now ≡ Presence.There lone) × (lone.name ≡ node)) }
    {
        match self {
            Presence::Nameless => None,
            Presence::There(lone) => { if lone.name == node { Some(*lone) } else { None } }
            Presence::Forgotten(_) => None,
        }
    }
}
