//! The nodes that may be there, as far as a list of calls has made them.
use std::alloc::{AllocError, Global};

/// A node: its name, the index of its directory, who made it, and the words of the server that is active or waits on it.
#[derive(Drop)]
pub struct Node {
    pub name: String,
    pub parent: usize,
    pub maker: usize,
    pub is_directory: bool,
    pub server: &'static str,
    pub waits: bool,
}

/// All nodes, the root first.
#[derive(Drop)]
pub struct Nodes {
    nodes: Vec<Node>,
}

impl Nodes {
    /// The root alone.
    pub fn new(alloc: Global) -> Result<Nodes, AllocError> {
        let mut nodes = Nodes {
            nodes: Vec::new(alloc),
        };
        nodes.add(alloc, ".", 0, 0, true)?;
        Ok(nodes)
    }

    pub fn len(&self) -> usize {
        self.nodes.len()
    }

    pub fn get(&self, node: usize) -> Option<&Node> {
        self.nodes.get(node)
    }

    /// One node more.
    pub fn add(
        &mut self,
        alloc: Global,
        name: &str,
        parent: usize,
        maker: usize,
        is_directory: bool,
    ) -> Result<(), AllocError> {
        self.nodes.push(Node {
            name: String::from_str(alloc, name)?,
            parent,
            maker,
            is_directory,
            server: "",
            waits: false,
        })?;
        Ok(())
    }

    /// The server of these words is active on a node from now on, or waits there.
    pub fn seat(&mut self, node: usize, server: &'static str, waits: bool) {
        if let Some(known) = self.nodes.get_mut(node) {
            known.server = server;
            known.waits = waits;
        }
    }

    /// The words of the server of a node; none where there is none.
    pub fn server_of(&self, node: usize) -> &'static str {
        match self.nodes.get(node) {
            Some(known) => known.server,
            None => "",
        }
    }

    pub fn name_of(&self, alloc: Global, node: usize) -> Result<String, AllocError> {
        match self.nodes.get(node) {
            Some(known) => String::from_str(alloc, known.name.as_str()),
            None => String::from_str(alloc, "none"),
        }
    }

    /// Whether a task may write in a directory, or owns a node, as far as is known here.
    pub fn is_own(&self, node: usize, task: usize) -> bool {
        match self.nodes.get(node) {
            Some(known) => task == 0 || known.maker == task,
            None => false,
        }
    }

    /// A node of a directory, the first from an index on; else the node there.
    pub fn entry(&self, directory: usize, start: usize) -> usize {
        let found = self
            .nodes
            .iter()
            .skip(start)
            .position(|node| node.parent == directory);
        match found {
            Some(steps) if steps < self.nodes.len() && start < self.nodes.len() => {
                let place = start.wrapping_add(steps);
                if place == 0 { 1 } else { place }
            }
            _ => start,
        }
    }

    /// A node on which a server waits, the first from an index on, or from the first on.
    pub fn waiting(&self, start: usize) -> Option<usize> {
        let late = self.nodes.iter().skip(start).position(|node| node.waits);
        match late {
            Some(steps) => Some(start.wrapping_add(steps)),
            None => self.nodes.iter().position(|node| node.waits),
        }
    }
}
