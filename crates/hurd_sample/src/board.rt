//! What tasks call in a sample.
//!
//! A board keeps an account of what each task may hold, and of what may stand where. Replies are not known here, so that is a guess.
use crate::draws::Draws;
use crate::nodes::Nodes;
use std::alloc::{AllocError, Global};

/// As many tasks are in each sample.
const TASKS: usize = 4;

/// A task that is in none.
const NOBODY: usize = 60;

/// What a right may be good for.
#[derive(Clone, Copy, Debug, PartialEq, Eq)]
enum Sort {
    /// A directory.
    Directory,
    /// A directory that is open to be read.
    Listing,
    /// A file that is open to be read and written.
    Open,
    /// A node of the task's own that is open for nothing.
    Node,
    /// A node of somebody else's, or a right with weaker ids.
    Weak,
    /// The root of a server.
    Root,
    /// A server that may be controlled.
    Control,
}

/// A right of a task: the node that it names is known by its index.
#[derive(Clone, Copy)]
struct Right {
    sort: Sort,
    node: usize,
}

/// A task: its rights by port, from port 1 on, those that it was sent, and the node whose server it is to start.
#[derive(Drop)]
struct Holder {
    rights: Vec<Right>,
    sent: Vec<Right>,
    to_start: Option<usize>,
}

/// All tasks, the nodes, and who makes the next call.
#[derive(Drop)]
pub struct Board {
    draws: Draws,
    nodes: Nodes,
    holders: Vec<Holder>,
    task: usize,
}

impl Board {
    pub fn new(alloc: Global, seed: u64) -> Result<Board, AllocError> {
        let root = Right {
            sort: Sort::Root,
            node: 0,
        };
        let mut holders = Vec::new(alloc);
        for _ in 0..TASKS {
            let mut rights = Vec::new(alloc);
            rights.push(root)?;
            rights.push(root)?;
            holders.push(Holder {
                rights,
                sent: Vec::new(alloc),
                to_start: None,
            })?;
        }
        Ok(Board {
            draws: Draws::new(seed),
            nodes: Nodes::new(alloc)?,
            holders,
            task: 0,
        })
    }

    /// The line of the call of this number, from 0 on: a directory for all, and a server of alice's first.
    pub fn call(&mut self, alloc: Global, number: u64) -> Result<String, AllocError> {
        match number {
            0 => {
                self.nodes.add(alloc, "t", 0, 0, true)?;
                String::from_str(alloc, "0 dir_mkdir 1 =t 1777")
            }
            1..=4 => {
                self.task = number as usize - 1;
                self.gain(Sort::Directory, 1)?;
                let task = self.task;
                format!(in alloc; "{task} dir_lookup 1 =t - 0")
            }
            5 => {
                self.task = 1;
                self.make(alloc, 3, 1, false)
            }
            6 => self.set_translator(alloc, 4, 2),
            7 => self.control(alloc, 4, 2),
            _ => self.deed(alloc),
        }
    }

    /// What some task does; rarely one that isn't there.
    fn deed(&mut self, alloc: Global) -> Result<String, AllocError> {
        self.task = if self.draws.often(2) {
            NOBODY
        } else {
            self.draws.one(&[0, 0, 1, 1, 1, 2, 2, 3])
        };
        match self.draws.below(20) {
            0..=3 => self.lookup_call(alloc),
            4..=5 => self.entry_call(alloc),
            6..=8 => self.io_call(alloc),
            9 => self.open_call(alloc),
            10..=11 => self.file_call(alloc),
            12..=14 => self.translator_call(alloc),
            15..=17 => self.server_call(alloc),
            _ => self.port_call(alloc),
        }
    }

    /// A new right, of the task's next port.
    fn gain(&mut self, sort: Sort, node: usize) -> Result<(), AllocError> {
        if let Some(holder) = self.holders.get_mut(self.task) {
            holder.rights.push(Right { sort, node })?;
        }
        Ok(())
    }

    /// A port of the task's, sooner one of this sort, and the right; rarely any number.
    fn port(&mut self, sort: Sort) -> (usize, Right) {
        let mut port = 1;
        let mut right = Right { sort, node: 0 };
        for _ in 0..12 {
            if let Some(holder) = self.holders.get(self.task) {
                let index = self.draws.below(holder.rights.len());
                if let Some(found) = holder.rights.get(index) {
                    port = index + 1;
                    right = *found;
                    if right.sort == sort {
                        return (port, right);
                    }
                }
            }
        }
        if self.draws.often(20) {
            port = self.draws.one(&[1, 2, 3, 4, 5, 6, 7, 8, 9]);
        }
        (port, right)
    }

    /// Whether the task may hold a right of this sort; rarely where it doesn't.
    fn may_hold(&mut self, sort: Sort) -> bool {
        let holds = match self.holders.get(self.task) {
            Some(holder) => holder.rights.iter().any(|right| right.sort == sort),
            None => false,
        };
        holds || self.draws.often(10)
    }

    /// A port of the task's on a directory.
    fn directory(&mut self) -> (usize, Right) {
        let sort = self
            .draws
            .one(&[Sort::Directory, Sort::Directory, Sort::Listing]);
        self.port(sort)
    }

    /// A port of the task's on any node.
    fn any_port(&mut self) -> (usize, Right) {
        let sort = self.draws.one(&[
            Sort::Directory,
            Sort::Listing,
            Sort::Open,
            Sort::Open,
            Sort::Node,
            Sort::Root,
        ]);
        self.port(sort)
    }

    /// Calls on ports as such, and on ids.
    fn port_call(&mut self, alloc: Global) -> Result<String, AllocError> {
        let task = self.task;
        let (port, right) = self.any_port();
        match self.draws.below(8) {
            0 => {
                let port = self.draws.one(&[4, 5, 6, 7, 8, 9, 10, 12, 15]);
                format!(in alloc; "{task} port_deallocate {port}")
            }
            1..=2 => self.send(alloc, port, right),
            3..=4 => self.receive(alloc),
            5 => {
                let ids = self.ids();
                format!(in alloc; "{task} auth_makeauth {ids} {ids}")
            }
            6 => {
                let ids = self.ids();
                self.gain(Sort::Weak, right.node)?;
                format!(in alloc; "{task} io_restrict_auth {port} {ids} -")
            }
            _ => {
                let (other, _) = self.any_port();
                format!(in alloc; "{task} io_identity {port} {other}")
            }
        }
    }

    /// A right is sent to another task.
    fn send(&mut self, alloc: Global, port: usize, right: Right) -> Result<String, AllocError> {
        let task = self.task;
        let other = self.draws.below(TASKS);
        if let Some(holder) = self.holders.get_mut(other) {
            holder.sent.push(right)?;
        }
        format!(in alloc; "{task} port_send {port} {other}")
    }

    /// A task that was sent something takes it.
    fn receive(&mut self, alloc: Global) -> Result<String, AllocError> {
        for _ in 0..6 {
            let waits = match self.holders.get(self.task) {
                Some(holder) => !holder.sent.is_empty(),
                None => true,
            };
            if !waits {
                self.task = self.draws.below(TASKS);
            }
        }
        let task = self.task;
        if let Some(holder) = self.holders.get_mut(task) {
            if !holder.sent.is_empty() {
                let right = holder.sent.remove(0);
                holder.rights.push(right)?;
            }
        }
        format!(in alloc; "{task} port_receive")
    }

    /// Ids that the task may take.
    fn ids(&mut self) -> &'static str {
        match self.task {
            0 => self.draws.one(&["0", "1000", "1001,100", "-"]),
            1 => self.draws.one(&["1000", "100", "-"]),
            2 => self.draws.one(&["1001", "100", "-"]),
            _ => self.draws.one(&["-", "-", "7"]),
        }
    }

    /// Calls on what a port has open.
    fn io_call(&mut self, alloc: Global) -> Result<String, AllocError> {
        let task = self.task;
        let sort = self
            .draws
            .one(&[Sort::Open, Sort::Open, Sort::Root, Sort::Listing]);
        if !self.may_hold(sort) {
            return self.lookup_call(alloc);
        }
        let (port, _) = self.port(sort);
        let offset = self
            .draws
            .one(&["-1", "-1", "-1", "0", "1", "2", "100", "-2"]);
        match self.draws.below(8) {
            0..=1 => {
                let amount = self.draws.one(&["1", "3", "99", "700"]);
                format!(in alloc; "{task} io_read {port} {amount} {offset}")
            }
            2..=3 => {
                let text = self.text();
                format!(in alloc; "{task} io_write {port} ={text} {offset}")
            }
            4 => {
                let whence = self.draws.one(&["Set", "Current", "End"]);
                format!(in alloc; "{task} io_seek {port} {offset} {whence}")
            }
            5 => format!(in alloc; "{task} io_readable {port}"),
            6 => format!(in alloc; "{task} io_stat {port}"),
            _ => {
                let (listing, _) = self.port(Sort::Listing);
                format!(in alloc; "{task} dir_readdir {listing}")
            }
        }
    }

    /// Calls on an open as such.
    fn open_call(&mut self, alloc: Global) -> Result<String, AllocError> {
        let task = self.task;
        let (port, right) = self.any_port();
        match self.draws.below(4) {
            0 => format!(in alloc; "{task} io_get_openmodes {port}"),
            1 => {
                let modes = self.draws.one(&["READ", "READ,WRITE", "APPEND", "-"]);
                format!(in alloc; "{task} io_set_all_openmodes {port} {modes}")
            }
            2 => {
                self.gain(right.sort, right.node)?;
                format!(in alloc; "{task} io_duplicate {port}")
            }
            _ => {
                self.gain(right.sort, right.node)?;
                format!(in alloc; "{task} io_reauthenticate {port}")
            }
        }
    }

    /// Calls on the attributes of a node.
    fn file_call(&mut self, alloc: Global) -> Result<String, AllocError> {
        let task = self.task;
        let (port, _) = self.any_port();
        match self.draws.below(4) {
            0 => {
                let mode = self.mode();
                format!(in alloc; "{task} file_chmod {port} {mode}")
            }
            1 => {
                let owner = self.draws.one(&["0", "1000", "1001"]);
                format!(in alloc; "{task} file_chown {port} {owner} 100")
            }
            2 => {
                let (file, _) = self.port(Sort::Open);
                let size = self.draws.one(&["0", "1", "3", "700", "16777217"]);
                format!(in alloc; "{task} file_set_size {file} {size}")
            }
            _ => format!(in alloc; "{task} file_check_access {port}"),
        }
    }

    /// Calls on the translators of a node.
    fn translator_call(&mut self, alloc: Global) -> Result<String, AllocError> {
        let task = self.task;
        if !self.may_hold(Sort::Node) {
            return self.make(alloc, 3, 1, false);
        }
        let (port, right) = self.port(Sort::Node);
        match self.draws.below(7) {
            0..=1 => self.set_translator(alloc, port, right.node),
            2..=3 => self.store_translator(alloc, port, right.node),
            4 => format!(in alloc; "{task} file_get_translator {port}"),
            5 => self.control(alloc, port, right.node),
            _ => {
                let (port, right) = self.any_port();
                if task == 0 {
                    self.gain(Sort::Control, right.node)?;
                }
                format!(in alloc; "{task} file_getcontrol {port}")
            }
        }
    }

    /// A server is brought, or taken away.
    fn set_translator(
        &mut self,
        alloc: Global,
        port: usize,
        node: usize,
    ) -> Result<String, AllocError> {
        let task = self.task;
        let active = self.draws.one(&["SET", "SET", "SET,ORPHAN", "SET,EXCL"]);
        let goaway = self.draws.one(&["FORCE", "-", "NOSYNC,NOWAIT"]);
        if self.draws.often(10) {
            self.nodes.seat(node, "", false);
            return format!(in alloc; "{task} file_set_translator {port} - {active} {goaway}");
        }
        let server = self.server();
        self.nodes.seat(node, server, false);
        format!(in alloc; "{task} file_set_translator {port} - {active} {goaway} box {server}")
    }

    /// The words of a server are stored.
    fn store_translator(
        &mut self,
        alloc: Global,
        port: usize,
        node: usize,
    ) -> Result<String, AllocError> {
        let task = self.task;
        let server = self.server();
        self.nodes.seat(node, server, true);
        format!(in alloc; "{task} file_set_translator {port} SET SET - {server}")
    }

    /// The right to control a server.
    fn control(&mut self, alloc: Global, port: usize, node: usize) -> Result<String, AllocError> {
        let task = self.task;
        self.gain(Sort::Control, node)?;
        format!(in alloc; "{task} file_get_translator_cntl {port}")
    }

    /// Calls on a server, and on the start of one.
    fn server_call(&mut self, alloc: Global) -> Result<String, AllocError> {
        match self.draws.below(7) {
            0..=2 => self.start(alloc),
            _ => self.controlled_call(alloc),
        }
    }

    /// The start of a server: it is looked up first where none is to be started.
    fn start(&mut self, alloc: Global) -> Result<String, AllocError> {
        let task = self.task;
        let to_start = match self.holders.get_mut(task) {
            Some(holder) => holder.to_start.take(),
            None => None,
        };
        let Some(node) = to_start else {
            if self.draws.often(90) {
                return self.look_up_waiting(alloc);
            }
            let server = self.server();
            return format!(in alloc; "{task} fsys_startup box {server}");
        };
        if self.draws.often(20) {
            return format!(in alloc; "{task} start_failed");
        }
        let server = self.nodes.server_of(node);
        if server.is_empty() {
            return format!(in alloc; "{task} start_failed");
        }
        self.nodes.seat(node, server, false);
        format!(in alloc; "{task} fsys_startup box {server}")
    }

    /// A node where a server waits is looked up.
    fn look_up_waiting(&mut self, alloc: Global) -> Result<String, AllocError> {
        let start = self.draws.below(self.nodes.len());
        let node = self.nodes.waiting(start);
        let (port, right) = self.directory();
        let node = match node {
            Some(node) => node,
            None => self.nodes.entry(right.node, start),
        };
        self.look_up(alloc, port, node)
    }

    /// Calls by a right to control a server.
    fn controlled_call(&mut self, alloc: Global) -> Result<String, AllocError> {
        let task = self.task;
        if !self.may_hold(Sort::Control) {
            let (port, right) = self.port(Sort::Node);
            return self.set_translator(alloc, port, right.node);
        }
        let (control, right) = self.port(Sort::Control);
        match self.draws.below(5) {
            0..=1 => {
                let (dir, _) = self.directory();
                let flags = self.draws.one(&["-", "READ", "READ", "READ,WRITE"]);
                self.gain(Sort::Root, right.node)?;
                format!(in alloc; "{task} fsys_getroot {control} {dir} {flags}")
            }
            2 => {
                let goaway = self.draws.one(&["-", "FORCE", "NOSYNC,NOWAIT"]);
                format!(in alloc; "{task} fsys_goaway {control} {goaway}")
            }
            3 => format!(in alloc; "{task} fsys_get_options {control}"),
            _ => {
                let option = self.draws.one(&[
                    "--contents=one",
                    "--size=4",
                    "--size=30",
                    "--contents=a\\nb\\n",
                ]);
                format!(in alloc; "{task} fsys_set_options {control} ={option}")
            }
        }
    }

    /// A lookup of what is there, of what is to be made, or of the directory for all.
    fn lookup_call(&mut self, alloc: Global) -> Result<String, AllocError> {
        let task = self.task;
        let (port, right) = self.directory();
        match self.draws.below(10) {
            0..=2 => {
                let plain = self.draws.often(50);
                self.make(alloc, port, right.node, plain)
            }
            3 => {
                let path = self.draws.one(&["t", "t/", "t/./", ".//t/../t"]);
                self.gain(Sort::Listing, 1)?;
                format!(in alloc; "{task} dir_lookup 1 ={path} READ 0")
            }
            4 => {
                let path = self.draws.one(&["", ".", "t/..", "../.."]);
                self.gain(Sort::Listing, 0)?;
                format!(in alloc; "{task} dir_lookup 2 ={path} READ 0")
            }
            5 => {
                self.gain(Sort::Open, right.node)?;
                let mode = self.mode();
                format!(in alloc; "{task} dir_mkfile {port} READ,WRITE {mode}")
            }
            _ => {
                let start = self.draws.below(self.nodes.len());
                let node = self.nodes.entry(right.node, start);
                self.look_up(alloc, port, node)
            }
        }
    }

    /// A file is made, and opened to be read and written, or for nothing.
    fn make(
        &mut self,
        alloc: Global,
        port: usize,
        parent: usize,
        plain: bool,
    ) -> Result<String, AllocError> {
        let task = self.task;
        let name = self.name(alloc)?;
        let (port, parent) = if parent == 1 || self.nodes.is_own(parent, task) {
            (port, parent)
        } else {
            (3, 1)
        };
        let node = self.nodes.len();
        self.nodes.add(alloc, name.as_str(), parent, task, false)?;
        if plain {
            self.gain(Sort::Open, node)?;
            return format!(in alloc; "{task} dir_lookup {port} ={name} READ,WRITE,CREATE 644");
        }
        self.gain(Sort::Node, node)?;
        format!(in alloc; "{task} dir_lookup {port} ={name} NOTRANS,CREATE 644")
    }

    /// A lookup of a node: itself, or what is crossed there.
    fn look_up(&mut self, alloc: Global, port: usize, node: usize) -> Result<String, AllocError> {
        let task = self.task;
        let Some(known) = self.nodes.get(node) else {
            return format!(in alloc; "{task} dir_lookup {port} =none READ 0");
        };
        let has_server = !known.server.is_empty();
        let waits = known.waits;
        let sort = if known.is_directory {
            Sort::Listing
        } else if has_server {
            Sort::Root
        } else {
            Sort::Open
        };
        let name = String::from_str(alloc, known.name.as_str())?;
        if waits {
            if let Some(holder) = self.holders.get_mut(task) {
                holder.to_start = Some(node);
            }
            return format!(in alloc; "{task} dir_lookup {port} ={name} READ 0");
        }
        let is_own = self.nodes.is_own(node, task);
        if self.draws.often(30) {
            let sort = if is_own { Sort::Node } else { Sort::Weak };
            self.gain(sort, node)?;
            return format!(in alloc; "{task} dir_lookup {port} ={name} NOTRANS 0");
        }
        self.gain(sort, node)?;
        let flags = if sort == Sort::Open && is_own {
            "READ,WRITE"
        } else {
            "READ"
        };
        format!(in alloc; "{task} dir_lookup {port} ={name} {flags} 0")
    }

    /// Calls on entries of a directory.
    fn entry_call(&mut self, alloc: Global) -> Result<String, AllocError> {
        let task = self.task;
        let (port, right) = self.directory();
        let start = self.draws.below(self.nodes.len());
        let node = self.nodes.entry(right.node, start);
        let known = self.nodes.name_of(alloc, node)?;
        let name = self.name(alloc)?;
        match self.draws.below(6) {
            0..=1 => {
                self.nodes
                    .add(alloc, name.as_str(), right.node, task, true)?;
                let mode = self.mode();
                format!(in alloc; "{task} dir_mkdir {port} ={name} {mode}")
            }
            2 => format!(in alloc; "{task} dir_rmdir {port} ={known}"),
            3 => format!(in alloc; "{task} dir_unlink {port} ={known}"),
            4 => {
                let (file, _) = self.port(Sort::Open);
                format!(in alloc; "{task} dir_link {port} ={name} {file}")
            }
            _ => {
                let (to, _) = self.directory();
                format!(in alloc; "{task} dir_rename {port} ={known} {to} ={name}")
            }
        }
    }

    /// A name that may be new.
    fn name(&mut self, alloc: Global) -> Result<String, AllocError> {
        if self.draws.often(3) {
            let odd = self.draws.one(&[".", "..", "x/y", "\\xe9\\s\\\\", "d/"]);
            return String::from_str(alloc, odd);
        }
        let letter = self.draws.one(&["a", "b", "c", "d", "e", "f", "g", "h"]);
        let number = self.draws.below(30);
        format!(in alloc; "{letter}{number}")
    }

    fn text(&mut self) -> &'static str {
        self.draws
            .one(&["one", "two", "\\x00\\xff", "a\\nb\\n", "dear\\sbob"])
    }

    fn mode(&mut self) -> &'static str {
        self.draws.one(&["644", "755", "777", "700", "1777", "600", "37777777777"])
    }

    /// The words of a server of one of the ten kinds.
    fn server(&mut self) -> &'static str {
        self.draws.one(&[
            "=/hurd/hello",
            "=/hurd/hello =--contents=rain\\n",
            "=/hurd/null",
            "=/hurd/zero",
            "=/hurd/tmpfs",
            "=/hurd/tmpfs =--size=9",
            "=/hurd/symlink =/t",
            "=/hurd/symlink =t",
            "=/hurd/firmlink =/t",
            "=/hurd/firmlink =/",
            "=/hurd/union =/t =/",
            "=/hurd/union =/t",
            "=/hurd/drip =3",
            "=/hurd/fifo",
            "=/hurd/magic =fd",
        ])
    }
}
