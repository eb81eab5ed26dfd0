//! What somebody does in a sample.
//!
//! A scene keeps an account of the paths that may be there. That is a guess, so that most commands find what they name.
ghost use Rattle.std.specs.Prelude.{◌<◌, length};

use crate::command::{Drawn, User};
use crate::draws::Draws;
use hurd_script::Verb;
use std::alloc::{AllocError, Global};

/// As many paths are kept in mind.
const MOST_PATHS: usize = 64;

/// The tree as far as it is known, and who gives the next command.
#[derive(Drop)]
pub struct Scene {
    draws: Draws,
    paths: Vec<String>,
    user: User,
}

impl Scene {
    pub fn new(alloc: Global, seed: u64) -> Scene {
        Scene {
            draws: Draws::new(seed),
            paths: Vec::new(alloc),
            user: User::Root,
        }
    }

    /// The command of this number, from 0 on: a directory for all, homes and carol's box first.
    pub fn command(&mut self, alloc: Global, number: u64) -> Result<Drawn, AllocError> {
        match number {
            0 => Drawn::new(alloc, User::Root, Verb::Mkdir, &["/tmp"]),
            1 => {
                let mode = self.draws.one(&["1777", "1777", "777"]);
                Drawn::new(alloc, User::Root, Verb::Chmod, &[mode, "/tmp"])
            }
            2 => Drawn::new(alloc, User::Root, Verb::Mkdir, &["/home"]),
            3..=7 => self.home_begun(alloc, number),
            8..=9 => self.box_begun(alloc, number),
            _ => self.deed(alloc),
        }
    }

    /// Alice's home, and bob's, which is closed more often than not.
    fn home_begun(&mut self, alloc: Global, number: u64) -> Result<Drawn, AllocError> {
        let alice = "/home/alice";
        let bob = "/home/bob";
        match number {
            3 => Drawn::new(alloc, User::Root, Verb::Mkdir, &[alice]),
            4 => Drawn::new(alloc, User::Root, Verb::Chown, &["1000", "1000", alice]),
            5 => Drawn::new(alloc, User::Root, Verb::Mkdir, &[bob]),
            6 => Drawn::new(alloc, User::Root, Verb::Chown, &["1001", "1001", bob]),
            _ => {
                let mode = self
                    .draws
                    .one(&["700", "700", "700", "711", "733", "755", "777", "600"]);
                Drawn::new(alloc, User::Bob, Verb::Chmod, &[mode, bob])
            }
        }
    }

    /// The box in which carol is at home.
    fn box_begun(&mut self, alloc: Global, number: u64) -> Result<Drawn, AllocError> {
        if number == 8 {
            return Drawn::new(alloc, User::Root, Verb::Mkdir, &["/box"]);
        }
        let group = self.draws.one(&["0", "100", "1002"]);
        Drawn::new(alloc, User::Root, Verb::Chown, &["1002", group, "/box"])
    }

    /// What somebody does.
    fn deed(&mut self, alloc: Global) -> Result<Drawn, AllocError> {
        self.user = match self.draws.below(19) {
            0..=6 => User::Alice,
            7..=12 => User::Bob,
            13..=16 => User::Carol,
            _ => User::Root,
        };
        let verb = self.verb();
        match verb {
            Verb::Put => self.put(alloc),
            Verb::Ls => self.list(alloc),
            Verb::Mkdir => self.make_directory(alloc),
            Verb::Mv | Verb::Ln => self.rename(alloc, verb),
            Verb::Chmod | Verb::Chown => self.change(alloc, verb),
            Verb::Settrans => self.translate(alloc),
            Verb::Fsysopts => self.options(alloc),
            _ => self.plain(alloc, verb),
        }
    }

    /// What the command is called: alice looks about more than others.
    fn verb(&mut self) -> Verb {
        if self.user == User::Alice {
            match self.draws.below(22) {
                0..=4 => Verb::Cat,
                5..=12 => Verb::Ls,
                13..=14 => Verb::Put,
                other => self.rare_verb(other),
            }
        } else {
            match self.draws.below(28) {
                0..=5 => Verb::Put,
                6 => Verb::Cat,
                7..=8 => Verb::Ls,
                9..=10 => Verb::Mkdir,
                11..=12 => Verb::Rm,
                13 => Verb::Chmod,
                14..=18 => Verb::Settrans,
                other => self.rare_verb(other),
            }
        }
    }

    /// One of the verbs that come more rarely.
    fn rare_verb(&mut self, number: usize) -> Verb {
        let verbs = [
            Verb::Mkdir,
            Verb::Rmdir,
            Verb::Rm,
            Verb::Mv,
            Verb::Ln,
            Verb::Chmod,
            Verb::Chown,
            Verb::Settrans,
            Verb::Showtrans,
            Verb::Fsysopts,
        ];
        verbs[number % 10]
    }

    /// `put NODE TEXT`: a new file, or one that may be there.
    fn put(&mut self, alloc: Global) -> Result<Drawn, AllocError> {
        let path = if self.draws.often(50) {
            self.fresh(alloc, &["a", "b", "c"])?
        } else {
            self.old(alloc)?
        };
        self.keep(alloc, path.as_str())?;
        let text = self.text();
        Drawn::new(alloc, self.user, Verb::Put, &[path.as_str(), text])
    }

    /// `ls NODE` and `ls -d NODE`.
    fn list(&mut self, alloc: Global) -> Result<Drawn, AllocError> {
        if self.draws.often(40) {
            let path = self.old(alloc)?;
            return Drawn::new(alloc, self.user, Verb::Ls, &["-d", path.as_str()]);
        }
        let path = if self.draws.often(60) {
            self.directory(alloc)?
        } else {
            self.old(alloc)?
        };
        Drawn::new(alloc, self.user, Verb::Ls, &[path.as_str()])
    }

    /// `mkdir NODE`.
    fn make_directory(&mut self, alloc: Global) -> Result<Drawn, AllocError> {
        let path = self.fresh(alloc, &["d", "e", "f"])?;
        self.keep(alloc, path.as_str())?;
        Drawn::new(alloc, self.user, Verb::Mkdir, &[path.as_str()])
    }

    /// `mv OLD NEW` and `ln FILE NEW`.
    fn rename(&mut self, alloc: Global, verb: Verb) -> Result<Drawn, AllocError> {
        let path = self.old(alloc)?;
        let new = if self.draws.often(70) {
            self.fresh(alloc, &["a", "b", "c", "d"])?
        } else {
            self.old(alloc)?
        };
        if verb == Verb::Mv {
            self.forget(path.as_str());
        }
        self.keep(alloc, new.as_str())?;
        Drawn::new(alloc, self.user, verb, &[path.as_str(), new.as_str()])
    }

    /// `chmod MODE NODE` and `chown OWNER GROUP NODE`.
    fn change(&mut self, alloc: Global, verb: Verb) -> Result<Drawn, AllocError> {
        let path = if self.draws.often(30) {
            self.directory(alloc)?
        } else {
            self.old(alloc)?
        };
        if verb == Verb::Chmod {
            let mode = self
                .draws
                .one(&["700", "711", "733", "755", "777", "600", "644", "1777"]);
            return Drawn::new(alloc, self.user, verb, &[mode])?.with(path);
        }
        let owner = self.draws.one(&["1000", "1001", "1002"]);
        let group = self.draws.one(&["100", "100", "1000", "1001"]);
        Drawn::new(alloc, self.user, verb, &[owner, group])?.with(path)
    }

    /// `settrans FLAGS NODE [WORD..]`: a server, active or waiting, or none any more.
    fn translate(&mut self, alloc: Global) -> Result<Drawn, AllocError> {
        let flags = self.draws.one(&[
            "-c", "-c", "-c", "-c", "-ac", "-ac", "-ac", "-a", "-k", "-x", "-g", "-ag", "-o", "-f",
        ]);
        let path = if (flags == "-c" || flags == "-ac") && self.draws.often(60) {
            self.fresh(alloc, &["a", "b", "c"])?
        } else {
            self.old(alloc)?
        };
        self.keep(alloc, path.as_str())?;
        let mut drawn = Drawn::new(alloc, self.user, Verb::Settrans, &[flags])?.with(path)?;
        if !(flags == "-g" || flags == "-ag" || flags == "-o" || flags == "-f") {
            self.push_server(alloc, &mut drawn.words)?;
        }
        Ok(drawn)
    }

    /// The words of a server of one of the ten kinds.
    fn push_server(&mut self, alloc: Global, words: &mut Vec<String>) -> Result<(), AllocError> {
        let kind = self.draws.one(&[
            "hello", "hello", "null", "zero", "tmpfs", "tmpfs", "symlink", "symlink", "firmlink",
            "union", "drip", "fifo", "magic",
        ]);
        words.push(format!(in alloc; "/hurd/{kind}")?)?;
        match kind {
            "hello" => self.push_contents(alloc, words),
            "tmpfs" => self.push_size(alloc, words),
            "symlink" => self.push_old(alloc, words),
            "firmlink" => self.push_target(alloc, words),
            "union" => {
                self.push_directory(alloc, words)?;
                self.push_directory(alloc, words)
            }
            "drip" => {
                let most = self.draws.one(&["0", "1", "3", "20"]);
                push(alloc, words, most)
            }
            "magic" => push(alloc, words, "fd"),
            _ => Ok(()),
        }
    }

    /// What a fixed text says, more often than not.
    fn push_contents(&mut self, alloc: Global, words: &mut Vec<String>) -> Result<(), AllocError> {
        if self.draws.often(60) {
            let text = self.text();
            words.push(format!(in alloc; "--contents={text}")?)?;
        }
        Ok(())
    }

    /// A limit for a tree, more often than not: some texts fit.
    fn push_size(&mut self, alloc: Global, words: &mut Vec<String>) -> Result<(), AllocError> {
        if self.draws.often(60) {
            let size = self.size();
            words.push(format!(in alloc; "--size={size}")?)?;
        }
        Ok(())
    }

    fn push_old(&mut self, alloc: Global, words: &mut Vec<String>) -> Result<(), AllocError> {
        words.push(self.old(alloc)?)?;
        Ok(())
    }

    fn push_directory(&mut self, alloc: Global, words: &mut Vec<String>) -> Result<(), AllocError> {
        words.push(self.directory(alloc)?)?;
        Ok(())
    }

    fn push_target(&mut self, alloc: Global, words: &mut Vec<String>) -> Result<(), AllocError> {
        if self.draws.often(50) {
            self.push_old(alloc, words)
        } else {
            self.push_directory(alloc, words)
        }
    }

    /// `fsysopts NODE [WORD]`.
    fn options(&mut self, alloc: Global) -> Result<Drawn, AllocError> {
        let path = self.old(alloc)?;
        let mut drawn = Drawn::new(alloc, self.user, Verb::Fsysopts, &[path.as_str()])?;
        if self.draws.often(40) {
            self.push_contents(alloc, &mut drawn.words)?;
        } else {
            self.push_size(alloc, &mut drawn.words)?;
        }
        Ok(drawn)
    }

    /// A command that takes a node alone.
    fn plain(&mut self, alloc: Global, verb: Verb) -> Result<Drawn, AllocError> {
        let path = self.old(alloc)?;
        if verb == Verb::Rm || verb == Verb::Rmdir {
            self.forget(path.as_str());
        }
        Drawn::new(alloc, self.user, verb, &[path.as_str()])
    }

    fn text(&mut self) -> &'static str {
        self.draws
            .one(&["one", "two", "three", "dear bob", "a\nb\n", "line\n"])
    }

    fn size(&mut self) -> &'static str {
        self.draws
            .one(&["0", "1", "3", "4", "6", "9", "12", "20", "50"])
    }

    /// Where the user is at home: carol lives in the box.
    fn home(&self) -> &'static str {
        match self.user {
            User::Root => "/home",
            User::Alice => "/home/alice",
            User::Bob => "/home/bob",
            User::Carol => "/box",
        }
    }

    /// One of the directories in which all is: bob and carol are at home more often.
    fn place(&mut self) -> &'static str {
        let stays = self.user == User::Bob || self.user == User::Carol;
        if stays && self.draws.often(65) {
            self.home()
        } else {
            self.draws
                .one(&["/tmp", "/home/alice", "/home/bob", "/box"])
        }
    }

    /// Such a directory, or one that some command may have made.
    fn directory(&mut self, alloc: Global) -> Result<String, AllocError> {
        if self.draws.often(40) {
            let path = self.old(alloc)?;
            if is_directory(path.as_str()) {
                return Ok(path);
            }
        }
        String::from_str(alloc, self.place())
    }

    /// A path that may be new, with one of these names.
    fn fresh(&mut self, alloc: Global, names: &[&'static str]) -> Result<String, AllocError>
        requires { 0 < length names.now }
    {
        let path = self.directory(alloc)?;
        let name = self.draws.one(names);
        format!(in alloc; "{path}/{name}")
    }

    /// A path that some command may have made, or one at a port of the task's own below it, as a magical link has them.
    fn old(&mut self, alloc: Global) -> Result<String, AllocError> {
        let path = self.made_before(alloc)?;
        if self.draws.often(4) {
            let port = self.draws.one(&["1", "2", "3"]);
            return format!(in alloc; "{path}/{port}");
        }
        Ok(path)
    }

    /// A path that some command may have made: for bob and carol sooner one at home.
    fn made_before(&mut self, alloc: Global) -> Result<String, AllocError> {
        let mut index = self.draws.below(self.paths.len());
        for _ in 0..3 {
            if !self.is_near(index) {
                index = self.draws.below(self.paths.len());
            }
        }
        if !self.draws.often(6) {
            if let Some(path) = self.paths.get(index) {
                return String::from_str(alloc, path.as_str());
            }
        }
        let place = self.place();
        let name = self.draws.one(&["a", "b", "c", "d", "e", "f"]);
        format!(in alloc; "{place}/{name}")
    }

    /// Whether a path is one that the user would rather name.
    fn is_near(&self, index: usize) -> bool {
        match self.paths.get(index) {
            Some(path) => self.user == User::Alice || self.is_at_home(path.as_str()),
            None => true,
        }
    }

    /// Whether a path lies below the user's home; root is at home everywhere.
    fn is_at_home(&self, path: &str) -> bool {
        self.user == User::Root || path.starts_with(self.home())
    }

    /// A path may be there from now on, where somebody may write in its directory as far as is known here.
    fn keep(&mut self, alloc: Global, path: &str) -> Result<(), AllocError> {
        let is_open = path.starts_with("/tmp/") || path.starts_with("/box/");
        if !is_open && !self.is_at_home(path) {
            return Ok(());
        }
        if self.paths.len() >= MOST_PATHS {
            let index = self.draws.below(MOST_PATHS);
            if index < self.paths.len() {
                let _ = self.paths.swap_remove(index);
            }
        }
        self.paths.push(String::from_str(alloc, path)?)?;
        Ok(())
    }

    /// One that was taken away is taken out, once.
    fn forget(&mut self, path: &str) {
        let place = self.paths.iter().position(|known| known.as_str() == path);
        if let Some(index) = place {
            if index < self.paths.len() {
                let _ = self.paths.swap_remove(index);
            }
        }
    }
}

/// Whether a path has a directory's name.
fn is_directory(path: &str) -> bool {
    path.ends_with("d") || path.ends_with("e") || path.ends_with("f")
}

/// One word more.
fn push(alloc: Global, words: &mut Vec<String>, word: &str) -> Result<(), AllocError> {
    words.push(String::from_str(alloc, word)?)?;
    Ok(())
}
