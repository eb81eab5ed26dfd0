//! The boxes of a run, numbered as they come, and what became of each.
ghost use Rattle.std.specs.Prelude.{◌≡◌, IfOk};

use crate::counts::counted::{Counted, Counts};
use hurd_terminal::{Fault, Output};
use hurd_trans_iface::Server;
use std::alloc::Global;
use std::io::Write;

/// What became of a box, and what of that was said.
#[derive(Drop)]
struct Followed {
    counts: Counts,
    sent_away: u32,
    dropped: u32,
}

/// The boxes of a run; the first is the boot server's.
#[derive(Drop)]
pub struct Boxes {
    boxes: Vec<Followed>,
}

impl Boxes {
    /// None yet.
    pub fn new(alloc: Global) -> Boxes {
        Boxes {
            boxes: Vec::new(alloc),
        }
    }

    /// A server, followed from now on. `Memory`.
    pub fn follow<S: Server>(&mut self, alloc: Global, server: S) -> Result<Counted<S>, Fault>
        ensures { IfOk result (λ counted. counted.server ≡ server) }
    {
        self.boxes.reserve(1)?;
        let Ok(counts) = Counts::new(alloc) else {
            return Err(Fault::Memory);
        };
        let Ok(counted) = counts.counting(server) else {
            return Err(Fault::Memory);
        };
        self.boxes.push_reserved(Followed {
            counts,
            sent_away: 0,
            dropped: 0,
        });
        Ok(counted)
    }

    /// Prints a line for each box of which something became since this was said last.
    ///
    /// `Write`, `Memory`.
    pub fn tell<W: Write>(&mut self, alloc: Global, output: &mut Output<W>) -> Result<(), Fault> {
        for number in 0..self.boxes.len() {
            if let Some(followed) = self.boxes.get_mut(number) {
                followed.tell(alloc, number, output)?;
            }
        }
        Ok(())
    }

    /// Prints one line of all boxes: how many there are, how often they were told in all, and how many were dropped.
    ///
    /// `Write`, `Memory`.
    pub fn tell_all<W: Write>(&self, alloc: Global, output: &mut Output<W>) -> Result<(), Fault> {
        let mut sent_away = 0u64;
        let mut dropped = 0u64;
        for followed in &self.boxes {
            sent_away = sent_away.saturating_add(u64::from(followed.counts.sent_away()));
            dropped = dropped.saturating_add(u64::from(followed.counts.dropped()));
        }
        let boxes = self.boxes.len();
        let line = format!(in alloc; "boxes {boxes}: sent away {sent_away}, dropped {dropped}\n")?;
        output.print(line.as_bytes())
    }
}

impl Followed {
    /// Prints a line where something became of the box since this was said last.
    ///
    /// `Write`, `Memory`.
    fn tell<W: Write>(
        &mut self,
        alloc: Global,
        number: usize,
        output: &mut Output<W>,
    ) -> Result<(), Fault> {
        let sent_away = self.counts.sent_away();
        let dropped = self.counts.dropped();
        if sent_away == self.sent_away && dropped == self.dropped {
            return Ok(());
        }
        self.sent_away = sent_away;
        self.dropped = dropped;
        let line = format!(in alloc; "  box {number}: sent away {sent_away}, dropped {dropped}\n")?;
        output.print(line.as_bytes())
    }
}
