//! A row of the table that is printed.
use crate::bench::fault::Fault;
use crate::bench::work::Work;
use std::rt::Clock;
use std::time::{Duration, Instant};

/// A kind of work, when it began, and how many times it was done.
#[derive(Clone, Copy)]
pub struct Row {
    work: Work,
    start: Instant,
    times: u64,
}

impl Row {
    /// The work begins.
    pub fn begin(rt: &impl Clock, work: Work) -> Result<Row, Fault> {
        Ok(Row {
            work,
            start: Instant::now(rt)?,
            times: 0,
        })
    }

    /// The work was done so many times more.
    pub fn add(&mut self, times: u64) {
        self.times = self.times.saturating_add(times);
    }

    /// How many times the work was done so far.
    pub fn times(&self) -> u64 {
        self.times
    }

    /// How long the work has taken so far.
    pub fn took(&self, rt: &impl Clock) -> Result<Duration, Fault> {
        Ok(self.start.elapsed(rt)?)
    }

    /// The work has ended: prints the row, with its time or without.
    pub fn print(self, rt: &(impl Clock + Print), timed: bool) -> Result<(), Fault> {
        let took = self.took(rt)?;
        let name = self.work.name();
        let times = self.times;
        if timed {
            let each = took.as_nanos().checked_div(u128::from(times)).unwrap_or(0);
            println!(rt; "{name}: {times} done, {each} ns each")?;
        } else {
            println!(rt; "{name}: {times} done")?;
        }
        Ok(())
    }
}
