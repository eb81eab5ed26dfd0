//! A record on its way, line by line.
ghost use Rattle.std.specs.Prelude.{◌≡◌, IfErr, IfOk, codes};
ghost use Rattle.std.specs.Option.{is_some};
ghost use Rattle.hurd_dialogue.specs.Complaints.{complaint_on};
ghost use Rattle.hurd_kinds.specs.Boxes.{box_meaning};
ghost use Rattle.hurd_lists.specs.Flaws.{Gives, flaw_text};
ghost use Rattle.hurd_lists.specs.Lists.{Standing, said_onto};
ghost use Rattle.hurd_record.specs.Faults.{IsBeginFault, IsTellFault};
ghost use Rattle.hurd_record.specs.Lines.{Says, said_with};

use crate::begun::Begun;
use crate::report::Report;
use hurd_creds::{Ids, MOST_SCRIPT};
use hurd_dialogue::complaint_on;
use hurd_kinds::ServerBox;
use hurd_lists::{LineFault, LineSaid, ListFlaw, read_line};
use hurd_terminal::{Fault, Output};
use memchr::memchr;
use std::alloc::{AllocError, Global};
use std::io::Write;
use std::mem;

/// A line that ends a record.
#[derive(Drop)]
pub(crate) struct BadLine {
    /// Its number, counted from 1.
    pub line: u64,
    /// What is said of it after the name of the file.
    pub complaint: Vec<u8>,
}

/// What lines came to.
#[derive(Drop)]
pub(crate) enum Lines<'a> {
    /// All were good, and this is left, in which no line ends.
    Left(&'a [u8]),
    Bad(BadLine),
}

/// A record on its way: the tasks that were said, until the first call begins their world.
#[derive(Drop)]
pub(crate) struct Judging {
    tasks: Vec<Ids>,
    /// How many tasks were said.
    count: usize,
    begun: Option<Begun>,
    /// The number of the next line.
    line: u64,
}

impl Judging {
    /// Before the first line.
    pub(crate) fn new(alloc: Global) -> Judging {
        Judging {
            tasks: Vec::new(alloc),
            count: 0,
            begun: None,
            line: 1,
        }
    }

    /// What a line says, or why it is bad.
    fn said(&self, alloc: Global, line: &[u8]) -> Result<LineSaid<ServerBox>, LineFault>
        ensures { (s : Standing) → Says s self.now.count (is_some self.now.begun) → Gives (said_onto box_meaning s) (said_with s line.now) result }
    {
        if line.len() > MOST_SCRIPT {
            return Err(LineFault::Bad(ListFlaw::Length));
        }
        read_line(alloc, self.count, self.begun.is_some(), line)
    }

    /// The record with its world, which begins here if no call came yet.
    ///
    /// Errors, in order: `Boot` with the world's refusal; `Unknown` if somebody is named who isn't in it; `Memory` at any point.
    fn take_begun(&mut self, alloc: Global, report: &Report) -> Result<Begun, Fault>
        ensures { IfErr result IsBeginFault }
    {
        match self.begun.take() {
            Some(begun) => Ok(begun),
            None => {
                let tasks = mem::replace(&mut self.tasks, Vec::new(alloc));
                Begun::over(alloc, report, tasks)
            }
        }
    }

    /// There is a task with these ids. Fails only if memory runs out.
    fn add(&mut self, ids: Ids) -> Result<(), AllocError> {
        self.tasks.push(ids)?;
        self.count = self.tasks.len();
        Ok(())
    }

    /// Does what a line says, and prints what the report has of it.
    fn heed<W: Write>(
        &mut self,
        alloc: Global,
        report: &Report,
        said: LineSaid<ServerBox>,
        output: &mut Output<W>,
    ) -> Result<(), Fault>
        ensures { IfErr result (λ fault. IsTellFault output.new fault) }
    {
        match said {
            LineSaid::Nothing => {}
            LineSaid::Task(ids) => self.add(ids)?,
            LineSaid::Call(listed) => {
                let begun = self.take_begun(alloc, report)?;
                self.begun = Some(begun.tell(alloc, report, listed, output)?);
            }
        }
        Ok(())
    }

    /// A bad line, with what is said of it. Fails only if memory runs out.
    fn bad(&self, alloc: Global, line: &[u8], flaw: ListFlaw) -> Result<BadLine, AllocError>
        ensures line { IfOk result (λ bad. bad.line ≡ self.now.line) }
        ensures complaint { IfOk result (λ bad. bad.complaint.items ≡ complaint_on (codes ": bad call list: ") line.now self.now.line (flaw_text flaw)) }
    {
        let complaint = complaint_on(alloc, ": bad call list: ", line, self.line, flaw.text())?;
        Ok(BadLine {
            line: self.line,
            complaint,
        })
    }

    /// Judges a line, without its newline: does what it says, or gives it back if it is bad.
    pub(crate) fn take_line<W: Write>(
        &mut self,
        alloc: Global,
        report: &Report,
        line: &[u8],
        output: &mut Output<W>,
    ) -> Result<Option<BadLine>, Fault>
        ensures { IfErr result (λ fault. IsTellFault output.new fault) }
    {
        match self.said(alloc, line) {
            Ok(said) => {
                self.heed(alloc, report, said, output)?;
                self.line = self.line.saturating_add(1);
                Ok(None)
            }
            Err(LineFault::Bad(flaw)) => Ok(Some(self.bad(alloc, line, flaw)?)),
            Err(LineFault::Memory) => Err(Fault::Memory),
        }
    }

    /// Judges the lines that end in a text, one after another.
    pub(crate) fn take_lines<'a, W: Write>(
        &mut self,
        alloc: Global,
        report: &Report,
        text: &'a [u8],
        output: &mut Output<W>,
    ) -> Result<Lines<'a>, Fault>
        ensures { IfErr result (λ fault. IsTellFault output.new fault) }
    {
        let mut left = text;
        for _ in 0..text.len() {
            let Some(end) = memchr(b'\n', left) else {
                break;
            };
            let (line, after) = left.split_at(end);
            if let Some(bad) = self.take_line(alloc, report, line, output)? {
                return Ok(Lines::Bad(bad));
            }
            left = &after[1..];
        }
        Ok(Lines::Left(left))
    }

    /// Ends the record: prints what the report has then.
    pub(crate) fn end<W: Write>(
        &mut self,
        alloc: Global,
        report: &Report,
        output: &mut Output<W>,
    ) -> Result<(), Fault>
        ensures { IfErr result (λ fault. IsTellFault output.new fault) }
    {
        let begun = self.take_begun(alloc, report)?;
        begun.end(alloc, report, output)
    }
}
