//! Opening what a path leads to, a call at a time.
ghost use Rattle.std.specs.Prelude.{◌≡◌, ◌≤◌, ◌+◌, ◌*◌, ◌-◌, ℕ, IfOk, length};
ghost use Rattle.hurd_creds.specs.declared.errno.Errno.{Errno};
ghost use Rattle.hurd_machine.specs.Calls.{reply_by};
ghost use Rattle.hurd_client.specs.Looking.{Opener, arrived, begun, followed, look, most_retries, open_node, retried, too_many};
ghost use Rattle.hurd_client.specs.Openings.{IsNext, call_of, opening_after, opening_of, releasing, step_on, steps_from, steps_of, steps_of_turn, turn_on};
ghost use Rattle.hurd_client.specs.Programs.{after_reply, closing, gives, on_ok};

use crate::answers::{LookupAnswer, NextLookup, looked_of, port_of};
use crate::names::{magical_place, start_at};
use hurd_creds::{Bytes, Errno, Mode, OpenFlags};
use hurd_machine::{PlainCall, Reply};
use hurd_trans_iface::{Server, Words};
use std::alloc::{AllocError, Global};

/// How many retries and starts one opening follows.
const MOST_RETRIES: u32 = 32;

/// How a node is opened.
#[derive(Clone, Copy, Debug)]
pub struct OpenHow {
    pub flags: OpenFlags,
    /// The mode of a file that is made.
    pub mode: Mode,
}

/// A name that is opened at a port.
#[derive(Debug, Drop)]
pub(crate) struct Target {
    port: u64,
    name: Bytes,
}

/// What an opening does next.
#[derive(Debug, Drop)]
pub(crate) enum Step {
    /// Looks this up.
    LooksUp(Target),
    /// Reauthenticates this port, and opens the name at the port that it gets.
    Reauthenticates(Target),
    /// Gives up the ports of the way, and ends so.
    Ends(Result<u64, Errno>),
}

/// What an opening keeps from step to step.
#[derive(Debug, Drop)]
pub(crate) struct Way {
    how: OpenHow,
    /// How many retries and starts are still followed.
    left: u32,
    /// The ports of the way. They are given up at the end, the last first.
    held: Vec<u64>,
}

/// An opening on its way.
#[derive(Debug, Drop)]
pub struct Opening {
    way: Way,
    step: Step,
}

/// A call that an opening makes.
#[derive(Debug, Drop)]
pub enum NextCall {
    DirLookup { dir: u64, path: Bytes, how: OpenHow },
    IoReauthenticate { port: u64 },
    PortDeallocate { port: u64 },
}

impl NextCall {
    /// The call, as a task makes it.
    pub fn into_call(self) -> PlainCall
        ensures { result ≡ call_of self }
    {
        match self {
            NextCall::DirLookup { dir, path, how } => PlainCall::DirLookup {
                dir,
                path,
                flags: how.flags,
                mode: how.mode,
            },
            NextCall::IoReauthenticate { port } => PlainCall::IoReauthenticate { port },
            NextCall::PortDeallocate { port } => PlainCall::PortDeallocate { port },
        }
    }
}

/// What an opening does next.
#[derive(Debug, Drop)]
pub enum Next {
    /// It makes this call.
    Call(NextCall),
    /// Nothing more: it has opened the node by this port, or was refused.
    Ends(Result<u64, Errno>),
}

/// What a reply leads to.
#[derive(Debug, Drop)]
pub enum Turn {
    /// The opening goes on.
    Onward(Opening),
    /// A translator of these words is to be started first; `started` then says how that ended.
    Starts { words: Words, opening: Opening },
}

/// Holds the port of a retry that is followed, and gives the step that follows it.
fn follow(alloc: Global, retry: NextLookup, held: &mut Vec<u64>) -> Result<Step, AllocError>
    ensures step { IfOk result (λ step. (opener : Opener) → releasing held.new.items (step_on opener step) ≡ releasing held.old.items (followed opener retry)) }
    ensures steps { IfOk result (λ step. (left : ℕ) → steps_from left step + length held.new.items ≤ 4 * left + 5 + length held.old.items) }
{
    match retry {
        NextLookup::Normal { name, port } => {
            held.push(port)?;
            Ok(Step::LooksUp(Target { port, name }))
        }
        NextLookup::Reauth { name, port } => {
            held.push(port)?;
            Ok(Step::Reauthenticates(Target { port, name }))
        }
        NextLookup::Magical { name } => magical(alloc, name),
    }
}

/// Follows a magical retry: its name is opened at the root, or at a port of the task's own.
fn magical(alloc: Global, name: Bytes) -> Result<Step, AllocError>
    ensures step { IfOk result (λ step. (opener : Opener) → step_on opener step ≡ followed opener (NextLookup.Magical name)) }
    ensures steps { IfOk result (λ step. (left : ℕ) → steps_from left step ≤ 4 * left + 2) }
{
    let Some((port, rest)) = magical_place(name.as_slice()) else {
        return Ok(Step::Ends(Err(Errno::ENOENT)));
    };
    Ok(Step::LooksUp(Target {
        port,
        name: Bytes::copied(alloc, rest)?,
    }))
}

/// Holds the port of a retry that isn't followed, and gives the step that ends the opening.
fn refuse(retry: NextLookup, held: &mut Vec<u64>) -> Result<Step, AllocError>
    ensures step { IfOk result (λ step. (opener : Opener) → releasing held.new.items (step_on opener step) ≡ releasing held.old.items (too_many retry)) }
    ensures steps { IfOk result (λ step. (left : ℕ) → steps_from left step + length held.new.items ≤ 1 + length held.old.items) }
{
    match retry {
        NextLookup::Normal { name: _, port } => held.push(port)?,
        NextLookup::Reauth { name: _, port } => held.push(port)?,
        NextLookup::Magical { name: _ } => {}
    }
    Ok(Step::Ends(Err(Errno::ELOOP)))
}

impl Way {
    /// This step comes next.
    fn onward(self, step: Step) -> Turn
        ensures { result ≡ Turn.Onward (record { way = self; step = step }) }
    {
        Turn::Onward(Opening { way: self, step })
    }

    /// A retry is followed, unless too many were.
    fn retried(self, alloc: Global, retry: NextLookup) -> Result<Turn, AllocError>
        ensures turn { IfOk result (λ turn. turn_on turn ≡ releasing self.held.items (retried self.left self.how retry)) }
        ensures fewer { IfOk result (λ turn. steps_of_turn turn ≤ 4 * self.left + 1 + length self.held.items) }
    {
        let Way {
            how,
            left,
            mut held,
        } = self;
        if left == 0 {
            let step = refuse(retry, &mut held)?;
            return Ok(Way { how, left, held }.onward(step));
        }
        let step = follow(alloc, retry, &mut held)?;
        let left = left - 1;
        Ok(Way { how, left, held }.onward(step))
    }

    /// A translator is to be started, unless too many were; then the target is looked up again.
    fn starts(self, target: Target, words: Words) -> Turn
        ensures turn { turn_on result ≡ releasing self.held.items (begun self.left self.how target.port target.name words) }
        ensures fewer { steps_of_turn result ≤ 4 * self.left + 1 + length self.held.items }
    {
        if self.left == 0 {
            return self.onward(Step::Ends(Err(Errno::ELOOP)));
        }
        let way = Way {
            left: self.left - 1,
            ..self
        };
        let step = Step::LooksUp(target);
        Turn::Starts {
            words,
            opening: Opening { way, step },
        }
    }

    /// A lookup of this target was answered.
    fn looked(self, alloc: Global, target: Target, answer: LookupAnswer) -> Result<Turn, AllocError>
        ensures turn { IfOk result (λ turn. turn_on turn ≡ releasing self.held.items (arrived (retried self.left self.how) (begun self.left self.how target.port target.name) answer)) }
        ensures fewer { IfOk result (λ turn. steps_of_turn turn ≤ 4 * self.left + 1 + length self.held.items) }
    {
        match answer {
            LookupAnswer::Opened(port) => Ok(self.onward(Step::Ends(Ok(port)))),
            LookupAnswer::Retried(retry) => self.retried(alloc, retry),
            LookupAnswer::Started(words) => Ok(self.starts(target, words)),
        }
    }

    /// A port was reauthenticated, and gave another; or it was refused. The name is opened at that.
    fn reauthenticated(self, name: Bytes, own: Result<u64, Errno>) -> Result<Turn, AllocError>
        ensures turn { IfOk result (λ turn. turn_on turn ≡ releasing self.held.items (on_ok (λ port. closing port (look self.left self.how port name)) own)) }
        ensures fewer { IfOk result (λ turn. steps_of_turn turn ≤ 4 * self.left + 3 + length self.held.items) }
    {
        let mut way = self;
        match own {
            Ok(port) => {
                way.held.push(port)?;
                Ok(way.onward(Step::LooksUp(Target { port, name })))
            }
            Err(errno) => Ok(way.onward(Step::Ends(Err(errno)))),
        }
    }
}

impl Opening {
    /// Opens a path from a directory: by the port of that, or from the root if the path begins with a slash.
    pub fn at(alloc: Global, directory: u64, path: Bytes, how: OpenHow) -> Opening
        ensures { opening_of result ≡ open_node directory path how }
    {
        let port = start_at(directory, path.as_slice());
        let way = Way {
            how,
            left: MOST_RETRIES,
            held: Vec::new(alloc),
        };
        let step = Step::LooksUp(Target { port, name: path });
        Opening { way, step }
    }

    /// What it does next. Fails only if memory runs out.
    pub fn next(&self, alloc: Global) -> Result<Next, AllocError>
        ensures { IfOk result (λ next. IsNext self.now next) }
    {
        let Way { how, held, .. } = &self.way;
        match &self.step {
            Step::LooksUp(target) => Ok(Next::Call(NextCall::DirLookup {
                dir: target.port,
                path: Bytes::copied(alloc, target.name.as_slice())?,
                how: *how,
            })),
            Step::Reauthenticates(target) => Ok(Next::Call(NextCall::IoReauthenticate {
                port: target.port,
            })),
            Step::Ends(end) => Ok(match held.last() {
                Some(port) => Next::Call(NextCall::PortDeallocate { port: *port }),
                None => Next::Ends(*end),
            }),
        }
    }

    /// Goes on after the reply to its call. Fails only if memory runs out.
    pub fn replied<S: Server>(self, alloc: Global, reply: Reply<S>) -> Result<Turn, AllocError>
        ensures turn { IfOk result (λ turn. turn_on turn ≡ after_reply (opening_of self) (reply_by S.meaning reply)) }
        ensures fewer { IfOk result (λ turn. steps_of_turn turn ≤ steps_of self - 1) }
    {
        let Opening { mut way, step } = self;
        match step {
            Step::LooksUp(target) => match looked_of(reply) {
                Ok(answer) => way.looked(alloc, target, answer),
                Err(errno) => Ok(way.onward(Step::Ends(Err(errno)))),
            },
            Step::Reauthenticates(target) => way.reauthenticated(target.name, port_of(reply)),
            Step::Ends(end) => {
                way.held.pop();
                Ok(way.onward(Step::Ends(end)))
            }
        }
    }

    /// Goes on after a translator was started, or was not: then it ends with that refusal.
    pub fn started(self, answer: Result<(), Errno>) -> Opening
        ensures opening { opening_of result ≡ opening_after self (gives answer) }
        ensures fewer { steps_of result ≤ steps_of self }
    {
        match answer {
            Ok(()) => self,
            Err(errno) => Opening {
                step: Step::Ends(Err(errno)),
                ..self
            },
        }
    }
}
