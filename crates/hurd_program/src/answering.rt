//! What a text tells is kept in memory.
ghost use Rattle.std.specs.Prelude.{IfOk};
ghost use Rattle.hurd_program.specs.Answers.{IsWhy, Tells};
ghost use Rattle.hurd_program.specs.Requests.{asked};

use crate::performing::{complaint, done, stranger_line};
use crate::request::Request;
use hurd_terminal::{Fault, Output};
use std::alloc::{AllocError, Global};

/// What is told of a text, and how that ended.
#[derive(Debug, Drop)]
pub struct Answer {
    /// All that is printed of it. Of a bad text, and where somebody is named who isn't in it: what is said after the name of a file. Else nothing.
    pub told: Vec<u8>,
    /// `Bad`, `Boot`, `Unknown`, or `Memory` where that was refused.
    pub ended: Result<(), Fault>,
}

/// What is said of a fault after the name of a file. Fails only if memory runs out, also that of a writer in memory.
fn reason(
    alloc: Global,
    request: &Request,
    text: &[u8],
    fault: Fault,
) -> Result<Vec<u8>, AllocError>
    ensures { IfOk result (λ said. IsWhy (asked request.now) text.now fault said.items) }
{
    match fault {
        Fault::Bad { .. } => complaint(alloc, request.sort, text),
        Fault::Unknown => stranger_line(alloc, request),
        Fault::Boot(_) => Ok(Vec::new(alloc)),
        Fault::Read | Fault::Write | Fault::Memory => Err(AllocError),
    }
}

/// Does what is asked of a text, and keeps what is told.
pub fn answer_text(alloc: Global, request: &Request, text: &[u8]) -> Answer
    ensures { Tells (asked request.now) text.now result.ended result.told.items }
{
    let mut output = Output::new(Vec::new(alloc));
    let fault = match done(alloc, request, text, &mut output) {
        Ok(()) => {
            return Answer {
                told: output.writer,
                ended: Ok(()),
            };
        }
        Err(fault) => fault,
    };
    match reason(alloc, request, text, fault) {
        Ok(told) => Answer {
            told,
            ended: Err(fault),
        },
        Err(_) => Answer {
            told: Vec::new(alloc),
            ended: Err(Fault::Memory),
        },
    }
}
