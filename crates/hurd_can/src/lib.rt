//! Who could help some tasks to see a part of a world.
//!
//! What a set of tasks can ever come to see of what there is now is settled by one look: a part of an old thing can come to be seen by calls of theirs exactly if
//! they see it together (`comes_to_see` in `hurd_laws`). So a helper is enough if he and they see the part together now. `helpers_of` finds, for each part, all others
//! whose help is enough, and all pairs of others whose help is, if that of neither is enough alone.
//!
//! What it can't say is who remembers: it is about what is found out from now on. `remember` notes who saw a part before as it is now. `could_text` begins a text, goes
//! to its end, and prints a line for each part that those that WHO names don't see: who could help them to see it, and who saw it before. If it is wanted, a script
//! follows for each set of helpers, which shows them the part: it was tried at the end of the text, and of its lines those are left out that can be. After the script
//! comes a command of WHO that is answered otherwise than before the command that changed the part last.
#![tactic(auto)]

mod coulds;
mod dating;
mod helped;
mod laws;
mod listing;
mod looking;
mod noting;
mod remembering;
mod saying;
mod text;
mod trying;
mod ways;

pub use coulds::could_text;
pub use helped::{Helped, Pair};
pub use laws::{found_ways_show, helpers_are_exact, one_could_is_printed};
pub use listing::unseen;
pub use looking::helpers_of;
pub use remembering::remember;
pub use saying::lines;
pub use text::Scene;
