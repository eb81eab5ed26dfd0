//! Making calls one after another, and telling each.
ghost use Rattle.std.specs.Prelude.{◌≡◌, ◌⊎◌, ◌++◌, ◌∷◌, [], if◌then◌else◌, IfErr, IfOk, OnOk};
ghost use Rattle.hurd_kinds.specs.Boxes.{box_meaning};
ghost use Rattle.hurd_calls.specs.Making.{after_call};
ghost use Rattle.hurd_lists.specs.Lists.{listed_by};
ghost use Rattle.hurd_lists.specs.Replies.{answered};
ghost use Rattle.hurd_machine.specs.Calls.{reply_by};
ghost use Rattle.hurd_words.specs.Answers.{plain};
ghost use Rattle.hurd_words.specs.Turns.{paragraph};
ghost use Rattle.hurd_world.specs.Held.{world_of};
ghost use Rattle.hurd_sitting.specs.Sittings.{Adds, SomeMade, behind, listed};

use crate::stage::Stage;
use hurd_creds::Bytes;
use hurd_kinds::ServerBox;
use hurd_lists::{ListedCall, answered};
use hurd_machine::Reply;
use hurd_teaching::paragraph;
use std::alloc::{AllocError, Global};

/// What a call tells that was made: its line and its reply; or, if some are told what they learn, its paragraph. Fails only if memory runs out.
pub(crate) fn text_of(
    alloc: Global,
    line: Bytes,
    reply: &Reply<ServerBox>,
    said: &Bytes,
    watched: bool,
) -> Result<Vec<u8>, AllocError>
    ensures { IfOk result (λ text. text.items ≡ (if watched then paragraph (answered line (reply_by box_meaning reply.now)) (said.now ++ []) else plain (answered line (reply_by box_meaning reply.now)))) }
{
    let answer = answered(alloc, line, reply)?;
    if !watched {
        return answer.plain(alloc);
    }
    let shown = Bytes::new(Vec::new(alloc));
    paragraph(alloc, &answer, said, &shown)
}

/// Makes a call, and adds what it tells. Fails only if memory runs out: then nothing is added, and the call was made, or nothing changed.
fn make_one(
    stage: &mut Stage,
    alloc: Global,
    listed: ListedCall<ServerBox>,
    told: &mut Vec<u8>,
) -> Result<(), AllocError>
    ensures told { OnOk result (Adds stage.old.learners (listed_by box_meaning listed ∷ []) (world_of box_meaning stage.old.world) told.old.items told.new.items) }
    ensures world { OnOk result (world_of box_meaning stage.new.world ≡ after_call (listed_by box_meaning listed) (world_of box_meaning stage.old.world)) }
    ensures err { IfErr result (λ _. (told.new.items ≡ told.old.items) × ((world_of box_meaning stage.new.world ≡ world_of box_meaning stage.old.world)
        ⊎ (world_of box_meaning stage.new.world ≡ after_call (listed_by box_meaning listed) (world_of box_meaning stage.old.world)))) }
    ensures learners { stage.new.learners ≡ stage.old.learners }
{
    let _reply = stage.tell(alloc, listed, told)?;
    Ok(())
}

/// Makes calls one after another, and adds what each tells. Fails only if memory runs out: then some first calls were made and told, and perhaps the next was
/// made.
pub(crate) fn make_all(
    stage: &mut Stage,
    alloc: Global,
    calls: Vec<ListedCall<ServerBox>>,
    told: &mut Vec<u8>,
) -> Result<(), AllocError>
    ensures told { OnOk result (Adds stage.old.learners (listed calls.items) (world_of box_meaning stage.old.world) told.old.items told.new.items) }
    ensures world { OnOk result (world_of box_meaning stage.new.world ≡ behind (listed calls.items) (world_of box_meaning stage.old.world)) }
    ensures err { IfErr result (λ _. SomeMade stage.old.learners (listed calls.items) (world_of box_meaning stage.old.world)
        told.old.items told.new.items (world_of box_meaning stage.new.world)) }
    ensures learners { stage.new.learners ≡ stage.old.learners }
{
    for listed in calls {
        make_one(stage, alloc, listed, told)?;
    }
    Ok(())
}
