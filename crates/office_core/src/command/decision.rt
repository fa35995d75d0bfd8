//! The decision of a command.
ghost use Rattle.std.specs.Prelude.{◌≡◌, IfOk, IfErr, [], ◌∷◌};

use crate::refusal::Refusal;
use crate::reply::Reply;
use office_state::Change;
use std::alloc::Global;

/// The reply to an accepted command, and the changes that carry it out, in order.
#[derive(Drop)]
pub struct Decision {
    pub reply: Reply,
    pub changes: Vec<Change>,
}

/// Returns the decision with this reply and one change, or `OutOfMemory`.
pub(crate) fn decision_of_one(
    alloc: Global,
    reply: Reply,
    change: Change,
) -> Result<Decision, Refusal>
    ensures ok { IfOk result (λ d. (d.reply ≡ reply) × (d.changes.items ≡ change ∷ [])) }
    ensures err { IfErr result (λ refusal. refusal ≡ Refusal.OutOfMemory) }
{
    let mut changes = Vec::new(alloc);
    changes.push(change)?;
    Ok(Decision { reply, changes })
}

/// Returns the decision with this reply and these two changes, or `OutOfMemory`.
pub(crate) fn decision_of_two(
    alloc: Global,
    reply: Reply,
    first: Change,
    second: Change,
) -> Result<Decision, Refusal>
    ensures ok { IfOk result (λ d. (d.reply ≡ reply) × (d.changes.items ≡ first ∷ second ∷ [])) }
    ensures err { IfErr result (λ refusal. refusal ≡ Refusal.OutOfMemory) }
{
    let changes = vec![in alloc; first, second]?;
    Ok(Decision { reply, changes })
}
