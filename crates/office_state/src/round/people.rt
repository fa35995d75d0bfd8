//! The participants, in the drawn order.
ghost use Rattle.std.specs.Prelude.{◌≡◌, ◌<◌, IfOk, OnErr, length};
ghost use Rattle.office_state.specs.Round.{tickets_of, round_people, word_of};

use crate::office::Office;
use draw_order::order;
use room_types::{Grade, OutOfMemory, PersonId, Word};
use std::alloc::Global;

/// Returns the participants in the drawn order: by grade, then by word, then by identifier. The word of a participant
/// without one counts as 0. In a lawful office nobody has a word before the draw, so the order is then by grade and
/// identifier. Takes n log n steps for n people. Does not allocate if there are no participants.
///
/// # Errors
///
/// `OutOfMemory` if an allocation fails.
#[tactic(auto, using(crate::proofs::round_problems::People::as_many_as_tickets))]
pub fn round_people(alloc: Global, office: &Office) -> Result<Vec<PersonId>, OutOfMemory>
    ensures people { IfOk result (λ people. people.items ≡ round_people office.now) }
    ensures memory { OnErr result (0 < length (round_people office.now)) }
{
    let tickets = tickets(alloc, office)?;
    order(alloc, &tickets)
}

// Returns the identifier, grade and word of each participant, in order of identifier.
fn tickets(alloc: Global, office: &Office) -> Result<Vec<(PersonId, Grade, Word)>, OutOfMemory>
    ensures tickets { IfOk result (λ tickets. tickets.items ≡ tickets_of office.now) }
    ensures memory { OnErr result (0 < length (tickets_of office.now)) }
{
    let mut tickets = Vec::new(alloc);
    for (id, _) in office.people.iter() {
        if !office.sits_out(id) {
            tickets.push((id.copy()?, office.recorded_grade(id), word_of(office, id)))?;
        }
    }
    Ok(tickets)
}

/// Returns the word that was drawn for a person, or word 0 if none is recorded. In a lawful office, each participant
/// has a recorded word from the draw on.
pub fn word_of(office: &Office, person: &PersonId) -> Word
    ensures { result ≡ word_of office.now person.now }
{
    office.words.get(person).copied().unwrap_or(Word::new(0))
}
