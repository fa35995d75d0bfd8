//! The priority order of the participants of a round.
ghost use Rattle.std.specs.Prelude.{◌≡◌, ◌<◌, List, IfOk, OnErr, length, map};
ghost use Rattle.std.specs.List.Sorted.{IsPermutation, IsSorted};
ghost use Rattle.std.specs.Ordering.{on};
ghost use Rattle.draw_order.specs.Draw.{Ticket, IsDrawnOrder, HasOneDrawnOrder, drawn_order, ticket_cmp};
ghost use Rattle.draw_order.specs.Inner.SortKeys.{ticket_of};

use room_types::{Grade, OutOfMemory, PersonId, Word};
use std::alloc::Global;

/// Returns the identifiers of a round's participants in priority order: ascending by grade, then by word, then by
/// identifier. Each ticket holds a participant's identifier, their grade, and the word that was drawn for them. Makes
/// O(n log n) comparisons. Does not allocate if there are no tickets.
pub fn order(
    alloc: Global,
    tickets: &[(PersonId, Grade, Word)],
) -> Result<Vec<PersonId>, OutOfMemory>
    ensures drawn { IfOk result (λ people. IsDrawnOrder tickets.now people.items) }
    ensures computed { IfOk result (λ people. people.items ≡ drawn_order tickets.now) }
    ensures memory { OnErr result (0 < length tickets.now) }
{
    if tickets.is_empty() {
        return Ok(Vec::new(alloc));
    }
    let mut ascending = sort_keys(alloc, tickets)?;
    sort_ascending(&mut ascending);
    identifiers(alloc, &ascending)
}

// Returns the sort key of each ticket: grade, word, and identifier.
fn sort_keys(
    alloc: Global,
    tickets: &[(PersonId, Grade, Word)],
) -> Result<Vec<(Grade, Word, &PersonId)>, OutOfMemory>
    ensures { IfOk result (λ sort_keys. map ticket_of sort_keys.items ≡ tickets.now) }
{
    let sort_keys = tickets
        .iter()
        .map(|ticket| (ticket.1, ticket.2, &ticket.0))
        .collect(alloc)?;
    Ok(sort_keys)
}

// Sorts by grade, then by word, then by identifier.
fn sort_ascending(sort_keys: &mut Vec<(Grade, Word, &PersonId)>)
    ensures permuted { IsPermutation sort_keys.old.items sort_keys.new.items }
    ensures ascending { IsSorted (on ticket_of ticket_cmp) sort_keys.new.items }
{
    sort_keys.sort_unstable();
}

// Copies the identifiers from the sort keys, in the same order.
fn identifiers(
    alloc: Global,
    sort_keys: &[(Grade, Word, &PersonId)],
) -> Result<Vec<PersonId>, OutOfMemory>
    ensures { IfOk result (λ people. people.items ≡ map (λ sort_key. sort_key.2.now) sort_keys.now) }
{
    let mut people = Vec::with_capacity(alloc, sort_keys.len())?;
    for (_, _, person) in sort_keys {
        people.push(person.copy()?)?;
    }
    Ok(people)
}

/// Theorem: for any tickets, there is exactly one drawn order, which `drawn_order` in `specs/Draw.antt` computes.
/// This function does nothing; its contract states the theorem.
pub fn one_drawn_order()
    ensures { (tickets : List Ticket) → HasOneDrawnOrder tickets }
{}
