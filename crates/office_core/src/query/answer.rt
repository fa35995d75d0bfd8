//! Answers queries.
ghost use Rattle.std.specs.Prelude.{IfOk};
ghost use Rattle.office_state.specs.Office.Invariants.{IsLawful};
ghost use Rattle.office_core.specs.Query.Answer.{IsAnswered};
ghost use Rattle.office_core.specs.Query.{returned, GainsNothing};
ghost use Rattle.office_core.specs.Replies.{RowsAscend};

use crate::query::Query;
use crate::query::overview::{moves, order, people, results, rooms, round};
use crate::query::personal::{me, what_if};
use crate::refusal::Refusal;
use crate::reply::Reply;
use office_state::Office;
use std::alloc::Global;

/// Answers a query. Changes nothing. The rows of `Rooms` ascend by room code. The rows of `People` and `Results`
/// ascend by the person's identifier. The reply to `WhatIf` is the room that the person would get with the other
/// list. The person's recorded list never ranks that room above the person's result.
///
/// # Errors
///
/// - `BadPhase` for `Order` unless lottery numbers are drawn.
/// - `BadPhase` for `Results` and `WhatIf` unless the round has run.
/// - `NoSuchRound` for `Moves` unless the round is settled or cancelled.
/// - `UnknownPerson` for `Me` if nobody has the key, and for `WhatIf` if nobody has the identifier.
/// - `NotInRound` for `WhatIf` if the person has withdrawn or leaves the college.
/// - `UnknownRoom` or `RoomShut` for `WhatIf` if a room on the other list is unknown or shut. The error holds
///   a copy of the code of the first such room.
/// - `OutOfMemory` if memory runs out for that copy or for the reply. These replies need no memory: the reply to
///   `Round`, and a reply without rows to `Rooms`, `People`, `Order`, `Results` or `Moves`.
pub fn answer(alloc: Global, office: &Office, query: &Query) -> Result<Reply, Refusal>
    requires { IsLawful office.now }
    ensures returned { IsAnswered (returned office.now query.now) result }
    ensures no_gain { IfOk result (GainsNothing office.now query.now) }
    ensures ascending { IfOk result RowsAscend }
{
    match query {
        Query::Rooms => rooms(alloc, office),
        Query::People => people(alloc, office),
        Query::Round => round(office),
        Query::Order => order(alloc, office),
        Query::Results => results(alloc, office),
        Query::Moves(number) => moves(alloc, office, *number),
        Query::Me(key) => me(alloc, office, key),
        Query::WhatIf(person, choices) => what_if(alloc, office, person, choices),
    }
}
