//! Decides commands.
ghost use Rattle.std.specs.Prelude.{IfOk, OnOk};
ghost use Rattle.office_state.specs.Change.{LeadsTo};
ghost use Rattle.office_state.specs.Office.Invariants.{IsLawful};
ghost use Rattle.office_core.specs.Command.Decision.{Decides};
ghost use Rattle.office_core.specs.Command.{next};
ghost use Rattle.office_core.specs.Inner.Formed.{IsFormed};
ghost use Rattle.office_core.specs.Replies.{RowsAscend};

use crate::command::Command;
use crate::command::decision::Decision;
use crate::command::import::import;
use crate::command::lists::{blank, going, set_choices, withdraw};
use crate::command::register::{
    add_person, add_room, leave, remove, reopen, set_grade, set_home, set_key, set_name, shut,
};
use crate::command::round::{cancel, close_round, draw, open_round, publish, run};
use crate::command::settle::settle;
use crate::refusal::Refusal;
use office_state::Office;
use std::alloc::Global;

/// Decides a command. Does not change the office. To carry the command out, apply the changes of the decision in
/// order, each with `apply`. Applying all of them preserves the invariants of the office.
///
/// # Errors
///
/// The first refusal that applies. For most commands, the office first checks the phase (`BadPhase`). Then it makes the
/// other checks that the command's own function lists. For `Import`, it checks the label first. `SetName`, `SetKey` and
/// `Blank` are allowed in every phase.
///
/// `OutOfMemory` if one of these tasks runs out of memory:
///
/// - to copy the room's code into `UnknownRoom` or `RoomShut`;
/// - to read a list that the office refuses with `BadRecord`;
/// - to decide an accepted command that has changes.
///
/// A repeated `Withdraw` or `Going`, and an `Import` of a list that is already stored under its label, have no
/// changes. So these commands never fail with `OutOfMemory`.
pub fn decide(alloc: Global, office: &Office, command: &Command) -> Result<Decision, Refusal>
    requires { IsLawful office.now }
    ensures decides { Decides office.now command.now result }
    ensures leads { IfOk result
        (λ decision. LeadsTo office.now (next office.now command.now) decision.changes.items) }
    ensures ascending { IfOk result (λ decision. RowsAscend decision.reply) }
{
    dispatch(alloc, office, command)
}

// Calls the function that decides this kind of command.
fn dispatch(alloc: Global, office: &Office, command: &Command) -> Result<Decision, Refusal>
    requires { IsLawful office.now }
    ensures formed { OnOk result (IsFormed command.now) }
    ensures decides { Decides office.now command.now result }
{
    match command {
        Command::AddRoom { room } => add_room(alloc, office, room),
        Command::AddPerson {
            person,
            name,
            key,
            home,
        } => add_person(alloc, office, person, name, key, home),
        Command::SetHome { person, room } => set_home(alloc, office, person, room),
        Command::Leave { person } => leave(alloc, office, person),
        Command::Remove { person } => remove(alloc, office, person),
        Command::Shut { room } => shut(alloc, office, room),
        Command::Reopen { room } => reopen(alloc, office, room),
        Command::OpenRound => open_round(alloc, office),
        Command::SetChoices { person, choices } => set_choices(alloc, office, person, choices),
        Command::Withdraw { person } => withdraw(alloc, office, person),
        Command::CloseRound => close_round(alloc, office),
        Command::Draw { words } => draw(alloc, office, words.as_slice()),
        Command::Run => run(alloc, office),
        Command::Publish => publish(alloc, office),
        Command::Settle => settle(alloc, office),
        Command::Cancel => cancel(alloc, office),
        Command::Import { label, kind, bytes } => import(alloc, office, label, *kind, bytes),
        Command::SetGrade { person, grade } => set_grade(alloc, office, person, *grade),
        Command::Going { person } => going(alloc, office, person),
        Command::SetName { person, name } => set_name(alloc, office, person, name),
        Command::SetKey { person, key } => set_key(alloc, office, person, key),
        Command::Blank { label } => blank(alloc, office, label),
    }
}
