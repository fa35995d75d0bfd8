//! Formats refusals as text.
ghost use Rattle.std.specs.Prelude.{◌≡◌, ◌++◌, IfOk, OnOk, string_bytes};
ghost use Rattle.office_lines.specs.render.RefusalTexts.{cause_text, refusal_text, refusal_values};

use office_core::Refusal;
use office_lists::Cause;
use room_types::OutOfMemory;
use std::alloc::{AllocError, Global};

/// Returns the line to print for a refusal: `refused`, then the refusal's number, name and values.
///
/// # Errors
///
/// `OutOfMemory` if an allocation fails.
pub fn refusal_text(alloc: Global, refusal: &Refusal) -> Result<String, OutOfMemory>
    ensures { IfOk result (λ text. string_bytes text ≡ refusal_text refusal.now) }
{
    let number = refusal.number();
    let name = refusal.name();
    let mut text = format!(in alloc; "refused {number} {name}")?;
    push_values(&mut text, refusal)?;
    text.push_str("\n")?;
    Ok(text)
}

// Appends a space and the values of the refusal. Appends nothing if the refusal has no values.
fn push_values(text: &mut String, refusal: &Refusal) -> Result<(), AllocError>
    ensures { OnOk result
        (string_bytes text.new ≡ string_bytes text.old ++ refusal_values refusal.now) }
{
    match refusal {
        Refusal::BadPhase(phase) => write!(text, " {phase}"),
        Refusal::UnknownRoom(room) | Refusal::RoomShut(room) => write!(text, " {room}"),
        Refusal::WrongWordCount { want, got } => write!(text, " want {want} got {got}"),
        Refusal::BadRecord { at, cause } => {
            write!(text, " {at} ")?;
            push_cause(text, *cause)
        }
        Refusal::UnknownPerson
        | Refusal::DuplicateRoom
        | Refusal::DuplicatePerson
        | Refusal::KeyInUse
        | Refusal::RoomTaken
        | Refusal::HasHome
        | Refusal::NoHome
        | Refusal::Withdrawn
        | Refusal::LimitReached
        | Refusal::ListDiffers
        | Refusal::NotInRound
        | Refusal::NoSuchRound
        | Refusal::NotShut
        | Refusal::OutOfMemory
        | Refusal::Going
        | Refusal::UnknownLabel => Ok(()),
    }
}

// Appends the text of a cause, which says what is wrong with a record of an imported list.
fn push_cause(text: &mut String, cause: Cause) -> Result<(), AllocError>
    ensures { OnOk result
        (string_bytes text.new ≡ string_bytes text.old ++ cause_text cause) }
{
    match cause {
        Cause::Header => text.push_str("header"),
        Cause::NotText => text.push_str("text"),
        Cause::FieldCount => text.push_str("fields"),
        Cause::BadField(number) => write!(text, "field {number}"),
        Cause::TooMany => text.push_str("many"),
        Cause::Denied(number) => write!(text, "refusal {number}"),
    }
}
