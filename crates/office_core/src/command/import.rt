//! Imports a list under a label. Importing the list again that is stored under the label has no effect.
ghost use Rattle.std.specs.Prelude.{◌≡◌, ◌≤◌, IfOk, IfErr, None, length, []};
ghost use Rattle.office_lists.specs.Records.{record_limit};
ghost use Rattle.office_core.specs.Command.Decision.{Decides, IsDecided};
ghost use Rattle.office_core.specs.Command.Import.{known_label_checks, new_label_checks, new_label_changes};
ghost use Rattle.office_core.specs.Command.Import.{may_import, is_same_import, record_changes};
ghost use Rattle.office_core.specs.Command.Import.{record_count, refusal_of};
ghost use Rattle.office_core.specs.Inner.Tries.{IsOrOutOfMemory};

pub mod choices;
pub mod denial;
pub mod grades;
pub mod people;
pub mod register;
pub mod rooms;

use crate::command::Command;
use crate::command::decision::Decision;
use crate::command::import::choices::choices_added;
use crate::command::import::grades::grades_added;
use crate::command::import::people::people_added;
use crate::command::import::rooms::rooms_added;
use crate::refusal::Refusal;
use crate::reply::Reply;
use office_state::phases::{is_open, is_preparing};
use office_state::{BYTE_LIMIT, Change, LABEL_LIMIT, Office, StoredImport};
use room_types::{Label, ListKind, Listing, Phase};
use std::alloc::Global;

/// Decides to import a list under a label. If the same list is already stored under the label, the decision has the
/// reply of the first import and no changes, in any phase. The call does not parse the records again.
///
/// Takes O(n log n) steps, where n is the number of records, people and rooms together, and reads the bytes once.
///
/// # Errors
///
/// If a list is already stored under the label, the only error is `ListDiffers`, for a list other than the stored
/// one. Otherwise, the first of these that applies:
///
/// - `BadPhase` unless the phase is `Idle` or `Opened`; for a list of choices, unless the phase is `Opened`.
/// - `LimitReached` if `LABEL_LIMIT` lists are already stored, or if the list has more than `BYTE_LIMIT` bytes.
/// - `BadRecord` for the first record that cannot be parsed.
/// - `BadRecord` for the first record whose command the office refuses after the commands of the records before it.
///
/// `OutOfMemory` if an allocation fails.
pub fn import(
    alloc: Global,
    office: &Office,
    label: &Label,
    kind: ListKind,
    bytes: &Listing<u8>,
) -> Result<Decision, Refusal>
    ensures { Decides office.now (Command.Import label.now kind bytes.now) result }
{
    match office.lists.get(label) {
        Some(kept) => import_known(alloc, kept, kind, bytes),
        None => import_new(alloc, office, label, kind, bytes),
    }
}

// Decides to import a list if the list `kept` is already stored under its label.
fn import_known(
    alloc: Global,
    kept: &StoredImport,
    kind: ListKind,
    bytes: &Listing<u8>,
) -> Result<Decision, Refusal>
    ensures { IsDecided (known_label_checks kept.now kind bytes.now) (Reply.Added kept.now.count) []
        result }
{
    if !is_same_import(kept, kind, bytes) {
        return Err(Refusal::ListDiffers);
    }
    Ok(Decision {
        reply: Reply::Added { count: kept.count },
        changes: Vec::new(alloc),
    })
}

// Returns whether the stored list has this kind and these bytes.
fn is_same_import(kept: &StoredImport, kind: ListKind, bytes: &Listing<u8>) -> bool
    ensures { result ≡ is_same_import kept.now kind bytes.now }
{
    kept.kind == kind && kept.bytes.as_slice() == bytes.as_slice()
}

// Decides to import a list if no list is stored under its label.
fn import_new(
    alloc: Global,
    office: &Office,
    label: &Label,
    kind: ListKind,
    bytes: &Listing<u8>,
) -> Result<Decision, Refusal>
    ensures { IsDecided (new_label_checks office.now kind bytes.now)
        (Reply.Added (record_count bytes.now)) (new_label_changes label.now kind bytes.now)
        result }
{
    if !may_import(kind, office.phase) {
        return Err(Refusal::BadPhase(office.phase));
    }
    if office.lists.len() >= LABEL_LIMIT {
        return Err(Refusal::LimitReached);
    }
    if bytes.len() > BYTE_LIMIT {
        return Err(Refusal::LimitReached);
    }
    let mut changes = record_changes(alloc, office, kind, bytes.as_slice())?;
    let count = changes.len() as u16;
    changes.push(Change::KeepList {
        label: label.copy()?,
        kind,
        bytes: bytes.copy()?,
        count,
    })?;
    Ok(Decision {
        reply: Reply::Added { count },
        changes,
    })
}

// Returns whether a list of this kind may be imported in this phase.
fn may_import(kind: ListKind, phase: Phase) -> bool
    ensures { result ≡ may_import kind phase }
{
    match kind {
        ListKind::Rooms | ListKind::People | ListKind::Grades => is_preparing(phase),
        ListKind::Choices => is_open(phase),
    }
}

// Parses and checks the records of the list. Returns one change for each record, or the refusal of the list.
#[tactic(auto, using(crate::proofs::imports::ListChecks::as_many_changes))]
fn record_changes(
    alloc: Global,
    office: &Office,
    kind: ListKind,
    bytes: &[u8],
) -> Result<Vec<Change>, Refusal>
    ensures accepted { IfOk result (λ _. refusal_of kind office.now bytes.now ≡ None) }
    ensures changed { IfOk result (λ changes. changes.items ≡ record_changes kind bytes.now) }
    ensures as_many { IfOk result (λ changes. length changes.items ≡ record_count bytes.now) }
    ensures few { IfOk result (λ changes. length changes.items ≤ record_limit) }
    ensures refused { IfErr result (IsOrOutOfMemory (refusal_of kind office.now bytes.now)) }
{
    match kind {
        ListKind::Rooms => rooms_added(alloc, office, bytes),
        ListKind::People => people_added(alloc, office, bytes),
        ListKind::Choices => choices_added(alloc, office, bytes),
        ListKind::Grades => grades_added(alloc, office, bytes),
    }
}
