//! What an office of an earlier version may hold.
ghost use Rattle.std.specs.Prelude.{◌≡◌};
ghost use Rattle.std.specs.Bool.{Decides};
ghost use Rattle.std.specs.FinMap as map;
ghost use Rattle.std.specs.List.{list_all};
ghost use Rattle.office_migration.specs.Versions.{IsOfVersion, LacksGrades, LacksLeavers};
ghost use Rattle.office_migration.specs.Versions.{do_all_arrive, is_not_grades};

use office_state::{Office, RoundMoves, StoredImport};
use room_types::ListKind;

/// Returns whether `office` holds only what an office of this version may hold. Before version 2, an office has no
/// grades and no lists of grades. Before version 3, it has no leavers, and each recorded move goes into a room. Does
/// not allocate.
pub fn is_of_version(office: &Office, version: u16) -> bool
    ensures { Decides result (IsOfVersion version office.now) }
{
    if version < 2 && !lacks_grades(office) {
        return false;
    }
    version >= 3 || lacks_leavers(office)
}

// Returns whether nobody has a grade, and no imported list is a list of grades.
fn lacks_grades(office: &Office) -> bool
    ensures { Decides result (LacksGrades office.now) }
{
    if office.grades.len() != 0 {
        return false;
    }
    lacks_grade_lists(office)
}

fn lacks_grade_lists(office: &Office) -> bool
    ensures { result ≡ list_all (λ e. is_not_grades e.1) (map.entries office.now.lists) }
{
    office.lists.iter().all(|(_, kept)| is_not_grades(kept))
}

fn is_not_grades(kept: &StoredImport) -> bool
    ensures { result ≡ is_not_grades kept.now }
{
    match kept.kind {
        ListKind::Grades => false,
        _ => true,
    }
}

// Returns whether nobody leaves, and each recorded move goes into a room.
fn lacks_leavers(office: &Office) -> bool
    ensures { Decides result (LacksLeavers office.now) }
{
    if office.going.len() != 0 {
        return false;
    }
    do_all_arrive(office)
}

fn do_all_arrive(office: &Office) -> bool
    ensures { result ≡ list_all (λ e. do_all_arrive e.1) (map.entries office.now.moves) }
{
    office
        .moves
        .iter()
        .all(|(_, moves)| does_round_arrive(moves))
}

fn does_round_arrive(moves: &RoundMoves) -> bool
    ensures { result ≡ do_all_arrive moves.now }
{
    moves.by_person.iter().all(|(_, moved)| moved.to.is_some())
}
