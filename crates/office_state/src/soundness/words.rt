//! Tests the invariants on drawn words.
ghost use Rattle.std.specs.Prelude.{◌≡◌, ◌||◌};
ghost use Rattle.std.specs.Bool.{Decides};
ghost use Rattle.std.specs.List.{list_all};
ghost use Rattle.std.specs.FinMap as map;
ghost use Rattle.office_state.specs.Office.Invariants.{AreValidWords};
ghost use Rattle.office_state.specs.Office.{sits_out};
ghost use Rattle.office_state.specs.Round.{is_participant};

use crate::office::Office;
use crate::office::phases::has_words;

/// Returns whether the invariants on words hold. Before the draw there are none. From the draw on, each participant
/// has a word and nobody else does.
pub(crate) fn are_valid_words(office: &Office) -> bool
    ensures { Decides result
        (AreValidWords office.now.phase office.now.people office.now.withdrawn office.now.going
        office.now.words) }
{
    if !has_words(office.phase) {
        return office.words.len() == 0;
    }
    if !only_participants_drew(office) {
        return false;
    }
    all_participants_drew(office)
}

// Returns whether each recorded word belongs to a participant.
fn only_participants_drew(office: &Office) -> bool
    ensures { result ≡
        list_all (λ e. is_participant office.now e.0) (map.entries office.now.words) }
{
    office
        .words
        .iter()
        .all(|(person, _)| office.is_participant(person))
}

// Returns whether each participant has a word.
fn all_participants_drew(office: &Office) -> bool
    ensures { result ≡
        list_all (λ e. sits_out office.now e.0 || map.contains_key office.now.words e.0)
        (map.entries office.now.people) }
{
    office.people.iter().all(|(person, _)| office.sits_out(person)
        || office.words.contains_key(person))
}
