//! Queries of an office.
ghost use Rattle.std.specs.Prelude.{◌≡◌, ◌<◌, IfOk, IsSome, List, OnErr, length, true, ℕ};
ghost use Rattle.std.specs.FinMap as map;
ghost use Rattle.std.specs.Option.{option_copied};
ghost use Rattle.office_state.specs.Office.{tenant, owner, home_of, recorded_result, is_shut, lives_in, has_tenants};
ghost use Rattle.office_state.specs.Office.{is_same_text, is_text};
ghost use Rattle.office_state.specs.Office.{has_withdrawn, is_going, sits_out, recorded_grade, participants};
ghost use Rattle.office_state.specs.Office.{is_over, is_under_way, is_shown};
ghost use Rattle.office_state.specs.Round.{is_participant};

use crate::office::Office;
use crate::office::person::Person;
use crate::office::phases::{is_idle, is_published};
use room_types::grammars::RoomCodes;
use room_types::{Grade, Grammar, Key, OutOfMemory, PersonId, RoomCode, Table, Text};
use std::alloc::Global;

impl Office {
    /// Returns who lives in a room, or `None` if nobody does. Takes time linear in the number of people. In an office
    /// that is not lawful several people may live there; the first by identifier is returned.
    pub fn tenant(&self, room: &RoomCode) -> Option<&PersonId>
        ensures { option_copied result ≡ tenant self.now room.now }
    {
        for (id, person) in self.people.iter() {
            if lives_in(person, room) {
                return Some(id);
            }
        }
        None
    }

    /// Returns who lives in each room, in one pass over the people. If nobody has a home, the call does not allocate.
    ///
    /// # Errors
    ///
    /// `OutOfMemory` if an allocation fails.
    pub fn tenants(&self, alloc: Global) -> Result<Table<RoomCodes, PersonId>, OutOfMemory>
        ensures tenants { IfOk result
            (λ tenants. (room : List ℕ) → map.get tenants room ≡ tenant self.now room) }
        ensures memory { OnErr result (has_tenants self.now ≡ true) }
    {
        let mut tenants = Table::new(alloc);
        for (id, person) in self.people.iter() {
            if let Some(home) = &person.home {
                if !tenants.contains_key(home) {
                    tenants.insert(home.copy()?, id.copy()?)?;
                }
            }
        }
        Ok(tenants)
    }

    /// Returns the person with this key, or `None` if nobody has it. Takes time linear in the number of people. In an
    /// office that is not lawful several people may have it; the first by identifier is returned.
    pub fn owner(&self, key: &Key) -> Option<&PersonId>
        ensures { option_copied result ≡ owner self.now key.now }
    {
        for (id, person) in self.people.iter() {
            if person.key == *key {
                return Some(id);
            }
        }
        None
    }

    /// Returns where a person lives, or `None` if the person has no home or is unknown.
    pub(crate) fn home_of(&self, person: &PersonId) -> Option<&RoomCode>
        ensures { option_copied result ≡ home_of self.now person.now }
    {
        self.people.get(person)?.home.as_ref()
    }

    /// Returns the room that is recorded as a person's result. Returns `None` if no result is recorded, or if the
    /// recorded result is no room.
    pub fn recorded_result(&self, person: &PersonId) -> Option<&RoomCode>
        ensures { option_copied result ≡ recorded_result self.now person.now }
    {
        self.results.get(person)?.room.as_ref()
    }

    /// Returns whether a room is known and shut.
    pub fn is_shut(&self, room: &RoomCode) -> bool
        ensures { result ≡ is_shut self.now room.now }
    {
        self.rooms.get(room).copied().unwrap_or(false)
    }

    /// Returns whether a person has withdrawn from the round.
    pub fn has_withdrawn(&self, person: &PersonId) -> bool
        ensures { result ≡ has_withdrawn self.now person.now }
    {
        self.withdrawn.contains_key(person)
    }

    /// Returns whether a person leaves the college after the round.
    pub fn is_going(&self, person: &PersonId) -> bool
        ensures { result ≡ is_going self.now person.now }
    {
        self.going.contains_key(person)
    }

    /// Returns whether a person has withdrawn from the round or leaves the college.
    pub(crate) fn sits_out(&self, person: &PersonId) -> bool
        ensures { result ≡ sits_out self.now person.now }
    {
        self.has_withdrawn(person) || self.is_going(person)
    }

    /// Returns whether a person takes part in the round: whether they are known, have not withdrawn and do not leave
    /// the college.
    pub fn is_participant(&self, person: &PersonId) -> bool
        ensures { result ≡ is_participant self.now person.now }
    {
        self.people.contains_key(person) && !self.sits_out(person)
    }

    /// Returns a person's grade, or grade 0 if none is recorded.
    pub fn recorded_grade(&self, person: &PersonId) -> Grade
        ensures { result ≡ recorded_grade self.now person.now }
    {
        self.grades.get(person).copied().unwrap_or(Grade::first())
    }

    /// Returns whether a person may see their result: whether the phase is `Published`, and the person has not
    /// withdrawn and does not leave the college. The call does not check that the person is known. So in phase
    /// `Published`, a lawful office returns `true` for an unknown person.
    pub fn is_shown(&self, person: &PersonId) -> bool
        ensures { result ≡ is_shown self.now person.now }
    {
        is_published(self.phase) && !self.sits_out(person)
    }

    /// Returns whether a round is settled or cancelled.
    pub fn is_over(&self, round: u16) -> bool
        ensures { result ≡ is_over self.now round }
    {
        1 <= round && round <= self.number && !self.is_under_way(round)
    }

    /// Returns whether a round has begun and is neither settled nor cancelled.
    pub(crate) fn is_under_way(&self, round: u16) -> bool
        ensures { result ≡ is_under_way self.now round }
    {
        !is_idle(self.phase) && round == self.number
    }

    /// Returns the number of participants. Does not allocate.
    pub fn participant_count(&self) -> usize
        ensures { result ≡ length (participants self.now) }
    {
        let mut count = 0;
        for (id, _) in self.people.iter() {
            if !self.sits_out(id) {
                count += 1;
            }
        }
        count
    }

    /// Returns the participants in order of identifier: the people who have not withdrawn and do not leave the
    /// college. Does not allocate if there are no participants.
    ///
    /// # Errors
    ///
    /// `OutOfMemory` if an allocation fails.
    pub fn participants(&self, alloc: Global) -> Result<Vec<PersonId>, OutOfMemory>
        ensures people { IfOk result (λ people. people.items ≡ participants self.now) }
        ensures memory { OnErr result (0 < length (participants self.now)) }
    {
        let mut people = Vec::new(alloc);
        for (id, _) in self.people.iter() {
            if !self.sits_out(id) {
                people.push(id.copy()?)?;
            }
        }
        Ok(people)
    }
}

/// Copies an optional text. Does not allocate for `None`.
///
/// # Errors
///
/// `OutOfMemory` if an allocation fails.
pub fn copy_found<G: Grammar>(found: Option<&Text<G>>) -> Result<Option<Text<G>>, OutOfMemory>
    ensures copy { IfOk result (λ copy. copy ≡ option_copied found.entry) }
    ensures memory { OnErr result (IsSome found.entry) }
{
    match found {
        Some(text) => Ok(Some(text.copy()?)),
        None => Ok(None),
    }
}

fn lives_in(person: &Person, room: &RoomCode) -> bool
    ensures { result ≡ lives_in room.now person.now }
{
    is_room(person.home.as_ref(), room)
}

/// Returns whether both are the same room or both are `None`.
pub(crate) fn is_same_room(one: &Option<RoomCode>, other: &Option<RoomCode>) -> bool
    ensures { result ≡ is_same_text one.now other.now }
{
    match (one, other) {
        (None, None) => true,
        (Some(one), Some(other)) => other == one,
        _ => false,
    }
}

/// Returns whether `found` is `Some` and holds the code `room`.
pub(crate) fn is_room(found: Option<&RoomCode>, room: &RoomCode) -> bool
    ensures { result ≡ is_text (option_copied found.entry) room.now }
{
    match found {
        Some(found) => found == room,
        None => false,
    }
}
