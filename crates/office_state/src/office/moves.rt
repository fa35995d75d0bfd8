//! The moves of all rounds.
ghost use Rattle.std.specs.Prelude.{◌≡◌, ◌<◌, ◌⊎◌, OnOk, OnErr, IfOk, IsSome, ℕ};
ghost use Rattle.std.specs.Option.{option_copied};
ghost use Rattle.std.specs.FinMap as map;
ghost use Rattle.std.specs.Map.Iter.{ShowsInOrder, deref_pair};
ghost use Rattle.office_state.specs.Office.Moves.{with_move};

use room_types::grammars::PersonIds;
use room_types::rows::copy_optional;
use room_types::{ExactClone, Move, OutOfMemory, PersonId, RoomCode, Table, Wave};
use std::alloc::{AllocError, Global};
use std::collections::BTreeMap;
use std::collections::btree_map::Iter;
use std::marker::Model;

/// A recorded move, without its round and person. `Office::moves` stores it under the round and the person.
#[derive(Debug, Drop)]
pub struct Moved {
    /// The old room, or `None` for a newcomer.
    pub from: Option<RoomCode>,
    /// The new room, or `None` for a person who leaves the college.
    pub to: Option<RoomCode>,
    pub wave: Wave,
}

impl Clone for Moved {
    ghost is_clone = { λ x y. y ≡ x };

    fn clone(&self) -> Result<Moved, AllocError>
        ensures copy { IfOk result (λ copy. copy ≡ self.now) }
        ensures memory { OnErr result ((IsSome self.now.from) ⊎ (IsSome self.now.to)) }
    {
        Ok(Moved {
            from: copy_optional(&self.from)?,
            to: copy_optional(&self.to)?,
            wave: self.wave,
        })
    }
}

impl ExactClone for Moved {
    ghost same = { λ x y h. h };
}

/// The moves of one round.
#[derive(Drop)]
pub struct RoundMoves {
    pub by_person: Table<PersonIds, Moved>,
}

impl Clone for RoundMoves {
    ghost is_clone = { λ x y. y ≡ x };

    fn clone(&self) -> Result<RoundMoves, AllocError>
        ensures copy { IfOk result (λ copy. copy ≡ self.now) }
        ensures memory { OnErr result (0 < map.len self.now.by_person) }
    {
        match self.by_person.copy() {
            Ok(by_person) => Ok(RoundMoves { by_person }),
            Err(_) => Err(AllocError),
        }
    }
}

impl ExactClone for RoundMoves {
    ghost same = { λ x y h. h };
}

/// A finite map from round numbers to values.
#[derive(Drop)]
pub struct Rounds<V> {
    alloc: Global,
    tree: BTreeMap<u16, V>,
}

impl<V> Model for Rounds<V> {
    ghost use Rattle.std.specs.Coded.{coded_ℕ};
    ghost use Rattle.std.specs.FinMap.{from_entries, code};
    ghost use Rattle.office_state.specs.Office.Moves.{RoundMap};

    ghost Value = { RoundMap V };

    ghost coded = { code coded_ℕ V.code };

    ghost view = { λ a. from_entries a.tree.entries };
}

impl<V> Rounds<V> {
    /// Creates an empty map.
    pub fn new(alloc: Global) -> Self
        ensures { result ≡ map.empty }
    {
        Rounds {
            alloc,
            tree: BTreeMap::new(alloc),
        }
    }

    /// Returns the value of a round, or `None` if the round has no value.
    pub fn get(&self, round: u16) -> Option<&V>
        ensures { option_copied result ≡ map.get self.now round }
    {
        self.tree.get(&round)
    }

    /// Iterates over the rounds and their values, in ascending order of round number.
    pub fn iter(&self) -> Iter<'_, u16, V>
        ensures rest { result ≡ map.entries self.now }
        ensures runs { ShowsInOrder (deref_pair {K = ℕ} {X = V}) }
    {
        self.tree.iter()
    }

    // Returns the number of rounds with a value.
    fn len(&self) -> usize
        ensures { result ≡ map.len self.now }
    {
        self.tree.len()
    }
}

impl<V: ExactClone> Rounds<V> {
    /// Copies the map. Does not allocate if the map is empty.
    pub(crate) fn copy(&self) -> Result<Self, OutOfMemory>
        ensures copy { IfOk result (λ copy. copy ≡ self.now) }
        ensures memory { OnErr result (0 < map.len self.now) }
    {
        if self.len() == 0 {
            return Ok(Rounds::new(self.alloc));
        }
        let tree = self.tree.clone()?;
        Ok(Rounds {
            alloc: self.alloc,
            tree,
        })
    }
}

impl Rounds<RoundMoves> {
    /// Records a move under its round and person. If the person already has a move in that round, replaces it.
    ///
    /// # Errors
    ///
    /// `OutOfMemory` if an allocation fails. The map is then unchanged.
    pub fn add(&mut self, moved: &Move) -> Result<(), OutOfMemory>
        ensures ok { OnOk result (self.new ≡ with_move self.old moved.now) }
        ensures err { OnErr result (self.new ≡ self.old) }
    {
        let person = moved.person.copy()?;
        let kept = Moved {
            from: copy_optional(&moved.from)?,
            to: copy_optional(&moved.to)?,
            wave: moved.wave,
        };
        match self.tree.get_mut(&moved.round) {
            Some(moves) => moves.by_person.insert(person, kept),
            None => self.begin(moved.round, person, kept),
        }
    }

    // Stores a move as the only move of a round. Replaces all moves that the round already has. If an allocation
    // fails, the map is unchanged.
    fn begin(&mut self, round: u16, person: PersonId, kept: Moved) -> Result<(), OutOfMemory>
        ensures ok { OnOk result (self.new ≡
            map.insert self.old round (record { by_person = map.insert map.empty person kept })) }
        ensures err { OnErr result (self.new ≡ self.old) }
    {
        let mut by_person = Table::new(self.alloc);
        by_person.insert(person, kept)?;
        self.tree.insert(round, RoundMoves { by_person })?;
        Ok(())
    }
}
