//! Computes the waves of the day of moving, which say who moves before whom.
ghost use Rattle.std.specs.Prelude.{◌≡◌, ◌<◌, ◌≤◌, ℕ, List, Some, length, IfOk, OnErr};
ghost use Rattle.std.specs.BTreeMap.{get_by};
ghost use Rattle.room_types.specs.Texts.{Text, text_cmp};
ghost use Rattle.office_lists.specs.Waves.{Relocation as AnyRelocation, NewRoomsDiffer, AreWaves, HaveOneWaveEach, end_numbers, leaver, leavers as leavers_of, followed, move_limit, end_number_at, waves_of};
ghost use Rattle.office_lists.specs.Inner.Successors.{AreInjective, AreSuccessors, NumbersChain};

use room_types::{OutOfMemory, PersonId, RoomCode, Wave};
use std::alloc::{AllocError, Global};
use std::collections::BTreeMap;

/// A person who moves, their old room and their new room. Either room may be `None`.
pub type Relocation = (PersonId, Option<RoomCode>, Option<RoomCode>);

/// Returns the wave of each entry, in the order of the entries. The leaver of a room is the first entry with that old
/// room, whether or not that person leaves the college.
///
/// - An entry without a new room has wave 0.
/// - An entry whose new room has no leaver has wave 1.
/// - An entry in a cycle has the wave `Swap`: going from each entry to the leaver of its new room returns to the
///   start.
/// - Every other entry has 1 plus the wave of its new room's leaver.
///
/// The caller passes at most 2,000 entries, whose new rooms must differ. Makes O(n log n) comparisons. Does not
/// allocate if there are no entries.
pub fn waves(alloc: Global, entries: &[Relocation]) -> Result<Vec<Wave>, OutOfMemory>
    requires few { length entries.now ≤ move_limit }
    requires new_rooms_differ { NewRoomsDiffer entries.now }
    ensures each { IfOk result (λ waves. AreWaves entries.now waves.items) }
    ensures computed { IfOk result (λ waves. waves.items ≡ waves_of entries.now) }
    ensures memory { OnErr result (0 < length entries.now) }
{
    if entries.is_empty() {
        return Ok(Vec::new(alloc));
    }
    let leavers = leavers(alloc, entries)?;
    let successors = successors(alloc, &leavers)?;
    let mut waves = vec![in alloc; Wave::Swap; entries.len()]?;
    for (end, leaver) in leavers.iter().enumerate() {
        if leaver.is_none() {
            let first = end_number_at(entries, end);
            number_chain(&mut waves, &successors, end, first);
        }
    }
    Ok(waves)
}

// Returns, for each entry, the index of its new room's leaver. The index is `None` if there is no such leaver.
fn leavers(alloc: Global, entries: &[Relocation]) -> Result<Vec<Option<usize>>, OutOfMemory>
    ensures { IfOk result (λ leavers. leavers.items ≡ leavers_of entries.now) }
{
    let by_room = leavers_by_room(alloc, entries)?;
    let mut leavers = Vec::with_capacity(alloc, entries.len())?;
    for entry in entries {
        let leaver = match &entry.2 {
            Some(room) => by_room.get(&room.as_str()).copied(),
            None => None,
        };
        leavers.push(leaver)?;
    }
    Ok(leavers)
}

// Maps each old room to its leaver: the index of the first entry with that old room.
fn leavers_by_room(
    alloc: Global,
    entries: &[Relocation],
) -> Result<BTreeMap<&str, usize>, AllocError>
    ensures { IfOk result (λ by_room. (room : Text)
        → get_by (λ key. text_cmp room key.now) by_room ≡ leaver entries.now room) }
{
    let mut by_room = BTreeMap::new(alloc);
    for (i, entry) in entries.iter().enumerate() {
        if let Some(room) = &entry.1 {
            if !by_room.contains_key(&room.as_str()) {
                by_room.insert(room.as_str(), i)?;
            }
        }
    }
    Ok(by_room)
}

// Returns, for each entry, the index of its successor, if any. If an entry is the leaver of a room, its successor is
// the entry that moves into that room.
fn successors(alloc: Global, leavers: &[Option<usize>]) -> Result<Vec<Option<usize>>, OutOfMemory>
    requires { AreInjective leavers.now }
    ensures { IfOk result (λ successors. AreSuccessors leavers.now successors.items) }
{
    let mut successors = vec![in alloc; None; leavers.len()]?;
    for (i, leaver) in leavers.iter().enumerate() {
        if let Some(leaver) = leaver {
            successors[*leaver] = Some(i);
        }
    }
    Ok(successors)
}

// Returns the number of entry `end`, which ends a chain: 0 if the entry has no new room, otherwise 1.
fn end_number_at(entries: &[Relocation], end: usize) -> u16
    requires { end < length entries.now }
    ensures value { result ≡ end_number_at (end_numbers entries.now) end }
    ensures low { result ≤ 1 }
{
    match entries[end].2 {
        Some(_) => 1,
        None => 0,
    }
}

// Numbers the entries of the chain that ends at `end`. Entry `end` gets `first`, its successor `first + 1`, and so
// on.
fn number_chain(waves: &mut [Wave], successors: &[Option<usize>], end: usize, first: u16)
    requires within { (count i : ℕ) → followed successors.now count end ≡ Some i
        → i < length waves.old }
    requires same_length { length successors.now ≡ length waves.old }
    requires short { (count i : ℕ) → followed successors.now count end ≡ Some i
        → count ≤ move_limit }
    requires low { first ≤ 1 }
    ensures { NumbersChain successors.now end first waves.old waves.new }
{
    let mut count = 0u16;
    let mut at = Some(end);
    while let Some(here) = at {
        waves[here] = Wave::Nth(count + first);
        count += 1;
        at = successors[here];
    }
}

/// Theorem: if the new rooms differ, each entry has exactly one wave. `wave_of` in `specs/` computes this wave. The
/// function does nothing.
pub fn one_wave_each()
    ensures { (entries : List AnyRelocation) → NewRoomsDiffer entries → HaveOneWaveEach entries }
{}
