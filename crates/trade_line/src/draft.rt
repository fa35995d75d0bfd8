//! A problem as the caller hands it in, not yet checked.
ghost use Rattle.std.specs.Prelude.{◌≡◌, ◌≢◌, ◌<◌, ◌↔◌, ◌⊎◌, ℕ, All, AllPairs, IsTrue, IfOk, IfErr};
ghost use Rattle.std.specs.Prelude.{IfSome, OnOk, length, slice_index_or};
ghost use Rattle.trade_line.specs.Market.{IsIndexed, HomesDiffer, ListsAreStrict, OwnUnlisted};
ghost use Rattle.trade_line.specs.Problem.{IsFirstFault};
ghost use Rattle.trade_line.specs.Inner.Draft.{drafted};
ghost use Rattle.trade_line.specs.Inner.Tenants.{IsTenants};

use crate::fault::TradeFault;
use crate::out_of_memory::OutOfMemory;
use std::alloc::Global;

// The arguments of `Problem::new`: the numbers of people and rooms, and each person's home and list.
#[derive(Drop)]
pub(crate) struct Draft {
    pub(crate) order_len: usize,
    pub(crate) room_count: usize,
    pub(crate) homes: Vec<Option<usize>>,
    pub(crate) lists: Vec<Vec<usize>>,
}

// Returns whether each home is below `room_count`.
fn are_homes_known(homes: &[Option<usize>], room_count: usize) -> bool
    ensures { IsTrue result ↔ All (λ home. IfSome home (λ room. room < room_count)) homes.now }
{
    homes.iter().all(|home| match home {
        Some(room) => *room < room_count,
        None => true,
    })
}

// Returns whether each room of the list is below `room_count`.
pub(crate) fn is_list_known(list: &[usize], room_count: usize) -> bool
    ensures { IsTrue result ↔ All (λ room. room < room_count) list.now }
{
    list.iter().all(|room| *room < room_count)
}

// Returns whether each room of each list is below `room_count`.
fn are_lists_known(lists: &[Vec<usize>], room_count: usize) -> bool
    ensures { IsTrue result ↔ All (λ list. All (λ room. room < room_count) list.items) lists.now }
{
    lists.iter().all(|list| is_list_known(list, room_count))
}

// Returns whether the list has no room twice. For each room, `last` has the last person on whose list the room was
// read. The call sets the entry of each room that it reads to `person`.
pub(crate) fn is_distinct(list: &[usize], person: usize, last: &mut [usize]) -> bool
    requires known { All (λ room. room < length last.old) list.now }
    requires unmarked { All (λ other. other ≢ person) last.old }
    ensures distinct { IsTrue result ↔ AllPairs ◌≢◌ list.now }
    ensures last { (r : ℕ) → r < length last.old
        → (slice_index_or last.new r 0 ≡ slice_index_or last.old r 0) ⊎ (slice_index_or last.new r 0 ≡ person) }
{
    for room in list {
        if last[*room] == person {
            return false;
        }
        last[*room] = person;
    }
    true
}

// Returns whether the list lacks the home. Without a home, returns true.
pub(crate) fn lacks(list: &[usize], home: Option<usize>) -> bool
    ensures { IsTrue result ↔ ((r : ℕ) → home ≡ Some r → All (λ room. room ≢ r) list.now) }
{
    match home {
        Some(own) => list.iter().all(|room| *room != own),
        None => true,
    }
}

impl Draft {
    // Returns whether there is one home entry and one list for each person, and each room is below the number of
    // rooms.
    pub(crate) fn is_indexed(&self) -> bool
        ensures { IsTrue result ↔ IsIndexed (drafted self.now) }
    {
        if self.homes.len() != self.order_len || self.lists.len() != self.order_len {
            return false;
        }
        are_homes_known(&self.homes, self.room_count)
            && are_lists_known(&self.lists, self.room_count)
    }

    // Returns the tenant of each room, if any. Returns `HomeShared` if two people have the same home, and
    // `OutOfMemory` if the allocation fails.
    pub(crate) fn tenants(&self, alloc: Global) -> Result<Vec<Option<usize>>, TradeFault>
        requires { IsIndexed (drafted self.now) }
        ensures tenants { IfOk result (λ tenants. IsTenants (drafted self.now) tenants.items) }
        ensures differ { OnOk result (HomesDiffer (drafted self.now)) }
        ensures fault { IfErr result (IsFirstFault (drafted self.now)) }
    {
        let mut tenants = vec![in alloc; None; self.room_count]?;
        for (person, home) in self.homes.iter().enumerate() {
            if let Some(room) = *home {
                if tenants[room].is_some() {
                    return Err(TradeFault::HomeShared);
                }
                tenants[room] = Some(person);
            }
        }
        Ok(tenants)
    }

    // Returns whether each list is strict, that is, has no room twice.
    pub(crate) fn are_lists_strict(&self, alloc: Global) -> Result<bool, OutOfMemory>
        requires { IsIndexed (drafted self.now) }
        ensures { IfOk result (λ strict. IsTrue strict ↔ ListsAreStrict (drafted self.now)) }
    {
        let nobody = self.lists.len();
        let mut last = vec![in alloc; nobody; self.room_count]?;
        for (person, list) in self.lists.iter().enumerate() {
            if !is_distinct(list, person, &mut last) {
                return Ok(false);
            }
        }
        Ok(true)
    }

    // Returns whether nobody lists their own home.
    pub(crate) fn is_own_unlisted(&self) -> bool
        requires { IsIndexed (drafted self.now) }
        ensures { IsTrue result ↔ OwnUnlisted (drafted self.now) }
    {
        for (person, list) in self.lists.iter().enumerate() {
            if !lacks(list, self.homes[person]) {
                return false;
            }
        }
        true
    }
}
