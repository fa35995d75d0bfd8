//! A problem: who lives where, and what each person lists.
ghost use Rattle.std.specs.Prelude.{◌≡◌, ◌<◌, All, IfOk, IfErr, OnOk};
ghost use Rattle.trade_line.specs.Market.{Market, IsMarket, home, list_of, tenant_of};
ghost use Rattle.trade_line.specs.Problem.{market_of, IsFirstFault};
ghost use Rattle.trade_line.specs.OtherList.{with_list, IsListFor, IsFirstListFault};
ghost use Rattle.trade_line.specs.Inner.Draft.{market_from};
ghost use Rattle.trade_line.specs.Inner.Tenants.{IsTenants};

use crate::draft::{Draft, is_distinct, is_list_known, lacks};
use crate::fault::TradeFault;
use crate::flat_lists::FlatLists;
use std::alloc::Global;
use std::marker::Model;

/// A well-formed problem of room exchange (Abdulkadiroglu and Sönmez 1999). People are numbered from 0 in priority
/// order, and rooms are numbered from 0.
#[derive(Drop)]
pub struct Problem {
    order_len: usize,
    room_count: usize,
    homes: Vec<Option<usize>>,
    lists: FlatLists,
    tenants: Vec<Option<usize>>,
}

impl Model for Problem {
    ghost Value = { Market };

    ghost view = { λ p. market_from p.order_len p.room_count p.homes.items p.lists };

    ghost invariant = { λ p. IsMarket (market_from p.order_len p.room_count p.homes.items p.lists)
        × IsTenants (market_from p.order_len p.room_count p.homes.items p.lists) p.tenants.items };
}

impl Problem {
    /// Creates the problem of `order_len` people and `room_count` rooms. For each person, in priority order, `homes`
    /// has the room where they live, if any, and `lists` has the rooms that they list, best first. Takes time linear
    /// in people, rooms and list entries.
    ///
    /// # Errors
    ///
    /// The first fault in the order of `TradeFault`: the call checks each rule for all people before it checks the
    /// next. A well-formed problem breaks no rule, so the call refuses it only with `OutOfMemory`. `OutOfMemory` may
    /// come in place of success or of any fault but `BadIndex`, because the call checks indices before it allocates.
    pub fn new(
        alloc: Global,
        order_len: usize,
        room_count: usize,
        homes: Vec<Option<usize>>,
        lists: Vec<Vec<usize>>,
    ) -> Result<Self, TradeFault>
        ensures problem { IfOk result
            (λ p. p ≡ market_of order_len room_count homes.items lists.items) }
        ensures well_formed { OnOk result
            (IsMarket (market_of order_len room_count homes.items lists.items)) }
        ensures first_fault { IfErr result
            (IsFirstFault (market_of order_len room_count homes.items lists.items)) }
    {
        let draft = Draft {
            order_len,
            room_count,
            homes,
            lists,
        };
        if !draft.is_indexed() {
            return Err(TradeFault::BadIndex);
        }
        let tenants = draft.tenants(alloc)?;
        if !draft.are_lists_strict(alloc)? {
            return Err(TradeFault::ListRepeats);
        }
        if !draft.is_own_unlisted() {
            return Err(TradeFault::OwnRoomListed);
        }
        let lists = FlatLists::copied(alloc, &draft.lists)?;
        Ok(Problem {
            order_len: draft.order_len,
            room_count: draft.room_count,
            homes: draft.homes,
            lists,
            tenants,
        })
    }

    /// Returns the number of people.
    pub fn people(&self) -> usize
        ensures count { result ≡ self.now.people }
        ensures market { IsMarket self.now }
    {
        self.order_len
    }

    /// Returns the number of rooms.
    pub fn rooms(&self) -> usize
        ensures { result ≡ self.now.rooms }
    {
        self.room_count
    }

    // Returns where the person lives, if anywhere.
    pub(crate) fn home_of(&self, person: usize) -> Option<usize>
        requires { person < self.now.people }
        ensures home { result ≡ home self.now person }
        ensures market { IsMarket self.now }
    {
        self.homes[person]
    }

    // Returns who lives in the room, if anybody.
    pub(crate) fn tenant_of(&self, room: usize) -> Option<usize>
        requires { room < self.now.rooms }
        ensures { result ≡ tenant_of self.now room }
    {
        self.tenants[room]
    }

    // Checks that the person can hand in the list. Returns the first fault if they cannot, or `OutOfMemory` if the
    // allocation fails.
    fn check_list(&self, alloc: Global, person: usize, list: &[usize]) -> Result<(), TradeFault>
        ensures fits { OnOk result (IsListFor self.now person list.now) }
        ensures first_fault { IfErr result (IsFirstListFault self.now person list.now) }
    {
        if person >= self.order_len || !is_list_known(list, self.room_count) {
            return Err(TradeFault::BadIndex);
        }
        let nobody = self.order_len;
        let mut last = vec![in alloc; nobody; self.room_count]?;
        if !is_distinct(list, person, &mut last) {
            return Err(TradeFault::ListRepeats);
        }
        if !lacks(list, self.homes[person]) {
            return Err(TradeFault::OwnRoomListed);
        }
        Ok(())
    }

    // Checks the list as `check_list` does, and then copies the problem with `list` as the person's list.
    pub(crate) fn with_list(
        &self,
        alloc: Global,
        person: usize,
        list: Vec<usize>,
    ) -> Result<Self, TradeFault>
        ensures changed { IfOk result (λ p. p ≡ with_list self.now person list.items) }
        ensures market { OnOk result (IsMarket self.now) }
        ensures fits { OnOk result (IsListFor self.now person list.items) }
        ensures first_fault { IfErr result (IsFirstListFault self.now person list.items) }
    {
        self.check_list(alloc, person, &list)?;
        let homes = Vec::from_slice(alloc, &self.homes)?;
        let tenants = Vec::from_slice(alloc, &self.tenants)?;
        let lists = self.lists.with_list(alloc, person, &list)?;
        Ok(Problem {
            order_len: self.order_len,
            room_count: self.room_count,
            homes,
            lists,
            tenants,
        })
    }

    // Returns the rooms that the person lists, best first.
    pub(crate) fn list(&self, person: usize) -> &[usize]
        requires { person < self.now.people }
        ensures list { result.now ≡ list_of self.now person }
        ensures known { All (λ r. r < self.now.rooms) result.now }
    {
        self.lists.list(person)
    }
}
