//! Theorems about the definitions, for every market. Each contract is the theorem; the function does nothing.
ghost use Rattle.std.specs.Prelude.{◌≡◌, ℕ, ◌<◌, Bool, Option, List, ◌∷◌};
ghost use Rattle.trade_line.specs.Core.{HasNoVacantRoom, IsUniqueInStrictCore, IsStrictCoreByTradesApart, KeepsSelfContained};
ghost use Rattle.trade_line.specs.Cycles.{AreCycles, IsChain, IsLoop, IsStageOf, LeavesOtherCycles};
ghost use Rattle.trade_line.specs.Groups.{IsGroupStrategyproof, IsNonbossy};
ghost use Rattle.trade_line.specs.Market.{Market, IsMarket};
ghost use Rattle.trade_line.specs.Member.{among};
ghost use Rattle.trade_line.specs.OtherList.{IsStrategyproof};
ghost use Rattle.trade_line.specs.Removals.{IsGivenByRemovals};
ghost use Rattle.trade_line.specs.TopTradingCycles.{Stage, gets, start};

/// Strategy-proofness: nobody gains by handing in another list (Roth 1982; Abdulkadiroglu and Sönmez 1999). Suppose
/// that one person hands in another list and all others keep theirs. The person's own list does not rank the new
/// result above the result with the own list.
pub fn strategyproof()
    ensures { (m : Market) → IsMarket m → IsStrategyproof m }
{}

/// Group strategy-proofness (Bird 1984; Pápai 2000): suppose that a group hands in other lists together and all
/// others keep theirs. A member of the group loses if their recorded list ranks the new result below the result with
/// the recorded lists. If no member loses, then everybody, in the group or not, gets the same as with the recorded
/// lists.
pub fn group_strategyproof()
    ensures { (m : Market) → IsMarket m → IsGroupStrategyproof m }
{}

/// Nonbossiness: if a person hands in another list and still gets the same, then everybody else gets the same too
/// (Satterthwaite and Sonnenschein 1981; Pápai 2000).
pub fn nonbossy()
    ensures { (m : Market) → IsMarket m → IsNonbossy m }
{}

/// If somebody lives in each room, top trading cycles give the only assignment in the strict core (Roth and
/// Postlewaite 1977). An assignment is in the strict core if no group of tenants can trade their own homes among
/// themselves so that none of them loses and one of them gains.
pub fn unique_strict_core()
    ensures { (m : Market) → IsMarket m → HasNoVacantRoom m → IsUniqueInStrictCore m (gets m) }
{}

/// In any market, take a group of tenants who get one another's homes by top trading cycles. Suppose that each of
/// them ranks only homes of the group above what they get. Then each assignment in the strict core gives each of them
/// what top trading cycles give them.
pub fn self_contained_groups()
    ensures { (m : Market) → IsMarket m → KeepsSelfContained m (gets m) }
{}

/// A group of tenants trades apart if its members exchange their own homes among themselves. An assignment is in the
/// strict core if and only if no group has a better trade apart than the assignment (`HasNoBetterTradeApart`).
pub fn strict_core_equivalence()
    ensures { (m : Market) → IsMarket m → IsStrictCoreByTradesApart m }
{}

/// A stage is the people and the rooms that remain. If people leave a stage in whole cycles, with the rooms that they
/// wish for, they do not affect the other cycles. Everybody else on a cycle keeps their wish, points to the same
/// person, and is still on a cycle.
pub fn other_cycles_stay()
    ensures { (m : Market) (s : Stage) (group : ℕ → Bool) → IsStageOf m s → AreCycles m s group
        → LeavesOtherCycles m s group }
{}

/// Whole cycles may be removed in any order, one group at a time. Each series of removals that continues until nobody
/// remains gives what top trading cycles give. Such a series exists.
pub fn any_removal_order()
    ensures same { (m : Market) (f : ℕ → Option ℕ) → IsGivenByRemovals m f (start m)
        → (p : ℕ) → p < m.people → f p ≡ gets m p }
    ensures given { (m : Market) → IsGivenByRemovals m (gets m) (start m) }
{}

/// Take a list of people who remain at a stage. If each wishes for the home of the next, and the last for the home of
/// the first, they form whole cycles of the stage.
pub fn loops_are_cycles()
    ensures { (m : Market) → IsMarket m → (s : Stage) → IsStageOf m s
        → (person : ℕ) (others : List ℕ) → IsLoop m s person others
        → AreCycles m s (among (person ∷ others)) }
{}

/// Take a list of people who remain at a stage. Suppose that each wishes for the home of the next, and the last for a
/// room without a remaining tenant. If the first of them is also first in priority of all who remain, they form whole
/// cycles of the stage.
pub fn chains_are_cycles()
    ensures { (m : Market) → IsMarket m → (s : Stage) → IsStageOf m s
        → (person : ℕ) (others : List ℕ) → IsChain m s person others
        → AreCycles m s (among (person ∷ others)) }
{}
