//! Theorems about the round and its results. The contract of each function states a theorem, and the function does
//! nothing.
ghost use Rattle.std.specs.Prelude.{◌≡◌, None, true, List, map as map_list};
ghost use Rattle.std.specs.FinMap as map;
ghost use Rattle.room_types.specs.Choices.{IsChoices};
ghost use Rattle.room_types.specs.Texts.{Text};
ghost use Rattle.trade_line.specs.Market.{IsMarket};
ghost use Rattle.office_state.specs.declared.office.Office.{Office};
ghost use Rattle.office_state.specs.Office.Invariants.{IsLawful};
ghost use Rattle.office_state.specs.Office.{is_going, participants, recorded_result};
ghost use Rattle.office_state.specs.Office.Phases.{has_results};
ghost use Rattle.office_state.specs.Round.{is_participant, result_by, result_of, round_market, round_results};
ghost use Rattle.office_state.specs.Round.Laws.{UngradedGoesByWord, HaveSameEntries, HaveSameRound, IsWellTraded};
ghost use Rattle.office_state.specs.Round.Settlement.{OnlyLeaversMoveOut};
ghost use Rattle.office_state.specs.Puts.{with_all};
ghost use Rattle.office_state.specs.Round.Lists.{IsStrategyproofFor, IsGroupStrategyproofFor, IsNonbossyFor, with_choices_of};

/// In a lawful office the round's problem is well formed, and top trading cycles give an assignment of the round's
/// rooms. The assignment is individually rational: nobody ranks what they get below their home, or below no room if
/// they have no home. It is Pareto efficient: no other assignment makes somebody better off and nobody worse. No
/// group of tenants has a better trade of its own rooms: if a trade makes one member better off, it makes another
/// member worse off.
pub fn well_traded_rounds()
    ensures well_formed { (office : Office) → IsLawful office → IsMarket (round_market office) }
    ensures traded { (office : Office) → IsLawful office → IsWellTraded office (result_of office) }
{}

/// In each lawful office whose rooms are traded, the recorded results are an assignment with the same properties: it
/// is individually rational and Pareto efficient, and no group of tenants has a better trade of its own rooms.
pub fn well_traded_results()
    ensures { (office : Office) → IsLawful office → has_results office.phase ≡ true
        → IsWellTraded office (recorded_result office) }
{}

/// Strategy-proofness: no participant can gain by handing in another list while all others keep theirs. The recorded
/// list of a participant ranks the recorded result at least as high as the result that another list would bring them
/// (Roth 1982; Abdulkadiroglu and Sönmez 1999). The clause `by_another` says which result that is: the round's result
/// for them if the other list is recorded in place of theirs.
pub fn strategyproof()
    ensures best { (office : Office) → IsLawful office → has_results office.phase ≡ true
        → IsStrategyproofFor office (recorded_result office) }
    ensures by_another { (office : Office) → IsLawful office
        → (person : Text) (codes : List Text)
        → is_participant office person ≡ true → IsChoices codes
        → result_by office person codes ≡ result_of (with_choices_of office person codes) person }
{}

/// Group strategy-proofness: suppose that a group of participants hands in other lists together, and all others keep
/// theirs. If every member, by their recorded list, ranks the new result at least as high as the recorded one, then
/// every participant, in the group or not, gets their recorded result (Bird 1984; Pápai 2000).
pub fn group_strategyproof()
    ensures { (office : Office) → IsLawful office → has_results office.phase ≡ true
        → IsGroupStrategyproofFor office (recorded_result office) }
{}

/// Nonbossiness: suppose that a participant hands in another list and still gets their recorded result. Then every
/// other participant also gets their recorded result (Satterthwaite and Sonnenschein 1981; Pápai 2000).
pub fn nonbossy()
    ensures { (office : Office) → IsLawful office → has_results office.phase ≡ true
        → IsNonbossyFor office (recorded_result office) }
{}

/// A round has a result for each participant, and for nobody else. The map of results holds them in order of
/// identifier. Inserting its entries one by one into the empty map gives the same map.
pub fn participant_results()
    ensures each { (office : Office) (person : Text) →
        map.contains_key (round_results office) person ≡ is_participant office person }
    ensures by_identifier { (office : Office) → map.entries (round_results office)
        ≡ map_list (λ person. (person, record { room = result_of office person }))
        (participants office) }
    ensures in_turn { (office : Office) →
        with_all map.empty (map.entries (round_results office)) ≡ round_results office }
{}

/// Two offices have the same round if they have the same rooms, people, homes, lists, withdrawals, words and grades, and
/// the same people leave the college. So a round's people, rooms, problem and results do not depend on names and keys,
/// nor on the office's phase, round number, recorded results, moves and imports.
pub fn same_round()
    ensures { (one other : Office) → HaveSameEntries one other → HaveSameRound one other }
{}

/// If nobody has a recorded grade, the round orders the participants by word, and by identifier if words are equal.
/// The round's people, problem and results are those that this order gives.
pub fn order_without_grades()
    ensures { UngradedGoesByWord }
{}

/// In a lawful office, people who leave the college have no room as their recorded result. Once the rooms are traded,
/// everybody else whose home the settlement changes gets a new room.
pub fn only_leavers_move_out()
    ensures no_room { (office : Office) (person : Text) → IsLawful office
        → is_going office person ≡ true → recorded_result office person ≡ None }
    ensures nobody_else { (office : Office) → IsLawful office → has_results office.phase ≡ true
        → OnlyLeaversMoveOut office }
{}
