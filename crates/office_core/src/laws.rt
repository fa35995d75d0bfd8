//! A theorem that holds for every office and command. A function with an empty body has the theorem as its contract.
ghost use Rattle.std.specs.Prelude.{◌≡◌, true, false, None};
ghost use Rattle.office_state.specs.Office.Phases.{has_results};
ghost use Rattle.office_state.specs.declared.office.Office.{Office};
ghost use Rattle.office_core.specs.Command.{accepts, next};
ghost use Rattle.office_core.specs.Laws.{KeepsResults, ends_round, replaces_details};
ghost use Rattle.office_core.specs.declared.command.Command.{Command};

/// While a round has results, an accepted command other than `Settle` and `Cancel` does not end the round. The
/// command changes none of these: the rooms, who is in the register, the homes, the grades, and the round's number,
/// lists, withdrawals, departing tenants, lottery numbers and results. Only `SetName` and `SetKey` change a person's
/// name or key.
pub fn results_stay_until_the_end()
    ensures { (office : Office) (command : Command) → has_results office.phase ≡ true
        → accepts office command ≡ None → ends_round command ≡ false
        → KeepsResults (replaces_details command) office (next office command) }
{}
