//! What a person would get with another list.
ghost use Rattle.std.specs.Prelude.{◌≡◌, ◌≤◌, IfOk, IfErr, OnOk};
ghost use Rattle.trade_line.specs.OtherList.{with_list, IsListFor, IsFirstListFault};
ghost use Rattle.trade_line.specs.Rank.{rank};
ghost use Rattle.trade_line.specs.TopTradingCycles.{gets};

use crate::bench::Bench;
use crate::fault::TradeFault;
use crate::line::Line;
use crate::linked_line::LinkedLine;
use crate::problem::Problem;
use crate::trade::run;
use std::alloc::Global;

/// Returns the room that the person gets if they hand in `list` in place of their recorded list and all others keep
/// theirs. Returns `None` if the person then gets no room. The recorded list does not rank the result above what the
/// person gets with the recorded list.
///
/// # Errors
///
/// The first fault of the person or the list, in the order of `TradeFault`. `OutOfMemory` may come in place of
/// success or of any fault but `BadIndex`, because the call checks indices before it allocates.
pub fn run_with_list(
    alloc: Global,
    problem: &Problem,
    person: usize,
    list: Vec<usize>,
) -> Result<Option<usize>, TradeFault>
    ensures room { IfOk result
        (λ room. room ≡ gets (with_list problem.now person list.items) person) }
    ensures no_gain { IfOk result
        (λ room. rank problem.now person (gets problem.now person) ≤ rank problem.now person room) }
    ensures accepted { OnOk result (IsListFor problem.now person list.items) }
    ensures first_fault { IfErr result (IsFirstListFault problem.now person list.items) }
{
    let changed = problem.with_list(alloc, person, list)?;
    let line = LinkedLine::whole(alloc, changed.people())?;
    let bench = Bench::new(alloc, &changed)?;
    let outcome = run(&changed, line, bench);
    Ok(outcome.room_of(person))
}
