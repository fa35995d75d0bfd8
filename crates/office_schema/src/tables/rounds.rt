//! The table of the round, which has one row.
ghost use Rattle.std.specs.Prelude.{◌≡◌, IfSome, MatchOption};
ghost use Rattle.sqlite_value.specs.Order.{column};
ghost use Rattle.sqlite_value.specs.declared.value.Value.TheVariants.{Text as text_value};
ghost use Rattle.room_types.specs.Phases.{phase_text};
ghost use Rattle.room_types.specs.declared.phase.Phase.{Phase as phase};
ghost use Rattle.office_schema.specs.cells.Cells.{IsPhase};
ghost use Rattle.office_schema.specs.rows.Tables.{own_version};
ghost use Rattle.office_schema.specs.tables.Edits.{with_first_round, with_round, with_version};
ghost use Rattle.office_schema.specs.tables.Runs.{Edits};

use crate::cells::values::{str_in, u16_in};
use crate::rows::RoundRecord;
use crate::tables::layouts::Layout;
use crate::tables::running::run;
use crate::tables::table_rows::TableRow;
use room_types::{OutOfMemory, Phase};
use sqlite::{Alter, Error, Row, Transaction, params};
use std::alloc::Global;

// Parses the name of a phase, as `Phase::as_str` returns it. Returns `None` for any other text.
fn parse_phase(text: &str) -> Option<Phase>
    ensures { MatchOption result ((p : phase) → text.now ≡ phase_text p → ⊥)
        (λ p. text.now ≡ phase_text p) }
{
    if text == Phase::Idle.as_str() {
        return Some(Phase::Idle);
    }
    if text == Phase::Opened.as_str() {
        return Some(Phase::Opened);
    }
    if text == Phase::Closed.as_str() {
        return Some(Phase::Closed);
    }
    if text == Phase::Drawn.as_str() {
        return Some(Phase::Drawn);
    }
    if text == Phase::Ran.as_str() {
        return Some(Phase::Ran);
    }
    if text == Phase::Published.as_str() {
        return Some(Phase::Published);
    }
    None
}

// Reads a column as a phase.
fn phase_in(row: &Row, at: usize) -> Option<Phase>
    ensures returned { MatchOption result (¬ IsPhase (column row.now at))
        (λ p. column row.now at ≡ text_value (phase_text p)) }
    ensures formed { IfSome result (λ _. IsPhase (column row.now at)) }
{
    let Some(text) = str_in(row, at) else {
        return None;
    };
    parse_phase(text)
}

impl TableRow for RoundRecord {
    ghost use Rattle.office_schema.specs.cells.Allocation.{IsNever};
    ghost use Rattle.office_schema.specs.cells.Columns.{round_shown, three, round_columns};
    ghost use Rattle.office_schema.specs.cells.Forms.{IsRoundRow};
    ghost use Rattle.office_schema.specs.declared.tables.names.TableName.TheVariants.{Rounds};

    ghost is_form = { IsRoundRow };

    ghost front = { three };

    ghost columns = { round_shown };

    ghost may_allocate = { IsNever };

    ghost name = { Rounds };

    ghost kept = { round_columns };

    fn from_row(_alloc: Global, row: &Row) -> Result<Option<RoundRecord>, OutOfMemory> {
        let Some(version) = u16_in(row, 0) else {
            return Ok(None);
        };
        let Some(number) = u16_in(row, 1) else {
            return Ok(None);
        };
        let Some(phase) = phase_in(row, 2) else {
            return Ok(None);
        };
        Ok(Some(RoundRecord {
            version,
            number,
            phase,
        }))
    }

    fn query() -> &'static str {
        "SELECT version, number, phase FROM round"
    }

    fn is_in(_layout: Layout) -> bool {
        true
    }
}

/// Adds the row of table `round`, with the version that this program creates. Fails if the table has a row already.
pub fn add_round<S: Alter>(
    tx: &mut Transaction<'_, S>,
    number: u16,
    phase: Phase,
) -> Result<(), Error>
    ensures { Edits S.Store tx.old tx.new result (with_first_round number phase) }
{
    run(
        tx,
        "INSERT INTO round(one, version, number, phase) VALUES (1, 3, ?1, ?2)",
        params![u32::from(number), phase.as_str()],
    )
}

/// Sets the number and the phase of the round.
pub fn set_round<S: Alter>(
    tx: &mut Transaction<'_, S>,
    number: u16,
    phase: Phase,
) -> Result<(), Error>
    ensures { Edits S.Store tx.old tx.new result (with_round number phase) }
{
    run(
        tx,
        "UPDATE round SET number = ?1, phase = ?2",
        params![u32::from(number), phase.as_str()],
    )
}

/// Sets the version in table `round` to the version that this program creates.
pub fn set_version<S: Alter>(tx: &mut Transaction<'_, S>) -> Result<(), Error>
    ensures { Edits S.Store tx.old tx.new result (with_version own_version) }
{
    run(tx, "UPDATE round SET version = 3", &[])
}
