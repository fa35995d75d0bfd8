//! Reads the round from the only row of table `round`.
ghost use Rattle.office_schema.specs.rows.Reads.{Reads};
ghost use Rattle.office_schema.specs.rows.Rows.{IsOfVersion, only_row};

use crate::rows::records::RoundRecord;

/// Returns the row if there is exactly one row and its version is `version`. Otherwise returns `None`.
pub fn read_round(rows: &[RoundRecord], version: u16) -> Option<RoundRecord>
    ensures { Reads (IsOfVersion version) only_row rows.now result }
{
    if rows.len() != 1 {
        return None;
    }
    let row = rows[0];
    if row.version == version {
        Some(row)
    } else {
        None
    }
}
