//! Refuses a list because the office refuses the command of one of its records.
ghost use Rattle.std.specs.Prelude.{◌≡◌, ◌<◌, ◌+◌};
ghost use Rattle.office_lists.specs.Records.{record_limit};
ghost use Rattle.office_core.specs.Inner.Tries.{denial_of};

use crate::refusal::Refusal;
use office_lists::Cause;

/// Returns the refusal of a list when the office refuses the command of one record with `refusal`. `index` is the
/// position of that record, where 0 is the first record after the header. `BadRecord` counts the header as record 0,
/// so its `at` is `index + 1`. Returns `OutOfMemory` unchanged.
pub(crate) fn denial_of(index: usize, refusal: &Refusal) -> Refusal
    requires { index < record_limit }
    ensures { result ≡ denial_of (index + 1) refusal.now }
{
    match refusal {
        Refusal::OutOfMemory => Refusal::OutOfMemory,
        refusal => Refusal::BadRecord {
            at: index as u32 + 1,
            cause: Cause::Denied(refusal.number()),
        },
    }
}
