//! Theorems on what a crash leaves of an office. The contract of each function states a theorem, and the function does
//! nothing.
ghost use Rattle.office_store.specs.Crashes.{LeavesAfterRequest, LeavesAfterRun, LeavesNothingOnceClosed};
ghost use Rattle.office_store.specs.Crashes.{LeavesWhatIsShown};

use sqlite::Alter;

/// Theorem: while the connection of a desk is open, and shows what was committed last, a crash leaves the office that
/// the desk shows.
pub fn crash_leaves_what_is_shown<S: Alter>()
    ensures { LeavesWhatIsShown S.Store }
{}

/// Theorem: after a request, a crash leaves the office before the request or the office after it. Once a fault has
/// closed the connection, a further request adds nothing to what a crash may leave.
pub fn crash_leaves_before_or_after<S: Alter>()
    ensures request { LeavesAfterRequest S.Store }
    ensures closed { LeavesNothingOnceClosed S.Store }
{}

/// Theorem: after a run of requests over which the connection stayed open, a crash leaves the office after all of
/// them. If a fault closed the connection during one of the requests, a crash leaves the office before this request or
/// the office after it.
pub fn crash_leaves_a_run<S: Alter>()
    ensures { LeavesAfterRun S.Store }
{}
