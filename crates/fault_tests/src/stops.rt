//! Tests of offices in two files, one of which stops working at each of its calls in turn. After each stop the test
//! opens everything that may be left of the two files. The test must find the office as it is either before or
//! after the command that was stopped. If the command got a reply, the test must find the office after the command.
//! After a stopped migration, either all tables must be as before, or all must be of this version.
mod files;
mod served;
mod stories;
mod visits;

use crate::same::is_same_office;
use crate::stops::files::{Calls, StoppingFile, contents_left, files_of, is_working};
use crate::stops::stories::{
    Story, creation, imports, small_year, story_from_tables, year_of_leavers,
};
use crate::stops::visits::{Opening, Visit, Visited, visit_files};
use crate::tables::{EARLIER_FIRST, FIRST, SECOND, THIRD, Tables};
use office_state::Office;
use office_store::DeskFault;
use sqlite::Files;
use std::alloc::Global;
use std::io;
use std::process::Abort;
use std::test::Fail;

// No story makes this many calls of a file.
const MOST_CALLS: u64 = 5_000;

// How far a run of a story came, and its files.
#[derive(Drop)]
struct Ran {
    observed: Observed,
    files: Files<StoppingFile>,
}

// How far a run of a story came, as the caller saw it.
#[derive(Clone, Copy, Drop)]
struct Observed {
    // The fault, or `None` if there was a desk.
    fault: Option<DeskFault>,
    // The number of requests that got a reply.
    answered: usize,
}

impl Observed {
    // Whether there was a desk.
    fn is_open(self) -> bool {
        self.fault.is_none()
    }
}

// `stops` counts the runs in which a file stopped, and `found` counts the contents of files that were opened after
// runs. `after` counts those contents that have the effect of the command or migration without an answer. `before`
// counts those that do not have it.
#[derive(Clone, Copy, Drop)]
struct Count {
    stops: usize,
    found: usize,
    after: usize,
    before: usize,
}

const NONE: Count = Count {
    stops: 0,
    found: 0,
    after: 0,
    before: 0,
};

#[test]
fn creates_an_office_whole_or_not_at_all(rt: HostRuntime) -> Result<(), Fail> {
    let story = creation(rt.alloc()).expect(&rt, "no office is made");
    let count = both_stopped(rt.alloc(), &story).expect(&rt, "a new office");
    assert!(rt; count.stops > 0 && count.found > count.stops);
    print_count(&rt, "a new office", count)?;
    Ok(())
}

#[test]
fn stores_each_command_whole(rt: HostRuntime) -> Result<(), Fail> {
    let story = small_year(rt.alloc()).expect(&rt, "memory");
    let count = both_stopped(rt.alloc(), &story).expect(&rt, "a small year");
    assert!(rt; is_on_both_sides(count));
    print_count(&rt, "a small year", count)?;
    Ok(())
}

#[test]
fn stores_leavers_whole(rt: HostRuntime) -> Result<(), Fail> {
    let story = year_of_leavers(rt.alloc()).expect(&rt, "memory");
    let count = both_stopped(rt.alloc(), &story).expect(&rt, "a year of leavers");
    assert!(rt; is_on_both_sides(count));
    print_count(&rt, "a year of leavers", count)?;
    Ok(())
}

#[test]
fn migrates_earlier_versions_whole(rt: HostRuntime) -> Result<(), Fail> {
    for (what, tables) in [
        ("version 1", FIRST),
        ("version 2", SECOND),
        ("the documented order", THIRD),
    ] {
        let count = count_from_tables(&rt, rt.alloc(), &tables);
        assert!(rt; is_on_both_sides(count));
        print_count(&rt, what, count)?;
    }
    Ok(())
}

// This is a test of its own, because each test has its own time limit.
#[test]
fn migrates_tables_of_the_earlier_program_whole(rt: HostRuntime) -> Result<(), Fail> {
    let count = count_from_tables(&rt, rt.alloc(), &EARLIER_FIRST);
    assert!(rt; is_on_both_sides(count));
    print_count(&rt, "version 1 of this program", count)?;
    Ok(())
}

fn count_from_tables(rt: &impl Abort, alloc: Global, tables: &Tables) -> Count {
    let story = story_from_tables(alloc, tables).expect(rt, "no tables are made");
    both_stopped(alloc, &story).expect(rt, "tables")
}

#[test]
fn stores_imports_whole(rt: HostRuntime) -> Result<(), Fail> {
    let story = imports(rt.alloc()).expect(&rt, "no lists come in");
    let count = both_stopped(rt.alloc(), &story).expect(&rt, "lists");
    assert!(rt; is_on_both_sides(count));
    print_count(&rt, "lists", count)?;
    Ok(())
}

// Whether the counts include offices with the effect of an unanswered command and offices without it. There must also
// be stops, and more contents opened than stops.
fn is_on_both_sides(count: Count) -> bool {
    count.stops > 0 && count.found > count.stops && count.after > 0 && count.before > 0
}

// Prints the counts, which `bench/stops.sh` adds up.
fn print_count(rt: &HostRuntime, what: &str, count: Count) -> io::Result<()> {
    println!(rt;
        "{what}: {} stops, {} offices looked at, {} of them after a command that was not answered",
        count.stops, count.found, count.after
    )
}

// Runs the story while its log stops, and then while its database file stops. Adds up the counts.
fn both_stopped(alloc: Global, story: &Story) -> Result<Count, &'static str> {
    let count = each_stopped(alloc, story, true, NONE)?;
    each_stopped(alloc, story, false, count)
}

// Runs the story again and again: the file stops at its first call, then at its second, and so on. Ends after the run
// in which all requests get a reply and both files still work. The log stops if `is_log`, and otherwise the database
// file.
fn each_stopped(
    alloc: Global,
    story: &Story,
    is_log: bool,
    mut count: Count,
) -> Result<Count, &'static str> {
    for passed in 0..MOST_CALLS {
        let mut ran = run(alloc, story, calls_of(is_log, passed)).ok_or("out of memory")?;
        if !may_be_unavailable(ran.observed) {
            return Err("a file that stops is refused for another cause");
        }
        let is_whole = is_whole(story, &mut ran);
        count = looked_at(alloc, story, ran, count)?;
        if is_whole {
            return Ok(count);
        }
        count.stops = count.stops.saturating_add(1);
    }
    Err("the file is called without end")
}

// Whether the run got a desk, or got none because of the fault `Unavailable`. No other fault is allowed, not even if
// the tables can be read but not migrated.
fn may_be_unavailable(observed: Observed) -> bool {
    matches!(observed.fault, None | Some(DeskFault::Unavailable))
}

fn calls_of(is_log: bool, passed: u64) -> Calls {
    if is_log {
        Calls {
            log: passed,
            database: u64::MAX,
        }
    } else {
        Calls {
            log: u64::MAX,
            database: passed,
        }
    }
}

// Whether the run got a desk and a reply to each request, and both files still work.
fn is_whole(story: &Story, ran: &mut Ran) -> bool {
    ran.observed.is_open()
        && ran.observed.answered == story.requests.len()
        && is_working(&mut ran.files.log)
        && is_working(&mut ran.files.db)
}

fn run(alloc: Global, story: &Story, calls: Calls) -> Option<Ran> {
    let held = &story.held;
    let files = files_of(alloc, held.log.as_slice(), held.database.as_slice(), calls)?;
    let asking = Visit {
        opening: story.opening,
        requests: &story.requests,
        is_read: false,
    };
    let (visited, files) = visit_files(alloc, files, asking);
    let observed = Observed {
        fault: visited.fault,
        answered: visited.answered,
    };
    Some(Ran { observed, files })
}

// Opens each content that may be left of the log with each one that may be left of the database file. Counts the
// offices found, and fails at one that the story does not allow.
fn looked_at(
    alloc: Global,
    story: &Story,
    ran: Ran,
    mut count: Count,
) -> Result<Count, &'static str> {
    let Ran {
        observed,
        files: Files { log, db },
    } = ran;
    let logs = contents_left(alloc, log).ok_or("out of memory")?;
    let databases = contents_left(alloc, db).ok_or("out of memory")?;
    for log in &logs {
        count = looked_at_with(alloc, story, observed, log.as_slice(), &databases, count)?;
    }
    Ok(count)
}

// Opens this log with each of the database files. Counts the offices found, and fails at one that the story does not
// allow.
fn looked_at_with(
    alloc: Global,
    story: &Story,
    observed: Observed,
    log: &[u8],
    databases: &[Vec<u8>],
    mut count: Count,
) -> Result<Count, &'static str> {
    for database in databases {
        count = found_judged(alloc, story, observed, log, database.as_slice(), count)?;
    }
    Ok(count)
}

// Opens this log with this database file. Counts the office found, or fails if the story does not allow it.
fn found_judged(
    alloc: Global,
    story: &Story,
    observed: Observed,
    log: &[u8],
    database: &[u8],
    count: Count,
) -> Result<Count, &'static str> {
    let found = office_in(alloc, log, database, Opening::Held).ok_or("out of memory")?;
    if is_earlier(&found) && story.opening == Opening::Earlier && !observed.is_open() {
        let found = office_in(alloc, log, database, Opening::Earlier).ok_or("out of memory")?;
        return earlier_judged(story, &found, count);
    }
    judged(story, observed, &found, count)
}

// Whether opening failed because the tables are of an earlier version.
fn is_earlier(found: &Result<Office, DeskFault>) -> bool {
    matches!(found, Err(DeskFault::OtherVersion(1 | 2)))
}

// Counts the migrated office as one from before the migration. Fails if it is not the office at the start of the
// story.
fn earlier_judged(
    story: &Story,
    found: &Result<Office, DeskFault>,
    mut count: Count,
) -> Result<Count, &'static str> {
    match found {
        Ok(found) if is_nth(story, 0, found) => {
            count.found = count.found.saturating_add(1);
            count.before = count.before.saturating_add(1);
            Ok(count)
        }
        _ => Err("the tables of the earlier version are lost"),
    }
}

// Opens files with these bytes. Returns the office, or the fault if there is no desk or no office can be loaded.
// Returns `None` if the files cannot be allocated.
fn office_in(
    alloc: Global,
    log: &[u8],
    database: &[u8],
    opening: Opening,
) -> Option<Result<Office, DeskFault>> {
    let files = files_of(alloc, log, database, Calls::ALL)?;
    let reading = Visit {
        opening,
        requests: &[],
        is_read: true,
    };
    let (visited, _files) = visit_files(alloc, files, reading);
    Some(office_read(visited))
}

fn office_read(visited: Visited) -> Result<Office, DeskFault> {
    match (visited.office, visited.fault) {
        (Some(office), _) => Ok(office),
        (None, Some(fault)) => Err(fault),
        (None, None) => Err(DeskFault::Unavailable),
    }
}

// Counts the office found, or fails if the story does not allow it.
fn judged(
    story: &Story,
    observed: Observed,
    found: &Result<Office, DeskFault>,
    mut count: Count,
) -> Result<Count, &'static str> {
    count.found = count.found.saturating_add(1);
    let Ok(found) = found else {
        return fault_judged(story, observed, found, count);
    };
    if is_unreported_migration(story, observed) && is_nth(story, 0, found) {
        count.after = count.after.saturating_add(1);
        return Ok(count);
    }
    if is_nth(story, observed.answered, found) {
        count.before = count.before.saturating_add(1);
        return Ok(count);
    }
    if observed.is_open() && is_nth(story, observed.answered.saturating_add(1), found) {
        count.after = count.after.saturating_add(1);
        return Ok(count);
    }
    Err("the office is neither the one before the command nor the one after it")
}

// Whether the story migrates tables of an earlier version, and the caller got no desk.
fn is_unreported_migration(story: &Story, observed: Observed) -> bool {
    story.opening == Opening::Earlier && !observed.is_open()
}

// Allows that the files hold no office, if the story creates one and the caller got no desk. Fails otherwise.
fn fault_judged(
    story: &Story,
    observed: Observed,
    found: &Result<Office, DeskFault>,
    count: Count,
) -> Result<Count, &'static str> {
    let is_absent = matches!(found, Err(DeskFault::NotAnOffice));
    if is_absent && story.opening == Opening::Made && !observed.is_open() {
        Ok(count)
    } else {
        Err("the office is lost")
    }
}

// Whether this is the office after the first `made` requests of the story.
fn is_nth(story: &Story, made: usize, found: &Office) -> bool {
    match story.offices.get(made) {
        Some(office) => is_same_office(office, found),
        None => false,
    }
}
