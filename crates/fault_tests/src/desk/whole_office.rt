//! The printed answers that show the whole office in an open round.
use crate::asserting::same_at;
use office_lines::rehearse::rehearse;
use office_store::Desk;
use room_types::Watched;
use sqlite::MemStore;
use std::alloc::Global;
use std::process::Abort;

/// The line that the office prints in place of T1's list if it has recorded none.
pub const NO_LIST: &str = "choices\n";

/// The line that the office prints for T1's list if T1 lists H2.
pub const LISTS_H2: &str = "choices H2\n";

// Lines that query the whole office: its rooms, people and round, and what each person sees.
const ASKS: &str = "rooms\npeople\nround\nme key00000000000t1\nme key00000000000t2\n";

// The printed answers before the line with T1's list.
const BEFORE_LIST: &str = "\
room      state     tenant\n\
H1        occupied  T1\n\
H2        occupied  T2\n\
V         free      none\n\
person        home      name\n\
T1            H1        Tim Tan\n\
T2            H2        Tom Tao\n\
round 1 open people 2 withdrawn 0\n\
person T1\n\
name Tim Tan\n\
home H1\n\
round 1 open\n";

// The printed answers after the line with T1's list.
const AFTER_LIST: &str = "\
withdrawn no\n\
going no\n\
result hidden\n\
person T2\n\
name Tom Tao\n\
home H2\n\
round 1 open\n\
choices H1\n\
withdrawn no\n\
going no\n\
result hidden\n";

/// Queries the whole office in its open round, and asserts the printed answers. `list` is the expected line with
/// T1's list. `case` is the note of the assertion.
pub fn is_as_expected(
    rt: &impl Abort,
    alloc: Global,
    desk: &mut Desk<MemStore>,
    list: &str,
    case: usize,
) {
    let wanted = format!(in alloc; "{BEFORE_LIST}{list}{AFTER_LIST}").expect(rt, "memory");
    let printed = printed(alloc, desk);
    same_at(rt, &printed.as_slice(), &wanted.as_bytes(), case);
}

// The printed answers to the lines of `ASKS`.
fn printed(alloc: Global, desk: &mut Desk<MemStore>) -> Vec<u8> {
    let mut input = Watched::new(ASKS.as_bytes());
    let mut output = Watched::new(Vec::new(alloc));
    let _how = rehearse(alloc, desk, &mut input, &mut output);
    output.into_inner()
}
