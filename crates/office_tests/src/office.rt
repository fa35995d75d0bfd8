//! Tests that call `office_core` directly. They cover a home from the start, which no line of input can request, the
//! largest number of people, and a small round with a copy of the office after it.
ghost use Rattle.std.specs.Prelude.{◌≡◌, IfOk};
ghost use Rattle.office_state.specs.Change.{applied_all};
ghost use Rattle.office_state.specs.Office.Invariants.{IsLawful};

use crate::building::{choices, text};
use office_core::{Change, Command, Office, Query, Refusal, Reply, answer, apply, decide, sound};
use room_types::{ListKind, Listing, OutOfMemory, Phase, RoomCode, Wave, Word};
use std::alloc::{AllocError, Global};
use std::process::Abort;

// Carries the command out on a copy of the office and replaces the office by the copy. Fails if the command is
// refused.
fn carry_out(alloc: Global, office: &mut Office, command: &Command) -> Result<(), Refusal>
    requires { IsLawful office.old }
    ensures { IsLawful office.new }
{
    let decision = decide(alloc, office, command)?;
    *office = changed(office, &decision.changes)?;
    Ok(())
}

// Returns a copy of the office with the changes applied in turn.
fn changed(office: &Office, changes: &[Change]) -> Result<Office, OutOfMemory>
    ensures { IfOk result (λ next. next ≡ applied_all office.now changes.now) }
{
    let mut next = office.copy()?;
    for change in changes {
        apply(&mut next, change)?;
    }
    Ok(next)
}

// Carries the commands out in turn. Each must be accepted.
fn carry_out_all(rt: &impl Abort, alloc: Global, office: &mut Office, commands: &[Command])
    requires { IsLawful office.old }
    ensures { IsLawful office.new }
{
    for command in commands {
        carry_out(alloc, office, command).expect(rt, "a command that is accepted");
    }
}

// The command to add a person with a home from the start.
fn tenant(rt: &impl Abort, alloc: Global, id: &str, key: &str, home: &str) -> Command {
    Command::AddPerson {
        person: text(rt, alloc, id),
        name: text(rt, alloc, "Tim Tan"),
        key: text(rt, alloc, key),
        home: Some(text(rt, alloc, home)),
    }
}

// Adds two rooms, and a tenant in the first room.
fn furnish(rt: &impl Abort, alloc: Global, office: &mut Office)
    requires { IsLawful office.old }
    ensures { IsLawful office.new }
{
    let commands = [
        Command::AddRoom {
            room: text(rt, alloc, "H"),
        },
        Command::AddRoom {
            room: text(rt, alloc, "V"),
        },
        tenant(rt, alloc, "T", "key000000000000t", "H"),
    ];
    carry_out_all(rt, alloc, office, &commands);
}

// Returns the number of the refusal of the command, or 0 if the office accepts it.
fn refused(alloc: Global, office: &Office, command: &Command) -> u8
    requires { IsLawful office.now }
{
    match decide(alloc, office, command) {
        Ok(_) => 0,
        Err(refusal) => refusal.number(),
    }
}

// Returns the number of the refusal to add a newcomer with this home, or 0 if the office accepts the newcomer.
fn refused_home(rt: &impl Abort, alloc: Global, office: &Office, home: &str) -> u8
    requires { IsLawful office.now }
{
    let newcomer = tenant(rt, alloc, "P", "key000000000000p", home);
    refused(alloc, office, &newcomer)
}

// The office refuses an unknown home, a shut one, and one in which a person lives.
#[test]
fn refuses_an_unknown_shut_or_occupied_home(rt: HostRuntime) {
    let alloc = rt.alloc();
    let mut office = Office::empty(alloc);
    furnish(&rt, alloc, &mut office);
    let room = text(&rt, alloc, "V");
    carry_out_all(&rt, alloc, &mut office, &[Command::Shut { room }]);
    assert!(rt; refused_home(&rt, alloc, &office, "X") == 3);
    assert!(rt; refused_home(&rt, alloc, &office, "V") == 7);
    assert!(rt; refused_home(&rt, alloc, &office, "H") == 8);
}

// Holds a round in which the tenant alone takes part and lists the vacant room.
fn hold_round(rt: &impl Abort, alloc: Global, office: &mut Office)
    requires { IsLawful office.old }
    ensures { IsLawful office.new }
{
    let person = text(rt, alloc, "T");
    let choices = choices(rt, alloc, &["V"]);
    let words = Listing::new(vec![in alloc; Word::new(7)].expect(rt, "memory"));
    let commands = [
        Command::OpenRound,
        Command::SetChoices { person, choices },
        Command::CloseRound,
        Command::Draw { words },
        Command::Run,
        Command::Publish,
        Command::Settle,
    ];
    carry_out_all(rt, alloc, office, &commands);
}

// The number of moves of the first round.
fn move_count(alloc: Global, office: &Office) -> Result<usize, Refusal>
    requires { IsLawful office.now }
{
    match answer(alloc, office, &Query::Moves(1))? {
        Reply::Moves(moves) => Ok(moves.as_slice().len()),
        _ => Ok(0),
    }
}

#[test]
fn moves_into_a_vacant_room(rt: HostRuntime) {
    let alloc = rt.alloc();
    let mut office = Office::empty(alloc);
    furnish(&rt, alloc, &mut office);
    hold_round(&rt, alloc, &mut office);
    assert!(rt; matches!(move_count(alloc, &office), Ok(1)));
}

// A list that adds a room.
const LIST: &[u8] = b"room\nW\n";

// Imports the list.
fn import(rt: &impl Abort, alloc: Global, office: &mut Office)
    requires { IsLawful office.old }
    ensures { IsLawful office.new }
{
    let list = Vec::from_slice(alloc, LIST).expect(rt, "memory");
    let command = Command::Import {
        label: text(rt, alloc, "r-1"),
        kind: ListKind::Rooms,
        bytes: Listing::new(list),
    };
    carry_out_all(rt, alloc, office, &[command]);
}

// Whether there are three rooms, none of them shut.
fn has_rooms(rt: &impl Abort, alloc: Global, office: &Office) -> bool {
    for code in ["H", "V", "W"] {
        let room = text(rt, alloc, code);
        if office.rooms.get(&room).copied().unwrap_or(true) {
            return false;
        }
    }
    office.rooms.len() == 3
}

fn is_room(found: &Option<RoomCode>, room: &str) -> bool {
    match found {
        Some(code) => code.as_str() == room,
        None => false,
    }
}

// Whether the tenant is the only person and lives in V.
fn has_tenant(rt: &impl Abort, alloc: Global, office: &Office) -> bool {
    let id = text(rt, alloc, "T");
    match office.people.get(&id) {
        Some(person) => {
            office.people.len() == 1
                && person.name.as_str() == "Tim Tan"
                && person.key.as_str() == "key000000000000t"
                && is_room(&person.home, "V")
        }
        None => false,
    }
}

// Whether the tenant is the only person who moved in the round, and moved from H to V.
fn has_move(rt: &impl Abort, alloc: Global, office: &Office) -> bool {
    let id = text(rt, alloc, "T");
    let Some(moves) = office.moves.get(1) else {
        return false;
    };
    match moves.by_person.get(&id) {
        Some(moved) => {
            moves.by_person.len() == 1
                && moved.wave == Wave::Nth(1)
                && is_room(&moved.from, "H")
                && is_room(&moved.to, "V")
        }
        None => false,
    }
}

// Whether the list is the only stored import, with its bytes unchanged.
fn has_list(rt: &impl Abort, alloc: Global, office: &Office) -> bool {
    let label = text(rt, alloc, "r-1");
    match office.lists.get(&label) {
        Some(stored) => {
            office.lists.len() == 1
                && stored.kind == ListKind::Rooms
                && stored.bytes.as_slice() == LIST
                && stored.count == 1
        }
        None => false,
    }
}

// Whether the first round is over and has left nothing but its move.
fn is_over(office: &Office) -> bool {
    let lists = office.choices.len() == 0 && office.withdrawn.len() == 0;
    let others = office.grades.len() == 0 && office.going.len() == 0;
    let draw = office.words.len() == 0 && office.results.len() == 0;
    lists && others && draw && office.number == 1 && office.phase == Phase::Idle
}

// Whether each part of the office has the value that it has after the import and the round.
fn is_settled(rt: &impl Abort, alloc: Global, office: &Office) -> bool {
    let register = has_rooms(rt, alloc, office) && has_tenant(rt, alloc, office);
    let records = has_move(rt, alloc, office) && has_list(rt, alloc, office);
    register && records && is_over(office)
}

// The copy equals the office, because each part has the expected value in both.
#[test]
fn copies_each_part_of_an_office(rt: HostRuntime) {
    let alloc = rt.alloc();
    let mut office = Office::empty(alloc);
    furnish(&rt, alloc, &mut office);
    import(&rt, alloc, &mut office);
    hold_round(&rt, alloc, &mut office);
    let copy = office.copy().expect(&rt, "memory");
    assert!(rt; office.participants(alloc).expect(&rt, "memory").len() == 1);
    assert!(rt; is_settled(&rt, alloc, &office));
    assert!(rt; is_settled(&rt, alloc, &copy));
}

// Adds a person without a home, whose identifier and key end in this number.
fn put_person(
    rt: &impl Abort,
    alloc: Global,
    office: &mut Office,
    number: u32,
) -> Result<(), AllocError> {
    let id = format!(in alloc; "P{number}")?;
    let key = format!(in alloc; "key000000000{number:04}")?;
    let newcomer = Change::PutPerson {
        person: text(rt, alloc, &id),
        name: text(rt, alloc, "Pat"),
        key: text(rt, alloc, &key),
        home: None,
    };
    apply(office, &newcomer).expect(rt, "memory");
    Ok(())
}

// The command to add a person without a home.
fn newcomer(rt: &impl Abort, alloc: Global, id: &str, key: &str) -> Command {
    Command::AddPerson {
        person: text(rt, alloc, id),
        name: text(rt, alloc, "Pat"),
        key: text(rt, alloc, key),
        home: None,
    }
}

// Adds a person, whom the office must accept. Returns the number of the refusal of one more person, or 0 if the
// office accepts that person too.
fn refused_next(rt: &impl Abort, alloc: Global, office: &mut Office) -> u8
    requires { IsLawful office.old }
{
    let last = newcomer(rt, alloc, "Q", "key000000000000q");
    carry_out_all(rt, alloc, office, &[last]);
    let next = newcomer(rt, alloc, "R", "key000000000000r");
    refused(alloc, office, &next)
}

// Adds a person, whom the office must accept. Returns the number of the refusal of one more person, or 0 if the
// office accepts that person too. If the office is not lawful, adds nobody and returns 0.
fn refused_person(rt: &impl Abort, alloc: Global, office: &mut Office) -> u8 {
    if sound(alloc, office).expect(rt, "memory") {
        refused_next(rt, alloc, office)
    } else {
        0
    }
}

// Changes add all people but the last one allowed, and a command adds the last. The office then refuses one more
// person.
#[test]
fn refuses_a_person_over_the_limit(rt: HostRuntime) {
    let alloc = rt.alloc();
    let mut office = Office::empty(alloc);
    for number in 0..1_999 {
        put_person(&rt, alloc, &mut office, number).expect(&rt, "memory");
    }
    assert!(rt; refused_person(&rt, alloc, &mut office) == 13);
    assert!(rt; office.people.len() == 2_000);
}
