ghost use Rattle.std.specs.Prelude.{◌≡◌, Some};

use crate::asserting::assert_same;
use office_lists::{
    Relocation, in_moving_order, move_day_text, people_text, results_text, rooms_text, waves,
};
use room_types::{Grammar, Move, PersonRow, ResultRow, RoomRow, State, Text, Wave};
use std::alloc::Global;
use std::process::Abort;
use std::test::Fail;

mod exports;
mod lists;

#[test]
fn prints_a_table_of_rooms(rt: HostRuntime) -> Result<(), Fail> {
    let alloc = rt.alloc();
    let rows = vec![in alloc;
        room_row(
            &rt,
            alloc,
            "ABCDEFGH",
            State::Occupied,
            Some("ABCDEFGH1234")
        ),
        room_row(&rt, alloc, "H1", State::Free, None),
        room_row(&rt, alloc, "V-2", State::Shut, None),
    ]?;
    let table = rooms_text(alloc, &rows)?;
    assert_same!(rt;
        table.as_str(),
        "room      state     tenant\nABCDEFGH  occupied  ABCDEFGH1234\nH1        free      none\nV-2       shut      none\n"
    );
    Ok(())
}

#[test]
fn prints_a_table_of_people(rt: HostRuntime) -> Result<(), Fail> {
    let alloc = rt.alloc();
    let rows = vec![in alloc;
        person_row(&rt, alloc, "T1", Some("H1"), "Tim Tan"),
        person_row(&rt, alloc, "T2", None, "Tom Tao"),
    ]?;
    let table = people_text(alloc, &rows)?;
    assert_same!(rt;
        table.as_str(),
        "person        home      name\nT1            H1        Tim Tan\nT2            none      Tom Tao\n"
    );
    Ok(())
}

#[test]
fn prints_a_table_of_results(rt: HostRuntime) -> Result<(), Fail> {
    let alloc = rt.alloc();
    let rows = vec![in alloc;
        result_row(&rt, alloc, "N", Some("V")),
        result_row(&rt, alloc, "T1", Some("W")),
        result_row(&rt, alloc, "T2", None),
    ]?;
    let table = results_text(alloc, &rows)?;
    assert_same!(rt;
        table.as_str(),
        "person        room\nN             V\nT1            W\nT2            none\n"
    );
    Ok(())
}

#[test]
fn prints_empty_tables(rt: HostRuntime) -> Result<(), Fail> {
    let alloc = rt.alloc();
    let rooms = rooms_text(alloc, &[])?;
    assert_same!(rt; rooms.as_str(), "room      state     tenant\n");
    let results = results_text(alloc, &[])?;
    assert_same!(rt; results.as_str(), "person        room\n");
    Ok(())
}

#[test]
fn prints_the_move_day_of_a_swap_and_a_newcomer(rt: HostRuntime) -> Result<(), Fail> {
    let alloc = rt.alloc();
    let moves = vec![in alloc;
        moved(&rt, alloc, 1, "T2", Some("H2"), "H1", Wave::Swap),
        moved(&rt, alloc, 1, "T1", Some("H1"), "H2", Wave::Swap),
        moved(&rt, alloc, 1, "N", None, "V", Wave::Nth(1)),
    ]?;
    let table = move_day_text(alloc, &moves)?;
    assert_same!(rt;
        table.as_str(),
        "wave  person        from      to\n1     N             none      V\nswap  T1            H1        H2\nswap  T2            H2        H1\n"
    );
    Ok(())
}

#[test]
fn prints_the_move_day_of_a_chain(rt: HostRuntime) -> Result<(), Fail> {
    let alloc = rt.alloc();
    assert_same!(rt;
        move_day_text(alloc, &[])?.as_str(),
        "wave  person        from      to\n"
    );
    let moves = vec![in alloc;
        moved(&rt, alloc, 1, "T1", Some("H1"), "H2", Wave::Nth(2)),
        moved(&rt, alloc, 1, "T2", Some("H2"), "V", Wave::Nth(1)),
    ]?;
    let order = in_moving_order(alloc, &moves)?;
    assert!(rt; matches!(order.as_slice(), [first, _] if first.person.as_str() == "T2"));
    let table = move_day_text(alloc, &moves)?;
    assert_same!(rt;
        table.as_str(),
        "wave  person        from      to\n1     T2            H2        V\n2     T1            H1        H2\n"
    );
    Ok(())
}

#[test]
fn computes_the_waves_of_a_swap_and_a_newcomer(rt: HostRuntime) -> Result<(), Fail> {
    let alloc = rt.alloc();
    let entries = vec![in alloc;
        entry(&rt, alloc, "N", None, "V"),
        entry(&rt, alloc, "T1", Some("H1"), "H2"),
        entry(&rt, alloc, "T2", Some("H2"), "H1"),
    ]?;
    let waves = waves(alloc, &entries)?;
    assert_same!(rt;
        waves.as_slice(),
        [Wave::Nth(1), Wave::Swap, Wave::Swap].as_slice()
    );
    Ok(())
}

#[test]
fn computes_the_waves_of_a_chain(rt: HostRuntime) -> Result<(), Fail> {
    let alloc = rt.alloc();
    let none = waves(alloc, &[])?;
    assert!(rt; none.is_empty());
    let entries = vec![in alloc;
        entry(&rt, alloc, "T1", Some("H1"), "H2"),
        entry(&rt, alloc, "T2", Some("H2"), "V"),
    ]?;
    let waves = waves(alloc, &entries)?;
    assert_same!(rt; waves.as_slice(), [Wave::Nth(2), Wave::Nth(1)].as_slice());
    Ok(())
}

// T2 leaves the college, and T1 moves into T2's room.
#[test]
fn lets_a_departing_tenant_move_out_first(rt: HostRuntime) -> Result<(), Fail> {
    let alloc = rt.alloc();
    let entries = vec![in alloc;
        entry(&rt, alloc, "T1", Some("H1"), "H2"),
        (
            text(&rt, alloc, "T2"),
            optional(&rt, alloc, Some("H2")),
            None
        ),
    ]?;
    let waves = waves(alloc, &entries)?;
    assert_same!(rt; waves.as_slice(), [Wave::Nth(1), Wave::Nth(0)].as_slice());
    let moves = vec![in alloc;
        moved(&rt, alloc, 1, "T1", Some("H1"), "H2", Wave::Nth(1)),
        gone(&rt, alloc, 1, "T2", "H2"),
    ]?;
    let table = move_day_text(alloc, &moves)?;
    assert_same!(rt;
        table.as_str(),
        "wave  person        from      to\n0     T2            H2        none\n1     T1            H1        H2\n"
    );
    Ok(())
}

fn entry(rt: &impl Abort, alloc: Global, person: &str, from: Option<&str>, to: &str) -> Relocation
    ensures { result.2 ≡ Some to.now }
{
    (
        text(rt, alloc, person),
        optional(rt, alloc, from),
        Some(text(rt, alloc, to)),
    )
}

fn room_row(
    rt: &impl Abort,
    alloc: Global,
    room: &str,
    state: State,
    tenant: Option<&str>,
) -> RoomRow
    ensures { result.room ≡ room.now }
{
    RoomRow {
        room: text(rt, alloc, room),
        state,
        tenant: optional(rt, alloc, tenant),
    }
}

fn person_row(
    rt: &impl Abort,
    alloc: Global,
    person: &str,
    home: Option<&str>,
    name: &str,
) -> PersonRow
    ensures { result.person ≡ person.now }
{
    PersonRow {
        person: text(rt, alloc, person),
        name: text(rt, alloc, name),
        home: optional(rt, alloc, home),
    }
}

fn result_row(rt: &impl Abort, alloc: Global, person: &str, room: Option<&str>) -> ResultRow {
    ResultRow {
        person: text(rt, alloc, person),
        room: optional(rt, alloc, room),
    }
}

fn text<G: Grammar>(rt: &impl Abort, alloc: Global, text: &str) -> Text<G>
    ensures { result ≡ text.now }
{
    match Text::read(alloc, text) {
        Ok(text) => text,
        Err(_) => panic!(rt; "{text} is not in the grammar"),
    }
}

fn optional<G: Grammar>(rt: &impl Abort, alloc: Global, value: Option<&str>) -> Option<Text<G>> {
    value.map(|value| text(rt, alloc, value))
}

fn moved(
    rt: &impl Abort,
    alloc: Global,
    round: u16,
    person: &str,
    from: Option<&str>,
    to: &str,
    wave: Wave,
) -> Move
    ensures round { result.round ≡ round }
    ensures person { result.person ≡ person.now }
{
    Move {
        round,
        person: text(rt, alloc, person),
        from: optional(rt, alloc, from),
        to: Some(text(rt, alloc, to)),
        wave,
    }
}

fn gone(rt: &impl Abort, alloc: Global, round: u16, person: &str, from: &str) -> Move {
    Move {
        round,
        person: text(rt, alloc, person),
        from: Some(text(rt, alloc, from)),
        to: None,
        wave: Wave::Nth(0),
    }
}
