//! Tests of each request in each phase of a round, at a desk of its own with a hundred people and a hundred rooms.
//! The request gets a reply if the phase allows it, and otherwise a refusal for the phase.
use crate::asking::{ask_lines, ask_list, drop_desk, is_replied, parse_requests};
use office_core::Refusal;
use office_store::{Answer, Desk, Handler, Request};
use room_types::{ListKind, OutOfMemory, Phase};
use sqlite::MemStore;
use std::alloc::{AllocError, Global};

// The number of people, which is also the number of rooms.
const MANY: u16 = 100;

// Each phase, and how many of the requests of `steps` lead to it.
const PHASES: [(Phase, usize); 6] = [
    (Phase::Idle, 6),
    (Phase::Opened, 9),
    (Phase::Closed, 10),
    (Phase::Drawn, 11),
    (Phase::Ran, 12),
    (Phase::Published, 13),
];

const ALL: &str = "idle open closed drawn ran published";

// Lines, each with the names of the phases that allow it.
const ASKED: [(&str, &str); 31] = [
    ("room H200", "idle open"),
    ("person E200 key0000000000200 Ann Ash", "idle open"),
    ("home E90 H90", "idle"),
    ("leave E1", "idle"),
    ("remove E91", "idle"),
    ("shut H98", "idle open"),
    ("reopen H99", "idle open"),
    ("open", "idle"),
    ("choose E92 H92 H93", "open"),
    ("withdraw E2", "open"),
    ("grade E92 3", "idle open"),
    ("grade E3 0", "idle open"),
    ("going E5", "open"),
    ("name E6 Nell Noon", ALL),
    ("name E93 Ned Noon", ALL),
    ("key E8 key0000000000208", ALL),
    ("key E8 key0000000000008", ALL),
    ("blank people", ALL),
    ("close", "open"),
    ("run", "drawn"),
    ("publish", "ran"),
    ("settle", "published"),
    ("cancel", "open closed drawn ran"),
    ("rooms", ALL),
    ("people", ALL),
    ("round", ALL),
    ("order", "drawn ran published"),
    ("results", "ran published"),
    ("moves 1", ALL),
    ("me key0000000000003", ALL),
    ("whatif E4 H5 H94", "ran published"),
];

#[test]
fn answers_each_request_only_in_its_phases(rt: HostRuntime) {
    let asked = all_asked(rt.alloc()).expect(&rt, "memory");
    for (phase, made) in &PHASES {
        let misfit = misfit(rt.alloc(), &asked, *phase, *made);
        assert!(rt; misfit.is_empty(), "{misfit}, {phase}");
    }
}

// The requests of `steps`, which lead through the phases, and the tested requests that are not in `ASKED`.
#[derive(Drop)]
struct Asked {
    steps: Vec<Request>,
    registers: Vec<Request>,
    choices: Vec<Request>,
    draw: Vec<Request>,
}

fn all_asked(alloc: Global) -> Result<Asked, OutOfMemory> {
    Ok(Asked {
        steps: steps(alloc)?,
        registers: registers(alloc)?,
        choices: choices(alloc)?,
        draw: parse_requests(alloc, &[draw_line(alloc)?.as_str()])?,
    })
}

// Returns which kind of request gets an answer that does not fit the phase, or an empty text if all answers fit. The
// first `made` steps lead to the phase.
fn misfit(alloc: Global, asked: &Asked, phase: Phase, made: usize) -> &'static str {
    let reached = Reached {
        steps: &asked.steps,
        made,
        phase,
    };
    if !lines_fit(alloc, &reached) {
        "a line"
    } else if !all_fit(alloc, &reached, &asked.registers, "idle open") {
        "a list"
    } else if !all_fit(alloc, &reached, &asked.choices, "open") {
        "choices"
    } else if !all_fit(alloc, &reached, &asked.draw, "closed") {
        "a draw"
    } else {
        ""
    }
}

// The first `made` of the steps lead to the phase.
#[derive(Drop)]
struct Reached<'a> {
    steps: &'a [Request],
    made: usize,
    phase: Phase,
}

// The requests that lead through the phases. The first round is cancelled, so a round is over in which nobody moved.
// In the second round a person leaves the college.
fn steps(alloc: Global) -> Result<Vec<Request>, OutOfMemory> {
    let mut steps = Vec::new(alloc);
    ask_many(alloc, &mut steps, ListKind::Rooms)?;
    ask_many(alloc, &mut steps, ListKind::People)?;
    ask_many(alloc, &mut steps, ListKind::Grades)?;
    ask_lines(alloc, &mut steps, "shut H99\nopen\ncancel\nopen\n")?;
    ask_many(alloc, &mut steps, ListKind::Choices)?;
    ask_lines(alloc, &mut steps, "going E7\nclose\n")?;
    ask_lines(alloc, &mut steps, draw_line(alloc)?.as_str())?;
    ask_lines(alloc, &mut steps, "run\npublish\n")?;
    Ok(steps)
}

fn ask_many(alloc: Global, requests: &mut Vec<Request>, kind: ListKind) -> Result<(), OutOfMemory> {
    let list = list(alloc, kind)?;
    ask_list(alloc, requests, kind, kind.as_str(), list.as_str())
}

// A list of `MANY` records. The first half of the people have a home. Each person lists two rooms: the next one and
// the one after it.
fn list(alloc: Global, kind: ListKind) -> Result<String, OutOfMemory> {
    let mut list = String::from_str(
        alloc,
        match kind {
            ListKind::Rooms => "room\n",
            ListKind::People => "person,name,key,home\n",
            ListKind::Choices => "person,choices\n",
            ListKind::Grades => "person,grade\n",
        },
    )?;
    for number in 0..MANY {
        list.push_str(record(alloc, kind, number)?.as_str())?;
    }
    Ok(list)
}

fn record(alloc: Global, kind: ListKind, number: u16) -> Result<String, AllocError> {
    let next = number.saturating_add(1) % 90;
    let after = number.saturating_add(2) % 90;
    match kind {
        ListKind::Rooms => format!(in alloc; "H{number}\n"),
        ListKind::People if number < 50 => {
            format!(in alloc; "E{number},Pat,key000000000{number:04},H{number}\n")
        }
        ListKind::People => format!(in alloc; "E{number},Pat,key000000000{number:04},\n"),
        ListKind::Choices => format!(in alloc; "E{number},H{next} H{after}\n"),
        ListKind::Grades => {
            let grade = number % 10;
            format!(in alloc; "E{number},{grade}\n")
        }
    }
}

// A draw line with one word for each person except the one who leaves the college.
fn draw_line(alloc: Global) -> Result<String, OutOfMemory> {
    let mut line = String::from_str(alloc, "draw")?;
    for number in 1..MANY {
        line.push_str(format!(in alloc; " {number:016x}")?.as_str())?;
    }
    Ok(line)
}

// Requests to import a list of rooms, one of people and one of grades. The steps import none of these lists.
fn registers(alloc: Global) -> Result<Vec<Request>, OutOfMemory> {
    let people = "person,name,key,home\nE300,Pat,key0000000000300,\n";
    let mut requests = Vec::new(alloc);
    ask_list(alloc, &mut requests, ListKind::Rooms, "r-2", "room\nH300\n")?;
    ask_list(alloc, &mut requests, ListKind::People, "p-2", people)?;
    let grades = "person,grade\nE5,3\nE6,0\n";
    ask_list(alloc, &mut requests, ListKind::Grades, "g-2", grades)?;
    Ok(requests)
}

// A request to import a list of choices that the steps do not import.
fn choices(alloc: Global) -> Result<Vec<Request>, OutOfMemory> {
    let choices = "person,choices\nE95,H95\n";
    let mut requests = Vec::new(alloc);
    ask_list(alloc, &mut requests, ListKind::Choices, "c-2", choices)?;
    Ok(requests)
}

// Whether each line of `ASKED` gets an answer that fits the phase.
fn lines_fit(alloc: Global, reached: &Reached<'_>) -> bool {
    for (line, phases) in &ASKED {
        if !line_fits(alloc, reached, line, phases) {
            return false;
        }
    }
    true
}

fn line_fits(alloc: Global, reached: &Reached<'_>, line: &str, phases: &str) -> bool {
    match parse_requests(alloc, &[line]) {
        Ok(requests) => requests.len() == 1 && all_fit(alloc, reached, &requests, phases),
        Err(_) => false,
    }
}

// Handles each request at a new desk in the phase, and returns whether all answers fit. If `phases` names the phase,
// a request must get a reply, and otherwise a refusal for the phase.
fn all_fit(alloc: Global, reached: &Reached<'_>, requests: &[Request], phases: &str) -> bool {
    let phase = reached.phase;
    let belongs = phases.split(' ').any(|word| word == phase.as_str());
    for request in requests {
        if !fits(&answer_after(alloc, reached, request), phase, belongs) {
            return false;
        }
    }
    true
}

fn fits(answer: &Option<Answer>, phase: Phase, belongs: bool) -> bool {
    match answer {
        Some(Answer::Reply(_)) => belongs,
        Some(Answer::Refused(Refusal::BadPhase(observed))) => !belongs && *observed == phase,
        _ => false,
    }
}

// Takes the steps at a new desk and returns its answer to the request. Returns `None` if there is no desk or a step
// gets no reply.
fn answer_after(alloc: Global, reached: &Reached<'_>, request: &Request) -> Option<Answer> {
    let Ok(mut desk) = Desk::in_memory(alloc) else {
        return None;
    };
    let answer = answer_at(alloc, &mut desk, reached, request);
    drop_desk(desk);
    answer
}

// Takes the steps at this desk and returns its answer to the request. Returns `None` if a step gets no reply.
fn answer_at(
    alloc: Global,
    desk: &mut Desk<MemStore>,
    reached: &Reached<'_>,
    request: &Request,
) -> Option<Answer> {
    for step in reached.steps.iter().take(reached.made) {
        if !is_replied(alloc, desk, step) {
            return None;
        }
    }
    Some(desk.handle(alloc, request))
}
