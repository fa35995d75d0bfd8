//! The markets of the benchmark. The plain program in `bench/line` draws the same markets by the same steps.
ghost use Rattle.std.specs.Prelude.{◌<◌, length};

use crate::generator::Generator;
use std::alloc::{AllocError, Global};
use std::fmt;
use trade_line::fault::TradeFault;
use trade_line::problem::Problem;

const SEED: u64 = 1;

const SIZES: [usize; 6] = [100, 500, 1000, 2000, 4000, 8000];

// How many rooms each person lists, in each of the drawn markets.
const LISTED: [usize; 3] = [5, 20, 40];

const KINDS: [(Kind, &'static [usize]); 5] = [
    (Kind::AllTenants, &LISTED),
    (Kind::HalfTenants, &LISTED),
    (Kind::NoTenants, &LISTED),
    (Kind::OneList, &[40]),
    (Kind::Chain, &[1]),
];

/// The kinds of market. A kind says who has a home and what people list.
#[derive(Clone, Copy)]
pub enum Kind {
    /// Everybody has a home and a list of their own.
    AllTenants,
    /// Each person has a home with probability one half, and a list of their own.
    HalfTenants,
    /// Nobody has a home, and each person has a list of their own.
    NoTenants,
    /// Nobody has a home, and all have the same list.
    OneList,
    /// Each tenant lists the homes of those who come next, and the last lists a vacant room.
    Chain,
}

impl Kind {
    /// Returns the kind with this name, if there is one.
    pub fn named(name: &str) -> Option<Kind> {
        for (kind, _) in KINDS {
            if kind.name() == name {
                return Some(kind);
            }
        }
        None
    }

    fn name(self) -> &'static str {
        match self {
            Kind::AllTenants => "all_tenants",
            Kind::HalfTenants => "half_tenants",
            Kind::NoTenants => "no_tenants",
            Kind::OneList => "one_list",
            Kind::Chain => "chain",
        }
    }
}

impl fmt::Display for Kind {
    fn fmt<W: fmt::Write>(&self, f: &mut fmt::Formatter<W>) -> fmt::Result {
        f.write_str(self.name())
    }
}

/// A market of the benchmark: the number of people, the length of their lists, and the kind.
#[derive(Clone, Copy)]
pub struct Shape {
    pub people: usize,
    pub listed: usize,
    pub kind: Kind,
}

/// Returns the shapes of all markets of the benchmark, ordered by the number of people.
pub fn shapes(alloc: Global) -> Result<Vec<Shape>, AllocError> {
    let mut shapes = Vec::new(alloc);
    for people in SIZES {
        for (kind, lengths) in KINDS {
            for listed in lengths {
                shapes.push(Shape {
                    people,
                    listed: *listed,
                    kind,
                })?;
            }
        }
    }
    Ok(shapes)
}

impl Shape {
    /// Builds the market of this shape from a fixed seed.
    pub fn problem(&self, alloc: Global) -> Result<Problem, TradeFault> {
        match self.kind {
            Kind::AllTenants => self.drawn(alloc, 10),
            Kind::HalfTenants => self.drawn(alloc, 5),
            Kind::NoTenants => self.drawn(alloc, 0),
            Kind::OneList => self.one_list(alloc),
            Kind::Chain => self.chain(alloc),
        }
    }

    // Draws a market in which each person has a home with probability `tenths` in ten, and a list of their own.
    fn drawn(&self, alloc: Global, tenths: usize) -> Result<Problem, TradeFault> {
        let mut generator = Generator::new(SEED);
        let mut rooms = shuffled(alloc, self.people, &mut generator)?;
        let homes = drawn_homes(alloc, &rooms, tenths, &mut generator)?;
        let mut lists = Vec::with_capacity(alloc, self.people)?;
        for home in &homes {
            lists.push(list_without(alloc, *home, self.listed, &mut rooms, &mut generator)?)?;
        }
        Problem::new(alloc, self.people, self.people, homes, lists)
    }

    fn one_list(&self, alloc: Global) -> Result<Problem, TradeFault> {
        let mut generator = Generator::new(SEED);
        let mut rooms = numbers(alloc, self.people)?;
        let list = list_without(alloc, None, self.listed, &mut rooms, &mut generator)?;
        let homes = vec![in alloc; None; self.people]?;
        let mut lists = Vec::with_capacity(alloc, self.people)?;
        for _ in 0..self.people {
            lists.push(Vec::from_slice(alloc, &list)?)?;
        }
        Problem::new(alloc, self.people, self.people, homes, lists)
    }

    fn chain(&self, alloc: Global) -> Result<Problem, TradeFault> {
        let mut homes = Vec::with_capacity(alloc, self.people)?;
        let mut lists = Vec::with_capacity(alloc, self.people)?;
        for person in 0..self.people {
            homes.push(Some(person))?;
            lists.push(next_rooms(alloc, person, self.people, self.listed)?)?;
        }
        Problem::new(
            alloc,
            self.people,
            self.people.saturating_add(1),
            homes,
            lists,
        )
    }
}

// Returns the `listed` rooms after the person's home in a chain of `people` tenants, or all that come after it if there
// are fewer. The last room is vacant.
fn next_rooms(
    alloc: Global,
    person: usize,
    people: usize,
    listed: usize,
) -> Result<Vec<usize>, AllocError>
    requires { person < people }
{
    let last = person.saturating_add(listed).min(people);
    let mut list = Vec::with_capacity(alloc, last - person)?;
    for room in person..last {
        list.push(room + 1)?;
    }
    Ok(list)
}

// Returns all numbers below `count`, ascending.
fn numbers(alloc: Global, count: usize) -> Result<Vec<usize>, AllocError> {
    let mut numbers = Vec::new(alloc);
    for number in 0..count {
        numbers.push(number)?;
    }
    Ok(numbers)
}

// Returns all numbers below `count`, in random order.
fn shuffled(
    alloc: Global,
    count: usize,
    generator: &mut Generator,
) -> Result<Vec<usize>, AllocError> {
    let mut rooms = numbers(alloc, count)?;
    for place in 0..rooms.len() {
        shuffle_step(&mut rooms, place, generator);
    }
    Ok(rooms)
}

// Gives each person a home with probability `tenths` in ten. The home is the room in `rooms` at the person's index.
fn drawn_homes(
    alloc: Global,
    rooms: &[usize],
    tenths: usize,
    generator: &mut Generator,
) -> Result<Vec<Option<usize>>, AllocError> {
    let mut homes = Vec::with_capacity(alloc, rooms.len())?;
    for room in rooms {
        let home = if generator.below(10) < tenths {
            Some(*room)
        } else {
            None
        };
        homes.push(home)?;
    }
    Ok(homes)
}

// Swaps the room at this place with a random room at or after this place.
fn shuffle_step(rooms: &mut [usize], place: usize, generator: &mut Generator)
    requires { place < length rooms.old }
{
    let other = place + generator.below(rooms.len() - place);
    rooms.swap(place, other);
}

// Returns `listed` different random rooms other than the home, or all such rooms if there are fewer. Reorders
// `rooms`.
fn list_without(
    alloc: Global,
    home: Option<usize>,
    listed: usize,
    rooms: &mut [usize],
    generator: &mut Generator,
) -> Result<Vec<usize>, AllocError> {
    let mut list = Vec::with_capacity(alloc, listed)?;
    for place in 0..rooms.len() {
        if list.len() == listed {
            break;
        }
        shuffle_step(rooms, place, generator);
        if home != Some(rooms[place]) {
            list.push(rooms[place])?;
        }
    }
    Ok(list)
}
