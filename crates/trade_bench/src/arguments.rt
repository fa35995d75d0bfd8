//! Which markets the program runs, by its arguments.
use crate::markets::{Kind, Shape, shapes};
use std::alloc::Global;

// The text of an error is cut after 120 bytes.
const USAGE: &'static str =
    "usage: [times] [PEOPLE LISTED KIND]; kinds: all_tenants half_tenants no_tenants one_list chain";

/// The markets to run, and whether to measure their time.
#[derive(Drop)]
pub struct Request {
    pub shapes: Vec<Shape>,
    pub timed: bool,
}

/// Parses the arguments after the program's name: first `times` if the runs are timed, and then the people, the
/// length of their lists and the kind of one market, or nothing for all markets of the benchmark.
///
/// # Errors
///
/// An error that says how to call the program if the arguments are others, or one for failed memory.
pub fn parse(alloc: Global, words: &[String]) -> anyhow::Result<Request> {
    match words {
        [first, rest @ ..] if first.as_str() == "times" => Ok(Request {
            shapes: chosen(alloc, rest)?,
            timed: true,
        }),
        _ => Ok(Request {
            shapes: chosen(alloc, words)?,
            timed: false,
        }),
    }
}

// Returns the market of these three words, or all markets of the benchmark if there are no words.
fn chosen(alloc: Global, words: &[String]) -> anyhow::Result<Vec<Shape>> {
    match words {
        [] => Ok(shapes(alloc)?),
        [people, listed, kind] => match shape(people.as_str(), listed.as_str(), kind.as_str()) {
            Some(shape) => Ok(vec![in alloc; shape]?),
            None => Err(anyhow::Error::msg(USAGE)),
        },
        _ => Err(anyhow::Error::msg(USAGE)),
    }
}

// Returns the market of these words, or `None` if they are none.
fn shape(people: &str, listed: &str, kind: &str) -> Option<Shape> {
    Some(Shape {
        people: people.parse::<usize>().ok()?,
        listed: listed.parse::<usize>().ok()?,
        kind: Kind::named(kind)?,
    })
}
