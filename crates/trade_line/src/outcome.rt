//! The result of a run.
ghost use Rattle.std.specs.Prelude.{◌≡◌, ◌<◌, slice_index_or, None};
ghost use Rattle.trade_line.specs.Outcome.{Given};

use std::marker::Model;

/// The result of a run: the room of each person, and the numbers of asks and looks.
#[derive(Drop)]
pub struct Outcome {
    given: Vec<Option<usize>>,
    asks: u128,
    looks: u128,
}

impl Model for Outcome {
    ghost Value = { Given };

    ghost view = { λ o. record { rooms = o.given.items; asks = o.asks; looks = o.looks } };
}

impl Outcome {
    pub(crate) fn new(given: Vec<Option<usize>>, asks: u128, looks: u128) -> Self
        ensures rooms { result.rooms ≡ given.items }
        ensures asks { result.asks ≡ asks }
        ensures looks { result.looks ≡ looks }
    {
        Outcome { given, asks, looks }
    }

    /// Returns the room of a person, or `None` if the person gets no room or no person has this number.
    pub fn room_of(&self, person: usize) -> Option<usize>
        ensures { result ≡ slice_index_or self.now.rooms person None }
    {
        if person < self.given.len() {
            self.given[person]
        } else {
            None
        }
    }

    /// Returns the number of asks. Each turn of the person at the front is one ask.
    pub fn asks(&self) -> u128
        ensures { result ≡ self.now.asks }
    {
        self.asks
    }

    /// Returns the number of looks, that is, of list entries that the asks read. A person's first ask starts at the
    /// first entry of their list, and each later ask starts at the entry that the person asked for last. An ask reads
    /// up to the entry that it asks for, or up to the end of the list if no room on it remains. Each entry
    /// that an ask reads, the first and the last included, counts once in that ask.
    pub fn looks(&self) -> u128
        ensures { result ≡ self.now.looks }
    {
        self.looks
    }
}
