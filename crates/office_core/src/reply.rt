//! Replies to commands and queries.
use room_types::{
    Choices, Grade, Listing, Move, Name, PersonId, PersonRow, Phase, ResultRow, RoomCode, RoomRow,
    Word,
};

/// A row of `Reply::Order`: a participant with their lottery number and their grade.
#[derive(Debug, Drop)]
pub struct OrderRow {
    pub word: Word,
    pub person: PersonId,
    pub grade: Grade,
}

/// The reply to the query `Me`: a person's own record, and the number and the phase of the round.
#[derive(Debug, Drop)]
pub struct Standing {
    pub person: PersonId,
    pub name: Name,
    pub home: Option<RoomCode>,
    /// The number of the latest round, or 0 before the first.
    pub round: u16,
    pub phase: Phase,
    /// The recorded list; empty if none is recorded.
    pub choices: Choices,
    pub withdrawn: bool,
    /// Whether the person leaves the college after the round.
    pub going: bool,
    /// Whether the person may see the result: the results are published, and the person takes part in the round.
    pub shown: bool,
    /// The room that the round gives the person. `None` if the round gives no room, or if `shown` is `false`.
    pub result: Option<RoomCode>,
}

/// The reply to a command that was accepted, or to a query.
#[derive(Debug, Drop)]
pub enum Reply {
    /// The command is accepted; there is nothing else to report.
    Done,
    /// The room is shut; `displaced` is the tenant who lived there, if any.
    Shut {
        displaced: Option<PersonId>,
    },
    /// The round with this number is open.
    Opened {
        round: u16,
    },
    /// This list is recorded.
    Chosen {
        choices: Choices,
    },
    /// The person does not take part in the round.
    Withdrawn,
    /// The lists are final; `participants` is the number of people who take part.
    Closed {
        participants: usize,
    },
    /// Each participant has a lottery number.
    Drawn {
        participants: usize,
    },
    /// Each participant has a result.
    Ran {
        participants: usize,
    },
    /// Each participant sees the result.
    Published {
        participants: usize,
    },
    /// The round is settled; `moves` is the number of people who move.
    Settled {
        moves: usize,
    },
    /// The round is cancelled.
    Cancelled,
    /// The list is imported, and `count` is the number of its records. If the same list is stored under this label
    /// already, nothing is added, and `count` is the number that was stored with the label.
    Added {
        count: u16,
    },
    /// The rooms, sorted by code.
    Rooms(Listing<RoomRow>),
    /// The people, sorted by identifier.
    People(Listing<PersonRow>),
    /// The number of the latest round (0 before the first), the phase, and three counts: all people, those who have
    /// withdrawn, and those who leave the college.
    Round {
        number: u16,
        phase: Phase,
        people: usize,
        withdrawn: usize,
        going: usize,
    },
    /// The participants, in the drawn order.
    Order(Listing<OrderRow>),
    /// The results of the participants, sorted by the person's identifier.
    Results(Listing<ResultRow>),
    /// The moves of a round, sorted by the person's identifier.
    Moves(Listing<Move>),
    /// What the person with the key of the query may see.
    Me(Standing),
    /// The room that the person would get with the other list, or `None` for no room.
    WouldGet(Option<RoomCode>),
    /// The person leaves the college after the round.
    Going,
}
