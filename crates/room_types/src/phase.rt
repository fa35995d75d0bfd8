//! The phases of a round.
ghost use Rattle.std.specs.Prelude.{◌≡◌, Some};
ghost use Rattle.room_types.specs.Phases.{phase_text};

use std::fmt;

/// The phase of a round. A round passes through the phases in the order of the variants, and `Idle` comes after
/// `Published`. The command `Cancel` leads from `Opened`, `Closed`, `Drawn` or `Ran` back to `Idle`.
#[derive(Clone, Copy, Debug, PartialEq, Eq, Drop)]
pub enum Phase {
    /// No round is under way.
    Idle,
    /// People hand in lists of rooms, or withdraw.
    Opened,
    /// The lists are final, and the participants are known.
    Closed,
    /// Each participant has a word, and so a place in the drawn order.
    Drawn,
    /// The results are computed, and only the office sees them.
    Ran,
    /// Each participant sees their own result.
    Published,
}

impl Phase {
    /// Returns the printed name of the phase.
    pub fn as_str(self) -> &'static str
        ensures { result.now ≡ phase_text self }
    {
        match self {
            Phase::Idle => "idle",
            Phase::Opened => "open",
            Phase::Closed => "closed",
            Phase::Drawn => "drawn",
            Phase::Ran => "ran",
            Phase::Published => "published",
        }
    }
}

impl fmt::Display for Phase {
    ghost output = { λ phase. Some (phase_text phase) };

    fn fmt<W: fmt::Write>(&self, f: &mut fmt::Formatter<W>) -> fmt::Result {
        f.write_str(self.as_str())
    }
}
