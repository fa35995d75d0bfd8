//! Tests on phases.
ghost use Rattle.std.specs.Prelude.{◌≡◌};
ghost use Rattle.office_state.specs.Office.Phases.{is_idle, is_open, is_closed, is_published, is_preparing, may_cancel};
ghost use Rattle.office_state.specs.Office.Phases.{has_words, is_drawn, has_run, has_results};

use room_types::Phase;

/// Returns whether no round is under way.
pub fn is_idle(phase: Phase) -> bool
    ensures { result ≡ is_idle phase }
{
    matches!(phase, Phase::Idle)
}

/// Returns whether people may list rooms and withdraw, and the office may record who leaves the college.
pub fn is_open(phase: Phase) -> bool
    ensures { result ≡ is_open phase }
{
    matches!(phase, Phase::Opened)
}

/// Returns whether the lists are final and no words are drawn yet.
pub fn is_closed(phase: Phase) -> bool
    ensures { result ≡ is_closed phase }
{
    matches!(phase, Phase::Closed)
}

/// Returns whether the words are drawn and the rooms are not traded yet.
pub fn is_drawn(phase: Phase) -> bool
    ensures { result ≡ is_drawn phase }
{
    matches!(phase, Phase::Drawn)
}

/// Returns whether the rooms are traded and the results are not published yet.
pub fn has_run(phase: Phase) -> bool
    ensures { result ≡ has_run phase }
{
    matches!(phase, Phase::Ran)
}

/// Returns whether the rooms are traded, so that there are results. The results may be published or not.
pub fn has_results(phase: Phase) -> bool
    ensures { result ≡ has_results phase }
{
    matches!(phase, Phase::Ran | Phase::Published)
}

/// Returns whether each participant may see their result.
pub fn is_published(phase: Phase) -> bool
    ensures { result ≡ is_published phase }
{
    matches!(phase, Phase::Published)
}

/// Returns whether the office may add rooms and people, set grades, and shut or reopen rooms.
pub fn is_preparing(phase: Phase) -> bool
    ensures { result ≡ is_preparing phase }
{
    is_idle(phase) || is_open(phase)
}

/// Returns whether there is a round that can be cancelled.
pub fn may_cancel(phase: Phase) -> bool
    ensures { result ≡ may_cancel phase }
{
    matches!(
        phase,
        Phase::Opened | Phase::Closed | Phase::Drawn | Phase::Ran
    )
}

/// Returns whether the words are drawn.
pub fn has_words(phase: Phase) -> bool
    ensures { result ≡ has_words phase }
{
    matches!(phase, Phase::Drawn | Phase::Ran | Phase::Published)
}
