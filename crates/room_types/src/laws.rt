//! A theorem about ascending lists. The contract states the theorem; the function does nothing.
ghost use Rattle.std.specs.Prelude.{List};
ghost use Rattle.std.specs.declared.cmp.Ordering.{Ordering};
ghost use Rattle.std.specs.Cmp.{IsTotalOrder};
ghost use Rattle.room_types.specs.Ascending.{HasOneArrangement};

/// Theorem: under any total order, items have exactly one stable ascending arrangement. The function `ascending` in
/// `specs/Ascending.antt` computes this arrangement.
pub fn one_arrangement<X>()
    ensures { (cmp : X → X → Ordering) → IsTotalOrder cmp
        → (items : List X) → HasOneArrangement cmp items }
{}
