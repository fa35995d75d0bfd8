//! A theorem about the drawn order without grades.
ghost use Rattle.draw_order.specs.Draw.{GoesByWordAlone};

/// Theorem: if all grades are 0, the drawn order is the order by word and identifier alone, as if there were no
/// grades. The function does nothing; its contract states the theorem.
pub fn zero_grades()
    ensures { GoesByWordAlone }
{}
