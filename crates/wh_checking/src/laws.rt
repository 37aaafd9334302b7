//! Laws of verdicts. They speak of the definitions alone and do nothing.

ghost use Rattle.wh_checking.specs.Judged.{VerdictsAreOne};

/// What is stored is judged in one way: so each answer of a check comes exactly where it is due.
pub fn verdicts_are_one()
    ensures { VerdictsAreOne }
{}
