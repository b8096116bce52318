ghost use Rattle.hp_elem.specs.Laws.{JoinUndoesSplit};

/// A split followed by a join of its two parts leaves the elements as they were. This law is proved of all lists of
/// elements; its function has no code. Own.
pub fn split_law()
    ensures { JoinUndoesSplit }
{}
