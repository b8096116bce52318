//! Laws of a board's moves. They are proved of all of them, and their functions have no code.
ghost use Rattle.thm_moved.specs.Adding.{AddsByMoves};
ghost use Rattle.thm_moved.specs.AtBoard.{EndAtBoard, HomeAtBoard};
ghost use Rattle.thm_moved.specs.ByClose.{KeptByClose, TablesByClose};
ghost use Rattle.thm_moved.specs.ByMoves.{HeldByMoves};
ghost use Rattle.thm_moved.specs.NamesLeft.{NamesChangedAtBoard, NamesHandedAtBoard, NamesLeftAtBoard};
ghost use Rattle.thm_moved.specs.Within.{CallsWithinByMoves};

/// By the moves of a board the segment value came by holds in a chain, of which each gave it back good, and of each participant those among its
/// steps; and while one has a heap in hand, no growth of others is open for that. No heap is called that the board does not have. Own.
pub fn moves_law()
    ensures held { HeldByMoves }
    ensures adds { AddsByMoves }
    ensures within { CallsWithinByMoves }
{}

/// What a closed board hands out is what the lines of its participants leave, where by its own view each of them made its calls, and ends with a
/// table that is tied to that view. Own.
pub fn close_law()
    ensures heaps { KeptByClose }
    ensures tables { TablesByClose }
{}

/// Where all participants of a workload came home from threads to their seats at a board that opened for it, they came home, each from the seat in
/// which it began; and what they and the board leave is an end of the workload. Own.
pub fn board_law()
    ensures home { HomeAtBoard }
    ensures end { EndAtBoard }
{}

/// The names that lines are handed there are fronts of those that the board hands out, and never grow shorter from line to line; and these have
/// the changes of the lines and no others, and agree with the heaps, with external memory, and with who has attached it. Own.
pub fn names_law()
    ensures handed { NamesHandedAtBoard }
    ensures changed { NamesChangedAtBoard }
    ensures left { NamesLeftAtBoard }
{}
