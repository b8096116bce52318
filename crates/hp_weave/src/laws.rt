ghost use Rattle.hp_weave.specs.Laws.{GoTogetherWhereApart, WeavesByTurns, WovenOfEach};

/// Participants that each went by their own deeds, between holds of one value that make a chain, went together: there is a
/// run of all, in which each does what it did, in its order, and the value goes from hold to hold. This law and the other one
/// here are proved of seats and values of any type; their functions have no code. Own.
pub fn interleaving_law<L, S>()
    ensures { GoTogetherWhereApart L S }
{}

/// Items of participants, each of which has its own in order, are put into one order by who is next: nothing is lost and
/// nothing comes twice, and what is told of each item is put into the same order. Own.
pub fn weaving_law<A, B>()
    ensures woven { WeavesByTurns A B }
    ensures told { WovenOfEach A B }
{}
