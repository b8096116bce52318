ghost use Rattle.hp_freelist.specs.Laws.{FindsLeast};

/// What a search of the free lists finds is of the least class that has a key that passes, and in it the first. This law is
/// proved of all lists and tests; its function has no code. Own.
pub fn search_law()
    ensures { FindsLeast }
{}
