ghost use Rattle.std.specs.Prelude.{ℕ, ◌≤◌, List, None, length};
ghost use Rattle.hp_chain.specs.Chain.{Keyed, Places, Spells};
ghost use Rattle.hp_chain.specs.Laws.{HasOneOrder};

/// The links forwards and backwards are one order. This law and the others here are proved of all chains; their functions
/// have no code. Own.
pub fn order_law<X>()
    ensures { (at : Places X) (xs : List (Keyed X)) (n : ℕ) → Spells at None xs None → length xs ≤ n → HasOneOrder at xs n }
{}
