ghost use Rattle.std.specs.Prelude.{◌≡◌, [], ◌∷◌, ◌++◌};

use hp_base::Row;
use std::marker::Model;
use std::snapshot::Snapshot;

/// Rows as they were at one time, in their order. Contracts see the list; at run time it keeps the last row alone, and the earlier ones
/// are a snapshot, which takes no bytes. Own.
#[cycle(rows_then)]
#[derive(Drop)]
pub struct RowsThen {
    past: Past,
}

#[cycle(rows_then)]
#[derive(Drop)]
enum Past {
    Nothing,
    Behind(Snapshot<RowsThen>, Row),
}

impl Model for RowsThen {
    ghost use Rattle.std.specs.Prelude.{List, length};
    ghost use Rattle.std.proofs.Common.{arith, length-append};
    ghost use Rattle.hp_base.specs.declared.row.Row.{Row};

    ghost Value = { List Row };

    ghost use Rattle.hp_events.specs.Kept.{rows_in};

    ghost view = { λ a. rows_in a.past };

    ghost size = { length };

    ghost size_decreases = { λ a h. Prim.grind (arith, length-append) };
}

impl RowsThen {
    /// These rows.
    pub fn of(rows: &[Row]) -> RowsThen
        ensures { result ≡ rows.now }
    {
        let mut then = RowsThen {
            past: Past::Nothing,
        };
        for row in rows {
            then = then.with(*row);
        }
        then
    }

    // These rows, and another one after them.
    fn with(&self, row: Row) -> RowsThen
        ensures { result ≡ self.now ++ row ∷ [] }
    {
        RowsThen {
            past: Past::Behind(Snapshot::of(self), row),
        }
    }
}
