ghost use Rattle.std.specs.Prelude.{◌≡◌, ◌<◌, ◌^◌};
ghost use Rattle.hp_script.specs.Marks.{is_marked, with_mark};

// The bit of a participant.
fn bit(party: u64) -> u16
    requires { party < 16 }
    ensures { result ≡ 2 ^ party }
{
    1 << party
}

/// Whether a participant is marked in a mask.
pub fn is_marked(mask: u16, party: u64) -> bool
    ensures { result ≡ is_marked mask party }
{
    party < 16 && mask & bit(party) != 0
}

/// The mask with a participant marked too.
pub fn with_mark(mask: u16, party: u64) -> u16
    requires { party < 16 }
    ensures { result ≡ with_mark mask party }
{
    mask | bit(party)
}
