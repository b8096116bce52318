ghost use Rattle.std.specs.Prelude.{◌≡◌, ◌<◌, ◌≤◌, [], IfOk, map};
ghost use Rattle.hp_base.specs.declared.limits.TheConstants.{MAX_PARTICIPANTS};
ghost use Rattle.std.specs.List.{range_with_len};
ghost use Rattle.hp_board.specs.declared.words.TheConstants.{WORDS};
ghost use Rattle.hp_board.specs.Parts.{whole_view};
ghost use Rattle.hp_board.specs.Dealt.{dealt_seat};

use crate::plays::{Deal, SharedSlots, Token};
use crate::seat::Seat;
use std::alloc::{AllocError, Global};

// A seat for each participant, of the part that the first token has of it.
pub fn deal(
    alloc: Global,
    shared: &SharedSlots,
    first: Token,
    participants: u8,
) -> Result<Vec<Seat>, AllocError>
    requires table { (first.table_id ≡ shared.now.table_id) × (shared.now.table_id.words ≡ WORDS) }
    requires opening { participants ≡ shared.now.key.participants }
    requires few { participants ≤ MAX_PARTICIPANTS }
    requires whole { first.me ≡ (whole_view shared.now.key, []) }
    ensures { IfOk result (λ seats. seats.items
        ≡ map (dealt_seat shared.now.table_id shared.now.key) (range_with_len 0 participants)) }
{
    let mut first = first;
    let mut seats = Vec::with_capacity(alloc, participants as usize)?;
    for who in 0..participants {
        let token = shared.split_seat::<Deal>(&mut first);
        seats.push_reserved(Seat::of(alloc, who, token)?);
    }
    Ok(seats)
}
