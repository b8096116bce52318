//! The numbers of all participants, as their words have them.
ghost use Rattle.std.specs.Prelude.{◌≡◌, ℕ, ◌<◌, ◌≤◌, slice_index};
ghost use Rattle.hp_board.specs.Views.{noted_of, own_of};
ghost use Rattle.test_board.specs.Playing.{HasComeOn};

use hp_board::{Board, Seat};

/// The numbers of three participants, and 0 for the others.
pub fn load_all(board: &Board, seat: &mut Seat) -> [u64; 16]
    requires board { seat.old.board ≡ board.now.id }
    requires three { seat.old.mine.opening.participants ≡ 3 }
    ensures board { seat.new.board ≡ seat.old.board }
    ensures comes { HasComeOn seat.old.mine seat.new.mine }
    ensures own { own_of seat.new.mine ≡ own_of seat.old.mine }
    ensures noted { (who : ℕ) → slice_index result who ≤ noted_of who seat.new.mine }
{
    let mut acks = [0; 16];
    for participant in 0..3u8 {
        acks[participant as usize] = board.load_ack(seat, participant);
    }
    acks
}
