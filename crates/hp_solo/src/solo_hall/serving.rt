//! Participants that serve, one after another.
ghost use Rattle.std.specs.Prelude.{◌≡◌, ◌≢◌, ◌+◌, ◌≤◌, ◌<◌, ◌||◌, false, length};
ghost use Rattle.hp_base.specs.declared.limits.TheConstants.{MAX_HEAPS};
ghost use Rattle.hp_plain.specs.HallView.{IsHome, slot_at};
ghost use Rattle.hp_hall.specs.Measures.{boxes_measure, pending_at};
ghost use Rattle.hp_serve.specs.Falling.{if_moved};
ghost use Rattle.hp_solo.specs.Beside.{HaveServedAmong};
ghost use Rattle.hp_solo.specs.Sequence.{Visit, Visits};
ghost use Rattle.hp_solo.specs.Solo.{
  AreLater,
  AreTied,
  IsBetween,
  IsOutside,
  denials_in,
  has_stopped,
  server_at,
  servers_measure,
};

use crate::alone::Alone;
use hp_base::Mapper;
use hp_plain::PlainHall;
use hp_serve::Decide;

// Serves those from one number to below another, in rising number, each until nothing is left for it, and tells whether something moved.
pub fn serve_range<M: Mapper, F: Decide + Copy + Drop>(
    hall: &mut PlainHall,
    servers: &mut Vec<Alone<'_, M, F>>,
    from: usize,
    to: usize,
) -> bool
    requires there { IsHome (slot_at hall.old MAX_HEAPS) }
    requires count { length servers.old.items ≡ length hall.old.owns }
    requires tied { AreTied hall.old servers.old.items }
    requires within { to ≤ length servers.old.items }
    ensures served { HaveServedAmong (IsBetween from to) (IsOutside from to) (record { plain = hall.old; servers = servers.old.items })
        (record { plain = hall.new; servers = servers.new.items }) result }
    ensures tied { AreTied hall.new servers.new.items }
    ensures later { AreLater (record { plain = hall.old; servers = servers.old.items })
        (record { plain = hall.new; servers = servers.new.items }) }
    ensures count { length servers.new.items ≡ length servers.old.items }
    ensures measure { boxes_measure hall.new.boxes + servers_measure (pending_at hall.new.clock) servers.new.items + if_moved result
        ≤ boxes_measure hall.old.boxes + servers_measure (pending_at hall.old.clock) servers.old.items }
    ensures visits { from ≤ to → has_stopped servers.new.items ≡ false
        → Visits from to (record { plain = hall.old; servers = servers.old.items })
        (record { plain = hall.new; servers = servers.new.items }) }
{
    let mut moved = false;
    for number in from..to {
        let served = serve_at(hall, servers, number);
        moved = either(moved, served);
    }
    moved
}

// Serves the one of a number.
fn serve_at<M: Mapper, F: Decide + Copy + Drop>(
    hall: &mut PlainHall,
    servers: &mut Vec<Alone<'_, M, F>>,
    number: usize,
) -> bool
    requires there { IsHome (slot_at hall.old MAX_HEAPS) }
    requires count { length servers.old.items ≡ length hall.old.owns }
    requires tied { AreTied hall.old servers.old.items }
    requires within { number < length servers.old.items }
    ensures served { HaveServedAmong (λ who. who ≡ number) (λ who. who ≢ number) (record { plain = hall.old; servers = servers.old.items })
        (record { plain = hall.new; servers = servers.new.items }) result }
    ensures tied { AreTied hall.new servers.new.items }
    ensures later { AreLater (record { plain = hall.old; servers = servers.old.items })
        (record { plain = hall.new; servers = servers.new.items }) }
    ensures count { length servers.new.items ≡ length servers.old.items }
    ensures measure { boxes_measure hall.new.boxes + servers_measure (pending_at hall.new.clock) servers.new.items + if_moved result
        ≤ boxes_measure hall.old.boxes + servers_measure (pending_at hall.old.clock) servers.old.items }
    ensures visited { has_stopped servers.new.items ≡ false
        → Visit (denials_in (server_at servers.old.items number)) number (record { plain = hall.old; servers = servers.old.items })
        (record { plain = hall.new; servers = servers.new.items }) }
{
    let server = &mut servers[number];
    server.serve(hall)
}

// One of two moved.
fn either(first: bool, second: bool) -> bool
    ensures { result ≡ (first || second) }
{
    first || second
}
