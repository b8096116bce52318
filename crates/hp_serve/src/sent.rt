ghost use Rattle.std.specs.Prelude.{◌≡◌};
ghost use Rattle.hp_serve.specs.Party.{one_more};

/// How many messages a participant has sent of each kind: by these counts a plan names them. Own.
#[derive(Clone, Copy)]
pub struct Sent {
    /// ALLOCs.
    pub allocs: u64,
    /// FREEs.
    pub frees: u64,
    /// Replies to SYNCs.
    pub replies: u64,
    /// SYNCs to each of the participants 0 to 15.
    pub syncs: [u64; 16],
    /// RESULTs to each of the participants 0 to 15.
    pub answers: [u64; 16],
}

/// One more, up to the greatest number.
pub(crate) fn one_more(count: u64) -> u64
    ensures { result ≡ one_more count }
{
    count.saturating_add(1)
}
