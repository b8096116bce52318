//! A law of pools. It is proved of all states that the rule of a pool allows, and its function has no code.
ghost use Rattle.hp_mempool.specs.PoolLaws.{HaveOneHolder};

/// An object that a pass has, in cache or out, is with no other pass and not in the queue. Own.
pub fn holder_law()
    ensures one { HaveOneHolder }
{}
