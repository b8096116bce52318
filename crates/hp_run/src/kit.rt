ghost use Rattle.std.specs.Prelude.{◌≡◌, IfOk, map};

use hp_base::{Clock, Mapper};
use std::alloc::{AllocError, Global};

/// What a participant of a run gets from outside. Own.
#[derive(Drop)]
pub struct Kit<M: Mapper, C: Clock> {
    /// What maps its pages.
    pub mapper: M,
    /// What it reads the time by, where it has a thread of its own.
    pub clock: C,
}

/// The mappers of kits, by their places; the clocks are given up. Own.
pub fn mappers_of<M: Mapper, C: Clock>(
    alloc: Global,
    kits: Vec<Kit<M, C>>,
) -> Result<Vec<M>, AllocError>
    ensures { IfOk result (λ mappers. mappers.items ≡ map (λ kit. kit.mapper) kits.items) }
{
    let mut kits = kits;
    let mut mappers = Vec::with_capacity(alloc, kits.len())?;
    while !kits.is_empty() {
        let Kit { mapper, .. } = kits.remove(0);
        mappers.push_reserved(mapper);
    }
    Ok(mappers)
}
