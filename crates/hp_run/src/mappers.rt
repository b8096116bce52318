//! The mappers and kits of a run whose tables lie in memory alone.
ghost use Rattle.std.specs.Prelude.{◌≡◌, IfOk, Some, length};
ghost use Rattle.std.specs.List.{All};
ghost use Rattle.hp_base.specs.Mapping.{IsSteady, owned, refusals_at};
ghost use Rattle.hp_base.specs.declared.limits.TheConstants.{MAX_PARTICIPANTS};
ghost use Rattle.hp_run.specs.Mappers.{IsUnused};

use crate::kit::Kit;
use hp_base::{Clock, MAX_PARTICIPANTS, MAX_SEGMENTS, MemMapper};
use std::alloc::{AllocError, Global};

/// A mapper for each participant that there can be, which holds nothing and is steady: it refuses no call. Own.
pub fn mem_mappers(alloc: Global) -> Result<Vec<MemMapper>, AllocError>
    ensures count { IfOk result (λ mappers. length mappers.items ≡ MAX_PARTICIPANTS) }
    ensures unused { IfOk result (λ mappers.
        All (λ mapper. IsUnused (owned mapper.rows) mapper.answers mapper.capacity) mappers.items) }
    ensures steady { IfOk result (λ mappers. All (λ mapper. IsSteady (Some (refusals_at mapper.fails))) mappers.items) }
{
    let mut mappers = Vec::with_capacity(alloc, MAX_PARTICIPANTS as usize)?;
    for _participant in 0..MAX_PARTICIPANTS {
        mappers.push(mem_mapper(alloc)?)?;
    }
    Ok(mappers)
}

/// A kit for each participant that there can be: such a mapper, and a copy of the clock. Own.
pub fn mem_kits<C: Clock + Copy>(
    alloc: Global,
    clock: C,
) -> Result<Vec<Kit<MemMapper, C>>, AllocError>
    ensures count { IfOk result (λ kits. length kits.items ≡ MAX_PARTICIPANTS) }
    ensures unused { IfOk result (λ kits.
        All (λ kit. IsUnused (owned kit.mapper.rows) kit.mapper.answers kit.mapper.capacity) kits.items) }
    ensures steady { IfOk result (λ kits. All (λ kit. IsSteady (Some (refusals_at kit.mapper.fails))) kits.items) }
{
    let mut kits = Vec::with_capacity(alloc, MAX_PARTICIPANTS as usize)?;
    for _participant in 0..MAX_PARTICIPANTS {
        kits.push(mem_kit(alloc, clock)?)?;
    }
    Ok(kits)
}

// One of the kits.
fn mem_kit<C: Clock>(alloc: Global, clock: C) -> Result<Kit<MemMapper, C>, AllocError>
    ensures unused { IfOk result (λ kit. IsUnused (owned kit.mapper.rows) kit.mapper.answers kit.mapper.capacity) }
    ensures steady { IfOk result (λ kit. IsSteady (Some (refusals_at kit.mapper.fails))) }
{
    Ok(Kit {
        mapper: mem_mapper(alloc)?,
        clock,
    })
}

// One of the mappers.
fn mem_mapper(alloc: Global) -> Result<MemMapper, AllocError>
    ensures unused { IfOk result (λ mapper. IsUnused (owned mapper.rows) mapper.answers mapper.capacity) }
    ensures steady { IfOk result (λ mapper. IsSteady (Some (refusals_at mapper.fails))) }
{
    MemMapper::new(alloc, MAX_SEGMENTS as usize)
}
