//! What is run in one thread over the mappers of kits, whose clocks nobody reads.
ghost use Rattle.std.specs.Prelude.{◌≡◌, ◌≤◌, map, length, IfSome};
ghost use Rattle.std.specs.List.{All};
ghost use Rattle.hp_base.specs.declared.limits.TheConstants.{MAX_PARTICIPANTS};
ghost use Rattle.hp_base.specs.Streams.{CountsFault, HasRisen};
ghost use Rattle.hp_run.specs.Faults.{is_read_fault, is_write_fault};
ghost use Rattle.hp_run.specs.Making.{IsMade, IsSummaryFor};
ghost use Rattle.hp_run.specs.Mappers.{IsUnused};
ghost use Rattle.hp_run.specs.Outcome.{IsUnlessFailure, SoloEnds, solo_status_of};
ghost use Rattle.hp_script.specs.DrawnWords.GeneratedText.{generated_text};

use crate::generating::generate_summary;
use crate::kit::{Kit, mappers_of};
use crate::solo_call::solo;
use hp_base::{Clock, Mapper, Sink, Source, Status};
use std::alloc::Global;

/// What `solo` does, over the mappers of kits. Own.
pub fn solo_by_kits<S: Source, K: Sink, M: Mapper, C: Clock>(
    alloc: Global,
    source: &mut S,
    sink: &mut K,
    kits: Vec<Kit<M, C>>,
) -> Status
    requires count { length kits.items ≡ MAX_PARTICIPANTS }
    requires unused { All (λ kit. IsUnused (M.held kit.mapper) (M.answers kit.mapper) (M.capacity kit.mapper)) kits.items }
    ensures outcome { SoloEnds (map (λ kit. M.may_fail kit.mapper) kits.items) (S.left source.old) (S.left source.new)
        (K.held sink.old) (K.held sink.new)
        (HasRisen (S.faults source.old) (S.faults source.new))
        (HasRisen (K.faults sink.old) (K.faults sink.new)) result }
    ensures settled { IfSome (S.left source.old) (λ input. IsUnlessFailure (solo_status_of input) result) }
    ensures source_faults { CountsFault (S.faults source.old) (S.faults source.new)
        (is_read_fault result) }
    ensures sink_faults { CountsFault (K.faults sink.old) (K.faults sink.new)
        (is_write_fault result) }
{
    match mappers_of(alloc, kits) {
        Ok(mappers) => solo(alloc, source, sink, mappers),
        Err(_) => Status::OutOfMemory,
    }
}

/// What `generate_summary` does, over the mappers of kits. Own.
pub fn summary_by_kits<K: Sink, M: Mapper, C: Clock>(
    alloc: Global,
    start: u64,
    lines: u32,
    sink: &mut K,
    kits: Vec<Kit<M, C>>,
) -> Status
    requires some { 1 ≤ lines }
    requires few { lines ≤ 20000 }
    requires count { length kits.items ≡ MAX_PARTICIPANTS }
    requires unused { All (λ kit. IsUnused (M.held kit.mapper) (M.answers kit.mapper) (M.capacity kit.mapper)) kits.items }
    ensures outcome { IsMade (IsSummaryFor (map (λ kit. M.may_fail kit.mapper) kits.items) (generated_text start lines))
        (K.held sink.old) (K.held sink.new)
        (HasRisen (K.faults sink.old) (K.faults sink.new)) result }
    ensures sink_faults { CountsFault (K.faults sink.old) (K.faults sink.new)
        (is_write_fault result) }
{
    match mappers_of(alloc, kits) {
        Ok(mappers) => generate_summary(alloc, start, lines, sink, mappers),
        Err(_) => Status::OutOfMemory,
    }
}
