//! Acts are played on a stage of their own.
use super::acts::{Act, perform};
use super::plan_of;
use super::stage::{Left, Stage};
use hp_base::{Plan, PlanEntry};
use std::alloc::Global;
use std::test::Fail;

// The act at that place, counted from 0, came out otherwise.
#[derive(Debug, Drop)]
struct Otherwise {
    place: usize,
}

// Each act comes out as it stands.
fn perform_all(stage: &mut Stage<'_>, acts: &[Act]) -> Result<(), Fail> {
    for place in 0..acts.len() {
        if !perform(stage, acts[place])? {
            return Err(Otherwise { place }.into());
        }
    }
    Ok(())
}

// Each act comes out as it stands, by that plan: what both participants leave.
fn play_by(alloc: Global, plan: &Plan, acts: &[Act]) -> Result<(Left, Left), Fail> {
    let mut stage = Stage::new(alloc, plan)?;
    perform_all(&mut stage, acts)?;
    Ok(stage.end(alloc)?)
}

/// Each act comes out as it stands, where participant 1 is armed with its first ask and that is planned: what both participants leave.
pub(super) fn play_to_end(
    alloc: Global,
    planned: Option<PlanEntry>,
    acts: &[Act],
) -> Result<(Left, Left), Fail> {
    let plan = plan_of(alloc, planned)?;
    play_by(alloc, &plan, acts)
}

/// Each act comes out so, whatever the participants leave.
pub(super) fn play(alloc: Global, planned: Option<PlanEntry>, acts: &[Act]) -> Result<(), Fail> {
    play_to_end(alloc, planned, acts)?;
    Ok(())
}
