ghost use Rattle.hp_external.specs.Beside.{AddsLeaveOthers, AttachesLeaveOthers, DestroysLeaveOthers, DetachesLeaveOthers, RemovesLeaveOthers};

/// What the calls on one external heap leave of another, whose index and whose chunks' lists are others: it stays tied and stays so. This
/// law is proved of all values; its function has no code. Own.
pub fn beside_law()
    ensures destroyed { DestroysLeaveOthers }
    ensures added { AddsLeaveOthers }
    ensures removed { RemovesLeaveOthers }
    ensures attached { AttachesLeaveOthers }
    ensures detached { DetachesLeaveOthers }
{}
