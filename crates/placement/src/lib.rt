// Where the carriers stand, by plan and marks: the start, and then the done crossings in plan order.
#![tactic(auto)]

ghost use Rattle.paper.specs.Order.{order};
ghost use Rattle.placement.specs.Standing.{PlacementSays};

use docket::Refusal;

// The bay of each carrier, to the first places of `at`. A refusal changes nothing.
pub fn placement(
    bays: u64,
    rails: &[u16],
    start: &[u16],
    goal: &[u16],
    plan: &[u64],
    marks: &[u8],
    at: &mut [u16],
) -> Result<u64, Refusal>
    ensures { PlacementSays (order bays rails.now start.now goal.now)
        plan.now marks.now at.old result at.new }
{
    checker::check(bays, rails, start, goal, plan)?;
    if mark_order::bad_marks(plan, marks) {
        return Err(Refusal::Mismarked);
    }
    if at.len() < start.len() {
        return Err(Refusal::Room(start.len() as u64));
    }
    copies::copy(at, start);
    move_done::move_done(plan, marks, at);
    Ok(start.len() as u64)
}
