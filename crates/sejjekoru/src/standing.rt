// Where the carriers stand, by plan and marks.
ghost use Rattle.paper.specs.Order.{order};
ghost use Rattle.sejjekoru.specs.Standing.{PlacementTells};

#[unsafe(no_mangle)]
pub extern "C" fn sejjekoru_placement(
    bays: u64,
    rails: &[u16],
    start: &[u16],
    goal: &[u16],
    plan: &[u64],
    marks: &[u8],
    at: &mut [u16],
    value: &mut u64,
) -> u64
    ensures { PlacementTells (order bays rails.now start.now goal.now)
        plan.now marks.now at.old result value.new at.new }
{
    let answer = placement::placement(bays, rails, start, goal, plan, marks, at);
    numbers::told(answer, value)
}
