// Planning on a small stack.
ghost use Rattle.paper.specs.Order.{order};
ghost use Rattle.sejjekoru.specs.Statements.{PlanTells};

#[unsafe(no_mangle)]
pub extern "C" fn sejjekoru_plan_lean(
    bays: u64,
    rails: &[u16],
    start: &[u16],
    goal: &[u16],
    plan: &mut [u64],
    parked: &mut u64,
    value: &mut u64,
) -> u64
    ensures { PlanTells (order bays rails.now start.now goal.now)
        plan.old result parked.new value.new plan.new }
{
    let answer = planner::plan_lean(bays, rails, start, goal, plan);
    plan_numbers::told_planned(answer, parked, value)
}
