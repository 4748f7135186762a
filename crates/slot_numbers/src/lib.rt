// The slots of a plan, told by two numbers.
#![tactic(auto)]

ghost use Rattle.std.specs.Prelude.{◌≡◌, length};
ghost use Rattle.paper.specs.Order.{order};
ghost use Rattle.paper.specs.Answers.{slots_refusal, slots_end};
ghost use Rattle.numbers.specs.Numbers.{number_of, value_of};
ghost use Rattle.numbers.specs.Tells.{Tells};

// As many slots are written as the plan has crossings, whatever room the lent list has.
pub fn slots(
    bays: u64,
    rails: &[u16],
    start: &[u16],
    goal: &[u16],
    plan: &[u64],
    slots: &mut [u32],
    value: &mut u64,
) -> u64
    ensures { Tells (number_of (slots_refusal (order bays rails.now start.now goal.now) plan.now (length slots.old)))
        (value_of (length plan.now)
        (slots_refusal (order bays rails.now start.now goal.now) plan.now (length slots.old)))
        result value.new
        × (slots.new ≡ slots_end (order bays rails.now start.now goal.now) plan.now slots.old) }
{
    let answer = reports::slots(bays, rails, start, goal, plan, slots);
    log_numbers::told_checked(answer, plan.len() as u64, value)
}
