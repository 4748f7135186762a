// How C is told what planning answers.
#![tactic(auto)]

ghost use Rattle.std.specs.Prelude.{◌≡◌};
ghost use Rattle.docket.specs.Reading.{verdict_of};
ghost use Rattle.planner.specs.Statement.{planned_of, uncounted, parked_by};
ghost use Rattle.numbers.specs.Tells.{Tells};
ghost use Rattle.plan_numbers.specs.Planned.{verdict_for, plan_number, plan_value};

use docket::Refusal;

// How many vacates of the plan filled a bay of three rails or more; 0 where there is none.
fn parked_in(answer: Result<(u64, u64), Refusal>) -> u64
    ensures { result ≡ parked_by answer }
{
    match answer {
        Ok((_, count)) => count,
        Err(_) => 0,
    }
}

// The plan's length, or why there is none.
fn length_in(answer: Result<(u64, u64), Refusal>) -> Result<u64, Refusal>
    ensures { verdict_of result ≡ verdict_for (planned_of (uncounted answer)) }
{
    match answer {
        Ok((written, _)) => Ok(written),
        Err(r) => Err(r),
    }
}

// Beside the two numbers of planning stands that count.
pub fn told_planned(answer: Result<(u64, u64), Refusal>, parked: &mut u64, value: &mut u64) -> u64
    ensures { Tells (plan_number (planned_of (uncounted answer))) (plan_value (planned_of (uncounted answer))) result value.new
        × (parked.new ≡ parked_by answer) }
{
    *parked = parked_in(answer);
    numbers::told(length_in(answer), value)
}
