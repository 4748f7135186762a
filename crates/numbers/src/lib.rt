// The two numbers by which C is told an answer: document 01's number, 0 where it is accepted, and the value that goes with it.
#![tactic(auto)]

ghost use Rattle.std.proofs.Math.Option.{none, some};
ghost use Rattle.docket.specs.Reading.{refusal_of, verdict_of};
ghost use Rattle.numbers.specs.Numbers.{number_of, value_of, verdict_number, verdict_value};
ghost use Rattle.numbers.specs.Tells.{Tells};

use docket::Refusal;

// Acceptance, with the length written.
pub fn accepted(written: u64, value: &mut u64) -> u64
    ensures { Tells (number_of none) (value_of written none) result value.new }
{
    *value = written;
    0
}

// A refusal, with what it carries.
pub fn refused(refusal: Refusal, value: &mut u64) -> u64
    ensures { Tells (number_of (some (refusal_of refusal))) (value_of 0 (some (refusal_of refusal))) result value.new }
{
    *value = docket::carried(refusal);
    docket::number(refusal)
}

// The answer of a function that hands back a number.
pub fn told(answer: Result<u64, Refusal>, value: &mut u64) -> u64
    ensures { Tells (verdict_number (verdict_of answer)) (verdict_value (verdict_of answer)) result value.new }
{
    match answer {
        Ok(n) => accepted(n, value),
        Err(r) => refused(r, value),
    }
}
