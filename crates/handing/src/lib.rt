// A text handed over in a lent list: whole, or not at all where it does not fit. Either way the caller learns how many bytes it takes.
#![tactic(auto)]

ghost use Rattle.std.specs.Prelude.{◌≡◌};
ghost use Rattle.paper.specs.Print.{printed};
ghost use Rattle.docket.specs.Reading.{verdict_of};
ghost use Rattle.printing.specs.Parts.{handed as lent};
ghost use Rattle.handing.specs.Handing.{Hands, handed};

use docket::Refusal;

// A text that is there already.
pub fn text(from: &[u8], out: &mut [u8]) -> usize
    ensures { Hands from.now out.old out.new result }
{
    let n = from.len();
    if n <= out.len() {
        copies::copy(out, from);
    }
    n
}

// The print of a lent plan, which may take megabytes. It is counted first, so that a list that is too short stays as it was.
pub fn plan(plan: &[u64], out: &mut [u8]) -> usize
    ensures { Hands (printed (lent plan.now)) out.old out.new result }
{
    let mut none = [0u8; 1];
    let n = printing::plan(plan, &mut none);
    if n <= out.len() {
        return printing::plan(plan, out);
    }
    n
}

// What is answered then: so many were written, or so many are needed.
pub fn answer(needed: usize, has: usize) -> Result<u64, Refusal>
    ensures { verdict_of result ≡ handed needed has }
{
    let n = needed as u64;
    if needed <= has {
        return Ok(n);
    }
    Err(Refusal::Room(n))
}
