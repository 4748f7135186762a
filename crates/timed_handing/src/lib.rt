// An answer's timed print, by either edition of slots. It is handed over whole or not at all.
#![tactic(auto)]

ghost use Rattle.print_room.specs.Ready.{Slottable};
ghost use Rattle.timed_handing.specs.Handing.{TimedPrints, HandsOver};

use docket::Refusal;
use print_room::CROSSINGS;

// The answer's timed print, the plan in the list where there is one; what does not fit is counted only.
fn print_answer(edition: u64, answer: Result<u64, Refusal>, plan: &[u64], out: &mut [u8]) -> usize
    requires { Slottable answer plan.now }
    ensures { TimedPrints edition answer plan.now out.old out.new result }
{
    match answer {
        Ok(m) => {
            let n = m as usize;
            let mut slots = [0u32; CROSSINGS];
            editions::pass(edition, &plan[..n], &mut slots);
            timed_print::print(&plan[..n], &slots[..n], out)
        }
        Err(r) => printing::refusal(r, out),
    }
}

// The same, whole or not at all: it is counted first.
pub fn hand(
    edition: u64,
    answer: Result<u64, Refusal>,
    plan: &[u64],
    out: &mut [u8],
) -> Result<u64, Refusal>
    requires { Slottable answer plan.now }
    ensures { HandsOver edition answer plan.now out.old result out.new }
{
    let mut nothing = [0u8; 1];
    let needed = print_answer(edition, answer, plan, &mut nothing);
    if out.len() < needed {
        return Err(Refusal::Room(needed as u64));
    }
    print_answer(edition, answer, plan, out);
    Ok(needed as u64)
}
