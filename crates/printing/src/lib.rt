// The print of a plan and of a refusal into lent bytes. All bytes are counted and those that fit are stored, so a caller whose
// room was too small learns how much it takes.
#![tactic(auto)]

ghost use Rattle.std.specs.Prelude.{◌*◌, ◌≤◌, length};
ghost use Rattle.paper.specs.Yard.{most_crossings};
ghost use Rattle.paper.specs.Answers.{refused};
ghost use Rattle.paper.specs.Print.{printed};
ghost use Rattle.docket.specs.Reading.{refusal_of};
ghost use Rattle.stores.specs.Writing.{Wrote};
ghost use Rattle.printing.specs.Parts.{action_lines, handed};

use docket::Refusal;

// One action a line.
fn actions(plan: &[u64], out: &mut [u8]) -> usize
    requires { length plan.now ≤ most_crossings }
    ensures { Wrote out.old 0 (action_lines plan.now) out.new result × (result ≤ 80 * length plan.now) }
{
    let mut at = 0;
    for x in plan {
        at = plan_lines::action(out, at, docket::unpack(*x));
    }
    at
}

// A refusal's line, of 64 bytes at most.
pub fn refusal(r: Refusal, out: &mut [u8]) -> usize
    ensures { Wrote out.old 0 (printed (refused (refusal_of r))) out.new result × (result ≤ 64) }
{
    let end = put_bytes::put_named(out, 0, b"; refused ", docket::number(r));
    if docket::carries(r) {
        let after = put_bytes::put_named(out, end, b" ", docket::carried(r));
        return put_bytes::put_text(out, after, b"\n");
    }
    put_bytes::put_text(out, end, b"\n")
}

// A plan's lines; a plan over the limit is refusal 8. Answers how many bytes that takes.
pub fn plan(plan: &[u64], out: &mut [u8]) -> usize
    ensures { Wrote out.old 0 (printed (handed plan.now)) out.new result }
{
    let crossings = plan.len();
    if crossings <= paper::CROSSINGS {
        let end = actions(plan, out);
        return plan_lines::cost(out, end, crossings as u64);
    }
    refusal(Refusal::Room(crossings as u64), out)
}
