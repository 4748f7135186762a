// The timed print of a plan whose slots are known, into lent bytes. As in the plain print all bytes are counted and those that fit are stored.
#![tactic(auto)]

ghost use Rattle.std.specs.Prelude.{◌≡◌, ◌*◌, ◌≤◌, length};
ghost use Rattle.paper.specs.Yard.{crossings, most_crossings};
ghost use Rattle.stores.specs.Writing.{Wrote};
ghost use Rattle.trains.specs.Print.{print_timed};
ghost use Rattle.timed_print.specs.Lines.{lines_of};

// One line for each crossing, in plan order.
fn lines(plan: &[u64], slots: &[u32], out: &mut [u8]) -> usize
    requires { (length plan.now ≤ most_crossings) × (length slots.now ≡ length plan.now) }
    ensures { Wrote out.old 0 (lines_of slots.now plan.now) out.new result × (result ≤ 100 * length plan.now) }
{
    let mut at = 0;
    for (i, x) in plan.iter().enumerate() {
        at = timed_line::line(out, at, slots[i], docket::unpack(*x));
    }
    at
}

// All of it, the comment last. Answers how many bytes that takes.
pub fn print(plan: &[u64], slots: &[u32], out: &mut [u8]) -> usize
    requires { (length plan.now ≤ most_crossings) × (length slots.now ≡ length plan.now) }
    ensures { Wrote out.old 0 (print_timed slots.now (crossings plan.now)) out.new result }
{
    let end = lines(plan, slots, out);
    plan_lines::cost(out, end, plan.len() as u64)
}
