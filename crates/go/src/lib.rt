// A carrier goes its path: it steps through the bays ahead, one after the other.
#![tactic(auto)]

ghost use Rattle.acting.specs.Acting.{Ready};
ghost use Rattle.step.specs.Asking.{StepAsks, StepSettles};
ghost use Rattle.go.specs.Going.{GoAsks, GoSays};

use acting::Tally;
use docket::{Bay, Carrier};
pub use step;
use step::NextStep;

// One step of r to w: r crosses at once where w is empty.
fn advance(
    table: &[u64],
    next: NextStep,
    placement: &mut [u16],
    standing: &mut [u16],
    empty: &mut [u64],
    settled: &mut [u64],
    out: &mut [u64],
) -> Option<Tally>
    requires ready { Ready table.now placement.old standing.old empty.old }
    requires step_asks { StepAsks next table.now placement.old standing.old settled.old }
    ensures { StepSettles next table.now placement.old standing.old out.old
        placement.new standing.new empty.new settled.new out.new result }
{
    let r = next.carrier;
    let w = next.to;
    let bay = w.0 as usize;
    if words::is_in(empty, bay) {
        return Some(step::step_in(r, w, placement, standing, empty, settled, out));
    }
    step::step(table, next, placement, standing, empty, settled, out)
}

// Carrier r steps through the bays ahead; the carriers below r are finished, and their bays are the settled ones. Each step is lent the rest of the list.
pub fn go(
    table: &[u64],
    ahead: &[u16],
    r: Carrier,
    placement: &mut [u16],
    standing: &mut [u16],
    empty: &mut [u64],
    settled: &mut [u64],
    out: &mut [u64],
) -> Option<Tally>
    requires ready { Ready table.now placement.old standing.old empty.old }
    requires go_asks { GoAsks r.0 ahead.now table.now placement.old standing.old settled.old }
    ensures { GoSays r.0 ahead.now
        table.now placement.old standing.old out.old
        placement.new standing.new empty.new settled.new out.new result }
{
    let finished = r.0 as usize;
    let mut count = acting::NOTHING;
    for bay in ahead {
        let w = Bay(*bay);
        let next = NextStep {
            finished,
            carrier: r,
            to: w,
        };
        let from = acting::place_in(out, count.crossings);
        let rest = &mut out[from..];
        let one = advance(table, next, placement, standing, empty, settled, rest);
        let Some(made) = one else {
            return None;
        };
        count = acting::add(count, made);
    }
    Some(count)
}
