// One step of a carrier: the next bay is vacated and the carrier crosses, or else it is swapped with the carrier there. A step is lent the rest of
// the list, and answers what it counted.
#![tactic(auto)]

ghost use Rattle.acting.specs.Acting.{Ready};
ghost use Rattle.step.specs.Asking.{StepAsks, AsideAsks, StepSays, StepSettles, StepInAsks, StepInSays};

use acting::Tally;
use docket::{Bay, Carrier};

// One step: the carrier r that steps and the next bay w on its way. The carriers below `finished` are finished.
#[derive(Clone, Copy)]
pub struct NextStep {
    pub finished: usize,
    pub carrier: Carrier,
    pub to: Bay,
}

// The step where a carrier may stand at w: it is vacated, then r crosses; or else r is swapped with the carrier there. Held are r's own bay and
// those of the finished carriers.
fn make_way(
    table: &[u64],
    settled: &[u64],
    next: NextStep,
    placement: &mut [u16],
    standing: &mut [u16],
    empty: &mut [u64],
    out: &mut [u64],
) -> Option<Tally>
    requires ready { Ready table.now placement.old standing.old empty.old }
    requires step_asks { StepAsks next table.now placement.old standing.old settled.now }
    ensures { StepSays next table.now placement.old standing.old out.old
        placement.new standing.new empty.new out.new result }
{
    let r = next.carrier;
    let w = next.to;
    let own = r.0 as usize;
    let mut held = [0u64; words::WORDS];
    words::keep(&mut held, 0, settled);
    words::add(&mut held, placement[own] as usize);
    let vacated = acting::make_room(table, &held, w, placement, standing, empty, out);
    let Some(done) = vacated else {
        let bay = w.0 as usize;
        let s = Carrier(standing[bay] as u32);
        return swap::swap(table, r, s, placement, standing, empty, out);
    };
    let made = done.crossings;
    let parked = done.parked;
    let u = Bay(placement[own]);
    let crossings = moving::cross(placement, standing, empty, u, w, out, made);
    Some(Tally { crossings, parked })
}

// The step where the bay e beside w is empty and the choice: the carrier at w crosses to it, then r crosses. An empty bay is not held, so nobody asks
// what is.
fn step_aside(
    table: &[u64],
    next: NextStep,
    e: Bay,
    placement: &mut [u16],
    standing: &mut [u16],
    empty: &mut [u64],
    out: &mut [u64],
) -> Option<Tally>
    requires ready { Ready table.now placement.old standing.old empty.old }
    requires aside_asks { AsideAsks next e.0 table.now placement.old standing.old empty.old }
    ensures { StepSays next table.now placement.old standing.old out.old
        placement.new standing.new empty.new out.new result }
{
    let r = next.carrier;
    let w = next.to;
    let aside = acting::fill(table, placement, standing, empty, w, e, out);
    let made = aside.crossings;
    let parked = aside.parked;
    let own = r.0 as usize;
    let u = Bay(placement[own]);
    let crossings = moving::cross(placement, standing, empty, u, w, out, made);
    Some(Tally { crossings, parked })
}

// One step of r to w: it is vacated, then r crosses; or else r is swapped with the carrier there. Vacating an empty bay moves
// nothing, and a finished carrier's bay is held: neither needs a search. Nor does a bay that an empty one is beside.
fn step_to(
    table: &[u64],
    settled: &[u64],
    next: NextStep,
    placement: &mut [u16],
    standing: &mut [u16],
    empty: &mut [u64],
    out: &mut [u64],
) -> Option<Tally>
    requires ready { Ready table.now placement.old standing.old empty.old }
    requires step_asks { StepAsks next table.now placement.old standing.old settled.now }
    ensures { StepSays next table.now placement.old standing.old out.old
        placement.new standing.new empty.new out.new result }
{
    let r = next.carrier;
    let w = next.to;
    let bay = w.0 as usize;
    if words::is_in(empty, bay) {
        let own = r.0 as usize;
        let here = placement[own];
        let u = Bay(here);
        return Some(acting::cross(placement, standing, empty, u, w, out));
    }
    let s = standing[bay];
    let there = s as usize;
    if there < next.finished {
        let carrier = s as u32;
        return swap::swap(table, r, Carrier(carrier), placement, standing, empty, out);
    }
    let beside = choice::common(table, table, bay, empty, 0);
    if beside < words::SPAN {
        let number = beside as u16;
        let e = Bay(number);
        return step_aside(table, next, e, placement, standing, empty, out);
    }
    make_way(table, settled, next, placement, standing, empty, out)
}

// The step of r into an empty bay w, and the bays of the finished carriers after it: nobody but r moves.
pub fn step_in(
    r: Carrier,
    w: Bay,
    placement: &mut [u16],
    standing: &mut [u16],
    empty: &mut [u64],
    settled: &mut [u64],
    out: &mut [u64],
) -> Tally
    requires { StepInAsks r.0 w.0 placement.old standing.old empty.old settled.old }
    ensures { StepInSays r.0 w.0 placement.old standing.old settled.old out.old
        placement.new standing.new empty.new settled.new out.new result }
{
    let own = r.0 as usize;
    let u = Bay(placement[own]);
    let m = acting::cross(placement, standing, empty, u, w, out);
    settle::settle(settled, u, w);
    m
}

// One step of r to w, and the bays of the finished carriers after it: r or one of them may have left its bay for another's.
pub fn step(
    table: &[u64],
    next: NextStep,
    placement: &mut [u16],
    standing: &mut [u16],
    empty: &mut [u64],
    settled: &mut [u64],
    out: &mut [u64],
) -> Option<Tally>
    requires ready { Ready table.now placement.old standing.old empty.old }
    requires step_asks { StepAsks next table.now placement.old standing.old settled.old }
    ensures { StepSettles next table.now placement.old standing.old out.old
        placement.new standing.new empty.new settled.new out.new result }
{
    let r = next.carrier;
    let w = next.to;
    let own = r.0 as usize;
    let u = Bay(placement[own]);
    let done = step_to(table, settled, next, placement, standing, empty, out)?;
    let m = Tally {
        crossings: done.crossings,
        parked: done.parked,
    };
    settle::settle(settled, u, w);
    Some(m)
}
