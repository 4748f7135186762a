// The way home: the finished carriers that were displaced step back to their goals, the last bay of the path first. Here is what is done at one bay.
#![tactic(auto)]

ghost use Rattle.acting.specs.Acting.{Ready};
ghost use Rattle.home.specs.Homing.{HomeAsks, HomeSays};

use acting::Tally;
use docket::{Bay, Carrier};
use go::step;
use go::step::NextStep;

// The way home has come to this bay. The carriers below `finished` are finished.
#[derive(Clone, Copy)]
pub struct HomeBay {
    pub finished: usize,
    pub bay: Bay,
}

// The finished carrier whose goal is v, if it is not there, steps to it. The table of whose goal each bay is tells which one that is.
pub fn home_at(
    table: &[u64],
    owner: &[u16],
    home: HomeBay,
    placement: &mut [u16],
    standing: &mut [u16],
    empty: &mut [u64],
    settled: &mut [u64],
    out: &mut [u64],
) -> Result<Tally, Carrier>
    requires ready { Ready table.now placement.old standing.old empty.old }
    requires home_asks { HomeAsks home owner.now table.now placement.old standing.old settled.old }
    ensures { HomeSays home owner.now table.now placement.old standing.old out.old
        placement.new standing.new empty.new settled.new out.new result }
{
    let v = home.bay;
    let finished = home.finished;
    let at = acting::NOTHING;
    let bay = v.0 as usize;
    let c = owner[bay] as usize;
    if finished <= c {
        return Ok(at);
    }
    if placement[c] == v.0 {
        return Ok(at);
    }
    let f = Carrier(c as u32);
    let next = NextStep {
        finished,
        carrier: f,
        to: v,
    };
    let one = step::step(table, next, placement, standing, empty, settled, out);
    let Some(done) = one else {
        return Err(f);
    };
    Ok(done)
}
