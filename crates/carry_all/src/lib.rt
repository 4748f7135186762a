// The procedure: carriers by rising number, each with its turn.
#![tactic(auto)]

ghost use Rattle.acting.specs.Acting.{Ready};
ghost use Rattle.carry_all.specs.Serving.{CarryAllAsks, CarryAllSays};

use acting::Tally;
use carry::along::ToGoal;
pub use carry::home;
use docket::{Bay, Carrier};

// All carriers by rising number, each lent the rest of the list. What the yard is, is asked once, since in a carousel every bay must tell.
pub fn carry_all(
    table: &[u64],
    goals: &[u16],
    owner: &[u16],
    placement: &mut [u16],
    standing: &mut [u16],
    empty: &mut [u64],
    settled: &mut [u64],
    out: &mut [u64],
) -> Result<Tally, Carrier>
    requires ready { Ready table.now placement.old standing.old empty.old }
    requires carry_all_asks { CarryAllAsks goals.now owner.now table.now placement.old standing.old settled.old }
    ensures { CarryAllSays goals.now table.now placement.old standing.old out.old
        placement.new standing.new empty.new settled.new out.new result }
{
    let in_carousel = kinds::is_carousel(table, standing.len());
    let mut count = acting::NOTHING;
    for (r, goal) in goals.iter().enumerate() {
        let number = r as u32;
        let to = ToGoal {
            carrier: Carrier(number),
            goal: Bay(*goal),
            in_carousel,
        };
        let from = acting::place_in(out, count.crossings);
        let rest = &mut out[from..];
        let carried = carry::carry(table, owner, to, placement, standing, empty, settled, rest);
        let Ok(made) = carried else {
            return carried;
        };
        count = acting::add(count, made);
    }
    Ok(count)
}
