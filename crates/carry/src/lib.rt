// A carrier's turn: it goes its shortest path, in a carousel past the finished ones, and then those that it displaced go home.
#![tactic(auto)]

ghost use Rattle.acting.specs.Acting.{Ready};
ghost use Rattle.along.specs.Along.{TurnAsks};
ghost use Rattle.carry.specs.Carrying.{OwnedAsks, CarrySays};

use acting::Tally;
pub use along;
use along::ToGoal;
use docket::{Bay, Carrier};
pub use home;
use home::HomeBay;

// Carrier r goes its path, then those that it displaced go home: at the bays of the path one after the other, the last of them first. Each is lent the
// rest of the list.
pub fn carry(
    table: &[u64],
    owner: &[u16],
    to: ToGoal,
    placement: &mut [u16],
    standing: &mut [u16],
    empty: &mut [u64],
    settled: &mut [u64],
    out: &mut [u64],
) -> Result<Tally, Carrier>
    requires ready { Ready table.now placement.old standing.old empty.old }
    requires turn_asks { TurnAsks to table.now placement.old standing.old settled.old }
    requires owned_asks { OwnedAsks to owner.now placement.old standing.old }
    ensures { CarrySays to owner.now table.now placement.old standing.old out.old
        placement.new standing.new empty.new settled.new out.new result }
{
    let r = to.carrier;
    let mut path = [0u16; words::SPAN];
    let room = &mut path[..];
    let gone = along::go_along(table, to, placement, standing, empty, settled, out, room);
    let Some((k, done)) = gone else {
        return Err(r);
    };
    let mut count = done;
    if k < 3 {
        return Ok(count);
    }
    let finished = r.0 as usize + 1;
    for i in (1..k - 1).rev() {
        let bay = Bay(path[i]);
        let v = HomeBay { finished, bay };
        let from = acting::place_in(out, count.crossings);
        let rest = &mut out[from..];
        let homed = home::home_at(table, owner, v, placement, standing, empty, settled, rest);
        let Ok(made) = homed else {
            return homed;
        };
        count = acting::add(count, made);
    }
    Ok(count)
}
