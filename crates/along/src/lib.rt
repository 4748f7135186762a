// A carrier goes its shortest path to its goal, in a carousel past the finished carriers. There it is finished.
#![tactic(auto)]

ghost use Rattle.std.specs.Prelude.{◌≡◌, length};
ghost use Rattle.words.specs.Sets.{span};
ghost use Rattle.rings.specs.Ways.{PathAsks};
ghost use Rattle.acting.specs.Acting.{Ready};
ghost use Rattle.along.specs.Along.{KindTold, PathPastSays, TurnAsks, GoalAsks, GoAlongSays};

use acting::Tally;
use docket::{Bay, Carrier};

// A carrier whose turn it is: those below it are finished. With its goal, and whether the yard is a carousel, where its path leads past the finished
// carriers.
#[derive(Clone, Copy)]
pub struct ToGoal {
    pub carrier: Carrier,
    pub goal: Bay,
    pub in_carousel: bool,
}

// The shortest path from u to v past the bays avoided: in a carousel the settled ones, elsewhere none.
fn path_past(
    table: &[u64],
    n: usize,
    in_carousel: bool,
    settled: &[u64],
    u: Bay,
    v: Bay,
    path: &mut [u16],
) -> Option<usize>
    requires path_asks { PathAsks n table.now settled.now path.old u.0 v.0 }
    requires kind_told { KindTold n table.now in_carousel }
    ensures { PathPastSays n table.now settled.now u.0 v.0 path.new result }
{
    let none = [0u64; words::WORDS];
    if in_carousel {
        return ways::path_between(table, n, settled, u, v, path);
    }
    ways::path_between(table, n, &none, u, v, path)
}

// Carrier r goes the path from its bay to its goal. There it is finished, and its bay settled.
pub fn go_along(
    table: &[u64],
    to: ToGoal,
    placement: &mut [u16],
    standing: &mut [u16],
    empty: &mut [u64],
    settled: &mut [u64],
    out: &mut [u64],
    path: &mut [u16],
) -> Option<(usize, Tally)>
    requires ready { Ready table.now placement.old standing.old empty.old }
    requires turn_asks { TurnAsks to table.now placement.old standing.old settled.old }
    requires goal_asks { GoalAsks to placement.old standing.old }
    requires path_len { length path.old ≡ span }
    ensures { GoAlongSays to table.now placement.old standing.old out.old
        placement.new standing.new empty.new settled.new out.new path.new result }
{
    let r = to.carrier;
    let v = to.goal;
    let own = r.0 as usize;
    let n = standing.len();
    let u = Bay(placement[own]);
    let k = path_past(table, n, to.in_carousel, settled, u, v, path)?;
    if k < 1 {
        return None;
    }
    let ahead = &path[1..k];
    let done = go::go(table, ahead, r, placement, standing, empty, settled, out)?;
    let made = Tally {
        crossings: done.crossings,
        parked: done.parked,
    };
    words::add(settled, placement[own] as usize);
    Some((k, made))
}
