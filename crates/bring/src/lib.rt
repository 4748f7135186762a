// Bring: two carriers go to a junction one behind the other.
#![tactic(auto)]

ghost use Rattle.std.specs.Prelude.{[], ◌∷◌};
ghost use Rattle.acting.specs.Acting.{Ready};
ghost use Rattle.bring.specs.Bringing.{EnterAsks, EnterSays, OneAsks, BringAsks, BringSays};

use acting::Tally;
use docket::{Bay, Carrier};

// Two carriers that go one behind the other: the follower enters the bay that the leader leaves.
#[derive(Clone, Copy)]
pub struct Couple {
    pub leader: Carrier,
    pub follower: Carrier,
}

// The leader crosses into the empty bay x, and the follower into the leader's old bay.
pub fn enter(
    couple: Couple,
    x: Bay,
    placement: &mut [u16],
    standing: &mut [u16],
    empty: &mut [u64],
    out: &mut [u64],
) -> Tally
    requires { EnterAsks couple x.0 placement.old standing.old empty.old }
    ensures { EnterSays couple x.0 placement.old standing.old out.old
        placement.new standing.new empty.new out.new result }
{
    let first = couple.leader.0 as usize;
    let second = couple.follower.0 as usize;
    let u = Bay(placement[first]);
    let w = Bay(placement[second]);
    let one = moving::cross(placement, standing, empty, u, x, out, 0);
    let crossings = moving::cross(placement, standing, empty, w, u, out, one);
    Tally {
        crossings,
        parked: 0,
    }
}

// One bay of the path: it is vacated, holding both carriers' bays, and then entered. Vacating an empty bay moves nothing, so it needs no
// search.
fn bring_one(
    table: &[u64],
    couple: Couple,
    x: Bay,
    placement: &mut [u16],
    standing: &mut [u16],
    empty: &mut [u64],
    out: &mut [u64],
) -> Option<Tally>
    requires ready { Ready table.now placement.old standing.old empty.old }
    requires one_asks { OneAsks couple x.0 placement.old standing.old }
    ensures { BringSays couple (x.0 ∷ [])
        table.now placement.old standing.old out.old
        placement.new standing.new empty.new out.new result }
{
    if words::is_in(empty, x.0 as usize) {
        return Some(enter(couple, x, placement, standing, empty, out));
    }
    let first = couple.leader.0 as usize;
    let second = couple.follower.0 as usize;
    let u = placement[first];
    let w = placement[second];
    let mut held = [0u64; words::WORDS];
    words::alone(&mut held, u as usize);
    words::join(&mut held, w as usize);
    let made = acting::make_room(table, &held, x, placement, standing, empty, out)?;
    let from = acting::place_in(out, made.crossings);
    let entered = enter(couple, x, placement, standing, empty, &mut out[from..]);
    Some(acting::add(made, entered))
}

// Bring, along the bays that the leader has yet to enter.
pub fn bring(
    table: &[u64],
    path: &[u16],
    couple: Couple,
    placement: &mut [u16],
    standing: &mut [u16],
    empty: &mut [u64],
    out: &mut [u64],
) -> Option<Tally>
    requires ready { Ready table.now placement.old standing.old empty.old }
    requires bring_asks { BringAsks couple path.now placement.old standing.old }
    ensures { BringSays couple path.now
        table.now placement.old standing.old out.old
        placement.new standing.new empty.new out.new result }
{
    let mut count = acting::NOTHING;
    for bay in path {
        let x = Bay(*bay);
        let from = acting::place_in(out, count.crossings);
        let made = bring_one(
            table,
            couple,
            x,
            placement,
            standing,
            empty,
            &mut out[from..],
        )?;
        count = acting::add(count, made);
    }
    Some(count)
}
