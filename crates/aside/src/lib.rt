// Two neighbours of a junction are emptied one after the other, holding the junction and a third.
#![tactic(auto)]

ghost use Rattle.acting.specs.Acting.{Ready};
ghost use Rattle.aside.specs.Asking.{AsideAsks, AsideSays};

use acting::Tally;
use docket::Bay;

// What an attempt goes by besides x: the junction, the neighbour that is held with it, and the neighbour that is emptied after x.
#[derive(Clone, Copy)]
pub struct Aside {
    pub junction: Bay,
    pub held: Bay,
    pub emptied: Bay,
}

// The first way, on a placement that is used up: x is vacated, holding the junction and a neighbour; then the other one, holding x as well.
pub fn vacate_both(
    table: &[u64],
    aside: Aside,
    x: Bay,
    placement: &mut [u16],
    standing: &mut [u16],
    empty: &mut [u64],
    out: &mut [u64],
) -> Option<Tally>
    requires ready { Ready table.now placement.old standing.old empty.old }
    requires aside_asks { AsideAsks aside x.0 standing.old }
    ensures { AsideSays aside x.0
        table.now placement.old standing.old out.old
        placement.new standing.new empty.new out.new result }
{
    let mut held = [0u64; words::WORDS];
    words::alone(&mut held, aside.junction.0 as usize);
    words::join(&mut held, aside.held.0 as usize);
    let made = acting::make_room(table, &held, x, placement, standing, empty, out)?;
    words::join(&mut held, x.0 as usize);
    let from = acting::place_in(out, made.crossings);
    let more = acting::make_room(
        table,
        &held,
        aside.emptied,
        placement,
        standing,
        empty,
        &mut out[from..],
    )?;
    Some(acting::add(made, more))
}
