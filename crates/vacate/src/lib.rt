// Making room: a bay is vacated. The way to the nearest empty bay is found, and the carriers on it move one bay on. Vacating is lent the rest of
// the list, and counts what it made.
#![tactic(auto)]

ghost use Rattle.std.specs.Prelude.{◌≡◌, false};
ghost use Rattle.words.specs.Sets.{mem};
ghost use Rattle.rings.specs.Ways.{WaySays};
ghost use Rattle.lookup.specs.Told.{LookupAsks};
ghost use Rattle.vacate.specs.Answer.{VacateAsks, VacateSays};

use docket::Bay;

// The bay was empty; the bay that was filled, with the count of crossings made; or nothing could be done.
#[derive(Clone, Copy)]
pub enum Vacated {
    Empty,
    Filled(Bay, usize),
    Failed,
}

// The shortest path from x to the nearest empty bay, through bays not held. A table with levels is that of a crowded yard: there the way is
// looked up, and searched for ring by ring only where the levels do not tell it.
fn way_out(
    table: &[u64],
    n: usize,
    held: &[u64],
    x: Bay,
    empty: &[u64],
    path: &mut [u16],
) -> Option<(Bay, usize)>
    requires { LookupAsks n table.now held.now empty.now path.old x.0 }
    ensures { WaySays n table.now held.now empty.now x.0 path.new result }
{
    if table.len() < 2 * n * words::WORDS {
        return ways::way_to_nearest(table, n, held, x, empty, path);
    }
    let known = lookup::way(table, n, held, x, empty, path);
    if let Some((e, m)) = known {
        return Some((e, m));
    }
    rings::way_to_nearest(table, n, held, x, empty, path)
}

// Vacate(x, held), where x is neither empty nor held, and no empty bay beside it.
fn fill_nearest(
    table: &[u64],
    held: &[u64],
    x: Bay,
    placement: &mut [u16],
    standing: &mut [u16],
    empty: &mut [u64],
    out: &mut [u64],
) -> Vacated
    requires vacate_asks { VacateAsks table.now held.now x.0 placement.old standing.old empty.old }
    requires x_value { (mem empty.old x.0 ≡ false) × (mem held.now x.0 ≡ false) }
    ensures { VacateSays table.now held.now x.0
        placement.old standing.old empty.old out.old
        placement.new standing.new empty.new out.new result }
{
    let n = standing.len();
    let mut path = [0u16; words::SPAN];
    let Some((e, m)) = way_out(table, n, held, x, empty, &mut path) else {
        return Vacated::Failed;
    };
    Vacated::Filled(
        e,
        moving::shift(&path[..m], placement, standing, empty, out, 0),
    )
}

// Vacate(x, held). Mostly an empty bay is beside x, and then nothing is searched.
pub fn vacate(
    table: &[u64],
    held: &[u64],
    x: Bay,
    placement: &mut [u16],
    standing: &mut [u16],
    empty: &mut [u64],
    out: &mut [u64],
) -> Vacated
    requires { VacateAsks table.now held.now x.0 placement.old standing.old empty.old }
    ensures { VacateSays table.now held.now x.0
        placement.old standing.old empty.old out.old
        placement.new standing.new empty.new out.new result }
{
    let bay = x.0 as usize;
    if words::is_in(empty, bay) {
        return Vacated::Empty;
    }
    if words::is_in(held, bay) {
        return Vacated::Failed;
    }
    let beside = choice::free(table, bay, empty, held);
    if beside < words::SPAN {
        let e = Bay(beside as u16);
        return Vacated::Filled(e, moving::cross(placement, standing, empty, x, e, out, 0));
    }
    fill_nearest(table, held, x, placement, standing, empty, out)
}
