// What every action is lent and what it answers: it is lent the rest of the list, counts from nothing, and answers a tally of what it made. Here too:
// vacating and crossing counted so.
#![tactic(auto)]

ghost use Rattle.std.specs.Prelude.{◌≡◌, min, ◌+◌, ◌*◌, ◌≤◌, ◌<◌, length};
ghost use Rattle.words.specs.Sets.{words, span};
ghost use Rattle.moving.specs.Bounds.{room_crossing};
ghost use Rattle.moving.specs.Placed.{CrossAsks};
ghost use Rattle.acting.specs.Acting.{Tabled, Ready, AsFar, Added, FilledIn, parks, Counts, junctions, RoomAsks, RoomSays, CrossCounts, FillCounts};

use docket::Bay;
use vacate::Vacated;

// What is counted: crossings, and the vacates that filled a bay of three rails or more. Whoever takes a tally out of an answer makes it anew from its two
// numbers: they are then read one by one, as they were written. Copied whole, both are read at once, which waits until both are stored.
#[derive(Clone, Copy)]
pub struct Tally {
    pub crossings: usize,
    pub parked: usize,
}

// Nothing is made yet.
pub const NOTHING: Tally = Tally {
    crossings: 0,
    parked: 0,
};

// Whether three rails or more lead to v.
pub fn is_junction(table: &[u64], n: usize, v: Bay) -> bool
    requires { (n ≤ span) × (v.0 < n) × (n * words ≤ length table.now) }
    ensures { (t : Tabled n table.now) → result ≡ junctions t.yard v.0 }
{
    2 < choice::count_rails(table, v.0 as usize)
}

// Far more vacates than any plan has crossings. The count stops here, so that nobody who adds to it has to show that it has room.
const ENOUGH: usize = 4294967296;

// So many, and as many more.
fn add_parked(parked: usize, more: usize) -> usize
    ensures { AsFar result (parked + more) × (result ≤ parked + more) }
{
    if ENOUGH <= parked {
        return parked;
    }
    if ENOUGH <= more {
        return more;
    }
    parked + more
}

// One tally, and what was counted from nothing after it.
pub fn add(at: Tally, more: Tally) -> Tally
    requires { at.crossings + more.crossings < room_crossing }
    ensures { Added at more result }
{
    let before = at.crossings;
    let after = more.crossings;
    let parked = add_parked(at.parked, more.parked);
    Tally {
        crossings: before + after,
        parked,
    }
}

// The place where the list goes on after so many crossings, or its end. What comes next is lent the list from there.
pub fn place_in(out: &[u64], made: usize) -> usize
    ensures { result ≡ min made (length out.now) }
{
    if made < out.len() {
        return made;
    }
    out.len()
}

// The tally of a vacate that filled bay e by so many crossings.
fn tally_filled(table: &[u64], n: usize, e: Bay, crossings: usize) -> Tally
    requires { (n ≤ span) × (e.0 < n) × (n * words ≤ length table.now) }
    ensures { (result.crossings ≡ crossings)
        × ((t : Tabled n table.now) → result.parked ≡ parks t.yard e.0) }
{
    if is_junction(table, n, e) {
        return Tally {
            crossings,
            parked: 1,
        };
    }
    Tally {
        crossings,
        parked: 0,
    }
}

// Vacating, by its tally.
fn counted(table: &[u64], n: usize, answer: Vacated) -> Option<Tally>
    requires { (n ≤ span) × (n * words ≤ length table.now) × FilledIn n answer }
    ensures { (t : Tabled n table.now) → Counts t.yard answer result }
{
    match answer {
        Vacated::Empty => Some(NOTHING),
        Vacated::Filled(e, m) => Some(tally_filled(table, n, e, m)),
        Vacated::Failed => None,
    }
}

// Vacate(x, held).
pub fn make_room(
    table: &[u64],
    held: &[u64],
    x: Bay,
    placement: &mut [u16],
    standing: &mut [u16],
    empty: &mut [u64],
    out: &mut [u64],
) -> Option<Tally>
    requires ready { Ready table.now placement.old standing.old empty.old }
    requires room_asks { RoomAsks table.now held.now x.0 standing.old }
    ensures { RoomSays table.now held.now x.0
        placement.old standing.old empty.old out.old
        placement.new standing.new empty.new out.new result }
{
    let n = standing.len();
    let answer = vacate::vacate(table, held, x, placement, standing, empty, out);
    counted(table, n, answer)
}

// The carrier at bay a crosses to the empty bay b.
pub fn cross(
    placement: &mut [u16],
    standing: &mut [u16],
    empty: &mut [u64],
    a: Bay,
    b: Bay,
    out: &mut [u64],
) -> Tally
    requires { CrossAsks a.0 b.0 placement.old standing.old empty.old 0 }
    ensures { CrossCounts a.0 b.0 placement.old standing.old out.old
        placement.new standing.new empty.new out.new result }
{
    let crossings = moving::cross(placement, standing, empty, a, b, out, 0);
    Tally {
        crossings,
        parked: 0,
    }
}

// The carrier at bay a crosses to the empty bay b beside it, by which a is vacated.
pub fn fill(
    table: &[u64],
    placement: &mut [u16],
    standing: &mut [u16],
    empty: &mut [u64],
    a: Bay,
    b: Bay,
    out: &mut [u64],
) -> Tally
    requires cross_asks { CrossAsks a.0 b.0 placement.old standing.old empty.old 0 }
    requires words_in_bounds { length standing.old * words ≤ length table.now }
    ensures { FillCounts a.0 b.0 table.now placement.old standing.old out.old
        placement.new standing.new empty.new out.new result }
{
    let n = standing.len();
    let crossings = moving::cross(placement, standing, empty, a, b, out, 0);
    tally_filled(table, n, b, crossings)
}
