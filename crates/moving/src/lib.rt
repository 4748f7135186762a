// Carriers move: one crosses, or those on a path move one bay on. Crossings are counted always, and stored where the lent list has
// room, so that an empty list only counts. Nothing is searched here.
#![tactic(auto)]

ghost use Rattle.std.specs.Prelude.{◌≡◌, ◌+◌, ◌<◌, length, get_or, set};
ghost use Rattle.moving.specs.Bounds.{room_crossing};
ghost use Rattle.moving.specs.Placed.{MovedOn, CrossAsks, CrossSays, ShiftAsks, ShiftSays};

use docket::{Bay, Carrier, Crossing};

// The number goes to its place in the list where the list is so long; answers the next place.
pub fn store(out: &mut [u64], at: usize, number: u64) -> usize
    requires { at < room_crossing }
    ensures { (out.new ≡ set out.old at number) × (result ≡ at + 1) }
{
    if at < out.len() {
        out[at] = number;
        return at + 1;
    }
    at + 1
}

// The carrier at bay a goes to bay b. Its number still stands at a, and the set of empty bays is not touched.
fn move_on(
    placement: &mut [u16],
    standing: &mut [u16],
    a: Bay,
    b: Bay,
    out: &mut [u64],
    at: usize,
) -> usize
    requires { (a.0 < length standing.old)
        × (b.0 < length standing.old)
        × (get_or standing.old a.0 0 < length placement.old)
        × (at < room_crossing) }
    ensures { MovedOn a.0 b.0 placement.old standing.old out.old at
        placement.new standing.new out.new result }
{
    let c = standing[a.0 as usize];
    placement[c as usize] = b.0;
    standing[b.0 as usize] = c;
    let crossing = Crossing {
        carrier: Carrier(c as u32),
        from: a,
        to: b,
    };
    store(out, at, docket::pack(crossing))
}

// The carrier at bay a crosses to the empty bay b.
pub fn cross(
    placement: &mut [u16],
    standing: &mut [u16],
    empty: &mut [u64],
    a: Bay,
    b: Bay,
    out: &mut [u64],
    at: usize,
) -> usize
    requires { CrossAsks a.0 b.0 placement.old standing.old empty.old at }
    ensures { CrossSays a.0 b.0 placement.old standing.old out.old at
        placement.new standing.new empty.new out.new result }
{
    let from = a.0 as usize;
    let to = b.0 as usize;
    let count = move_on(placement, standing, a, b, out, at);
    standing[from] = placement.len() as u16;
    words::remove(empty, to);
    words::add(empty, from);
    count
}

// Bays of a stretch: the carriers on it are moved in one call, since a call for each bay takes longer than its crossing.
const STRETCH: usize = 16;

// The carriers on a stretch of the path move one bay on: the last one first, then the one behind it. Only the stretch's two ends
// change between empty and occupied, so the set is changed once, at the end.
fn shift_stretch(
    path: &[u16],
    placement: &mut [u16],
    standing: &mut [u16],
    empty: &mut [u64],
    out: &mut [u64],
    at: usize,
) -> usize
    requires { ShiftAsks path.now placement.old standing.old empty.old at }
    ensures { ShiftSays path.now placement.old standing.old out.old at
        placement.new standing.new empty.new out.new result }
{
    if path.len() < 2 {
        return at;
    }
    let last = path.len() - 1;
    let mut count = at;
    for i in (0..last).rev() {
        let from = Bay(path[i]);
        let to = Bay(path[i + 1]);
        count = move_on(placement, standing, from, to, out, count);
    }
    standing[path[0] as usize] = placement.len() as u16;
    words::remove(empty, path[last] as usize);
    words::add(empty, path[0] as usize);
    count
}

// The carriers on the path move one bay on. The path is shifted from its end: first the rest of it, which empties the last bay of
// this stretch.
pub fn shift(
    path: &[u16],
    placement: &mut [u16],
    standing: &mut [u16],
    empty: &mut [u64],
    out: &mut [u64],
    at: usize,
) -> usize
    requires { ShiftAsks path.now placement.old standing.old empty.old at }
    ensures { ShiftSays path.now placement.old standing.old out.old at
        placement.new standing.new empty.new out.new result }
{
    if path.len() <= STRETCH {
        return shift_stretch(path, placement, standing, empty, out, at);
    }
    let m = shift(&path[STRETCH - 1..], placement, standing, empty, out, at);
    shift_stretch(&path[..STRETCH], placement, standing, empty, out, m)
}
