// Whether a junction is blocked. From each of its sides it is looked ring by ring, not passing the junction, for an empty bay or one of the two carriers:
// that is mostly near. A side where there is none is shut.
#![tactic(auto)]

ghost use Rattle.std.specs.Prelude.{◌≡◌, true};
ghost use Rattle.outlook.specs.Outlook.{ThreeAsks, ThreeSays, SideAsks, SideSays, OutlookAsks, OutlookSays};

use docket::Bay;

// Whether three neighbours of bay v are in the set.
fn has_three(table: &[u64], v: Bay, seen: &[u64]) -> bool
    requires { ThreeAsks table.now seen.now v.0 }
    ensures { ThreeSays table.now seen.now v.0 result }
{
    let mut near = [0u64; words::WORDS];
    words::join_row(&mut near, table, v.0 as usize);
    let x = words::lowest_common(&near, 0, seen, 0);
    if words::SPAN <= x {
        return false;
    }
    words::remove(&mut near, x);
    let y = words::lowest_common(&near, 0, seen, 0);
    if words::SPAN <= y {
        return false;
    }
    words::remove(&mut near, y);
    words::meets(&near, 0, seen, 0)
}

// The open sides that bay x is: one, or none where it is shut. Where none of all that x reaches without passing a shut bay is free, they are shut too.
fn open_sides(table: &[u64], n: usize, x: Bay, free: &[u64], shut: &mut [u64]) -> usize
    requires { SideAsks n x.0 table.now free.now shut.old }
    ensures { SideSays table.now free.now shut.old shut.new result }
{
    if words::is_in(shut, x.0 as usize) {
        return 0;
    }
    let mut seen = [0u64; words::WORDS];
    let mut ring = [0u64; words::WORDS];
    words::keep(&mut seen, 0, shut);
    words::join(&mut seen, x.0 as usize);
    words::alone(&mut ring, x.0 as usize);
    for _ in 0..n {
        if words::meets(&ring, 0, free, 0) {
            return 1;
        }
        if words::is_empty(&ring) {
            words::keep(shut, 0, &seen);
            return 0;
        }
        rings::widen(table, &mut seen, &mut ring);
    }
    1
}

// Whether junction v is blocked for two carriers at u and w: at most two of its sides are free.
pub fn is_blocked(table: &[u64], n: usize, v: Bay, u: Bay, w: Bay, empty: &[u64]) -> bool
    requires { OutlookAsks n v.0 u.0 w.0 table.now empty.now }
    ensures { result ≡ true → OutlookSays n v.0 u.0 w.0 table.now empty.now }
{
    let mut free = [0u64; words::WORDS];
    words::keep(&mut free, 0, empty);
    words::join(&mut free, u.0 as usize);
    words::join(&mut free, w.0 as usize);
    let mut shut = [0u64; words::WORDS];
    words::alone(&mut shut, v.0 as usize);
    let mut sides = [0u64; words::WORDS];
    words::join_row(&mut sides, table, v.0 as usize);
    let mut found = 0;
    let mut x = words::next_from(&sides, 0);
    while x < words::SPAN {
        found += open_sides(table, n, Bay(x as u16), &free, &mut shut);
        if 2 < found {
            return false;
        }
        x = words::next_from(&sides, x + 1);
    }
    words::minus(&mut sides, &shut);
    !has_three(table, v, &sides)
}
