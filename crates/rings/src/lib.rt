// Ring by ring around a bay, through bays not held: rows of words, of which row i is ring i. The nearest bay of a set, the choice among
// the nearest, and the shortest path are read from them. The room for the path is lent.
#![tactic(auto)]

ghost use Rattle.std.specs.Prelude.{◌≡◌, true, ℕ, ◌+◌, ◌*◌, ◌≤◌, ◌<◌, length};
ghost use Rattle.paper.specs.Basics.{◌and◌};
ghost use Rattle.words.specs.Sets.{mem, mem_row, words, span};
ghost use Rattle.rings.specs.Search.{NextRingAsks, NextRingSays, SearchAsks, SearchSays};
ghost use Rattle.rings.specs.Widening.{Widened};
ghost use Rattle.rings.specs.Ways.{InwardAsks, InwardSays, NarrowAsks, NarrowSays, OutwardAsks, OutwardSays, KeepBesideAsks, KeptBeside};
ghost use Rattle.rings.specs.Ways.{Ends, path_along, way_by, PathNearAsks, PathNearSays, PathAsks, PathSays, WayNearAsks, WayNearSays, WayAsks, WaySays};

use docket::Bay;

// Words of the rows that a search has at first: 32 rings, which do in most yards and are soon cleared.
const NEAR: usize = 32 * words::WORDS;

// Words of rows for any search.
const ALL: usize = words::SPAN * words::WORDS;

// What a search in few rows finds: the bay to which a path leads and the number of its bays; that there is none; or that the rows
// don't reach so far.
#[derive(Clone, Copy)]
enum Near {
    Found(Bay, usize),
    Nowhere,
    Farther,
}

// One more ring, which becomes row d + 1.
fn next_ring(
    table: &[u64],
    n: usize,
    d: usize,
    seen: &mut [u64],
    ring: &mut [u64],
    rows: &mut [u64],
)
    requires { NextRingAsks n table.now d seen.old ring.old rows.old }
    ensures { NextRingSays table.now d seen.old ring.old rows.old seen.new ring.new rows.new }
{
    widen(table, seen, ring);
    words::keep(rows, d + 1, ring);
}

// Ring by ring around x, until a ring has a wanted bay, or there is no further one, or no row for it; answers the number of that ring.
fn search(table: &[u64], n: usize, held: &[u64], x: Bay, wanted: &[u64], rows: &mut [u64]) -> usize
    requires { SearchAsks n table.now held.now x.0 wanted.now rows.old }
    ensures { SearchSays n table.now held.now x.0 wanted.now rows.new result }
{
    let middle = x.0 as usize;
    let mut seen = [0u64; words::WORDS];
    let mut ring = [0u64; words::WORDS];
    words::keep(&mut seen, 0, held);
    words::join(&mut seen, middle);
    words::alone(&mut ring, middle);
    words::keep(rows, 0, &ring);
    let last = n.min(rows.len() / words::WORDS) - 1;
    for d in 0..last {
        if words::meets(&ring, 0, wanted, 0) || words::is_empty(&ring) {
            return d;
        }
        next_ring(table, n, d, &mut seen, &mut ring, rows);
    }
    last
}

// The path from x, d rails from the bay in the middle of the rows: each next bay is the lowest neighbour in the ring one nearer.
fn inward(table: &[u64], n: usize, rows: &[u64], d: usize, x: Bay, path: &mut [u16])
    requires { InwardAsks n table.now rows.now d x.0 path.old }
    ensures { InwardSays n table.now rows.now d x.0 path.new }
{
    let mut u = x.0 as usize;
    for i in 0..d {
        path[i] = u as u16;
        u = words::lowest_common(table, u, rows, d - 1 - i);
    }
    path[d] = u as u16;
}

// Only the bays of row i stay in the set.
fn meet_row(set: &mut [u64], rows: &[u64], i: usize)
    requires { (length set.old ≡ words) × (i * words + words ≤ length rows.now) }
    ensures { (b : ℕ) → b < span → mem set.new b ≡ mem set.old b and mem_row rows.now i b }
{
    for k in 0..words::WORDS {
        set[k] &= rows[i * words::WORDS + k];
    }
}

// Row i keeps only the bays beside those kept, and these are the kept ones now.
fn keep_beside(table: &[u64], i: usize, rows: &mut [u64], kept: &mut [u64])
    requires { KeepBesideAsks table.now i rows.old kept.old }
    ensures { KeptBeside table.now i rows.old kept.old rows.new kept.new }
{
    let mut found = [0u64; words::WORDS];
    words::beside(table, kept, &mut found);
    meet_row(&mut found, rows, i);
    words::keep(kept, 0, &found);
    words::keep(rows, i, kept);
}

// From e back, each ring keeps only the bays beside those kept in the ring after it: the bays on the shortest paths to e.
fn narrow(table: &[u64], n: usize, rows: &mut [u64], d: usize, e: Bay)
    requires { NarrowAsks n table.now rows.old d e.0 }
    ensures { NarrowSays n table.now rows.old d e.0 rows.new }
{
    let last = e.0 as usize;
    let mut kept = [0u64; words::WORDS];
    words::alone(&mut kept, last);
    words::keep(rows, d, &kept);
    for i in (1..d).rev() {
        keep_beside(table, i, rows, &mut kept);
    }
}

// The path from x through the kept bays: each next bay is the lowest neighbour in the row one further.
fn outward(table: &[u64], n: usize, rows: &[u64], d: usize, x: Bay, path: &mut [u16])
    requires { OutwardAsks n table.now rows.now d x.0 path.old }
    ensures { OutwardSays n table.now rows.now d x.0 path.new }
{
    let mut u = x.0 as usize;
    for i in 0..d {
        path[i] = u as u16;
        u = words::lowest_common(table, u, rows, i + 1);
    }
    path[d] = u as u16;
}

// The shortest path from u to v through bays not held, if the rows reach so far.
fn path_near(
    table: &[u64],
    n: usize,
    held: &[u64],
    u: Bay,
    v: Bay,
    rows: &mut [u64],
    path: &mut [u16],
) -> Near
    requires { PathNearAsks n table.now held.now rows.old path.old u.0 v.0 }
    ensures { PathNearSays n table.now held.now rows.old u.0 v.0 path.new result }
{
    let from = u.0 as usize;
    let mut start = [0u64; words::WORDS];
    words::alone(&mut start, from);
    let d = search(table, n, held, v, &start, rows);
    if words::is_in(rows, d * words::SPAN + from) {
        inward(table, n, rows, d, u, path);
        return Near::Found(v, d + 1);
    }
    ended(n, rows, d)
}

// Where the search ended at row d with nothing found: there is nothing, or the rows were too few.
fn ended(n: usize, rows: &[u64], d: usize) -> Near
    requires { (n ≤ span) × (d < n) }
    ensures { Ends n rows.now d result }
{
    if n <= d + 1 {
        return Near::Nowhere;
    }
    if rows.len() < (d + 2) * words::WORDS {
        return Near::Farther;
    }
    Near::Nowhere
}

fn way_of(near: Near) -> Option<(Bay, usize)>
    ensures { result ≡ way_by near }
{
    match near {
        Near::Found(e, m) => Some((e, m)),
        Near::Nowhere | Near::Farther => None,
    }
}

// The path that the way is, wherever it leads.
pub fn path_along(way: Option<(Bay, usize)>) -> Option<usize>
    ensures { result ≡ path_along way }
{
    match way {
        Some((_, m)) => Some(m),
        None => None,
    }
}

// The shortest path from u to v through bays not held. Few rows do mostly, and are soon cleared; where they don't, all are taken.
pub fn path_between(
    table: &[u64],
    n: usize,
    held: &[u64],
    u: Bay,
    v: Bay,
    path: &mut [u16],
) -> Option<usize>
    requires { PathAsks n table.now held.now path.old u.0 v.0 }
    ensures { PathSays n table.now held.now u.0 v.0 path.new result }
{
    let mut near = path_near(table, n, held, u, v, &mut [0; NEAR], path);
    if let Near::Farther = near {
        near = path_near(table, n, held, u, v, &mut [0; ALL], path);
    }
    path_along(way_of(near))
}

// The shortest path from x to the nearest wanted bay, through bays not held, from the one search around x, if the rows reach so far.
fn way_near(
    table: &[u64],
    n: usize,
    held: &[u64],
    x: Bay,
    wanted: &[u64],
    rows: &mut [u64],
    path: &mut [u16],
) -> Near
    requires { WayNearAsks n table.now held.now wanted.now rows.old path.old x.0 }
    ensures { WayNearSays n table.now held.now wanted.now rows.old x.0 path.new result }
{
    let d = search(table, n, held, x, wanted, rows);
    let b = choice::in_ring(table, rows, d, wanted);
    if words::SPAN <= b {
        return ended(n, rows, d);
    }
    let e = Bay(b as u16);
    narrow(table, n, rows, d, e);
    outward(table, n, rows, d, x, path);
    Near::Found(e, d + 1)
}

// The shortest path from x to the nearest wanted bay, through bays not held.
pub fn way_to_nearest(
    table: &[u64],
    n: usize,
    held: &[u64],
    x: Bay,
    wanted: &[u64],
    path: &mut [u16],
) -> Option<(Bay, usize)>
    requires { WayAsks n table.now held.now wanted.now path.old x.0 }
    ensures { WaySays n table.now held.now wanted.now x.0 path.new result }
{
    let mut near = way_near(table, n, held, x, wanted, &mut [0; NEAR], path);
    if let Near::Farther = near {
        near = way_near(table, n, held, x, wanted, &mut [0; ALL], path);
    }
    way_of(near)
}

// One ring more, of which no row is kept.
pub fn widen(table: &[u64], seen: &mut [u64], ring: &mut [u64])
    requires { (length seen.old ≡ words) × (length ring.old ≡ words) × ((b : ℕ) → b < span → mem ring.old b ≡ true → b * words + words ≤ length table.now) }
    ensures { Widened table.now seen.old ring.old seen.new ring.new }
{
    let mut next = [0u64; words::WORDS];
    words::beside(table, ring, &mut next);
    words::settle(&next, seen, ring);
}
