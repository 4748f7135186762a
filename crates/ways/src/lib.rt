// The shortest path to the nearest wanted bay. Where few rails lead to a bay, the bays are met one by one, each from the first in the
// queue that is joined to it, and the path is read backwards; elsewhere ring by ring.
#![tactic(auto)]

ghost use Rattle.std.specs.Prelude.{◌≡◌, ◌+◌, ◌*◌, ◌≤◌, length};
ghost use Rattle.words.specs.Sets.{words};
ghost use Rattle.rings.specs.Ways.{PathAsks, PathSays, WayAsks, WaySays};
ghost use Rattle.ways.specs.Few.{few, by_queue, ByQueueAsks, PathByQueueAsks};

use docket::Bay;

// Whether fewer than four rails lead to the bay: then a queue is faster than rings.
fn few_rails(table: &[u64], a: usize) -> bool
    requires { a * words + words ≤ length table.now }
    ensures { result ≡ few table.now a }
{
    choice::count_rails(table, a) < 4
}

// The shortest path from x to the nearest wanted bay, through bays not held, by a queue. The queue stands in the room for the path, which is
// written over it at last. What is seen and free is of the newest ring, since no ring before it has a free bay.
fn one_by_one(
    table: &[u64],
    n: usize,
    held: &[u64],
    x: Bay,
    wanted: &[u64],
    path: &mut [u16],
) -> Option<(Bay, usize)>
    requires { WayAsks n table.now held.now wanted.now path.old x.0 }
    ensures { WaySays n table.now held.now wanted.now x.0 path.new result }
{
    let middle = x.0 as usize;
    if words::is_in(wanted, middle) {
        path[0] = x.0;
        return Some((x, 1));
    }
    let mut seen = [0u64; words::WORDS];
    let mut free = [0u64; words::WORDS];
    let mut before = [0u16; words::SPAN];
    words::keep(&mut seen, 0, held);
    words::join(&mut seen, middle);
    words::keep(&mut free, 0, wanted);
    words::minus(&mut free, held);
    path[0] = x.0;
    let mut done = 0;
    let mut count = 1;
    for d in 0..n {
        let end = count;
        count = queue::pass(table, n, done, end, &mut seen, path, &mut before);
        if count == end {
            break;
        }
        done = end;
        let e = choice::common(table, &seen, 0, &free, 0);
        if e < words::SPAN {
            queue::trace(&before, e, d + 1, path);
            return Some((Bay(e as u16), d + 2));
        }
    }
    None
}

// The shortest path from x to the nearest wanted bay, through bays not held.
pub fn way_to_nearest(
    table: &[u64],
    n: usize,
    held: &[u64],
    x: Bay,
    wanted: &[u64],
    path: &mut [u16],
) -> Option<(Bay, usize)>
    requires { WayAsks n table.now held.now wanted.now path.old x.0 }
    ensures { WaySays n table.now held.now wanted.now x.0 path.new result }
{
    if few_rails(table, x.0 as usize) {
        return one_by_one(table, n, held, x, wanted, path);
    }
    rings::way_to_nearest(table, n, held, x, wanted, path)
}

// The shortest path from u to v, neither of them held, by a queue.
fn path_by_queue(
    table: &[u64],
    n: usize,
    held: &[u64],
    u: Bay,
    v: Bay,
    path: &mut [u16],
) -> Option<usize>
    requires { PathByQueueAsks n table.now held.now path.old u.0 v.0 }
    ensures { PathSays n table.now held.now u.0 v.0 path.new result }
{
    let mut goal = [0u64; words::WORDS];
    words::alone(&mut goal, v.0 as usize);
    rings::path_along(one_by_one(table, n, held, u, &goal, path))
}

// Whether a queue serves from u to v: few rails lead to both, and neither is held.
fn by_queue(table: &[u64], held: &[u64], u: usize, v: usize) -> bool
    requires { ByQueueAsks table.now held.now u v }
    ensures { result ≡ by_queue table.now held.now u v }
{
    few_rails(table, u) && few_rails(table, v) && !words::is_in(held, u) && !words::is_in(held, v)
}

// The shortest path from u to v through bays not held.
pub fn path_between(
    table: &[u64],
    n: usize,
    held: &[u64],
    u: Bay,
    v: Bay,
    path: &mut [u16],
) -> Option<usize>
    requires { PathAsks n table.now held.now path.old u.0 v.0 }
    ensures { PathSays n table.now held.now u.0 v.0 path.new result }
{
    if by_queue(table, held, u.0 as usize, v.0 as usize) {
        return path_by_queue(table, n, held, u, v, path);
    }
    rings::path_between(table, n, held, u, v, path)
}
