// Where a table goes on above its rails, the way to the nearest wanted bay is looked up in its levels. They know of no held bays, and these only take
// paths away: so a walk past the held bays that is a rail nearer at each step is the answer, and where it is stuck, the way has to be searched for.
#![tactic(auto)]

ghost use Rattle.lookup.specs.Told.{LeadAsks, LeadSays, LookupAsks, LookupSays};

use docket::Bay;

// The path from x to e, d rails away with no bay held: each next bay is the lowest neighbour not held that is one rail nearer to e. Answers whether
// there is one at each step.
fn lead(table: &[u64], n: usize, held: &[u64], x: Bay, e: Bay, d: usize, path: &mut [u16]) -> bool
    requires { LeadAsks n table.now held.now x.0 e.0 d path.old }
    ensures { LeadSays n table.now held.now x.0 e.0 d path.new result }
{
    let end = e.0 as usize;
    let mut u = x.0 as usize;
    for i in 0..d - 1 {
        path[i] = u as u16;
        let row = ((d - 2 - i) * n + end) * words::WORDS;
        u = words::lowest_free(table, u, &table[row..row + words::WORDS], held);
        if words::SPAN <= u {
            return false;
        }
    }
    path[d - 1] = u as u16;
    path[d] = e.0;
    true
}

// The shortest path from x to the nearest wanted bay, through bays not held, where the levels tell it.
pub fn way(
    table: &[u64],
    n: usize,
    held: &[u64],
    x: Bay,
    wanted: &[u64],
    path: &mut [u16],
) -> Option<(Bay, usize)>
    requires { LookupAsks n table.now held.now wanted.now path.old x.0 }
    ensures { LookupSays n table.now held.now wanted.now x.0 path.new result }
{
    let mut free = [0u64; words::WORDS];
    words::keep(&mut free, 0, wanted);
    words::minus(&mut free, held);
    let j = first_level::first_level(table, n, x, &free);
    if table.len() < (j + 1) * n * words::WORDS {
        return None;
    }
    let e = Bay(choice::common(table, table, j * n + x.0 as usize, &free, 0) as u16);
    if lead(table, n, held, x, e, j + 1, path) {
        return Some((e, j + 2));
    }
    None
}
