// Links between the crossings of a plan that share a bay or a carrier. Each leads past crossings that cannot be what a search looks for. Crossings are dropped
// and never come back, so a link stays right; a search that follows several puts the first one right up to what it found.
#![tactic(auto)]

ghost use Rattle.std.specs.Prelude.{[]};
ghost use Rattle.chains.specs.Links.{Linked, Ahead, place_of};
ghost use Rattle.chains.specs.Asking.{SearchAsks, SkipAsks, SkipSays, AheadAsks, AheadSays, EnteringAsks, EnteringSays, SkipBackAsks, SkipBackSays, BehindSays, FillAsks};

// Links of a crossing.
pub const LINKS: usize = 5;

// What a link leads to, in the order in which the links of a crossing stand.
#[derive(Clone, Copy)]
pub enum Link {
    // the next crossing that enters the bay which this one leaves
    EntersFrom,
    // the next that enters the bay which it enters
    EntersTo,
    // its carrier's next
    Own,
    // the last before it that leaves the bay which it enters
    LeavesTo,
    // the last before it that leaves the bay which it leaves
    LeavesFrom,
}

// The first name from `start` on, by links, that is not dropped, or the plan's length.
fn skip(plan: &[u64], gone: &[u8], links: &[u16], start: usize, link: Link) -> usize
    requires { SkipAsks plan.now gone.now links.now start (place_of link) }
    ensures { SkipSays plan.now gone.now start (place_of link) result }
{
    let mut m = start;
    while m < plan.len() {
        if gone[m] != 1 {
            return m;
        }
        m = links[m * LINKS + link as usize] as usize + 1;
    }
    m
}

// The next name after `name` that is not dropped and to which the link leads, or the plan's length. From there on links `again` lead further.
pub fn ahead(
    plan: &[u64],
    gone: &[u8],
    links: &mut [u16],
    name: usize,
    link: Link,
    again: Link,
) -> usize
    requires { AheadAsks plan.now gone.now links.old name (place_of link) (place_of again) }
    ensures { AheadSays plan.now gone.now name (place_of link) links.new result }
{
    let at = name * LINKS + link as usize;
    let first = links[at] as usize + 1;
    let r = skip(plan, gone, links, first, again);
    links[at] = (r - 1) as u16;
    r
}

// The next name that enters the bay that the crossing leaves, or the plan's length. Nothing is dropped yet, so one link leads there.
pub fn next_entering(plan: &[u64], links: &[u16], name: usize) -> usize
    requires { EnteringAsks plan.now links.now name }
    ensures { EnteringSays plan.now name result }
{
    links[name * LINKS + Link::EntersFrom as usize] as usize + 1
}

// One more than the last name below `start`, by links, that is not dropped, or 0.
fn skip_back(plan: &[u64], gone: &[u8], links: &[u16], start: usize) -> usize
    requires { SkipBackAsks plan.now gone.now links.now start }
    ensures { SkipBackSays plan.now gone.now start result }
{
    let mut m = start;
    while m > 0 {
        let u = m - 1;
        if gone[u] != 1 {
            return m;
        }
        m = links[u * LINKS + Link::LeavesFrom as usize] as usize;
    }
    m
}

// One more than the last name before `name` that leaves the bay that the crossing enters and is not dropped, or 0.
pub fn behind(plan: &[u64], gone: &[u8], links: &mut [u16], name: usize) -> usize
    requires { SearchAsks plan.now gone.now links.old name }
    ensures { BehindSays plan.now gone.now name links.new result }
{
    let at = name * LINKS + Link::LeavesTo as usize;
    let first = links[at] as usize;
    let r = skip_back(plan, gone, links, first);
    links[at] = r as u16;
    r
}

// The links up, from the last crossing down.
fn fill_ahead(plan: &[u64], links: &mut [u16])
    requires { FillAsks plan.now links.old }
    ensures { Ahead plan.now links.new 0 }
{
    let count = plan.len();
    let mut entering = [count; paper::BAYS];
    let mut moving = [count; paper::BAYS];
    for m in (0..count).rev() {
        let x = plans::crossing_at(plan, m);
        let from = x.from.0 as usize;
        let to = x.to.0 as usize;
        let carrier = x.carrier.0 as usize;
        links[m * LINKS + Link::EntersFrom as usize] = (entering[from] - 1) as u16;
        links[m * LINKS + Link::EntersTo as usize] = (entering[to] - 1) as u16;
        links[m * LINKS + Link::Own as usize] = (moving[carrier] - 1) as u16;
        entering[to] = m;
        moving[carrier] = m;
    }
}

// The links down, from the first crossing up.
fn fill_behind(plan: &[u64], links: &mut [u16])
    requires fill_asks { FillAsks plan.now links.old }
    requires ahead { Ahead plan.now links.old 0 }
    ensures { Linked plan.now [] links.new }
{
    let mut leaving = [0usize; paper::BAYS];
    for m in 0..plan.len() {
        let x = plans::crossing_at(plan, m);
        let from = x.from.0 as usize;
        let to = x.to.0 as usize;
        links[m * LINKS + Link::LeavesTo as usize] = leaving[to] as u16;
        links[m * LINKS + Link::LeavesFrom as usize] = leaving[from] as u16;
        leaving[from] = m + 1;
    }
}

// All links of a plan of which nothing is dropped.
pub fn fill(plan: &[u64], links: &mut [u16])
    requires { FillAsks plan.now links.old }
    ensures { Linked plan.now [] links.new }
{
    fill_ahead(plan, links);
    fill_behind(plan, links);
}
