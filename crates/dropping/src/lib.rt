// There-and-back trips dropped, cut after cut. Every crossing keeps its place; a byte beside each says whether it is dropped, and a set of names says where
// a trip may begin. A cut drops one carrier's crossings, so only leavings whose next entering was dropped are looked at again. The lowest name of the set
// is found word by word, since a cut sends the look back. A search by bay or carrier goes by links, past the crossings that cannot be what it looks for.
#![tactic(auto)]

ghost use Rattle.std.specs.Prelude.{◌≡◌, suc, ◌≤◌, ◌<◌, ◌*◌, ◌-◌, length, get_or};
ghost use Rattle.paper.specs.Yard.{crossings};
ghost use Rattle.trips.specs.Trips.{shorten as shorten_of};
ghost use Rattle.trips.specs.Names.{left};
ghost use Rattle.chains.specs.Links.{Linked};
ghost use Rattle.chains.specs.Asking.{SearchAsks};
ghost use Rattle.dropping.specs.Going.{Going};
ghost use Rattle.dropping.specs.Asks.{LeavingSays, OwnSays, NotedSays, TripAsks, DropSays, LookAsks, LookSays};

use chains::Link;
use docket::Carrier;

// The last crossing before `name` that leaves the bay that the crossing enters, or `name` itself where none does. The links lead to it at once.
fn last_leaving(plan: &[u64], gone: &[u8], links: &mut [u16], name: usize) -> usize
    requires { SearchAsks plan.now gone.now links.old name }
    ensures { LeavingSays plan.now gone.now links.new name result }
{
    let x = plans::crossing_at(plan, name);
    let end = chains::behind(plan, gone, links, name);
    for m in (0..end).rev() {
        if gone[m] == 0 && plans::crossing_at(plan, m).from.0 == x.to.0 {
            return m;
        }
    }
    name
}

// The next of the carrier's crossings after `name` up to `last`, or the name after `last`.
fn next_own(plan: &[u64], gone: &[u8], links: &mut [u16], name: usize, last: usize) -> usize
    requires { (name ≤ last) × SearchAsks plan.now gone.now links.old last }
    ensures { OwnSays plan.now gone.now links.new name last result }
{
    chains::ahead(plan, gone, links, name, Link::Own, Link::Own).min(last + 1)
}

// Where the crossing is the carrier's, the last leaving of the bay that it enters is to be looked at again. The lower of `low` and that name.
fn note_one(
    plan: &[u64],
    gone: &[u8],
    todo: &mut [u64],
    links: &mut [u16],
    name: usize,
    carrier: Carrier,
    low: usize,
) -> usize
    requires { SearchAsks plan.now gone.now links.old name × (length plan.now ≤ 64 * length todo.old) }
    ensures { NotedSays plan.now gone.now todo.old carrier.0 name 1 low todo.new links.new result }
{
    if gone[name] != 0 {
        return low;
    }
    let x = plans::crossing_at(plan, name);
    if x.carrier.0 != carrier.0 {
        return low;
    }
    let leaving = last_leaving(plan, gone, links, name);
    words::add(todo, leaving);
    low.min(leaving)
}

// The same for each crossing from `name` to `last`; the lowest name to be looked at again, or `name`.
fn note_leavings(
    plan: &[u64],
    gone: &[u8],
    todo: &mut [u64],
    links: &mut [u16],
    name: usize,
    last: usize,
    carrier: Carrier,
) -> usize
    requires { TripAsks plan.now gone.now links.old carrier.0 name last × (length plan.now ≤ 64 * length todo.old) }
    ensures { NotedSays plan.now gone.now todo.old carrier.0 name (suc last - name) name todo.new links.new result }
{
    let mut low = name;
    let mut m = name;
    while m <= last {
        low = note_one(plan, gone, todo, links, m, carrier, low);
        m = next_own(plan, gone, links, m, last);
    }
    low
}

// The carrier's crossings from `name` to `last` are dropped: the leaving, which is at `name`, and those after it.
fn drop_trip(
    plan: &[u64],
    gone: &mut [u8],
    links: &mut [u16],
    name: usize,
    last: usize,
    carrier: Carrier,
)
    requires { TripAsks plan.now gone.old links.old carrier.0 name last × (get_or gone.old name 0 ≡ 0) }
    ensures { DropSays plan.now gone.old carrier.0 name last gone.new links.new }
{
    let mut m = next_own(plan, gone, links, name, last);
    gone[name] = 1;
    while m <= last {
        if returning::is_of(plan, m, carrier) {
            gone[m] = 1;
        }
        m = next_own(plan, gone, links, m, last);
    }
}

// One look: at a name where a trip begins it is cut, and the look goes back to the lowest name that this may have freed.
fn look(plan: &[u64], gone: &mut [u8], todo: &mut [u64], links: &mut [u16], name: usize) -> usize
    requires { LookAsks plan.now gone.old todo.old links.old name }
    ensures { LookSays plan.now gone.old name gone.new todo.new links.new result }
{
    if gone[name] != 0 {
        words::remove(todo, name);
        return name + 1;
    }
    let last = returning::last_return(plan, gone, links, name);
    if last == name {
        words::remove(todo, name);
        return name + 1;
    }
    let x = plans::crossing_at(plan, name);
    let low = note_leavings(plan, gone, todo, links, name, last, x.carrier);
    drop_trip(plan, gone, links, name, last, x.carrier);
    low
}

// Cut after cut, the lowest name first, until there is none.
pub fn drop_trips(plan: &[u64], gone: &mut [u8], todo: &mut [u64], links: &mut [u16])
    requires { Going plan.now gone.old todo.old 0 × Linked plan.now gone.old links.old }
    ensures { (length gone.new ≡ length plan.now)
        × (left gone.new (crossings plan.now) ≡ shorten_of (crossings plan.now)) }
{
    let mut name = name_sets::next_name(todo, 0);
    while name < plan.len() {
        let low = look(plan, gone, todo, links, name);
        name = name_sets::next_name(todo, low);
    }
}
