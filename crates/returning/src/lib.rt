// The last return of a there-and-back trip. The search goes by links, past the crossings that do not enter the bay.
#![tactic(auto)]

ghost use Rattle.std.specs.Prelude.{◌≡◌, suc, ◌<◌, length};
ghost use Rattle.paper.specs.Yard.{crossings, named};
ghost use Rattle.trips.specs.Trips.{is_of};
ghost use Rattle.chains.specs.Links.{Linked};
ghost use Rattle.chains.specs.Asking.{SearchAsks};
ghost use Rattle.returning.specs.Returns.{last_from};

use chains::Link;
use docket::Carrier;

// The crossing is the carrier's.
pub fn is_of(plan: &[u64], name: usize, carrier: Carrier) -> bool
    requires { name < length plan.now }
    ensures { result ≡ is_of carrier.0 (named (crossings plan.now) name) }
{
    plans::crossing_at(plan, name).carrier.0 == carrier.0
}

// The name of the last return of the carrier that crosses at `name`, or `name` itself where it does not return.
pub fn last_return(plan: &[u64], gone: &[u8], links: &mut [u16], name: usize) -> usize
    requires { SearchAsks plan.now gone.now links.old name }
    ensures { (result < length plan.now)
        × (result ≡ last_from (named (crossings plan.now) name) (crossings plan.now) gone.now name (suc name))
        × Linked plan.now gone.now links.new }
{
    let x = plans::crossing_at(plan, name);
    let mut last = name;
    let mut m = chains::ahead(plan, gone, links, name, Link::EntersFrom, Link::EntersTo);
    while m < plan.len() {
        let y = plans::crossing_at(plan, m);
        if gone[m] == 0 && y.to.0 == x.from.0 {
            if y.carrier.0 != x.carrier.0 {
                return last;
            }
            last = m;
        }
        m = chains::ahead(plan, gone, links, m, Link::EntersTo, Link::EntersTo);
    }
    last
}
