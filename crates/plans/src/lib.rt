// A lent plan, read by name: the crossing at a place of it, and the lookup that finds the crossing of any name or says that there is none.
#![tactic(auto)]

ghost use Rattle.std.specs.Prelude.{◌≡◌, ◌<◌, length};
ghost use Rattle.paper.specs.Yard.{crossings, named};
ghost use Rattle.docket.specs.Reading.{crossing_of};
ghost use Rattle.plans.specs.Reading.{found_in, named_of};

use docket::Crossing;

// The crossing of a name that is in the plan.
pub fn crossing_at(plan: &[u64], name: usize) -> Crossing
    requires { name < length plan.now }
    ensures { crossing_of result ≡ named (crossings plan.now) name }
{
    docket::unpack(plan[name])
}

// The crossing that bears the name, or that none does.
pub fn find(plan: &[u64], name: u64) -> Option<Crossing>
    ensures { named_of result ≡ found_in (crossings plan.now) name }
{
    let at = name as usize;
    if at < plan.len() {
        Some(crossing_at(plan, at))
    } else {
        None
    }
}
