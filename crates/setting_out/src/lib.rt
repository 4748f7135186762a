// The names at which a there-and-back trip begins, before anything is dropped: those whose carrier is the next to enter the bay that it leaves. Few are, so
// few names have to be looked at.
#![tactic(auto)]

ghost use Rattle.std.specs.Prelude.{◌≡◌, false, [], ◌≤◌, ◌<◌, ◌*◌, length};
ghost use Rattle.chains.specs.Links.{Linked};
ghost use Rattle.setting_out.specs.SetOut.{StaysOut, SetOut};

// Whether the next crossing into the bay that the crossing leaves is its carrier's.
fn comes_back(plan: &[u64], links: &[u16], name: usize) -> bool
    requires { (name < length plan.now) × Linked plan.now [] links.now }
    ensures { result ≡ false → StaysOut plan.now name }
{
    let next = chains::next_entering(plan, links, name);
    next < plan.len() && returning::is_of(plan, next, plans::crossing_at(plan, name).carrier)
}

// All such names join the set.
pub fn set_out(plan: &[u64], links: &[u16], todo: &mut [u64])
    requires { Linked plan.now [] links.now × (length plan.now ≤ 64 * length todo.old) }
    ensures { SetOut plan.now todo.new (length plan.now) }
{
    for name in 0..plan.len() {
        if comes_back(plan, links, name) {
            words::add(todo, name);
        }
    }
}
