// Slots by either edition, in the documents' order of tests, for any input at all. Reports and bills go on by the first edition, so they
// never ask this crate.
#![tactic(auto)]

ghost use Rattle.std.specs.Prelude.{◌≡◌, ◌++◌, ◌≤◌, length, drop};
ghost use Rattle.paper.specs.Limits.{most_bays};
ghost use Rattle.paper.specs.Yard.{crossings, most_crossings};
ghost use Rattle.paper.specs.Order.{order};
ghost use Rattle.paper.specs.OnePass.{Fits};
ghost use Rattle.editions.specs.Editions.{is_known, slots_by};
ghost use Rattle.editions.specs.Statement.{SlotsOfSay};

use docket::Refusal;

// The editions there are.
pub fn known(edition: u64) -> bool
    ensures { result ≡ is_known edition }
{
    if edition == 1 {
        return true;
    }
    edition == 2
}

// The slots by an edition, into the first places of `out`; what stands beyond the plan's length stays.
pub fn pass(edition: u64, plan: &[u64], out: &mut [u32])
    requires { (length plan.now ≤ length out.old) × (length plan.now ≤ most_crossings) × Fits most_bays most_bays plan.now }
    ensures { out.new ≡ slots_by edition (crossings plan.now) ++ drop (length plan.now) out.old }
{
    if edition == 2 {
        train_slots::train_pass(plan, out);
        return;
    }
    slots::slot_pass(plan, out);
}

// The slots of a plan that passes the check, into the first places of `out`; answers how many. A refusal changes nothing.
pub fn slots_of(
    edition: u64,
    bays: u64,
    rails: &[u16],
    start: &[u16],
    goal: &[u16],
    plan: &[u64],
    out: &mut [u32],
) -> Result<u64, Refusal>
    ensures { SlotsOfSay (order bays rails.now start.now goal.now)
        plan.now edition out.old result out.new }
{
    let fits = known(edition);
    if !fits {
        return Err(Refusal::Edition);
    }
    checker::check(bays, rails, start, goal, plan)?;
    if out.len() < plan.len() {
        return Err(Refusal::Room(plan.len() as u64));
    }
    pass(edition, plan, out);
    Ok(plan.len() as u64)
}
