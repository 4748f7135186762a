// Slots and the report log: what the other crates work out, in the document's order of tests, for any input at all.
#![tactic(auto)]

ghost use Rattle.paper.specs.Order.{order};
ghost use Rattle.reports.specs.Statements.{SlotsSay, ReportSays};

use docket::Refusal;
use marks::Reported;

// The slots of a plan that passes the check, into the first places of `out`. A refusal changes nothing.
pub fn slots(
    bays: u64,
    rails: &[u16],
    start: &[u16],
    goal: &[u16],
    plan: &[u64],
    out: &mut [u32],
) -> Result<(), Refusal>
    ensures { SlotsSay (order bays rails.now start.now goal.now)
        plan.now out.old result out.new }
{
    checker::check(bays, rails, start, goal, plan)?;
    if out.len() < plan.len() {
        return Err(Refusal::Room(plan.len() as u64));
    }
    slots::slot_pass(plan, out);
    Ok(())
}

// A report of a name, on a plan that passes the check and marks that are in order. Acceptance changes the mark of that name; nothing else changes any.
pub fn report(
    bays: u64,
    rails: &[u16],
    start: &[u16],
    goal: &[u16],
    plan: &[u64],
    marks: &mut [u8],
    name: u64,
) -> Reported
    ensures { ReportSays (order bays rails.now start.now goal.now)
        plan.now marks.old name result marks.new }
{
    let checked = checker::check(bays, rails, start, goal, plan);
    if let Err(r) = checked {
        return Reported::Refused(r);
    }
    let answer = marks::tell(plan, marks, name);
    marks::mark_accepted(marks, name, answer);
    answer
}
