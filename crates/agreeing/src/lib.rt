// Whether record and lines are what plan, start and marks give: the refusals that come first, all of it worked out afresh, and the comparison.
#![tactic(auto)]

ghost use Rattle.std.specs.Prelude.{◌≡◌};
ghost use Rattle.paper.specs.Order.{order};
ghost use Rattle.checker.specs.Reading.{checked_of};
ghost use Rattle.bills.specs.Answering.{up_to_eleven};
ghost use Rattle.afresh.specs.Working.{SlotOf};
ghost use Rattle.agreeing.specs.Statements.{Fit, all_same, WorkedOut};

use bills::{Record, UNTOUCHED};
use docket::Refusal;
use held_lines::HeldLines;
use yard::Yard;

// Record and lines worked out afresh, and the slot of the name that is asked for.
#[derive(Clone, Copy)]
pub struct Fresh {
    pub running: Record,
    pub held: HeldLines,
    pub slot: u32,
}

// The carriers at their starts, and the pass over the done crossings.
pub fn work_out(start: &[u16], plan: &[u64], marks: &[u8], name: usize) -> Fresh
    requires { Fit start.now plan.now marks.now }
    ensures { WorkedOut start.now plan.now marks.now name result }
{
    let mut at = [0u16; Yard::BAYS];
    let mut billed = [0u32; Yard::BAYS];
    let mut last = [UNTOUCHED; Yard::BAYS];
    copies::copy(&mut at, start);
    let slots = afresh::bill_done(plan, marks, name, &mut at, &mut billed, &mut last);
    let done = afresh::count_done(plan, marks);
    let held = held_lines::list_lines(start.len(), &billed, &last);
    Fresh {
        running: Record {
            at: at,
            done: done,
            highest: slots.highest,
        },
        held: held,
        slot: slots.asked,
    }
}

// Whether all agree, and the slot of the name that is asked for.
#[derive(Clone, Copy)]
pub struct Agreed {
    pub all: bool,
    pub slot: u32,
}

// Whether record and lines are those worked out afresh.
pub fn agree(
    start: &[u16],
    plan: &[u64],
    marks: &[u8],
    name: usize,
    running: Record,
    held: HeldLines,
) -> Agreed
    requires { Fit start.now plan.now marks.now }
    ensures { (result.all ≡ all_same start.now plan.now marks.now running held) × SlotOf plan.now name result.slot }
{
    let fresh = work_out(start, plan, marks, name);
    let slot = fresh.slot;
    if !entries::same_record(running, fresh.running) {
        return Agreed {
            all: false,
            slot: slot,
        };
    }
    let afresh = fresh.held;
    let lent_lines = held.lines;
    let fresh_lines = afresh.lines;
    Agreed {
        all: same_lines::same_lines(held.count, lent_lines, afresh.count, fresh_lines),
        slot: slot,
    }
}

// The refusals up to 11: the check, then the marks.
pub fn up_to_eleven(
    bays: u64,
    rails: &[u16],
    start: &[u16],
    goal: &[u16],
    plan: &[u64],
    marks: &[u8],
) -> Result<(), Refusal>
    ensures { checked_of result ≡ up_to_eleven (order bays rails.now start.now goal.now)
        plan.now marks.now }
{
    checker::check(bays, rails, start, goal, plan)?;
    if mark_order::bad_marks(plan, marks) {
        return Err(Refusal::Mismarked);
    }
    Ok(())
}
