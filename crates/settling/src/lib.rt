// A report on a record and lines that agree: an accepted name changes the record, one line and one mark, and any other answer changes nothing.
#![tactic(auto)]

ghost use Rattle.std.specs.Prelude.{◌≡◌};
ghost use Rattle.paper.specs.Answers.{accepts};
ghost use Rattle.marks.specs.Reading.{report_of};
ghost use Rattle.bills.specs.Billing.{no_line};
ghost use Rattle.afresh.specs.Working.{SlotOf};
ghost use Rattle.settling.specs.Statements.{PostAsks, PostSays, SettleAsks, SettleSays};

use bills::{Line, Record};
use held_lines::HeldLines;
use marks::Reported;

// What a report answers and leaves: the record, and one line with its place. Where none changes the place is past the last line, and the line is empty.
#[derive(Clone, Copy)]
pub struct Settlement {
    pub answer: Reported,
    pub running: Record,
    pub at: usize,
    pub line: Line,
}

// Nothing changes.
pub fn unchanged(answer: Reported, running: Record, held: HeldLines) -> Settlement
    ensures { (result.answer ≡ answer) × (result.running ≡ running) × (result.at ≡ held.count) × (result.line ≡ no_line) }
{
    Settlement {
        answer: answer,
        running: running,
        at: held.count,
        line: entries::no_line(),
    }
}

// The step: record and line after the accepted name, whose slot is this.
fn post(plan: &[u64], name: usize, slot: u32, running: Record, held: HeldLines) -> Settlement
    requires { PostAsks plan.now name running held × SlotOf plan.now name slot }
    ensures { PostSays plan.now name running held result }
{
    let x = plans::crossing_at(plan, name);
    let carrier = x.carrier.0 as usize;
    Settlement {
        answer: Reported::Accepted,
        running: entries::posted(running, x, slot),
        at: carrier,
        line: entries::charged(held_lines::line_at(held, carrier), name as u32),
    }
}

// Whether a report is billed: only where it is accepted.
fn is_billed(answer: Reported) -> bool
    ensures { result ≡ accepts (report_of answer) }
{
    match answer {
        Reported::Accepted => true,
        Reported::Already => false,
        Reported::Refused(_) => false,
    }
}

// Once all agree: 12, "already", 13 or the step.
pub fn settle(
    plan: &[u64],
    marks: &mut [u8],
    name: u64,
    slot: u32,
    running: Record,
    held: HeldLines,
) -> Settlement
    requires { SettleAsks plan.now marks.old running held × SlotOf plan.now name slot }
    ensures { SettleSays plan.now marks.old name running held result marks.new }
{
    let answer = marks::tell_in_order(plan, marks, name);
    marks::mark_accepted(marks, name, answer);
    if is_billed(answer) {
        return post(plan, name as usize, slot, running, held);
    }
    unchanged(answer, running, held)
}
