// The library for C: each function hands its arguments to a proved one and tells the answer by two numbers, document 01's own and the value
// that goes with it. include/sejjekoru.h declares them.
#![tactic(auto)]

mod by_edition;
mod compare;
mod files;
mod reverse;
mod serial;
mod small_stack;
mod standing;
mod surveys;
mod whole;

ghost use Rattle.paper.specs.Order.{order};
ghost use Rattle.sejjekoru.specs.Statements.{PlanTells, CheckTells, SlotsTell, ReportTells, ShortenTells};
ghost use Rattle.sejjekoru.specs.Bills.{OpenOn, AgreesOn, ReportOn, OpenTells, AgreesTells, ReportBilledTells};

use bills::{Line, Record};
use held_lines::HeldLines;
use ledger::Accounts;

#[unsafe(no_mangle)]
pub extern "C" fn sejjekoru_plan(
    bays: u64,
    rails: &[u16],
    start: &[u16],
    goal: &[u16],
    plan: &mut [u64],
    parked: &mut u64,
    value: &mut u64,
) -> u64
    ensures { PlanTells (order bays rails.now start.now goal.now)
        plan.old result parked.new value.new plan.new }
{
    let answer = planner::plan_counted(bays, rails, start, goal, plan);
    plan_numbers::told_planned(answer, parked, value)
}

#[unsafe(no_mangle)]
pub extern "C" fn sejjekoru_check(
    bays: u64,
    rails: &[u16],
    start: &[u16],
    goal: &[u16],
    plan: &[u64],
    value: &mut u64,
) -> u64
    ensures { CheckTells (order bays rails.now start.now goal.now) plan.now result value.new }
{
    let answer = checker::check(bays, rails, start, goal, plan);
    log_numbers::told_checked(answer, 0, value)
}

#[unsafe(no_mangle)]
pub extern "C" fn sejjekoru_slots(
    bays: u64,
    rails: &[u16],
    start: &[u16],
    goal: &[u16],
    plan: &[u64],
    slots: &mut [u32],
    value: &mut u64,
) -> u64
    ensures { SlotsTell (order bays rails.now start.now goal.now)
        plan.now slots.old result value.new slots.new }
{
    slot_numbers::slots(bays, rails, start, goal, plan, slots, value)
}

#[unsafe(no_mangle)]
pub extern "C" fn sejjekoru_report(
    bays: u64,
    rails: &[u16],
    start: &[u16],
    goal: &[u16],
    plan: &[u64],
    marks: &mut [u8],
    name: u64,
    value: &mut u64,
) -> u64
    ensures { ReportTells (order bays rails.now start.now goal.now)
        plan.now marks.old name result value.new marks.new }
{
    let answer = reports::report(bays, rails, start, goal, plan, marks, name);
    log_numbers::told_reported(answer, value)
}

#[unsafe(no_mangle)]
pub extern "C" fn sejjekoru_shorten(
    bays: u64,
    rails: &[u16],
    start: &[u16],
    goal: &[u16],
    plan: &[u64],
    marks: &[u8],
    out: &mut [u64],
    value: &mut u64,
) -> u64
    ensures { ShortenTells (order bays rails.now start.now goal.now)
        plan.now marks.now out.old result value.new out.new }
{
    let answer = shorten::shorten(bays, rails, start, goal, plan, marks, out);
    numbers::told(answer, value)
}

// What opening answers and leaves.
#[derive(Clone, Copy)]
struct ToldOpening {
    number: u64,
    record: Record,
    held: HeldLines,
}

// ToldOpening by value, for a list of so many lines.
fn open_on(
    bays: u64,
    rails: &[u16],
    start: &[u16],
    goal: &[u16],
    plan: &[u64],
    marks: &[u8],
    record: Record,
    count: usize,
    value: &mut u64,
) -> ToldOpening
    ensures { OpenOn (order bays rails.now start.now goal.now)
        plan.now marks.now «record» count result value.new }
{
    let opening = ledger::open(bays, rails, start, goal, plan, marks, record, count);
    let answer = opening.answer;
    let running = opening.running;
    let held = opening.held;
    ToldOpening {
        number: log_numbers::told_checked(answer, 0, value),
        record: running,
        held: held,
    }
}

#[unsafe(no_mangle)]
pub extern "C" fn sejjekoru_open(
    bays: u64,
    rails: &[u16],
    start: &[u16],
    goal: &[u16],
    plan: &[u64],
    marks: &[u8],
    record: &mut Record,
    lines: &mut [Line],
    value: &mut u64,
) -> u64
    ensures { OpenTells (order bays rails.now start.now goal.now)
        plan.now marks.now «record».old lines.old result value.new «record».new lines.new }
{
    let opening = open_on(
        bays,
        rails,
        start,
        goal,
        plan,
        marks,
        *record,
        lines.len(),
        value,
    );
    *record = opening.record;
    sheets::fill(lines, opening.held);
    opening.number
}

// The agreement test by value. Yes is told by the value 1, no by 0.
fn agrees_on(
    bays: u64,
    rails: &[u16],
    start: &[u16],
    goal: &[u16],
    plan: &[u64],
    marks: &[u8],
    record: Record,
    held: HeldLines,
    value: &mut u64,
) -> u64
    ensures { AgreesOn (order bays rails.now start.now goal.now)
        plan.now marks.now «record» held result value.new }
{
    let accounts = Accounts {
        running: record,
        held: held,
    };
    let answer = ledger::compare(bays, rails, start, goal, plan, marks, accounts);
    log_numbers::told_agreement(answer, value)
}

#[unsafe(no_mangle)]
pub extern "C" fn sejjekoru_agrees(
    bays: u64,
    rails: &[u16],
    start: &[u16],
    goal: &[u16],
    plan: &[u64],
    marks: &[u8],
    record: &Record,
    lines: &[Line],
    value: &mut u64,
) -> u64
    ensures { AgreesTells (order bays rails.now start.now goal.now)
        plan.now marks.now «record».now lines.now result value.new }
{
    let held = sheets::gather(lines);
    agrees_on(bays, rails, start, goal, plan, marks, *record, held, value)
}

// What a report leaves and answers: the record, and one line with its place, which is past the last where none changes.
#[derive(Clone, Copy)]
struct ToldReport {
    number: u64,
    record: Record,
    at: usize,
    line: Line,
}

// The report by value.
fn report_on(
    bays: u64,
    rails: &[u16],
    start: &[u16],
    goal: &[u16],
    plan: &[u64],
    marks: &mut [u8],
    name: u64,
    record: Record,
    held: HeldLines,
    value: &mut u64,
) -> ToldReport
    ensures { ReportOn (order bays rails.now start.now goal.now)
        plan.now marks.old name «record» held result value.new marks.new }
{
    let accounts = Accounts {
        running: record,
        held: held,
    };
    let told = ledger::report(bays, rails, start, goal, plan, marks, name, accounts);
    let answer = told.answer;
    let running = told.running;
    let at = told.at;
    let line = told.line;
    ToldReport {
        number: log_numbers::told_reported(answer, value),
        record: running,
        at: at,
        line: line,
    }
}

#[unsafe(no_mangle)]
pub extern "C" fn sejjekoru_report_billed(
    bays: u64,
    rails: &[u16],
    start: &[u16],
    goal: &[u16],
    plan: &[u64],
    marks: &mut [u8],
    name: u64,
    record: &mut Record,
    lines: &mut [Line],
    value: &mut u64,
) -> u64
    ensures { ReportBilledTells (order bays rails.now start.now goal.now)
        plan.now marks.old name «record».old lines.old
        result value.new marks.new «record».new lines.new }
{
    let held = sheets::gather(lines);
    let told = report_on(
        bays, rails, start, goal, plan, marks, name, *record, held, value,
    );
    *record = told.record;
    sheets::enter(lines, told.at, told.line);
    told.number
}
