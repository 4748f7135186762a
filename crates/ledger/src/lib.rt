// Record and account lines by value: opened, tested, and changed by an accepted report. The functions that are lent a record and lines are thin ones above
// this crate.
#![tactic(auto)]

ghost use Rattle.std.specs.Prelude.{◌≡◌};
ghost use Rattle.paper.specs.Order.{order};
ghost use Rattle.bills.specs.Answering.{agreement};
ghost use Rattle.held_lines.specs.Lines.{lines_held};
ghost use Rattle.ledger.specs.Statements.{agreement_of, OpenSays, BillingSays};

use bills::Record;
use docket::Refusal;
use held_lines::HeldLines;
use marks::Reported;
use settling::Settlement;

// A record and its lines, as they are handed in.
#[derive(Clone, Copy)]
pub struct Accounts {
    pub running: Record,
    pub held: HeldLines,
}

// What the agreement test answers.
#[derive(Clone, Copy)]
pub enum Agreement {
    Agrees,
    Differs,
    Refused(Refusal),
}

// The agreement test: the refusals up to 11, then whether all agree. The lines are the first `count` that are held, whatever stands behind them.
pub fn compare(
    bays: u64,
    rails: &[u16],
    start: &[u16],
    goal: &[u16],
    plan: &[u64],
    marks: &[u8],
    accounts: Accounts,
) -> Agreement
    ensures { agreement_of result ≡ agreement (order bays rails.now start.now goal.now)
        plan.now marks.now accounts.running (lines_held accounts.held) }
{
    let checked = agreeing::up_to_eleven(bays, rails, start, goal, plan, marks);
    if let Err(r) = checked {
        return Agreement::Refused(r);
    }
    let agreed = agreeing::agree(start, plan, marks, 0, accounts.running, accounts.held);
    if agreed.all {
        return Agreement::Agrees;
    }
    Agreement::Differs
}

// What opening answers, and the record and the lines to be kept: where it is refused, the record as it was and no line.
#[derive(Clone, Copy)]
pub struct Opening {
    pub answer: Result<(), Refusal>,
    pub running: Record,
    pub held: HeldLines,
}

// Opening builds record and lines from plan, start and marks, for a list of so many lines.
pub fn open(
    bays: u64,
    rails: &[u16],
    start: &[u16],
    goal: &[u16],
    plan: &[u64],
    marks: &[u8],
    running: Record,
    count: usize,
) -> Opening
    ensures { OpenSays (order bays rails.now start.now goal.now)
        plan.now marks.now running count result }
{
    let checked = agreeing::up_to_eleven(bays, rails, start, goal, plan, marks);
    if let Err(r) = checked {
        return Opening {
            answer: Err(r),
            running: running,
            held: held_lines::hold(0, held_lines::no_lines()),
        };
    }
    if count != start.len() {
        return Opening {
            answer: Err(Refusal::Room(start.len() as u64)),
            running: running,
            held: held_lines::hold(0, held_lines::no_lines()),
        };
    }
    let fresh = agreeing::work_out(start, plan, marks, 0);
    let kept = fresh.running;
    let held = fresh.held;
    Opening {
        answer: Ok(()),
        running: kept,
        held: held,
    }
}

// A report of a name on record and lines: the refusals up to 11, then 19, then 12, "already", 13 or acceptance.
pub fn report(
    bays: u64,
    rails: &[u16],
    start: &[u16],
    goal: &[u16],
    plan: &[u64],
    marks: &mut [u8],
    name: u64,
    accounts: Accounts,
) -> Settlement
    ensures { BillingSays (order bays rails.now start.now goal.now)
        plan.now marks.old name accounts.running accounts.held result marks.new }
{
    let checked = agreeing::up_to_eleven(bays, rails, start, goal, plan, marks);
    if let Err(r) = checked {
        return settling::unchanged(Reported::Refused(r), accounts.running, accounts.held);
    }
    let agreed = agreeing::agree(
        start,
        plan,
        marks,
        name as usize,
        accounts.running,
        accounts.held,
    );
    if !agreed.all {
        return settling::unchanged(
            Reported::Refused(Refusal::Disagrees),
            accounts.running,
            accounts.held,
        );
    }
    settling::settle(
        plan,
        marks,
        name,
        agreed.slot,
        accounts.running,
        accounts.held,
    )
}
