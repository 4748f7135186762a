// How C is told what the check, slots, the report log and the books answer. The rest is told by crates/numbers and crates/plan_numbers.
#![tactic(auto)]

ghost use Rattle.checker.specs.Reading.{checked_of};
ghost use Rattle.marks.specs.Reading.{report_of};
ghost use Rattle.ledger.specs.Statements.{agreement_of};
ghost use Rattle.numbers.specs.Numbers.{number_of, value_of, report_number, report_value};
ghost use Rattle.numbers.specs.Tells.{Tells};
ghost use Rattle.log_numbers.specs.Agreeing.{agreement_number, agreement_value};

use docket::Refusal;
use ledger::Agreement;
use marks::Reported;

// "already" is no refusal, so the table has no number for it.
const ALREADY: u64 = 100;

// The check, opening and slots, of which so many are written: none but by slots.
pub fn told_checked(answer: Result<(), Refusal>, written: u64, value: &mut u64) -> u64
    ensures { Tells (number_of (checked_of answer)) (value_of written (checked_of answer)) result value.new }
{
    match answer {
        Ok(()) => numbers::accepted(written, value),
        Err(r) => numbers::refused(r, value),
    }
}

// A report, on a running record or without one.
pub fn told_reported(answer: Reported, value: &mut u64) -> u64
    ensures { Tells (report_number (report_of answer)) (report_value (report_of answer)) result value.new }
{
    match answer {
        Reported::Accepted => numbers::accepted(0, value),
        Reported::Already => {
            *value = 0;
            ALREADY
        }
        Reported::Refused(r) => numbers::refused(r, value),
    }
}

// The agreement test: yes is told by the value 1, no by 0.
pub fn told_agreement(answer: Agreement, value: &mut u64) -> u64
    ensures { Tells (agreement_number (agreement_of answer)) (agreement_value (agreement_of answer)) result value.new }
{
    match answer {
        Agreement::Agrees => numbers::accepted(1, value),
        Agreement::Differs => numbers::accepted(0, value),
        Agreement::Refused(r) => numbers::refused(r, value),
    }
}
