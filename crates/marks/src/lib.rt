// The marks of a plan that has passed the check: what a report on them answers, and the one mark that it changes.
#![tactic(auto)]

ghost use Rattle.std.specs.Prelude.{◌≡◌, not, ◌≤◌, ◌<◌, length};
ghost use Rattle.paper.specs.Basics.{◌and◌, find, up_to};
ghost use Rattle.paper.specs.Limits.{most_bays};
ghost use Rattle.paper.specs.Yard.{crossings, named};
ghost use Rattle.paper.specs.Dependence.{depend, is_done};
ghost use Rattle.paper.specs.Answers.{accept, tell as told, marks_after};
ghost use Rattle.paper.specs.OnePass.{Fits};
ghost use Rattle.docket.specs.Reading.{crossing_of};
ghost use Rattle.marks.specs.Reading.{earlier_of, report_of, told_in_order};

use docket::{Crossing, Refusal};

// Whether two crossings depend on each other: the same carrier, or a bay that both touch.
fn depends(x: Crossing, y: Crossing) -> bool
    ensures { result ≡ depend (crossing_of x) (crossing_of y) }
{
    x.carrier.0 == y.carrier.0
        || x.from.0 == y.from.0
        || x.from.0 == y.to.0
        || x.to.0 == y.from.0
        || x.to.0 == y.to.0
}

// Whether x depends on the crossing e and that is undone. Most are done, so the mark is asked first.
fn waits_for(plan: &[u64], marks: &[u8], x: Crossing, e: usize) -> bool
    requires { (e < length plan.now) × (length marks.now ≡ length plan.now) }
    ensures { result ≡ depend (crossing_of x) (named (crossings plan.now) e) and not (is_done marks.now e) }
{
    marks[e] != 1 && depends(x, plans::crossing_at(plan, e))
}

// Of the crossings before `name`, the lowest that x depends on and that is undone: going up, from a place before which all are done, the first that is
// found ends the search.
fn undone_before(plan: &[u64], marks: &[u8], x: Crossing, name: usize) -> Option<u64>
    requires { (name ≤ length plan.now) × (length marks.now ≡ length plan.now) }
    ensures { earlier_of result ≡ find (λ e. depend (crossing_of x) (named (crossings plan.now) e) and not (is_done marks.now e)) (up_to name) }
{
    let done = mark_order::done_to(marks);
    for e in done..name {
        if waits_for(plan, marks, x, e) {
            return Some(e as u64);
        }
    }
    None
}

// What a report answers.
#[derive(Clone, Copy)]
pub enum Reported {
    Accepted,
    Already,
    Refused(Refusal),
}

// Once the marks are in order: 12; then "already" for a done name; then 13; else "accepted".
pub fn tell_in_order(plan: &[u64], marks: &[u8], name: u64) -> Reported
    requires { length marks.now ≡ length plan.now }
    ensures { report_of result ≡ told_in_order (crossings plan.now) marks.now name }
{
    let Some(x) = plans::find(plan, name) else {
        return Reported::Refused(Refusal::Unknown);
    };
    let at = name as usize;
    if marks[at] == 1 {
        return Reported::Already;
    }
    let earlier = undone_before(plan, marks, x, at);
    match earlier {
        Some(e) => Reported::Refused(Refusal::Early(e)),
        None => Reported::Accepted,
    }
}

// Once the check has passed: 11, and then the rest.
pub fn tell(plan: &[u64], marks: &[u8], name: u64) -> Reported
    requires { Fits most_bays most_bays plan.now }
    ensures { report_of result ≡ told (crossings plan.now) marks.now name }
{
    if mark_order::bad_marks(plan, marks) {
        return Reported::Refused(Refusal::Mismarked);
    }
    tell_in_order(plan, marks, name)
}

// An accepted report changes the mark of the reported name; any other answer changes none.
pub fn mark_accepted(marks: &mut [u8], name: u64, answer: Reported)
    requires { report_of answer ≡ accept → name < length marks.old }
    ensures { marks.new ≡ marks_after marks.old name (report_of answer) }
{
    let at = name as usize;
    if let Reported::Accepted = answer {
        marks[at] = 1;
    }
}
