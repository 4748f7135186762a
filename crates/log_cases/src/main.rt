// Runs the vectors of check, slots, report and runs of reports, and prints how many answers and end contents agree.
// In data/ a case is its numbers, each list behind its count. Cases with a bay of 2^16 or more, or a mark of 2^8 or more, are left out:
// the functions' types have no place for them.
#![tactic(auto)]

use cases::first;
use docket::Refusal;
use marks::Reported;
use std::io;

// An answer in the vectors' numbers: the refusal's and what it carries, 99 for "already", 0 for what is no refusal.
#[derive(Clone, Copy, PartialEq, Eq)]
struct Code(u64, u64);

// Whether a case agreed, and the place after it.
#[derive(Clone, Copy)]
struct Outcome {
    agrees: bool,
    next: usize,
}

// How long the four lists of a case are, and the place after them.
#[derive(Clone, Copy)]
struct Lists {
    rails: usize,
    start: usize,
    goal: usize,
    plan: usize,
    next: usize,
}

fn of_refusal(r: Refusal) -> Code {
    Code(docket::number(r), docket::carried(r))
}

fn of_checked(a: Result<(), Refusal>) -> Code {
    match a {
        Ok(()) => Code(0, 0),
        Err(r) => of_refusal(r),
    }
}

fn of_reported(a: Reported) -> Code {
    match a {
        Reported::Accepted => Code(0, 0),
        Reported::Already => Code(99, 0),
        Reported::Refused(r) => of_refusal(r),
    }
}

// Whether an answer is the one that stands at `at`.
fn answers(text: &[u8], at: usize, a: Code) -> Outcome {
    let number = cases::number(text, at);
    let carried = cases::number(text, number.next);
    Outcome {
        agrees: a == Code(number.value, carried.value),
        next: carried.next,
    }
}

fn read_lists(
    text: &[u8],
    at: usize,
    rails: &mut [u16],
    start: &mut [u16],
    goal: &mut [u16],
    plan: &mut [u64],
) -> Lists {
    let a = cases::list(text, at, rails);
    let b = cases::list(text, a.next, start);
    let c = cases::list(text, b.next, goal);
    let d = cases::list(text, c.next, plan);
    Lists {
        rails: a.count,
        start: b.count,
        goal: c.count,
        plan: d.count,
        next: d.next,
    }
}

fn check_case(text: &[u8], at: usize) -> Outcome {
    let mut rails = [0u16; 512];
    let mut start = [0u16; 256];
    let mut goal = [0u16; 256];
    let mut plan = [0u64; 1024];
    let bays = cases::number(text, at);
    let l = read_lists(
        text, bays.next, &mut rails, &mut start, &mut goal, &mut plan,
    );
    let a = checker::check(
        bays.value,
        first(&rails, l.rails),
        first(&start, l.start),
        first(&goal, l.goal),
        first(&plan, l.plan),
    );
    answers(text, l.next, of_checked(a))
}

// Places that nothing is written to keep this number. No mark has it.
const KEPT: u32 = u32::MAX;

// Whether the slots or marks are those that stand at `at`, and every place beyond them is as it was.
fn are<T: Copy + Into<u64>>(text: &[u8], at: usize, places: &[T]) -> Outcome {
    let mut want = [u64::from(KEPT); 1024];
    let w = cases::list(text, at, &mut want);
    Outcome {
        agrees: w.count <= places.len() && places.iter().zip(&want).all(|(p, w)| (*p).into() == *w),
        next: w.next,
    }
}

// Slots into a list of so many places.
fn slots_into(
    bays: u64,
    rails: &[u16],
    start: &[u16],
    goal: &[u16],
    plan: &[u64],
    out: &mut [u32],
    room: usize,
) -> Result<(), Refusal> {
    let n = room.min(out.len());
    reports::slots(bays, rails, start, goal, plan, &mut out[..n])
}

fn slots_case(text: &[u8], at: usize) -> Outcome {
    let mut rails = [0u16; 512];
    let mut start = [0u16; 256];
    let mut goal = [0u16; 256];
    let mut plan = [0u64; 1024];
    let mut out = [KEPT; 1024];
    let bays = cases::number(text, at);
    let l = read_lists(
        text, bays.next, &mut rails, &mut start, &mut goal, &mut plan,
    );
    let room = cases::number(text, l.next);
    let a = slots_into(
        bays.value,
        first(&rails, l.rails),
        first(&start, l.start),
        first(&goal, l.goal),
        first(&plan, l.plan),
        &mut out,
        room.value as usize,
    );
    let o = answers(text, room.next, of_checked(a));
    let w = are(text, o.next, &out);
    Outcome {
        agrees: o.agrees && w.agrees,
        next: w.next,
    }
}

// A report on the first so many marks.
fn report_on(
    bays: u64,
    rails: &[u16],
    start: &[u16],
    goal: &[u16],
    plan: &[u64],
    marks: &mut [u8],
    count: usize,
    name: u64,
) -> Reported {
    let n = count.min(marks.len());
    reports::report(bays, rails, start, goal, plan, &mut marks[..n], name)
}

fn report_case(text: &[u8], at: usize) -> Outcome {
    let mut rails = [0u16; 512];
    let mut start = [0u16; 256];
    let mut goal = [0u16; 256];
    let mut plan = [0u64; 1024];
    let mut marks = [0u8; 1024];
    let bays = cases::number(text, at);
    let l = read_lists(
        text, bays.next, &mut rails, &mut start, &mut goal, &mut plan,
    );
    let m = cases::list(text, l.next, &mut marks);
    let name = cases::number(text, m.next);
    let a = report_on(
        bays.value,
        first(&rails, l.rails),
        first(&start, l.start),
        first(&goal, l.goal),
        first(&plan, l.plan),
        &mut marks,
        m.count,
        name.value,
    );
    let o = answers(text, name.next, of_reported(a));
    let w = are(text, o.next, first(&marks, m.count));
    Outcome {
        agrees: o.agrees && w.agrees,
        next: w.next,
    }
}

// As many reports as are said at `at`, each a name and its answer.
fn reports_agree(
    text: &[u8],
    at: usize,
    bays: u64,
    rails: &[u16],
    start: &[u16],
    goal: &[u16],
    plan: &[u64],
    marks: &mut [u8],
) -> Outcome {
    let count = cases::number(text, at);
    let mut next = count.next;
    let mut agrees = true;
    for _ in 0..count.value {
        let name = cases::number(text, next);
        let a = report_on(
            bays,
            rails,
            start,
            goal,
            plan,
            marks,
            plan.len(),
            name.value,
        );
        let o = answers(text, name.next, of_reported(a));
        agrees = agrees && o.agrees;
        next = o.next;
    }
    Outcome { agrees, next }
}

// Reports one after the other, from fresh marks, and the marks at the end.
fn reports_case(text: &[u8], at: usize) -> Outcome {
    let mut rails = [0u16; 512];
    let mut start = [0u16; 256];
    let mut goal = [0u16; 256];
    let mut plan = [0u64; 1024];
    let mut marks = [0u8; 1024];
    let bays = cases::number(text, at);
    let l = read_lists(
        text, bays.next, &mut rails, &mut start, &mut goal, &mut plan,
    );
    let o = reports_agree(
        text,
        l.next,
        bays.value,
        first(&rails, l.rails),
        first(&start, l.start),
        first(&goal, l.goal),
        first(&plan, l.plan),
        &mut marks,
    );
    let w = are(text, o.next, first(&marks, l.plan));
    Outcome {
        agrees: o.agrees && w.agrees,
        next: w.next,
    }
}

// How many cases agree, and how many there are.
#[derive(Clone, Copy)]
struct Tally {
    agree: u64,
    cases: u64,
}

// Runs each case of the text.
fn count_all<F: Fn(&[u8], usize) -> Outcome>(text: &[u8], case: F) -> Tally
    requires { F.IsAlwaysCallable case }
{
    let count = cases::number(text, 0);
    let mut next = count.next;
    let mut agree = 0;
    for _ in 0..count.value {
        let o = case(text, next);
        agree += u64::from(o.agrees);
        next = o.next;
    }
    Tally {
        agree,
        cases: count.value,
    }
}

// Counts over the whole of a file of data/, and shows them.
fn show<F: Fn(&[u8], usize) -> Outcome>(rt: &HostRuntime, name: &str, case: F) -> io::Result<()>
    requires { F.IsAlwaysCallable case }
{
    let mut text = [0u8; 131072];
    let n = cases::load(rt, name, &mut text)?;
    let t = count_all(&text[..n], case);
    println!(rt; "{name} {} of {}", t.agree, t.cases)
}

fn main(rt: HostRuntime) -> io::Result<()> {
    show(&rt, "check", check_case)?;
    show(&rt, "slots", slots_case)?;
    show(&rt, "report", report_case)?;
    show(&rt, "reports", reports_case)
}
