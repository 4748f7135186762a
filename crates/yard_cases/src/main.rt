// Opens each yard of data/ and prints how many answers agree, and each one that does not.
// A case is bays, crossings of a lent plan, rail ends, start and goal, each list behind its count, then the refusal's number and what it
// carries; 0 0 is an open yard. The cases are those of the vectors' plan and check, where every answer past 6 reads as an open yard, and
// the limits of document 01, Y10 among them. 164 of the vectors' 1,742 are left out: they name a bay over 65,535, which no bay number holds.
#![tactic(auto)]

use docket::Refusal;
use std::io;
use yard::Yard;

// The answer in the vectors' numbers.
#[derive(Clone, Copy, PartialEq, Eq)]
struct Code(u64, u64);

// Whether a case agreed, what was answered, and the place after it.
#[derive(Clone, Copy)]
struct Outcome {
    agrees: bool,
    answer: Code,
    next: usize,
}

fn code_of(o: Result<Yard, Refusal>) -> Code {
    match o {
        Ok(_) => Code(0, 0),
        Err(r) => Code(docket::number(r), docket::carried(r)),
    }
}

// Opens the yard of the case at `at`.
fn opened(text: &[u8], at: usize) -> Outcome {
    let mut rails = [0u16; 2060];
    let mut start = [0u16; 260];
    let mut goal = [0u16; 260];
    let mut table = [0u64; Yard::TABLE];
    let bays = cases::number(text, at);
    let crossings = cases::number(text, bays.next);
    let r = cases::list(text, crossings.next, &mut rails);
    let s = cases::list(text, r.next, &mut start);
    let g = cases::list(text, s.next, &mut goal);
    let o = Yard::open(
        bays.value,
        &rails[..r.count],
        &start[..s.count],
        &goal[..g.count],
        crossings.value,
        &mut table,
    );
    compared(text, g.next, code_of(o))
}

// Holds the answer against the one that stands at `at`.
fn compared(text: &[u8], at: usize, a: Code) -> Outcome {
    let number = cases::number(text, at);
    let carried = cases::number(text, number.next);
    Outcome {
        agrees: a == Code(number.value, carried.value),
        answer: a,
        next: carried.next,
    }
}

fn report(rt: &impl Print, name: &str, i: u64, a: Code) -> io::Result<()> {
    println!(rt; "{name} case {i} answered {} {}", a.0, a.1)
}

// How many cases of the text agree.
fn agreeing(rt: &impl Print, name: &str, text: &[u8]) -> io::Result<u64> {
    let count = cases::number(text, 0);
    let mut next = count.next;
    let mut agree: u64 = 0;
    for i in 0..count.value {
        let o = opened(text, next);
        if o.agrees {
            agree += 1;
        } else {
            report(rt, name, i, o.answer)?;
        }
        next = o.next;
    }
    Ok(agree)
}

// How many cases of the file agree.
fn of_file(rt: &HostRuntime, name: &str) -> io::Result<u64> {
    let mut text = [0u8; cases::TEXT];
    let n = cases::load(rt, name, &mut text)?;
    agreeing(rt, name, &text[..n])
}

fn tell(rt: &impl Print, n: u64) -> io::Result<()> {
    println!(rt; "{n} agree")
}

fn main(rt: HostRuntime) -> io::Result<()> {
    for name in ["0", "1", "2", "3"] {
        tell(&rt, of_file(&rt, name)?)?;
    }
    Ok(())
}
