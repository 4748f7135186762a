// A plan reported over a line that loses, repeats and reorders, from a fixed seed: every accepted crossing is replayed, tested by scans
// that share no code with the check, and billed. Record and account lines are kept beside the marks, and compared after every report with
// those worked out afresh. It prints what must come out whatever the line does: each crossing accepted once and legal, every carrier home,
// every bill the plan's count.
#![tactic(auto)]

use bills::Record;
use cases::first;
use docket::{Crossing, Refusal};
use held_lines::HeldLines;
use ledger::{Accounts, Agreement};
use marks::Reported;
use settling::Settlement;
use std::io;
use yard::Yard;

// The numbers of the line's dice: Marsaglia's xorshift.
fn roll(x: u64) -> u64 {
    let a = x ^ (x << 13);
    let b = a ^ (a >> 7);
    b ^ (b << 17)
}

// What has come over the line: the dice, the lowest name whose answer has not come back, and what happened.
#[derive(Clone, Copy)]
struct Line {
    dice: u64,
    lowest: usize,
    accepted: usize,
    lost: u64,
    early: u64,
    repeated: u64,
}

// Record and account lines, and how often they were not those worked out afresh.
#[derive(Clone, Copy)]
struct Books {
    running: Record,
    held: HeldLines,
    differed: u64,
}

// The line and the books after a report.
#[derive(Clone, Copy)]
struct Day {
    line: Line,
    books: Books,
}

// The next number, but none past 2^32 - 1.
fn more(n: u64) -> u64 {
    if n < 4294967295 { n + 1 } else { n }
}

// The lowest place of a list, from `at` on, that is not 1.
fn lowest_open(known: &[u8; 1024], at: usize) -> usize {
    (at..known.len())
        .find(|i| known[*i] != 1)
        .unwrap_or(known.len())
}

// The answer of a done name comes back, or is lost: then the name is reported again.
fn hear(known: &mut [u8; 1024], name: usize, answer: Reported, dice: u64) {
    if is_done(answer) && dice / 64 % 3 != 0 && name < 1024 {
        known[name] = 1;
    }
}

// The names accepted, in their order.
fn keep(got: &mut [u64], at: usize, name: usize) -> usize {
    if at < got.len() {
        got[at] = name as u64;
        at + 1
    } else {
        at
    }
}

// What an answer does to the line.
fn after(line: Line, answer: Reported, name: usize, got: &mut [u64]) -> Line {
    match answer {
        Reported::Accepted => Line {
            accepted: keep(got, line.accepted, name),
            ..line
        },
        Reported::Already => Line {
            repeated: more(line.repeated),
            ..line
        },
        Reported::Refused(_) => Line {
            early: more(line.early),
            ..line
        },
    }
}

fn is_done(answer: Reported) -> bool {
    matches!(answer, Reported::Accepted | Reported::Already)
}

fn rolled(line: Line, lowest: usize) -> Line {
    Line {
        dice: roll(line.dice),
        lowest,
        ..line
    }
}

fn lost(line: Line) -> Line {
    Line {
        lost: more(line.lost),
        ..line
    }
}

// The name reported next: one of eight from the lowest open one on.
fn pick(line: Line) -> usize {
    let ahead = (line.dice % 8) as usize;
    if line.lowest < 4294967295 {
        line.lowest + ahead
    } else {
        0
    }
}

fn is_agreed(answer: Agreement) -> bool {
    matches!(answer, Agreement::Agrees)
}

// The lines with the one that a report changed; none, where its place is past the last.
fn entered(held: HeldLines, told: Settlement) -> HeldLines {
    let at = told.at;
    if held.count <= at || Yard::BAYS <= at {
        return held;
    }
    let mut lines = held.lines;
    lines[at] = told.line;
    held_lines::hold(held.count, lines)
}

fn counted(differed: u64, answer: Agreement) -> u64 {
    if is_agreed(answer) {
        differed
    } else {
        more(differed)
    }
}

// The books after a report, compared.
fn keep_books(
    bays: u64,
    rails: &[u16],
    start: &[u16],
    goal: &[u16],
    plan: &[u64],
    marks: &[u8],
    books: Books,
    told: Settlement,
) -> Books {
    let running = told.running;
    let held = entered(books.held, told);
    let accounts = Accounts { running, held };
    let agreed = ledger::compare(bays, rails, start, goal, plan, marks, accounts);
    Books {
        running,
        held,
        differed: counted(books.differed, agreed),
    }
}

// One report is sent: it is lost, or it is answered.
fn send(
    bays: u64,
    rails: &[u16],
    start: &[u16],
    goal: &[u16],
    plan: &[u64],
    marks: &mut [u8],
    got: &mut [u64],
    known: &mut [u8; 1024],
    line: Line,
    books: Books,
) -> Day {
    if line.dice / 8 % 4 == 0 {
        return Day {
            line: lost(line),
            books,
        };
    }
    let name = pick(line);
    let accounts = Accounts {
        running: books.running,
        held: books.held,
    };
    let told = ledger::report(bays, rails, start, goal, plan, marks, name as u64, accounts);
    hear(known, name, told.answer, line.dice);
    Day {
        line: after(line, told.answer, name, got),
        books: keep_books(bays, rails, start, goal, plan, marks, books, told),
    }
}

// The books on fresh marks.
fn open_books(
    bays: u64,
    rails: &[u16],
    start: &[u16],
    goal: &[u16],
    plan: &[u64],
    marks: &[u8],
) -> Books {
    let blank = Record {
        at: [0u16; Yard::BAYS],
        done: 0,
        highest: 0,
    };
    let opening = ledger::open(bays, rails, start, goal, plan, marks, blank, start.len());
    Books {
        running: opening.running,
        held: opening.held,
        differed: 0,
    }
}

// The same record, with so many done.
fn tampered(running: Record, done: u32) -> Record {
    Record { done, ..running }
}

fn show_tampered(
    rt: &impl Print,
    answer: Reported,
    done: u32,
    agreed: Agreement,
) -> io::Result<()> {
    if matches!(answer, Reported::Refused(Refusal::Disagrees)) && done == 1 && is_agreed(agreed) {
        println!(rt; "tampered record refused 19, nothing changed")?;
    }
    Ok(())
}

// A first report, on a record that counts a crossing as done, is answered with 19. It changes nothing: with that count taken back all agrees.
fn tamper(
    rt: &impl Print,
    bays: u64,
    rails: &[u16],
    start: &[u16],
    goal: &[u16],
    plan: &[u64],
    marks: &mut [u8],
    books: Books,
) -> io::Result<()> {
    let accounts = Accounts {
        running: tampered(books.running, 1),
        held: books.held,
    };
    let told = ledger::report(bays, rails, start, goal, plan, marks, 0, accounts);
    let accounts = Accounts {
        running: tampered(told.running, 0),
        held: entered(books.held, told),
    };
    let agreed = ledger::compare(bays, rails, start, goal, plan, marks, accounts);
    show_tampered(rt, told.answer, told.running.done, agreed)
}

// A day on the line.
fn run(
    bays: u64,
    rails: &[u16],
    start: &[u16],
    goal: &[u16],
    plan: &[u64],
    marks: &mut [u8],
    got: &mut [u64],
    opened: Books,
) -> Day {
    let mut known = [0u8; 1024];
    let mut books = opened;
    let mut line = Line {
        dice: 88172645463325252,
        lowest: 0,
        accepted: 0,
        lost: 0,
        early: 0,
        repeated: 0,
    };
    for _ in 0..20000 {
        let next = rolled(line, lowest_open(&known, line.lowest));
        let day = send(
            bays, rails, start, goal, plan, marks, got, &mut known, next, books,
        );
        line = day.line;
        books = day.books;
    }
    Day { line, books }
}

// Whether a rail joins a and b.
fn joins(rails: &[u16], a: u16, b: u16) -> bool {
    rails.chunks_exact(2).any(|ends| ends == [a, b].as_slice() || ends == [b, a].as_slice())
}

// Plays a crossing and bills it, if it is legal.
fn play(rails: &[u16], at: &mut [u16], bills: &mut [u64], x: Crossing) -> bool {
    let c = x.carrier.0 as usize;
    if at.len() <= c || bills.len() <= c {
        return false;
    }
    if at[c] != x.from.0 || !joins(rails, x.from.0, x.to.0) || at.contains(&x.to.0) {
        return false;
    }
    at[c] = x.to.0;
    bills[c] = more(bills[c]);
    true
}

// How many of the accepted crossings were not legal in their turn.
fn play_all(rails: &[u16], plan: &[u64], got: &[u64], at: &mut [u16], bills: &mut [u64]) -> u64 {
    let mut illegal = 0;
    for name in got {
        if !play_named(rails, plan, *name, at, bills) {
            illegal = more(illegal);
        }
    }
    illegal
}

fn play_named(rails: &[u16], plan: &[u64], name: u64, at: &mut [u16], bills: &mut [u64]) -> bool {
    let Some(x) = plans::find(plan, name) else {
        return false;
    };
    play(rails, at, bills, x)
}

// How many carriers are not at their goals.
fn away(at: &[u16], goal: &[u16]) -> u64 {
    let mut n = 0;
    for (c, bay) in goal.iter().enumerate() {
        if at.get(c) != Some(bay) {
            n = more(n);
        }
    }
    n
}

// How many crossings of the plan are the carrier's.
fn due(plan: &[u64], carrier: usize) -> u64 {
    let mut n = 0;
    for x in plan {
        if *x / 4294967296 == carrier as u64 {
            n = more(n);
        }
    }
    n
}

// How many carriers are billed another number than the plan's.
fn wrong(plan: &[u64], bills: &[u64]) -> u64 {
    let mut n = 0;
    for (c, billed) in bills.iter().enumerate() {
        if *billed != due(plan, c) {
            n = more(n);
        }
    }
    n
}

fn show(
    rt: &impl Print,
    line: Line,
    plan: &[u64],
    illegal: u64,
    away: u64,
    wrong: u64,
) -> io::Result<()> {
    put(rt, "accepted ", line.accepted as u64)?;
    say(rt, " of ", plan.len() as u64)?;
    say(rt, "illegal ", illegal)?;
    say(rt, "not home ", away)?;
    say(rt, "wrong bills ", wrong)?;
    if 0 < line.lost && 0 < line.early && 0 < line.repeated {
        println!(rt; "some were lost, some came early, some were repeated")?;
    }
    Ok(())
}

// The carriers at their starts, if there is room for all of them.
fn place(start: &[u16], at: &mut [u16]) {
    if start.len() <= at.len() {
        at[..start.len()].copy_from_slice(start);
    }
}

// Where a carrier stands that is none: no bay has this number.
const NOWHERE: u16 = 65535;

// Replays and bills what the line accepted, and shows how it ended.
fn settle(
    rt: &impl Print,
    line: Line,
    rails: &[u16],
    start: &[u16],
    goal: &[u16],
    plan: &[u64],
    got: &[u64],
) -> io::Result<()> {
    let mut at = [NOWHERE; 256];
    let mut bills = [0u64; 256];
    place(start, &mut at);
    let illegal = play_all(rails, plan, got, &mut at, &mut bills);
    show(
        rt,
        line,
        plan,
        illegal,
        away(&at, goal),
        wrong(plan, &bills),
    )
}

// The books are opened, tampered with, and kept for a day.
fn keep_day(
    rt: &impl Print,
    bays: u64,
    rails: &[u16],
    start: &[u16],
    goal: &[u16],
    plan: &[u64],
    marks: &mut [u8],
    got: &mut [u64],
) -> io::Result<Day> {
    let books = open_books(bays, rails, start, goal, plan, marks);
    tamper(rt, bays, rails, start, goal, plan, marks, books)?;
    Ok(run(bays, rails, start, goal, plan, marks, got, books))
}

// The marks of a plan are as many as its crossings.
fn run_marked(
    rt: &impl Print,
    bays: u64,
    rails: &[u16],
    start: &[u16],
    goal: &[u16],
    plan: &[u64],
    got: &mut [u64],
) -> io::Result<Day> {
    let mut marks = [0u8; 1024];
    let n = plan.len().min(marks.len());
    keep_day(rt, bays, rails, start, goal, plan, &mut marks[..n], got)
}

// A carrier's line, and how many crossings are billed to it.
fn show_line(rt: &impl Print, held: HeldLines, c: usize) -> io::Result<u64> {
    if Yard::BAYS <= c {
        return Ok(0);
    }
    let line = held_lines::line_at(held, c);
    put(rt, "carrier ", line.carrier as u64)?;
    put(rt, " billed ", line.billed as u64)?;
    say(rt, " last name ", line.last as u64)?;
    Ok(line.billed as u64)
}

// Each carrier's line, and how many crossings are billed in all.
fn show_lines(rt: &impl Print, held: HeldLines) -> io::Result<u64> {
    let mut sum: u64 = 0;
    for c in 0..held.count {
        sum = sum.wrapping_add(show_line(rt, held, c)?);
    }
    Ok(sum)
}

fn show_books(rt: &impl Print, books: Books, plan: &[u64]) -> io::Result<()> {
    say(rt, "disagreed ", books.differed)?;
    say(rt, "done ", u64::from(books.running.done))?;
    say(rt, "highest slot ", u64::from(books.running.highest))?;
    put(rt, "billed ", show_lines(rt, books.held)?)?;
    say(rt, " of ", plan.len() as u64)
}

// The day, and what came of it.
fn simulate(
    rt: &impl Print,
    bays: u64,
    rails: &[u16],
    start: &[u16],
    goal: &[u16],
    plan: &[u64],
) -> io::Result<()> {
    let mut got = [0u64; 1024];
    let day = run_marked(rt, bays, rails, start, goal, plan, &mut got)?;
    let accepted = first(&got, day.line.accepted);
    settle(rt, day.line, rails, start, goal, plan, accepted)?;
    show_books(rt, day.books, plan)
}

fn read(rt: &impl Print, text: &[u8]) -> io::Result<()> {
    let mut rails = [0u16; 512];
    let mut start = [0u16; 256];
    let mut goal = [0u16; 256];
    let mut plan = [0u64; 1024];
    let bays = cases::number(text, 0);
    let a = cases::list(text, bays.next, &mut rails);
    let b = cases::list(text, a.next, &mut start);
    let c = cases::list(text, b.next, &mut goal);
    let d = cases::list(text, c.next, &mut plan);
    simulate(
        rt,
        bays.value,
        first(&rails, a.count),
        first(&start, b.count),
        first(&goal, c.count),
        first(&plan, d.count),
    )
}

fn put(rt: &impl Print, words: &str, n: u64) -> io::Result<()> {
    print!(rt; "{words}{n}")
}

fn say(rt: &impl Print, words: &str, n: u64) -> io::Result<()> {
    println!(rt; "{words}{n}")
}

fn main(rt: HostRuntime) -> io::Result<()> {
    let mut text = [0u8; 8192];
    let size = cases::load(&rt, "plan", &mut text)?;
    read(&rt, first(&text, size))
}
