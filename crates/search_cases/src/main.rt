// Runs the vectors' paths and vacates and prints how many agree, and each one that does not.
// A path case is bays, from, to, rail ends, bays to avoid and the path's bays, none where there is no path. A vacate case is bays, x,
// rail ends, placement, held bays, then 0 for empty, 1 for crossings, 2 for failed, and the crossings. A list stands behind its count.
#![tactic(auto)]

ghost use Rattle.std.specs.Prelude.{ℕ, ◌*◌, ◌≤◌, ◌<◌, ◌≡◌, length};
ghost use Rattle.paper.specs.Yard.{bay_of};
ghost use Rattle.paper.proofs.Playing.{Apart};
ghost use Rattle.words.specs.Sets.{words, span};
ghost use Rattle.rings.specs.Search.{Shown};
ghost use Rattle.moving.specs.Placed.{Placed};

use docket::Bay;
use std::io;
use vacate::Vacated;
use words::{SPAN, WORDS};
use yard::Yard;

// Whether a case agreed, and the place after it.
#[derive(Clone, Copy)]
struct Outcome {
    agrees: bool,
    next: usize,
}

// The listed bays as a set. No case names one over 255.
fn gather(bays: &[u16], set: &mut [u64])
    requires { length set.old ≡ words }
{
    for b in bays {
        words::add(set, usize::from(*b) % SPAN);
    }
}

// The path in an open yard, held against the one that is wanted.
fn path_is(n: usize, table: &[u64; Yard::TABLE], held: &[u64], u: u16, v: u16, want: &[u16]) -> bool
    requires { (n ≤ span) × (u < n) × (v < n) × (length held.now ≡ words) × Shown n table.now held.now }
{
    let mut path = [0u16; SPAN];
    match rings::path_between(table, n, held, Bay(u), Bay(v), &mut path) {
        Some(m) => &path[..m] == want,
        None => want.is_empty(),
    }
}

// Opens the yard first, with nobody in it.
fn path_agrees(bays: u64, u: u16, v: u16, rails: &[u16], held: &[u64], want: &[u16]) -> bool
    requires { length held.now ≡ words }
{
    let mut table = [0u64; Yard::TABLE];
    let Ok(y) = Yard::open(bays, rails, &[], &[], 0, &mut table) else {
        return false;
    };
    let n = y.bays;
    if SPAN < n || n <= usize::from(u) || n <= usize::from(v) {
        return false;
    }
    path_is(n, &table, held, u, v, want)
}

fn path_case(text: &[u8], at: usize) -> Outcome {
    let mut rails = [0u16; 2060];
    let mut avoided = [0u16; 260];
    let mut want = [0u16; 260];
    let mut held = [0u64; WORDS];
    let bays = cases::number(text, at);
    let u = cases::number(text, bays.next);
    let v = cases::number(text, u.next);
    let r = cases::list(text, v.next, &mut rails);
    let a = cases::list(text, r.next, &mut avoided);
    let w = cases::list(text, a.next, &mut want);
    gather(&avoided[..a.count], &mut held);
    let from = (u.value % 65536) as u16;
    let to = (v.value % 65536) as u16;
    Outcome {
        agrees: path_agrees(
            bays.value,
            from,
            to,
            &rails[..r.count],
            &held,
            &want[..w.count],
        ),
        next: w.next,
    }
}

// Vacates x. The table that is lent ends with the rails, so that no levels are asked of it.
fn vacated_by_rails(
    table: &[u64],
    held: &[u64],
    x: Bay,
    placement: &mut [u16],
    standing: &mut [u16],
    empty: &mut [u64],
    out: &mut [u64],
) -> Vacated
    requires { (length standing.old ≤ span)
        × (x.0 < length standing.old)
        × (length standing.old * words ≤ length table.now)
        × (length held.now ≡ words)
        × (length empty.old ≡ words)
        × Placed (length standing.old) placement.old standing.old empty.old
        × Shown (length standing.old) table.now held.now }
{
    let rails = standing.len() * WORDS;
    vacate::vacate(&table[..rails], held, x, placement, standing, empty, out)
}

// Places the carriers and vacates x.
fn vacated(
    table: &[u64; Yard::TABLE],
    held: &[u64],
    x: u16,
    placement: &mut [u16],
    standing: &mut [u16],
    out: &mut [u64],
) -> Vacated
    requires { (length standing.old ≤ span)
        × (x < length standing.old)
        × (length held.now ≡ words)
        × (length placement.old ≤ length standing.old)
        × Apart placement.old
        × ((c : ℕ) → c < length placement.old → bay_of placement.old c < length standing.old)
        × Shown (length standing.old) table.now held.now }
{
    let mut empty = [0u64; WORDS];
    placing::place(placement, standing, &mut empty);
    vacated_by_rails(table, held, Bay(x), placement, standing, &mut empty, out)
}

// Opens the yard first, and holds the answer against the one that is wanted: 0 for empty, 1 for filled, 2 for failed, and the crossings.
fn vacate_agrees(
    bays: u64,
    x: u16,
    rails: &[u16],
    placement: &mut [u16],
    held: &[u64],
    kind: u64,
    want: &[u64],
) -> bool
    requires { length held.now ≡ words }
{
    let mut table = [0u64; Yard::TABLE];
    let mut standing = [0u16; SPAN];
    let mut out = [0u64; SPAN];
    let Ok(y) = Yard::open(bays, rails, placement, placement, 0, &mut table) else {
        return false;
    };
    let n = y.bays;
    if SPAN < n || n <= usize::from(x) {
        return false;
    }
    match vacated(&table, held, x, placement, &mut standing[..n], &mut out) {
        Vacated::Empty => kind == 0 && want.is_empty(),
        Vacated::Filled(_, m) => kind == 1 && m <= SPAN && &out[..m] == want,
        Vacated::Failed => kind == 2 && want.is_empty(),
    }
}

fn vacate_case(text: &[u8], at: usize) -> Outcome {
    let mut rails = [0u16; 2060];
    let mut placement = [0u16; 260];
    let mut listed = [0u16; 260];
    let mut want = [0u64; 260];
    let mut held = [0u64; WORDS];
    let bays = cases::number(text, at);
    let x = cases::number(text, bays.next);
    let r = cases::list(text, x.next, &mut rails);
    let p = cases::list(text, r.next, &mut placement);
    let h = cases::list(text, p.next, &mut listed);
    let kind = cases::number(text, h.next);
    let w = cases::list(text, kind.next, &mut want);
    gather(&listed[..h.count], &mut held);
    let bay = (x.value % 65536) as u16;
    Outcome {
        agrees: vacate_agrees(
            bays.value,
            bay,
            &rails[..r.count],
            &mut placement[..p.count],
            &held,
            kind.value,
            &want[..w.count],
        ),
        next: w.next,
    }
}

// How many cases of the text agree.
fn agreeing<F: Fn(&[u8], usize) -> Outcome>(
    rt: &impl Print,
    name: &str,
    text: &[u8],
    case: F,
) -> io::Result<u64>
    requires { F.IsAlwaysCallable case }
{
    let count = cases::number(text, 0);
    let mut next = count.next;
    let mut agree: u64 = 0;
    for i in 0..count.value {
        let o = case(text, next);
        if o.agrees {
            agree += 1;
        } else {
            println!(rt; "{name} case {i} does not agree")?;
        }
        next = o.next;
    }
    Ok(agree)
}

// How many cases of the file agree.
fn of_file<F: Fn(&[u8], usize) -> Outcome>(rt: &HostRuntime, name: &str, case: F) -> io::Result<u64>
    requires { F.IsAlwaysCallable case }
{
    let mut text = [0u8; cases::TEXT];
    let n = cases::load(rt, name, &mut text)?;
    agreeing(rt, name, &text[..n], case)
}

fn main(rt: HostRuntime) -> io::Result<()> {
    let paths = of_file(&rt, "path", path_case)?;
    println!(rt; "{paths} paths agree")?;
    let vacates = of_file(&rt, "vacate", vacate_case)?;
    println!(rt; "{vacates} vacates agree")
}
