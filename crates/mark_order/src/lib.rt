// Whether the marks of a plan that has passed the check are in order: refusal 11. Each test is one pass over the plan. Its carriers and bays are below
// BAYS, so what a pass remembers of them are two small arrays.
#![tactic(auto)]

ghost use Rattle.std.specs.Prelude.{◌≡◌, true, not, ℕ, ◌≤◌, ◌<◌, eqb, length, get_or};
ghost use Rattle.paper.specs.Basics.{◌or◌, any};
ghost use Rattle.paper.specs.Limits.{most_bays};
ghost use Rattle.paper.specs.Yard.{crossings};
ghost use Rattle.paper.specs.Dependence.{out_of_order};
ghost use Rattle.paper.specs.Docket.{bad_marks};
ghost use Rattle.paper.specs.OnePass.{Fits};
ghost use Rattle.paper.proofs.Marking.{flag};

use paper::BAYS;

// Whether an undone crossing has touched the carrier or one of the bays.
fn touched(carriers: &[u8; BAYS], bays: &[u8; BAYS], carrier: usize, from: usize, to: usize) -> bool
    requires { (carrier < most_bays) × (from < most_bays) × (to < most_bays) }
    ensures { result ≡ flag carriers.now carrier or flag bays.now from or flag bays.now to }
{
    carriers[carrier] == 1 || bays[from] == 1 || bays[to] == 1
}

// How many marks are looked at together.
const BLOCK: usize = 64;

// Whether the marks of some places are all done. All of them are read, which is sooner done than asking at each.
fn all_done(marks: &[u8], from: usize, to: usize) -> bool
    requires { to ≤ length marks.now }
    ensures { result ≡ true → (i : ℕ) → from ≤ i → i < to → get_or marks.now i 0 ≡ 1 }
{
    let mut all = true;
    for i in from..to {
        all &= marks[i] == 1;
    }
    all
}

// A place before which all marks are done: where crossings are reported in the plan's order, that of the first undone one or a little before it.
pub fn done_to(marks: &[u8]) -> usize
    ensures { (result ≤ length marks.now) × ((i : ℕ) → i < result → get_or marks.now i 0 ≡ 1) }
{
    let blocks = marks.len() / BLOCK;
    for block in 0..blocks {
        let from = block * BLOCK;
        if !all_done(marks, from, from + BLOCK) {
            return from;
        }
    }
    blocks * BLOCK
}

// Whether a crossing is marked done before an earlier one it depends on. None is while all before it are done.
fn order_pass(plan: &[u64], marks: &[u8]) -> bool
    requires { (length marks.now ≡ length plan.now) × Fits most_bays most_bays plan.now }
    ensures { result ≡ out_of_order (crossings plan.now) marks.now }
{
    let mut carriers: [u8; BAYS] = [0; BAYS];
    let mut bays: [u8; BAYS] = [0; BAYS];
    for i in done_to(marks)..plan.len() {
        let x = plans::crossing_at(plan, i);
        let carrier = x.carrier.0 as usize;
        let from = x.from.0 as usize;
        let to = x.to.0 as usize;
        if marks[i] == 1 {
            if touched(&carriers, &bays, carrier, from, to) {
                return true;
            }
        } else {
            carriers[carrier] = 1;
            bays[from] = 1;
            bays[to] = 1;
        }
    }
    false
}

// Whether a mark is neither 0 nor 1. All marks are read, which is sooner done than asking at each of them.
fn odd_mark(marks: &[u8]) -> bool
    ensures { result ≡ any (λ m. not (eqb m 0 or eqb m 1)) marks.now }
{
    let mut odd = false;
    for mark in marks {
        odd |= *mark > 1;
    }
    odd
}

// Whether the report is refused with 11.
pub fn bad_marks(plan: &[u64], marks: &[u8]) -> bool
    requires { Fits most_bays most_bays plan.now }
    ensures { result ≡ bad_marks (crossings plan.now) marks.now }
{
    marks.len() != plan.len() || odd_mark(marks) || order_pass(plan, marks)
}
