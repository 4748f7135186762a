// What plan, start and marks give worked out afresh, in one pass over a plan that has passed the check and marks that are in order. The marks are counted
// apart, many at a time.
#![tactic(auto)]

ghost use Rattle.std.specs.Prelude.{◌≡◌, ◌≤◌, length, replicate};
ghost use Rattle.paper.specs.Limits.{most_bays};
ghost use Rattle.paper.specs.Yard.{crossings, most_crossings};
ghost use Rattle.paper.specs.Dependence.{done_of};
ghost use Rattle.paper.specs.OnePass.{Fits};
ghost use Rattle.bills.specs.Billing.{untouched};
ghost use Rattle.afresh.specs.Working.{Led, Billed};

use yard::Yard;

// How many crossings are done.
pub fn count_done(plan: &[u64], marks: &[u8]) -> u32
    requires { (length marks.now ≡ length plan.now) × (length plan.now ≤ most_crossings) }
    ensures { result ≡ length (done_of (crossings plan.now) marks.now) }
{
    let mut done = 0u32;
    for i in 0..plan.len() {
        if marks[i] == 1 {
            done += 1;
        }
    }
    done
}

// A carrier that has crossed stands where its last crossing leads.
fn lead(plan: &[u64], last: &[u32; Yard::BAYS], at: &mut [u16; Yard::BAYS])
    requires { length at.old ≡ most_bays }
    ensures { Led plan.now last.now at.old at.new }
{
    for c in 0..Yard::BAYS {
        let name = last[c] as usize;
        if name < plan.len() {
            at[c] = plans::crossing_at(plan, name).to.0;
        }
    }
}

// What the pass below gives beside its arrays: the highest slot in which anything is done, or 0, and the slot of the name that is asked for.
#[derive(Clone, Copy)]
pub struct Slots {
    pub highest: u32,
    pub asked: u32,
}

// The done crossings, all in one pass: how many are each carrier's, the highest name among them, and where they leave the carriers. Before the first of
// them the last name is UNTOUCHED.
pub fn bill_done(
    plan: &[u64],
    marks: &[u8],
    name: usize,
    at: &mut [u16; Yard::BAYS],
    billed: &mut [u32; Yard::BAYS],
    last: &mut [u32; Yard::BAYS],
) -> Slots
    requires { (length marks.now ≡ length plan.now)
        × (length plan.now ≤ most_crossings)
        × Fits most_bays most_bays plan.now
        × (length at.old ≡ most_bays)
        × (billed.old ≡ replicate most_bays 0)
        × (last.old ≡ replicate most_bays untouched) }
    ensures { Billed plan.now marks.now name at.old at.new billed.new last.new result }
{
    let mut carriers: [u32; Yard::BAYS] = [0; Yard::BAYS];
    let mut bays: [u32; Yard::BAYS] = [0; Yard::BAYS];
    let mut highest = 0u32;
    let mut asked = 0u32;
    for i in 0..plan.len() {
        let x = plans::crossing_at(plan, i);
        let slot = slots::next_slot(x, &mut carriers, &mut bays);
        if i == name {
            asked = slot;
        }
        if marks[i] == 1 {
            highest = highest.max(slot);
            let carrier = x.carrier.0 as usize;
            billed[carrier] += 1;
            last[carrier] = i as u32;
        }
    }
    lead(plan, last, at);
    Slots { highest, asked }
}
