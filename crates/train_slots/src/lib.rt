// The train slots of a plan, in one pass that keeps the last slot of each carrier and the slot of the latest leaving of each bay.
// It takes plans that have passed the check, whose carriers and bays are below BAYS, so both tables are small arrays.
#![tactic(auto)]

ghost use Rattle.std.specs.Prelude.{◌≡◌, ◌++◌, ◌≤◌, ◌<◌, length, drop};
ghost use Rattle.paper.specs.Limits.{most_bays};
ghost use Rattle.paper.specs.Yard.{crossings, most_crossings};
ghost use Rattle.paper.specs.OnePass.{Fits};
ghost use Rattle.docket.specs.Reading.{crossing_of};
ghost use Rattle.trains.specs.Slots.{train_slots};
ghost use Rattle.train_slots.specs.Turn.{slot_after, Turned};

use docket::Crossing;
use paper::BAYS;

// The slot of the crossing after those that the tables have met; it becomes its carrier's last, and that of the latest leaving of its `from`.
fn next_slot(x: Crossing, carriers: &mut [u32; BAYS], left: &mut [u32; BAYS]) -> u32
    requires { ((crossing_of x).carrier < most_bays)
        × ((crossing_of x).from < most_bays)
        × ((crossing_of x).to < most_bays)
        × (slot_after carriers.old left.old (crossing_of x) < 4294967296) }
    ensures { Turned carriers.old left.old (crossing_of x) result carriers.new left.new }
{
    let carrier = x.carrier.0 as usize;
    let from = x.from.0 as usize;
    let to = x.to.0 as usize;
    let slot = (carriers[carrier] + 1).max(left[to]);
    carriers[carrier] = slot;
    left[from] = slot;
    slot
}

// Into the first places of `out`; what stands beyond the plan's length stays. `slots::slot_pass` has the same loop over another rule: with the rule as a
// closure, which changes both tables, it would be longer than both.
pub fn train_pass(plan: &[u64], out: &mut [u32])
    requires { (length plan.now ≤ length out.old) × (length plan.now ≤ most_crossings) × Fits most_bays most_bays plan.now }
    ensures { out.new ≡ train_slots (crossings plan.now) ++ drop (length plan.now) out.old }
{
    let mut carriers: [u32; BAYS] = [0; BAYS];
    let mut left: [u32; BAYS] = [0; BAYS];
    for i in 0..plan.len() {
        out[i] = next_slot(plans::crossing_at(plan, i), &mut carriers, &mut left);
    }
}
