// The slots of a plan, in one pass that keeps the last slot of each carrier and of each bay.
// It takes plans that have passed the check, whose carriers and bays are below BAYS, so both tables are small arrays.
#![tactic(auto)]

ghost use Rattle.std.specs.Prelude.{◌≡◌, ◌++◌, ◌≤◌, ◌<◌, max, length, drop};
ghost use Rattle.paper.specs.Limits.{most_bays};
ghost use Rattle.paper.specs.Yard.{crossings, most_crossings};
ghost use Rattle.paper.specs.Dependence.{slots as slots_of};
ghost use Rattle.paper.specs.OnePass.{Fits};
ghost use Rattle.docket.specs.Reading.{crossing_of};
ghost use Rattle.slots.specs.Turn.{slot_after, Turned};

use docket::Crossing;
use paper::BAYS;

pub fn higher(x: u32, y: u32) -> u32
    ensures { result ≡ max x y }
{
    if x < y { y } else { x }
}

// The slot of the crossing after those that the tables have met; it becomes the last of its carrier and of both its bays.
pub fn next_slot(x: Crossing, carriers: &mut [u32; BAYS], bays: &mut [u32; BAYS]) -> u32
    requires { ((crossing_of x).carrier < most_bays)
        × ((crossing_of x).from < most_bays)
        × ((crossing_of x).to < most_bays)
        × (slot_after carriers.old bays.old (crossing_of x) < 4294967296) }
    ensures { Turned carriers.old bays.old (crossing_of x) result carriers.new bays.new }
{
    let carrier = x.carrier.0 as usize;
    let from = x.from.0 as usize;
    let to = x.to.0 as usize;
    let slot = carriers[carrier].max(bays[from].max(bays[to])) + 1;
    carriers[carrier] = slot;
    bays[from] = slot;
    bays[to] = slot;
    slot
}

// Into the first places of `out`; what stands beyond the plan's length stays.
pub fn slot_pass(plan: &[u64], out: &mut [u32])
    requires { (length plan.now ≤ length out.old) × (length plan.now ≤ most_crossings) × Fits most_bays most_bays plan.now }
    ensures { out.new ≡ slots_of (crossings plan.now) ++ drop (length plan.now) out.old }
{
    let mut carriers: [u32; BAYS] = [0; BAYS];
    let mut bays: [u32; BAYS] = [0; BAYS];
    for i in 0..plan.len() {
        out[i] = next_slot(plans::crossing_at(plan, i), &mut carriers, &mut bays);
    }
}
