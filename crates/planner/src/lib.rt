// The planner: refusals 1 to 6 by the yard's opening, then the procedure, then 7 and 8.
#![tactic(auto)]

ghost use Rattle.std.specs.Prelude.{◌≤◌};
ghost use Rattle.paper.specs.Limits.{most_crossings};
ghost use Rattle.paper.specs.Order.{order};
ghost use Rattle.likely.specs.FromBelow.{Admitted};
ghost use Rattle.rooms.specs.FromBelow.{HandsOut, HandsOutKept};
ghost use Rattle.planner.specs.Statement.{CountSays, PlanSays};

use docket::Refusal;
use lean::LEAST;
use rooms::outcome::Handed;
use yard::Yard;

// Clearing room takes time, and a plan longer than its room is played twice. So there are five rooms, and the one taken is the least that holds a plan as
// long as it is likely to be: for LEAST crossings, then for these, and for Yard::CROSSINGS, more than which no plan may have.
const LESS: usize = 4096;

const HALF: usize = 8192;

const MORE: usize = 16384;

// In a room for ROOM crossings. The large array stands here only, since clearing it takes time.
fn hand_out_within<const ROOM: usize>(
    table: &[u64; Yard::TABLE],
    yard: Yard,
    start: &[u16],
    goal: &[u16],
    out: &mut [u64],
) -> Handed
    requires admitted { Admitted yard.bays table.now start.now goal.now }
    requires room_in_bounds { ROOM ≤ most_crossings }
    ensures { HandsOutKept yard.bays table.now start.now goal.now out.old result out.new }
{
    let mut kept = [0u64; ROOM];
    rooms::hand_out_in(table, yard, start, goal, &mut kept, out)
}

// In the least room that is likely to hold the plan.
fn hand_out_likely(
    table: &[u64; Yard::TABLE],
    yard: Yard,
    start: &[u16],
    goal: &[u16],
    out: &mut [u64],
) -> Handed
    requires { Admitted yard.bays table.now start.now goal.now }
    ensures { HandsOutKept yard.bays table.now start.now goal.now out.old result out.new }
{
    let carriers = start.len();
    let junctions = likely::junctions_if_thin(table, yard);
    if likely::holds(LEAST, yard, junctions, carriers) {
        return hand_out_within::<LEAST>(table, yard, start, goal, out);
    }
    if likely::holds(LESS, yard, junctions, carriers) {
        return hand_out_within::<LESS>(table, yard, start, goal, out);
    }
    if likely::holds(HALF, yard, junctions, carriers) {
        return hand_out_within::<HALF>(table, yard, start, goal, out);
    }
    if likely::holds(MORE, yard, junctions, carriers) {
        return hand_out_within::<MORE>(table, yard, start, goal, out);
    }
    hand_out_within::<{ Yard::CROSSINGS }>(table, yard, start, goal, out)
}

// In the likely room, and played again where the plan is longer than that.
fn hand_out(
    table: &[u64; Yard::TABLE],
    yard: Yard,
    start: &[u16],
    goal: &[u16],
    out: &mut [u64],
) -> Result<(u64, u64), Refusal>
    requires { Admitted yard.bays table.now start.now goal.now }
    ensures { HandsOut yard.bays table.now start.now goal.now out.old result out.new }
{
    let handed = hand_out_likely(table, yard, start, goal, out);
    match handed {
        Handed::Done(answer) => answer,
        Handed::Longer(m, parked) => {
            rooms::hand_out_again(table, yard, start, goal, m, parked, out)
        }
    }
}

// Planning tests 1 to 8 by number. Acceptance writes the plan and nothing beyond its length; a refusal changes nothing.
pub fn plan_counted(
    bays: u64,
    rails: &[u16],
    start: &[u16],
    goal: &[u16],
    out: &mut [u64],
) -> Result<(u64, u64), Refusal>
    ensures { CountSays (order bays rails.now start.now goal.now) out.old result out.new }
{
    let mut table = [0u64; Yard::TABLE];
    let opened = Yard::open_in(bays, rails, start, goal, 0, &mut table);
    match opened {
        Err(r) => Err(r),
        Ok(yard) => hand_out(&table, yard, start, goal, out),
    }
}

// The same for those who do not ask for the count.
pub fn plan(
    bays: u64,
    rails: &[u16],
    start: &[u16],
    goal: &[u16],
    out: &mut [u64],
) -> Result<u64, Refusal>
    ensures { PlanSays (order bays rails.now start.now goal.now) out.old result out.new }
{
    let counted = plan_counted(bays, rails, start, goal, out);
    match counted {
        Ok((m, _)) => Ok(m),
        Err(r) => Err(r),
    }
}

// Planning on a small stack: no levels, and no room but the least. The answer is the same.
pub fn plan_lean(
    bays: u64,
    rails: &[u16],
    start: &[u16],
    goal: &[u16],
    out: &mut [u64],
) -> Result<(u64, u64), Refusal>
    ensures { CountSays (order bays rails.now start.now goal.now) out.old result out.new }
{
    let mut table = [0u64; Yard::TABLE];
    let opened = Yard::open_in(bays, rails, start, goal, 0, &mut table);
    match opened {
        Err(r) => Err(r),
        Ok(yard) => lean::hand_out_lean(&table, yard.bays, start, goal, out),
    }
}
