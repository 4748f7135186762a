// The program on bytes: from the two files to all that is printed.
#![tactic(auto)]

ghost use Rattle.std.specs.Prelude.{◌≡◌, ◌≤◌, length};
ghost use Rattle.paper.specs.Order.{order as order_of};
ghost use Rattle.paper.specs.Answers.{plan as planned};
ghost use Rattle.paper.specs.Print.{printed};
ghost use Rattle.paper.specs.Program.{program as printed_for, program_answer, program_room};
ghost use Rattle.stores.specs.Writing.{Wrote};
ghost use Rattle.filing.specs.Filing.{file_of, order_in};
ghost use Rattle.print_room.specs.Printout.{print_room};
ghost use Rattle.print_room.specs.Short.{short_or, short_program};
ghost use Rattle.print_room.specs.Ready.{Ready};
ghost use Rattle.program.specs.Planning.{verdict_in, PlannedIn, ShortIn};

use docket::Refusal;
use filing::Order;
use print_room::CROSSINGS;
use yard::Yard;

// Room for every order's rails.
const ENDS: usize = 16384;

// The planner's answer as a verdict.
fn verdict(found: Result<u64, Refusal>) -> Result<u64, Refusal>
    ensures { result ≡ verdict_in found }
{
    match found {
        Ok(m) => Ok(m),
        Err(r) => Err(r),
    }
}

// The plan without its there-and-back trips, in the other list. None of it is done, and there is room for all of it, so that it is never refused.
fn shorten_planned(
    answer: Result<u64, Refusal>,
    bays: u64,
    ends: &[u16],
    starts: &[u16],
    goals: &[u16],
    plan: &[u64],
    short: &mut [u64],
) -> Result<u64, Refusal>
    requires { PlannedIn (order_of bays ends.now starts.now goals.now) answer plan.now × (length short.old ≡ program_room) }
    ensures { ShortIn (order_of bays ends.now starts.now goals.now) result short.new }
{
    match answer {
        Ok(m) => {
            let n = m as usize;
            let marks = [0u8; CROSSINGS];
            shorten::shorten(bays, ends, starts, goals, &plan[..n], &marks[..n], short)
        }
        Err(r) => Err(r),
    }
}

// The order's plan in the list, shortened where that is asked for, or why it has none.
fn plan_order(
    shorten: bool,
    order: Order,
    ends: &[u16],
    starts: &[u16],
    goals: &[u16],
    plan: &mut [u64],
) -> Result<u64, Refusal>
    requires { (order.ends ≤ length ends.now)
        × (order.carriers ≤ length starts.now)
        × (order.carriers ≤ length goals.now)
        × (length plan.old ≡ program_room) }
    ensures { Ready (short_or shorten (planned (order_in order ends.now starts.now goals.now) program_room))
        result plan.new }
{
    let n = order.ends;
    let k = order.carriers;
    if shorten {
        let mut long = [0u64; CROSSINGS];
        let found = planner::plan(order.bays, &ends[..n], &starts[..k], &goals[..k], &mut long);
        return shorten_planned(
            verdict(found),
            order.bays,
            &ends[..n],
            &starts[..k],
            &goals[..k],
            &long,
            plan,
        );
    }
    verdict(planner::plan(order.bays, &ends[..n], &starts[..k], &goals[..k], plan))
}

// What the two files ask for, each with whether it could be read: the plan in the list, or why there is none.
pub fn answer_for(
    shorten: bool,
    map: &[u8],
    mapped: bool,
    scenario: &[u8],
    listed: bool,
    plan: &mut [u64],
) -> Result<u64, Refusal>
    requires { length plan.old ≡ program_room }
    ensures { Ready (short_or shorten (program_answer (file_of mapped map.now) (file_of listed scenario.now))) result plan.new }
{
    let mut ends = [0u16; ENDS];
    let mut starts = [0u16; Yard::CARRIERS];
    let mut goals = [0u16; Yard::CARRIERS];
    let ordered = filing::read_order(
        map,
        mapped,
        scenario,
        listed,
        &mut ends,
        &mut starts,
        &mut goals,
    );
    match ordered {
        Ok(order) => plan_order(shorten, order, &ends, &starts, &goals, plan),
        Err(r) => Err(r),
    }
}

// Both prints: the answer's, shortened where that is asked for.
fn print_for(
    shorten: bool,
    map: &[u8],
    mapped: bool,
    scenario: &[u8],
    listed: bool,
    out: &mut [u8],
) -> usize
    ensures { Wrote out.old 0
        (printed (short_or shorten (program_answer (file_of mapped map.now) (file_of listed scenario.now)))) out.new result
        × (result ≤ print_room) }
{
    let mut plan = [0u64; CROSSINGS];
    let answer = answer_for(shorten, map, mapped, scenario, listed, &mut plan);
    print_room::print(answer, &plan, out)
}

// All that is printed for two files, each with whether it could be read; answers how many bytes
// that takes, which are never more than 180,250.
pub fn program(map: &[u8], mapped: bool, scenario: &[u8], listed: bool, out: &mut [u8]) -> usize
    ensures { Wrote out.old 0 (printed_for (file_of mapped map.now) (file_of listed scenario.now)) out.new result
        × (result ≤ print_room) }
{
    print_for(false, map, mapped, scenario, listed, out)
}

// The same as `program`, with the plan shortened.
pub fn program_short(
    map: &[u8],
    mapped: bool,
    scenario: &[u8],
    listed: bool,
    out: &mut [u8],
) -> usize
    ensures { Wrote out.old 0 (short_program (file_of mapped map.now) (file_of listed scenario.now)) out.new result
        × (result ≤ print_room) }
{
    print_for(true, map, mapped, scenario, listed, out)
}
