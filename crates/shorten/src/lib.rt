// Plans shortened: there-and-back trips are dropped. Clearing working room takes time, so a plan gets room for about as many crossings as it has.
#![tactic(auto)]

ghost use Rattle.std.specs.Prelude.{◌≡◌, ◌≤◌, ◌*◌};
ghost use Rattle.paper.specs.Yard.{most_crossings};
ghost use Rattle.paper.specs.Order.{order};
ghost use Rattle.remaining.specs.Statements.{RoomSays};
ghost use Rattle.chains.specs.Links.{links_each};
ghost use Rattle.shorten.specs.Asks.{PlanAsks, RoomAsks};
ghost use Rattle.shorten.specs.Statements.{ShortenSays};

use docket::Refusal;
use yard::Yard;

// Crossings that the rooms hold, and for each the words of a set of so many names, and the links of so many crossings. Rattle computes no const argument,
// so all have names.
const FEW: usize = 4096;

const FEW_WORDS: usize = FEW / 64;

const FEW_LINKS: usize = FEW * chains::LINKS;

const SOME: usize = 16384;

const SOME_WORDS: usize = SOME / 64;

const SOME_LINKS: usize = SOME * chains::LINKS;

const MANY: usize = 32768;

const MANY_WORDS: usize = MANY / 64;

const MANY_LINKS: usize = MANY * chains::LINKS;

const MOST: usize = Yard::CROSSINGS;

const MOST_WORDS: usize = MOST / 64;

const MOST_LINKS: usize = MOST * chains::LINKS;

// The whole work, in lists that are lent: nothing is dropped yet.
fn shorten_in(
    plan: &[u64],
    gone: &mut [u8],
    todo: &mut [u64],
    links: &mut [u16],
    out: &mut [u64],
) -> Result<u64, Refusal>
    requires { RoomAsks plan.now gone.old todo.old links.old }
    ensures { RoomSays plan.now out.old result out.new }
{
    chains::fill(plan, links);
    setting_out::set_out(plan, links, todo);
    dropping::drop_trips(plan, gone, todo, links);
    remaining::finish(plan, gone, out)
}

// The same, with room for a plan of ROOM crossings. The arrays stand here only, since clearing them takes time, and never in a caller, which would reach for the
// stack of the largest room at each call.
#[inline(never)]
fn shorten_within<const ROOM: usize, const WORDS: usize, const ROOM_LINKS: usize>(
    plan: &[u64],
    out: &mut [u64],
) -> Result<u64, Refusal>
    requires asked { PlanAsks plan.now ROOM }
    requires held { ROOM ≤ most_crossings }
    requires words_held { ROOM ≡ 64 * WORDS }
    requires links_held { ROOM_LINKS ≡ ROOM * links_each }
    ensures { RoomSays plan.now out.old result out.new }
{
    let count = plan.len();
    let long = count * chains::LINKS;
    let mut gone = [0u8; ROOM];
    let mut todo = [0u64; WORDS];
    let mut links = [0u16; ROOM_LINKS];
    shorten_in(plan, &mut gone[..count], &mut todo, &mut links[..long], out)
}

// The same, with the room that the plan needs.
fn shorten_checked(plan: &[u64], out: &mut [u64]) -> Result<u64, Refusal>
    requires { PlanAsks plan.now most_crossings }
    ensures { RoomSays plan.now out.old result out.new }
{
    if plan.len() <= FEW {
        return shorten_within::<FEW, FEW_WORDS, FEW_LINKS>(plan, out);
    }
    if plan.len() <= SOME {
        return shorten_within::<SOME, SOME_WORDS, SOME_LINKS>(plan, out);
    }
    if plan.len() <= MANY {
        return shorten_within::<MANY, MANY_WORDS, MANY_LINKS>(plan, out);
    }
    shorten_within::<MOST, MOST_WORDS, MOST_LINKS>(plan, out)
}

// A plan that passes the check, shortened into the first places of `out`, as long as no crossing of it is done. A refusal changes nothing.
// Fresh marks are told by one look at each; what other marks are refused for is asked only where there are such.
pub fn shorten(
    bays: u64,
    rails: &[u16],
    start: &[u16],
    goal: &[u16],
    plan: &[u64],
    marks: &[u8],
    out: &mut [u64],
) -> Result<u64, Refusal>
    ensures { ShortenSays (order bays rails.now start.now goal.now)
        plan.now marks.now out.old result out.new }
{
    let checked = checker::check(bays, rails, start, goal, plan);
    if let Err(r) = checked {
        return Err(r);
    }
    if begun::is_fresh(plan, marks) {
        return shorten_checked(plan, out);
    }
    if mark_order::bad_marks(plan, marks) {
        return Err(Refusal::Mismarked);
    }
    Err(Refusal::Begun)
}
