// A scout: a pair that goes ahead of the trials of a swap, on a copy of the placement. It goes on from where it came for an earlier trial, so that the
// part that their ways share is gone once. What a scout cannot do no trial can.
#![tactic(auto)]

ghost use Rattle.std.specs.Prelude.{◌≡◌, false, ◌+◌, ◌≤◌, ◌<◌, length, take};
ghost use Rattle.words.specs.Sets.{words, span};
ghost use Rattle.acting.specs.Acting.{Ready};
ghost use Rattle.scout.specs.Scouting.{AdvanceAsks, AdvanceSays, ClearsAsks, TooFew, ShowAsks, ShowSays, SetOutAsks, SetOutSays, LookAsks, LookSays};

use attempts::Lead;
use bring::Couple;
use docket::Bay;

// The numbers that a scout's room holds: the carriers' bays, and then who stands at each bay. The room is lent, so that nobody copies it who only hands
// the scout on.
pub const ROOM: usize = 2 * words::SPAN;

// The empty bays when the leader has come to the bay `at`, so many rails from where the swap is asked for. Where the carriers stand is in the scout's room.
#[derive(Clone, Copy)]
pub struct Scout {
    pub empty: [u64; words::WORDS],
    pub at: Bay,
    pub rails: usize,
}

// What a scout saw: how many bays of its way it entered, whether two bays can be kept at its end, and where it stands then.
#[derive(Clone, Copy)]
pub struct Sight {
    pub scout: Scout,
    pub entered: usize,
    pub fits: bool,
}

// The room shows where the carriers stand.
fn show(placement: &[u16], standing: &[u16], room: &mut [u16])
    requires { ShowAsks placement.now standing.now room.old }
    ensures { ShowSays placement.now standing.now room.new }
{
    attempts::copy(room, placement);
    attempts::copy(&mut room[words::SPAN..], standing);
}

// A scout that starts with the leader at the bay `at`.
pub fn set_out(
    placement: &[u16],
    standing: &[u16],
    empty: &[u64],
    at: Bay,
    rails: usize,
    room: &mut [u16],
) -> Scout
    requires { SetOutAsks placement.now standing.now empty.now room.old }
    ensures { SetOutSays placement.now standing.now empty.now at rails result room.new }
{
    let mut unused = [0u64; words::WORDS];
    words::keep(&mut unused, 0, empty);
    show(placement, standing, room);
    Scout {
        empty: unused,
        at: at,
        rails: rails,
    }
}

// The pair goes along the way: how many of its bays it enters before one cannot be vacated.
fn advance(
    table: &[u64],
    way: &[u16],
    couple: Couple,
    placement: &mut [u16],
    standing: &mut [u16],
    empty: &mut [u64],
) -> usize
    requires ready { Ready table.now placement.old standing.old empty.old }
    requires advance_asks { AdvanceAsks couple way.now placement.old standing.old }
    ensures { AdvanceSays couple way.now
        table.now placement.old standing.old
        placement.new standing.new empty.new result }
{
    let mut unread = [0u64; 1];
    for (i, bay) in way.iter().enumerate() {
        let next = [*bay];
        let one = bring::bring(
            table,
            &next,
            couple,
            placement,
            standing,
            empty,
            &mut unread,
        );
        let Some(_) = one else {
            return i;
        };
    }
    way.len()
}

// Whether two bays beside the junction can be kept, with the leader there. The placement is used up.
fn clears(
    table: &[u64],
    lead: Lead,
    placement: &mut [u16],
    standing: &mut [u16],
    empty: &mut [u64],
) -> bool
    requires ready { Ready table.now placement.old standing.old empty.old }
    requires clears_asks { ClearsAsks lead placement.old standing.old }
    ensures { result ≡ false → TooFew lead table.now placement.old standing.old }
{
    let follower = lead.couple.follower.0 as usize;
    let b = Bay(placement[follower]);
    let mut unread = [0u64; 1];
    let cleared = clear_on::clear_two(table, lead, b, placement, standing, empty, &mut unread);
    let Some((_, _, _)) = cleared else {
        return false;
    };
    true
}

// The scout goes along the way to the junction and looks there. Where it comes to a bay that cannot be vacated it turns back, and its room is as it was.
pub fn look(
    table: &[u64],
    way: &[u16],
    lead: Lead,
    k: usize,
    n: usize,
    scout: Scout,
    room: &mut [u16],
) -> Sight
    requires { LookAsks table.now way.now lead k n scout room.old }
    ensures { LookSays table.now way.now lead k n scout room.old result room.new }
{
    let end = words::SPAN + n;
    let mut bays = [0u16; words::SPAN];
    let mut carriers = [0u16; words::SPAN];
    let mut unused = scout.empty;
    attempts::copy(&mut bays, &room[..k]);
    attempts::copy(&mut carriers, &room[words::SPAN..end]);
    let entered = advance(
        table,
        way,
        lead.couple,
        &mut bays[..k],
        &mut carriers[..n],
        &mut unused,
    );
    if entered < way.len() {
        return Sight {
            scout: scout,
            entered: entered,
            fits: false,
        };
    }
    show(&bays[..k], &carriers[..n], room);
    let junction = lead.junction;
    let rails = scout.rails + way.len();
    let come = Scout {
        empty: unused,
        at: junction,
        rails: rails,
    };
    Sight {
        scout: come,
        entered: entered,
        fits: clears(table, lead, &mut bays[..k], &mut carriers[..n], &mut unused),
    }
}
