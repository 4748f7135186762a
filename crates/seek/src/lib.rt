// The far junctions of a swap, nearest first and ties lowest, to the first whose trial succeeds. One search from the carrier's bay finds the paths to all of them.
// The first trial is made at once. Before any other a scout is sent, and the trial is made only where the scout sees no reason why it should fail.
#![tactic(auto)]

ghost use Rattle.std.specs.Prelude.{◌≡◌, length};
ghost use Rattle.words.specs.Sets.{mem, words};
ghost use Rattle.acting.specs.Acting.{Ready};
ghost use Rattle.scouts.specs.Scouts.{ForeseeAsks};
ghost use Rattle.near.specs.Seeking.{SeekAsks, SeekSays};
ghost use Rattle.seek.specs.Far.{TrySays, FirstFar, FarAsks};

use acting::Tally;
use docket::{Bay, Carrier};
use near::Nearby;
use scouts::Scouts;
use trial::Trial;

// The trial at a junction, and where the scouts are before it.
#[derive(Clone, Copy)]
pub struct Outset {
    pub trial: Trial,
    pub scouts: Scouts,
}

// What came of a junction, and where the scouts are then.
#[derive(Clone, Copy)]
pub struct Turn {
    pub tried: Option<Tally>,
    pub scouts: Scouts,
}

// The trial at a junction, if there is hope for it.
fn try_junction(
    table: &[u64],
    path: &[u16],
    outset: Outset,
    placement: &[u16],
    standing: &[u16],
    empty: &[u64],
    room: &mut [u16],
    out: &mut [u64],
) -> Turn
    requires ready { Ready table.now placement.now standing.now empty.now }
    requires foresee_asks { ForeseeAsks path.now outset.trial table.now placement.now standing.now outset.scouts room.old }
    ensures { TrySays outset.trial table.now placement.now standing.now
        room.new out.new result }
{
    let trial = outset.trial;
    let scouts = outset.scouts;
    let outlook = scouts::hope(table, path, trial, placement, standing, empty, scouts, room);
    let next = outlook.scouts;
    if outlook.hopeless {
        return Turn {
            tried: None,
            scouts: next,
        };
    }
    Turn {
        tried: trial::try_on(table, path, trial, placement, standing, empty, out),
        scouts: next,
    }
}

// The lowest bay of ring d, unless it is one of the first k.
fn first_far(ring: &[u64], k: usize, d: usize) -> usize
    requires { length ring.now ≡ words }
    ensures { FirstFar (mem ring.now) k d result }
{
    if d < k {
        return words::SPAN;
    }
    words::next_from(ring, 0)
}

// The trial at the first junction where it succeeds, ring by ring from the carrier's bay and rising in each ring, those of the first k rings having
// been tried; the list is left as that trial leaves it. A yard has not more rings than bays.
fn seek_far(
    table: &[u64],
    r: Carrier,
    s: Carrier,
    k: usize,
    placement: &[u16],
    standing: &[u16],
    empty: &[u64],
    out: &mut [u64],
) -> Option<Tally>
    requires ready { Ready table.now placement.now standing.now empty.now }
    requires far_asks { FarAsks r.0 s.0 table.now placement.now standing.now k }
    ensures { SeekSays r.0 s.0 table.now placement.now standing.now out.new result }
{
    let carrier = r.0 as usize;
    let u = placement[carrier];
    let n = standing.len();
    let mut seen = [0u64; words::WORDS];
    let mut ring = [0u64; words::WORDS];
    let mut met = [0u16; words::SPAN];
    let mut before = [0u16; words::SPAN];
    let mut path = [0u16; words::SPAN];
    let mut room = [0u16; scouts::ROOM];
    let mut scouts = scouts::nobody();
    words::alone(&mut seen, u as usize);
    words::alone(&mut ring, u as usize);
    met[0] = u;
    let mut done = 0;
    let mut count = 1;
    let mut found = None;
    'nearest: for d in 0..n {
        let mut v = first_far(&ring, k, d);
        while v < words::SPAN {
            let junction = Bay(v as u16);
            if acting::is_junction(table, n, junction) {
                queue::trace(&before, v, d, &mut path);
                let rails = d + 1;
                let trial = Trial {
                    carrier: r,
                    neighbour: s,
                    junction,
                };
                let outset = Outset { trial, scouts };
                let turn = try_junction(
                    table,
                    &path[..rails],
                    outset,
                    placement,
                    standing,
                    empty,
                    &mut room,
                    out,
                );
                let tried = turn.tried;
                scouts = turn.scouts;
                if let Some(m) = tried {
                    found = Some(m);
                    break 'nearest;
                }
            }
            v = words::next_from(&ring, v + 1);
        }
        let end = count;
        count = rounds::next_ring(
            table,
            n,
            done,
            end,
            &mut seen,
            &mut ring,
            &mut met,
            &mut before,
        );
        if count == end {
            break 'nearest;
        }
        done = end;
    }
    found
}

// The trial at the first junction where it succeeds, near or far; the list is left as that trial leaves it.
pub fn seek(
    table: &[u64],
    r: Carrier,
    s: Carrier,
    placement: &[u16],
    standing: &[u16],
    empty: &[u64],
    out: &mut [u64],
) -> Option<Tally>
    requires ready { Ready table.now placement.now standing.now empty.now }
    requires seek_asks { SeekAsks r.0 s.0 table.now placement.now standing.now }
    ensures { SeekSays r.0 s.0 table.now placement.now standing.now out.new result }
{
    let close = near::seek_near(table, r, s, placement, standing, empty, out);
    match close {
        Nearby::Found(m) => Some(m),
        Nearby::Farther(k) => seek_far(table, r, s, k, placement, standing, empty, out),
        Nearby::Nowhere => None,
    }
}
