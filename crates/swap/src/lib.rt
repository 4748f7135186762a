// Swap: the first junction, nearest first, whose trial succeeds is used; its crossings stay in the list, and the two carriers trade places. A
// swap is lent the rest of the list, and answers what it counted.
#![tactic(auto)]

ghost use Rattle.acting.specs.Acting.{Ready};
ghost use Rattle.trade.specs.Trading.{TradeAsks};
ghost use Rattle.seek.specs.FromBelow.{SeekAsks};
ghost use Rattle.swap.specs.Swapping.{SpareAsks, SpareSays, SwapBesideSays, SwapSays};

use acting::Tally;
use docket::{Bay, Carrier};

// The bays of an exchange: the junction, the bay behind it where the follower stands, and the two that are kept, the lower one first.
#[derive(Clone, Copy)]
struct Exchange {
    junction: Bay,
    behind: Bay,
    lower: Bay,
    higher: Bay,
}

// Swap of r with its neighbour s, by trials at the junctions. They go to the list itself; the one that succeeds stays there.
fn swap_far(
    table: &[u64],
    r: Carrier,
    s: Carrier,
    placement: &mut [u16],
    standing: &mut [u16],
    empty: &[u64],
    out: &mut [u64],
) -> Option<Tally>
    requires ready { Ready table.now placement.old standing.old empty.now }
    requires seek_asks { SeekAsks r.0 s.0 table.now placement.old standing.old }
    ensures { SwapSays r.0 s.0
        table.now placement.old standing.old out.old
        placement.new standing.new empty.now out.new result }
{
    let done = seek::seek(table, r, s, placement, standing, empty, out)?;
    let m = Tally {
        crossings: done.crossings,
        parked: done.parked,
    };
    trade::trade(placement, standing, r, s);
    Some(m)
}

// The two lowest empty neighbours of bay u other than w, if there are two.
fn spare_bays(table: &[u64], u: Bay, w: Bay, empty: &[u64]) -> Option<(Bay, Bay)>
    requires { SpareAsks table.now empty.now u.0 w.0 }
    ensures { SpareSays table.now empty.now u.0 w.0 result }
{
    let mut others = [0u64; words::WORDS];
    words::join_row(&mut others, table, u.0 as usize);
    words::remove(&mut others, w.0 as usize);
    let x = words::lowest_common(&others, 0, empty, 0);
    if words::SPAN <= x {
        return None;
    }
    words::remove(&mut others, x);
    let y = words::lowest_common(&others, 0, empty, 0);
    if words::SPAN <= y {
        return None;
    }
    Some((Bay(x as u16), Bay(y as u16)))
}

// Swap of r at the junction with s behind it by the exchange alone, the two kept bays being empty.
fn swap_beside(
    r: Carrier,
    s: Carrier,
    bays: Exchange,
    placement: &mut [u16],
    standing: &mut [u16],
    out: &mut [u64],
) -> usize
    requires { TradeAsks r.0 s.0 placement.old standing.old }
    ensures { SwapBesideSays r.0 s.0 bays
        placement.old standing.old out.old
        placement.new standing.new out.new result }
{
    let many = exchange::exchange(
        out,
        0,
        r,
        s,
        bays.junction,
        bays.behind,
        bays.lower,
        bays.higher,
    );
    trade::trade(placement, standing, r, s);
    many
}

// Swap of r with its neighbour s. Where two neighbours of r's bay other than s's are empty, that bay is the nearest junction, its trial
// succeeds, and no copies are needed for it.
pub fn swap(
    table: &[u64],
    r: Carrier,
    s: Carrier,
    placement: &mut [u16],
    standing: &mut [u16],
    empty: &[u64],
    out: &mut [u64],
) -> Option<Tally>
    requires ready { Ready table.now placement.old standing.old empty.now }
    requires seek_asks { SeekAsks r.0 s.0 table.now placement.old standing.old }
    ensures { SwapSays r.0 s.0
        table.now placement.old standing.old out.old
        placement.new standing.new empty.now out.new result }
{
    let first = r.0 as usize;
    let second = s.0 as usize;
    let u = Bay(placement[first]);
    let w = Bay(placement[second]);
    let spare = spare_bays(table, u, w, empty);
    if let Some((x, y)) = spare {
        let bays = Exchange {
            junction: u,
            behind: w,
            lower: x,
            higher: y,
        };
        let crossings = swap_beside(r, s, bays, placement, standing, out);
        return Some(Tally {
            crossings,
            parked: 0,
        });
    }
    swap_far(table, r, s, placement, standing, empty, out)
}
