// Clear, once through the neighbours of the junction other than the follower's bay: two of them are kept empty, the empty ones first,
// then those that can be vacated, in rising order.
#![tactic(auto)]

ghost use Rattle.acting.specs.Acting.{Ready};
ghost use Rattle.clear.specs.Clearing.{ClearAsks, ClearSays};

use docket::Bay;
use keeping::{First, Two};

// Clear, at the junction v with the follower at b.
pub fn clear(
    table: &[u64],
    v: Bay,
    b: Bay,
    placement: &mut [u16],
    standing: &mut [u16],
    empty: &mut [u64],
    out: &mut [u64],
) -> Two
    requires ready { Ready table.now placement.old standing.old empty.old }
    requires clear_asks { ClearAsks v.0 b.0 standing.old }
    ensures { ClearSays v.0 b.0
        table.now placement.old standing.old out.old
        placement.new standing.new empty.new out.new result }
{
    let mut others = [0u64; words::WORDS];
    let mut held = [0u64; words::WORDS];
    words::join_row(&mut others, table, v.0 as usize);
    words::remove(&mut others, b.0 as usize);
    words::alone(&mut held, v.0 as usize);
    words::join(&mut held, b.0 as usize);
    let x = words::lowest_common(&others, 0, empty, 0);
    if x < words::SPAN {
        words::remove(&mut others, x);
        let y = words::lowest_common(&others, 0, empty, 0);
        if y < words::SPAN {
            return Two::Both(Bay(x as u16), Bay(y as u16), acting::NOTHING);
        }
        let kept = Bay(x as u16);
        return keeping::keep_second(
            table,
            &others,
            &mut held,
            First { kept, from: 0 },
            placement,
            standing,
            empty,
            out,
        );
    }
    let first = keeping::keep_one(table, &others, &held, 0, placement, standing, empty, out);
    let Some((kept, made)) = first else {
        return Two::Short;
    };
    let next = First {
        kept,
        from: kept.0 as usize + 1,
    };
    let place = acting::place_in(out, made.crossings);
    let rest = keeping::keep_second(
        table,
        &others,
        &mut held,
        next,
        placement,
        standing,
        empty,
        &mut out[place..],
    );
    keeping::after(made, rest)
}
