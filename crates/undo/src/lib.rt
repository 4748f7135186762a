// Undo: what was stored in the list is read back, turned and traded.
#![tactic(auto)]

ghost use Rattle.std.specs.Prelude.{◌≡◌, ◌+◌, ◌≤◌, ◌<◌, get_or, set};
ghost use Rattle.paper.specs.Procedure.{trade};
ghost use Rattle.moving.specs.Bounds.{room_crossing};
ghost use Rattle.undo.specs.Turning.{turned, UndoSays};

use docket::{Carrier, Crossing};

// What stands at a place of the list; 0 past its end.
fn stored_at(out: &[u64], i: usize) -> u64
    ensures { result ≡ get_or out.now i 0 }
{
    if i < out.len() {
        return out[i];
    }
    0
}

// The carrier l where c is m, m where it is l, and else c.
fn traded(l: Carrier, m: Carrier, c: Carrier) -> Carrier
    ensures { result.0 ≡ trade l.0 m.0 c.0 }
{
    if c.0 == l.0 {
        return m;
    }
    if c.0 == m.0 {
        return l;
    }
    c
}

// The number of the crossing the other way, with l and m traded.
fn turn(l: Carrier, m: Carrier, number: u64) -> u64
    ensures { result ≡ turned l.0 m.0 number }
{
    let x = docket::unpack(number);
    let c = x.carrier;
    let from = x.from;
    let to = x.to;
    docket::pack(Crossing {
        carrier: traded(l, m, c),
        from: to,
        to: from,
    })
}

// Undo: the crossings from `from` on, as many as `many`, backwards and turned, with l and m traded, from `at` on.
pub fn undo(out: &mut [u64], from: usize, many: usize, at: usize, l: Carrier, m: Carrier)
    requires many_bound { from + many ≤ at }
    requires many_bound_2 { at + many < room_crossing }
    ensures { UndoSays l.0 m.0 from many at out.old out.new }
{
    for j in 0..many {
        let number = stored_at(out, from + (many - 1 - j));
        stores::store(out, at + j, turn(l, m, number));
    }
}
