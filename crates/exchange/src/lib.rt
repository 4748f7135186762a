// Exchange: leader and follower trade places around a junction, by six crossings, which are only written down here. They go to the lent
// list where it has room.
#![tactic(auto)]

ghost use Rattle.std.specs.Prelude.{[], ◌∷◌, ◌+◌, ◌<◌};
ghost use Rattle.paper.specs.Yard.{crossing};
ghost use Rattle.moving.specs.Bounds.{room_crossing};
ghost use Rattle.exchange.specs.Exchanging.{Noted, exchanges};

use docket::{Bay, Carrier, Crossing};

// The crossing of carrier c goes to its place in the list where the list is so long; answers the next place.
fn note(out: &mut [u64], at: usize, c: Carrier, from: Bay, to: Bay) -> usize
    requires { at < room_crossing }
    ensures { Noted (crossing c.0 from.0 to.0 ∷ []) out.old at out.new result }
{
    let x = Crossing {
        carrier: c,
        from,
        to,
    };
    moving::store(out, at, docket::pack(x))
}

// Exchange: l v→x, m b→v, m v→y, l x→v, l v→b, m y→v.
pub fn exchange(
    out: &mut [u64],
    at: usize,
    l: Carrier,
    m: Carrier,
    v: Bay,
    b: Bay,
    x: Bay,
    y: Bay,
) -> usize
    requires { at + 6 < room_crossing }
    ensures { Noted (exchanges l.0 m.0 v.0 b.0 x.0 y.0) out.old at out.new result }
{
    let second = note(out, at, l, v, x);
    let third = note(out, second, m, b, v);
    let fourth = note(out, third, m, v, y);
    let fifth = note(out, fourth, l, x, v);
    let sixth = note(out, fifth, l, v, b);
    note(out, sixth, m, y, v)
}
