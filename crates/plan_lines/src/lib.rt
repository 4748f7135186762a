// The lines of a print: a crossing's, and the comment behind them.
#![tactic(auto)]

ghost use Rattle.std.specs.Prelude.{◌∷◌, [], ◌+◌, ◌<◌, ◌^◌};
ghost use Rattle.paper.specs.Print.{action_line, cost_line, ended};
ghost use Rattle.docket.specs.Reading.{crossing_of};
ghost use Rattle.stores.specs.Writing.{Wrote};

use docket::Crossing;

// A crossing's line.
pub fn action(out: &mut [u8], at: usize, x: Crossing) -> usize
    requires { at + 100 < 2 ^ 63 }
    ensures { Wrote out.old at (ended (action_line (crossing_of x) ∷ [])) out.new result }
{
    let carrier = put_bytes::put_named(out, at, b"(move c", x.carrier.0 as u64);
    let from = put_bytes::put_named(out, carrier, b" b", x.from.0 as u64);
    let to = put_bytes::put_named(out, from, b" b", x.to.0 as u64);
    put_bytes::put_text(out, to, b")\n")
}

// The comment behind the actions.
pub fn cost(out: &mut [u8], at: usize, n: u64) -> usize
    requires { at + 100 < 2 ^ 63 }
    ensures { Wrote out.old at (ended (cost_line n ∷ [])) out.new result }
{
    let end = put_bytes::put_named(out, at, b"; cost = ", n);
    put_bytes::put_text(out, end, b" (unit cost)\n")
}
