// A line of the timed print: the slot's time, and then the crossing as in the plain print.
#![tactic(auto)]

ghost use Rattle.std.specs.Prelude.{◌≡◌, ◌∷◌, [], ◌+◌, ◌-◌, ◌<◌, ◌^◌};
ghost use Rattle.paper.specs.Print.{ended};
ghost use Rattle.docket.specs.Reading.{crossing_of};
ghost use Rattle.stores.specs.Writing.{Wrote};
ghost use Rattle.trains.specs.Print.{timed_line};

use docket::Crossing;

// The time of a slot: slots count from 1, times from 0.
fn time_of(slot: u32) -> u64
    ensures value { result ≡ slot - 1 }
    ensures small { result < 4294967296 }
{
    if slot == 0 {
        return 0;
    }
    (slot - 1) as u64
}

// A crossing's line.
pub fn line(out: &mut [u8], at: usize, slot: u32, x: Crossing) -> usize
    requires { at + 200 < 2 ^ 63 }
    ensures { Wrote out.old at (ended (timed_line slot (crossing_of x) ∷ [])) out.new result }
{
    let time = put_bytes::put_number(out, at, time_of(slot));
    let carrier = put_bytes::put_named(out, time, b": (move c", x.carrier.0 as u64);
    let from = put_bytes::put_named(out, carrier, b" b", x.from.0 as u64);
    let to = put_bytes::put_named(out, from, b" b", x.to.0 as u64);
    put_bytes::put_text(out, to, b") [1]\n")
}
