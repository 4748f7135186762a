// Playing a plan backwards: the crossings in reverse order, from and to exchanged, for lists of any content.
#![tactic(auto)]

ghost use Rattle.std.specs.Prelude.{◌≡◌, ◌++◌, ◌≤◌, length, drop};
ghost use Rattle.paper.specs.Yard.{pack as packed, turned as turned_of, unpack as unpacked};
ghost use Rattle.reversing.specs.Reversing.{reversed};
ghost use Rattle.reversing.specs.Statement.{ReverseSays};

use docket::{Crossing, Refusal};

// The number of the crossing with from and to exchanged. The carrier stays, whatever its number.
fn turned(number: u64) -> u64
    ensures { result ≡ packed (turned_of (unpacked number)) }
{
    let x = docket::unpack(number);
    docket::pack(Crossing {
        carrier: x.carrier,
        from: x.to,
        to: x.from,
    })
}

// The reverse of the list, to the first places of `out`.
fn write(list: &[u64], out: &mut [u64])
    requires { length list.now ≤ length out.old }
    ensures { out.new ≡ reversed list.now ++ drop (length list.now) out.old }
{
    for i in 0..list.len() {
        out[i] = turned(list[list.len() - 1 - i]);
    }
}

// The reverse of a list of any content, to the first places of `out`: its length, or 1, or 8 with the length that is needed.
pub fn reverse(list: &[u64], out: &mut [u64]) -> Result<u64, Refusal>
    ensures { ReverseSays list.now out.old result out.new }
{
    if list.len() > paper::CROSSINGS {
        return Err(Refusal::Size);
    }
    if out.len() < list.len() {
        return Err(Refusal::Room(list.len() as u64));
    }
    write(list, out);
    Ok(list.len() as u64)
}
