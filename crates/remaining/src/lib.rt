// The crossings that are still in the plan: counted, and written where the lent list has room for them.
#![tactic(auto)]

ghost use Rattle.std.specs.Prelude.{◌≡◌, ◌++◌, ◌≤◌, eqb, count_by, length, drop};
ghost use Rattle.paper.specs.Yard.{crossings, most_crossings};
ghost use Rattle.trips.specs.Trips.{shorten as shorten_of};
ghost use Rattle.trips.specs.Names.{left};
ghost use Rattle.remaining.specs.Statements.{WriteAsks, RoomSays};

use docket::Refusal;

// How many crossings are still in the plan.
fn count_left(gone: &[u8]) -> usize
    ensures { result ≡ count_by (λ byte. eqb byte 0) gone.now }
{
    let mut n = 0;
    for byte in gone {
        n += usize::from(*byte == 0);
    }
    n
}

// What is still in the plan, into the first places of `out`; what stands beyond stays. Every crossing is written, and the next one over it where it is
// dropped: that takes no branch. It ends once all are written, so that nothing is written beyond them.
fn write_left(plan: &[u64], gone: &[u8], out: &mut [u64], count: usize)
    requires { WriteAsks plan.now gone.now out.old count }
    ensures { out.new ≡ left gone.now plan.now ++ drop (length (left gone.now plan.now)) out.old }
{
    // A `for` over the plan is no plainer: it would need a second test, for the end of what is written.
    let mut n = 0;
    let mut m = 0;
    while n < count {
        out[n] = plan[m];
        n += usize::from(gone[m] == 0);
        m += 1;
    }
}

// 8 where the shorter plan is longer than the lent list; else it is written.
pub fn finish(plan: &[u64], gone: &[u8], out: &mut [u64]) -> Result<u64, Refusal>
    requires { (length gone.now ≡ length plan.now)
        × (left gone.now (crossings plan.now) ≡ shorten_of (crossings plan.now))
        × (length plan.now ≤ most_crossings) }
    ensures { RoomSays plan.now out.old result out.new }
{
    let count = count_left(gone);
    if out.len() < count {
        return Err(Refusal::Room(count as u64));
    }
    write_left(plan, gone, out, count);
    Ok(count as u64)
}
