// The occupied bays of a placement as a set, and how many bays are empty.
#![tactic(auto)]

ghost use Rattle.std.specs.Prelude.{◌≡◌, ℕ, ◌≤◌, length, eqb, ltb};
ghost use Rattle.paper.specs.Basics.{◌and◌, ◌or◌};
ghost use Rattle.paper.specs.Limits.{most_bays};
ghost use Rattle.words.specs.Sets.{mem, words};
ghost use Rattle.occupancy.specs.Standing.{Occupies, Empty};

use words::WORDS;

// The set of occupied bays, of n.
fn occupied(n: usize, place: &[u16], set: &mut [u64])
    requires { (n ≤ most_bays) × (length set.old ≡ words) }
    ensures { Occupies n place.now set.new }
{
    words::clear(set);
    for bay in place {
        occupy(n, *bay as usize, set);
    }
}

// Bay b joins the set, if it is one of the n.
fn occupy(n: usize, b: usize, set: &mut [u64])
    requires { (n ≤ most_bays) × (length set.old ≡ words) }
    ensures { (x : ℕ) → mem set.new x ≡ mem set.old x or (ltb b n and eqb x b) }
{
    if b < n {
        words::add(set, b);
    }
}

// The empty bays are the n bays less the ones in the set of occupied bays. No yard that was opened has more than the limit.
pub fn empty_bays(n: usize, place: &[u16]) -> usize
    ensures { Empty n place.now result }
{
    if paper::BAYS < n {
        return 0;
    }
    let mut set = [0u64; WORDS];
    occupied(n, place, &mut set);
    n - words::count(&set) as usize
}
