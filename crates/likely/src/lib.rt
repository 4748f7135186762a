// How much room a plan is likely to need, by the yard's numbers, its junctions and the carriers. No answer depends on it: it tells in which room the
// procedure is played first. The numbers were found on random orders in yards of 16 to 256 bays.
#![tactic(auto)]

ghost use Rattle.std.specs.Prelude.{◌≡◌, true, ◌+◌, ◌≤◌, ◌<◌};
ghost use Rattle.paper.specs.Limits.{most_bays, most_crossings};

use play::DENSE;
use yard::Yard;

// A yard of fewer bays seldom needs more than the least room.
const SMALL: usize = 24;

// More than any yard has.
const MANY: usize = Yard::BAYS + 1;

// How many junctions a yard has, if no bay has more than three rails: then it is a line with sidings, a comb, a ring. Else MANY, as in a small yard, where nobody asks.
pub fn junctions_if_thin(table: &[u64; Yard::TABLE], yard: Yard) -> usize
    ensures { result ≤ most_bays + 1 }
{
    let n = yard.bays;
    if Yard::BAYS < n {
        return MANY;
    }
    if 3 * n <= yard.ends {
        return MANY;
    }
    if n < SMALL {
        return MANY;
    }
    let mut junctions = 0;
    for a in 0..n {
        let rails = choice::count_rails(table, a);
        if 3 < rails {
            return MANY;
        }
        junctions += usize::from(rails == 3);
    }
    junctions
}

// Whether a carrier needs no more than so many sixteenths of a crossing in a yard where no bay has more than three rails. Around a ring it goes half the way
// at most. Elsewhere carriers pass each other at the junctions alone: the more there are for each junction, the longer they go back and forth.
fn thin_needs(each: usize, yard: Yard, junctions: usize, carriers: usize) -> bool
    requires { (yard.bays ≤ most_bays) × (junctions ≤ most_bays) × (carriers < yard.bays) }
{
    let n = yard.bays;
    if junctions == 0 {
        return n * 8 + 32 <= each;
    }
    if carriers * 8 <= junctions * 5 {
        return n * 12 <= each;
    }
    if carriers * 8 <= junctions * 7 {
        return n * 20 <= each;
    }
    // With many more carriers than junctions, and no ring, the procedure soon stops.
    if yard.ends < 2 * n {
        if junctions + junctions / 8 + 4 < carriers {
            return true;
        }
    }
    n * 48 <= each
}

// The same in any other yard. The crowd counts, which is how many bays there are for each empty one; on a grid the side too, for which a straight line stands
// from 5 to 17. In a dense yard no bay is far, and a carrier seldom needs more than 40 crossings. Between a tree and a grid, as on a grid with walls, a carrier
// has a long way. With few rails and few empty bays the procedure soon stops.
fn broad_needs(each: usize, yard: Yard, carriers: usize) -> bool
    requires { (yard.bays ≤ most_bays) × (carriers < yard.bays) }
{
    let n = yard.bays;
    let ends = yard.ends;
    let empty = n - carriers;
    if n <= ends / DENSE {
        if 640 <= each {
            return true;
        }
        return (empty * 64 + n * 24) / empty <= each;
    }
    if 3 * n <= ends {
        return (empty * 20 + n * 12) / empty <= each / (n / 20 + 5);
    }
    if ends < 2 * n {
        if empty <= n / 32 + 2 {
            return true;
        }
        return (n * 290 + empty * 48) / empty <= each;
    }
    if empty <= Yard::KEPT_EMPTY {
        return true;
    }
    (n * 800 - empty * 300) / empty <= each
}

// Whether room for so many crossings is likely to hold the plan, or none is needed. More than a plan may have always is.
pub fn holds(room: usize, yard: Yard, junctions: usize, carriers: usize) -> bool
    ensures { most_crossings < room → result ≡ true }
{
    if Yard::CROSSINGS < room {
        return true;
    }
    if yard.bays < SMALL {
        return true;
    }
    if Yard::BAYS < yard.bays {
        return false;
    }
    if yard.bays <= carriers {
        return false;
    }
    let each = room * 16 / (carriers + 1);
    if Yard::BAYS < junctions {
        return broad_needs(each, yard, carriers);
    }
    thin_needs(each, yard, junctions, carriers)
}
