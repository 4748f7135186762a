// A lent plan played from a placement, crossing by crossing, each tested in constant time: the table of joined bays for the rail,
// a mark for each occupied bay for the bay that it enters, the placement for the rest. Each bay has a byte of its own, so that no crossing
// waits for the one before it, as it would where many bays share a word.
#![tactic(auto)]

ghost use Rattle.std.specs.Prelude.{◌≡◌, [], ℕ, ◌≤◌, ◌<◌, length, get_or};
ghost use Rattle.paper.specs.Yard.{crossings};
ghost use Rattle.paper.specs.Docket.{not_home};
ghost use Rattle.docket.specs.Reading.{crossing_of};
ghost use Rattle.words.specs.Sets.{span};
ghost use Rattle.replay.specs.Playing.{Occupied, InRows, Judged, PlayedFrom, legal_to, legality_of, away_of};

use docket::{Carrier, Crossing};
use words::SPAN;

// Whether a crossing is legal at the placement. No rail leads to a bay that has no row in the table. Where the rows are as few as a word holds
// bays, the compiler sees that their first words are enough.
fn is_legal(table: &[u64], rows: usize, at: &[u16], occupied: &[u8; SPAN], x: Crossing) -> bool
    requires { InRows rows table.now at.now }
    ensures { Judged rows table.now at.now occupied.now (crossing_of x) result }
{
    let carrier = x.carrier.0 as usize;
    if at.len() <= carrier {
        return false;
    }
    if at[carrier] != x.from.0 {
        return false;
    }
    let from = x.from.0 as usize;
    let to = x.to.0 as usize;
    if rows <= to {
        return false;
    }
    if !words::is_in(table, from * SPAN + to) {
        return false;
    }
    occupied[to] != 1
}

// Plays the plan as far as it is legal, and returns how many crossings that is. The answer is the loop's own count, so that nothing is kept ready at each
// crossing for the way out.
fn play_legal(
    table: &[u64],
    rows: usize,
    at: &mut [u16],
    occupied: &mut [u8; SPAN],
    plan: &[u64],
) -> usize
    requires { InRows rows table.now at.old }
    ensures { PlayedFrom rows table.now at.old occupied.old (crossings plan.now)
        (legal_to result (length plan.now)) at.new }
{
    for i in 0..plan.len() {
        let x = plans::crossing_at(plan, i);
        if !is_legal(table, rows, at, occupied, x) {
            return i;
        }
        let carrier = x.carrier.0 as usize;
        let from = x.from.0 as usize;
        let to = x.to.0 as usize;
        at[carrier] = x.to.0;
        occupied[from] = 0;
        occupied[to] = 1;
    }
    plan.len()
}

// Plays the plan as far as it is legal, by a table with so many rows.
pub fn play(
    table: &[u64],
    rows: usize,
    at: &mut [u16],
    occupied: &mut [u8; SPAN],
    plan: &[u64],
) -> Result<(), u64>
    requires { InRows rows table.now at.old }
    ensures { PlayedFrom rows table.now at.old occupied.old (crossings plan.now) (legality_of result) at.new }
{
    let legal = play_legal(table, rows, at, occupied, plan);
    if legal < plan.len() {
        return Err(legal as u64);
    }
    Ok(())
}

// The marks of the bays of a placement, where none is marked yet.
pub fn occupy(at: &[u16], occupied: &mut [u8; SPAN])
    requires { ((c : ℕ) → c < length at.now → get_or at.now c 0 < span) × Occupied [] occupied.old }
    ensures { Occupied at.now occupied.new }
{
    for bay in at {
        occupied[*bay as usize] = 1;
    }
}

// The lowest carrier that is not at its goal.
pub fn lowest_away(at: &[u16], goal: &[u16]) -> Option<Carrier>
    requires { (length at.now ≡ length goal.now) × (length goal.now ≤ span) }
    ensures { away_of result ≡ not_home goal.now at.now }
{
    for c in 0..goal.len() {
        if at[c] != goal[c] {
            return Some(Carrier(c as u32));
        }
    }
    None
}
