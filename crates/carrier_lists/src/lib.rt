// The carriers of a scenario, as they are counted and stored: none before the version, no 255th, and each with its start and goal at its number's
// place in the two lent lists.
#![tactic(auto)]

ghost use Rattle.std.specs.Prelude.{◌≡◌};
ghost use Rattle.carrier_lists.specs.Counting.{count_in, kept};

// The carriers of the largest yard, as a count of lines.
pub const MOST: u16 = paper::CARRIERS as u16;

// How many carriers a state has read: none before the version, and at most MOST, whatever it says.
pub fn counted(version: bool, count: u16) -> u16
    ensures { result ≡ count_in version count }
{
    if version {
        return 0;
    }
    if count < MOST { count } else { MOST }
}

// The carrier that was read last, where there is one more than before.
pub fn keep(before: u16, count: u16, start: u16, goal: u16, starts: &mut [u16], goals: &mut [u16])
    ensures { (starts.new ≡ kept before count start starts.old) × (goals.new ≡ kept before count goal goals.old) }
{
    if count == before {
        return;
    }
    let at = before as usize;
    stores::store(starts, at, start);
    stores::store(goals, at, goal);
}
