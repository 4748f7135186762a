// The lowest bay that is not reached from bay 0: refusal 3.
#![tactic(auto)]

ghost use Rattle.std.specs.Prelude.{◌≡◌, [], ◌∷◌, ◌*◌, ◌^◌, ◌≤◌, ◌<◌, length};
ghost use Rattle.paper.specs.Limits.{most_bays};
ghost use Rattle.paper.specs.Yard.{Yard};
ghost use Rattle.paper.specs.Docket.{apart_bay};
ghost use Rattle.words.specs.Sets.{words, span, Beside};
ghost use Rattle.first_bad.specs.Table.{Table};
ghost use Rattle.first_bad.specs.Finding.{Finds};
ghost use Rattle.apart.specs.Reaching.{Closed, FirstWords, Reaches};

use words::{SPAN, WORDS};

// The bays that are reached from bay 0, ring by ring: n rings are enough, and after an empty one there is no other.
fn reach(n: usize, table: &[u64], seen: &mut [u64])
    requires { (0 < n) × (n ≤ most_bays) × Closed n table.now × (length seen.old ≡ words) }
    ensures { Reaches n table.now seen.new }
{
    let mut ring = [0u64; WORDS];
    words::clear(seen);
    words::add(seen, 0);
    words::add(&mut ring, 0);
    for _ in 0..n {
        if words::next_from(&ring, 0) == SPAN {
            return;
        }
        let mut next = [0u64; WORDS];
        words::beside(table, &ring, &mut next);
        words::settle(&next, seen, &mut ring);
    }
}

// The bays that one word holds.
const NARROW: usize = SPAN / WORDS;

// The bays that stand in the rows of a word's bays, where each row has all its bays in its first word.
fn beside_word(table: &[u64], ring: u64) -> u64
    requires { FirstWords table.now (ring ∷ []) }
    ensures { Beside table.now (ring ∷ []) (result ∷ []) span }
{
    let mut next: u64 = 0;
    let mut left = ring;
    while left != 0 {
        let a = left.trailing_zeros() as usize;
        next |= table[a * WORDS];
        left &= left - 1;
    }
    next
}

// As `reach`, in one word.
fn reach_word(n: usize, table: &[u64]) -> u64
    requires { (0 < n) × (n * words ≤ span) × Closed n table.now }
    ensures { Reaches n table.now (result ∷ []) × (result < 2 ^ 64) }
{
    let mut seen: u64 = 1;
    let mut ring: u64 = 1;
    for _ in 0..n {
        if ring == 0 {
            return seen;
        }
        let next = beside_word(table, ring);
        ring = next & !seen;
        seen |= ring;
    }
    seen
}

// As `lowest_apart`, in one word.
fn narrow_apart(n: usize, table: &[u64]) -> Option<usize>
    requires { (0 < n) × (n * words ≤ span) × Closed n table.now }
    ensures { (Y : Yard) → Table Y n table.now → Finds (apart_bay Y) n result }
{
    let seen = reach_word(n, table);
    let first = (!seen).trailing_zeros() as usize;
    if first < n {
        return Some(first);
    }
    None
}

// The lowest bay that is not reached from bay 0: of all that a set can hold, the reached ones are taken away.
pub fn lowest_apart(n: usize, table: &[u64]) -> Option<usize>
    requires { (0 < n) × (n ≤ most_bays) × Closed n table.now }
    ensures { (Y : Yard) → Table Y n table.now → Finds (apart_bay Y) n result }
{
    if n <= NARROW {
        return narrow_apart(n, table);
    }
    let mut seen = [0u64; WORDS];
    reach(n, table, &mut seen);
    let mut left = [u64::MAX; WORDS];
    words::minus(&mut left, &seen);
    let lowest = words::next_from(&left, 0);
    if lowest < n {
        return Some(lowest);
    }
    None
}
