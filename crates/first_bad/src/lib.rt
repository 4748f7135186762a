// The first bad rail and the first bad carrier of a list: refusals 2, 5 and 6. The good rails go into the table of joined bays.
#![tactic(auto)]

ghost use Rattle.std.specs.Prelude.{◌≡◌, false, [], ℕ, ◌+◌, ◌*◌, ◌≤◌, ◌<◌, length, eqb, leb};
ghost use Rattle.paper.specs.Basics.{◌or◌, first_bad};
ghost use Rattle.paper.specs.Limits.{most_bays};
ghost use Rattle.paper.specs.Docket.{bad_place};
ghost use Rattle.words.specs.Sets.{mem, mem_row, words, span};
ghost use Rattle.first_bad.specs.Finding.{Finds, Lays};

use words::{SPAN, WORDS};

// The words of a table with a row for each bay.
pub const TABLE: usize = SPAN * WORDS;

// Refusal 2 for a rail from a to b, beside those that the table holds.
fn is_bad(n: usize, table: &[u64], a: usize, b: usize) -> bool
    requires { (n ≤ most_bays) × (n * words ≤ length table.now) }
    ensures { result ≡ leb n a or leb n b or eqb a b or mem_row table.now a b }
{
    n <= a || n <= b || a == b || words::is_in(table, a * SPAN + b)
}

// The rail goes into the table, in both directions.
fn lay(table: &mut [u64], a: usize, b: usize)
    requires { (a < most_bays)
        × (b < most_bays)
        × (a * words + words ≤ length table.old)
        × (b * words + words ≤ length table.old) }
    ensures { (x : ℕ) → mem table.new x ≡ mem table.old x or eqb x (a * span + b) or eqb x (b * span + a) }
{
    words::add(table, a * SPAN + b);
    words::add(table, b * SPAN + a);
}

// The first bad rail. Each good one goes into the table, which has a row for each of the n bays, and the next is tested against the table.
pub fn bad_rail(n: usize, rails: &[u16], table: &mut [u64]) -> Option<usize>
    requires { (n ≤ most_bays) × (n * words ≤ length table.old) × ((x : ℕ) → mem table.old x ≡ false) }
    ensures { Lays n rails.now table.new result }
{
    for i in 0..rails.len() / 2 {
        let a = rails[2 * i] as usize;
        let b = rails[2 * i + 1] as usize;
        if is_bad(n, table, a, b) {
            return Some(i);
        }
        lay(table, a, b);
    }
    None
}

// The first carrier whose bay is n or more, or is used already. Each bay has a byte of its own, so that no carrier waits for the one before it.
pub fn bad_place(n: usize, place: &[u16]) -> Option<usize>
    requires { n ≤ most_bays }
    ensures { Finds (first_bad (bad_place n) 0 [] place.now) (length place.now) result }
{
    let mut used = [0u8; SPAN];
    for (c, bay) in place.iter().enumerate() {
        let b = *bay as usize;
        if n <= b || used[b] == 1 {
            return Some(c);
        }
        used[b] = 1;
    }
    None
}
