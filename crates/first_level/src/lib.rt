// The levels of a table are read from the lowest on, until one has what is looked for.
#![tactic(auto)]

ghost use Rattle.std.specs.Prelude.{◌≡◌, ◌≤◌, ◌<◌, length};
ghost use Rattle.words.specs.Sets.{words, span};
ghost use Rattle.first_level.specs.Reading.{FirstLevel};

use docket::Bay;

// The first level whose row for x has one of the bays; the number of levels where none has.
pub fn first_level(table: &[u64], n: usize, x: Bay, bays: &[u64]) -> usize
    requires { (n ≤ span) × (x.0 < n) × (length bays.now ≡ words) }
    ensures { FirstLevel n table.now x.0 bays.now result }
{
    let middle = x.0 as usize;
    let mut j = 0;
    // A `for` over the levels has to divide the table's length by a level's first. That was tried and is slower: 27 ns a call, against 24.
    while (j + 1) * n * words::WORDS <= table.len() {
        if words::meets(table, j * n + middle, bays, 0) {
            return j;
        }
        j += 1;
    }
    j
}
