// Levels above the rails: level after level, the table gets for each bay the bays at most so many rails away, one more at each level.
#![tactic(auto)]

ghost use Rattle.std.specs.Prelude.{◌≡◌, true, ℕ, ◌+◌, ◌≤◌, ◌<◌, length, get_or};
ghost use Rattle.levels.specs.Raising.{RowRaised, LevelRaised, RaiseRowAsks, RaiseLevelAsks, RaiseAsks, RaiseSays};

use words::WORDS;

// Row x of level j + 1: what level j has for x, and what it has for the neighbours of x.
fn raise_row(n: usize, table: &mut [u64], j: usize, x: usize)
    requires { RaiseRowAsks n table.old j x }
    ensures { RowRaised n j x table.old table.new }
{
    let mut near = [0u64; WORDS];
    let mut all = [0u64; WORDS];
    let from = j * n * WORDS;
    let own = j * n + x;
    words::join_row(&mut near, table, x);
    words::beside(&table[from..], &near, &mut all);
    words::join_row(&mut all, table, own);
    words::keep(table, own + n, &all);
}

// Level j + 1, from level j.
fn raise_level(n: usize, table: &mut [u64], j: usize)
    requires { RaiseLevelAsks n table.old j }
    ensures { LevelRaised n j n table.old table.new }
{
    for x in 0..n {
        raise_row(n, table, j, x);
    }
}

// Whether the `size` words from `at` on stand behind them once more.
fn stands_twice(table: &[u64], at: usize, size: usize) -> bool
    requires { at + size + size ≤ length table.now }
    ensures { result ≡ true → (i : ℕ) → i < size → get_or table.now (at + size + i) 0 ≡ get_or table.now (at + i) 0 }
{
    table[at..at + size] == table[at + size..at + size + size]
}

// Fills level after level above the rails, as far as the table goes or until a level adds nothing; answers how many levels there are.
pub fn raise(n: usize, table: &mut [u64]) -> usize
    requires { RaiseAsks n table.old }
    ensures { RaiseSays n table.old table.new result }
{
    let most = table.len() / (n * WORDS);
    for top in 1..most {
        raise_level(n, table, top - 1);
        if stands_twice(table, (top - 1) * n * WORDS, n * WORDS) {
            return top;
        }
    }
    most
}
