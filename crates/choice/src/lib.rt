// The choice among bays that are equally near: the one with fewest rails, and only then the lowest number. Every search for the nearest empty bay
// takes its answer from here.
#![tactic(auto)]

ghost use Rattle.std.specs.Prelude.{◌≡◌, not, ℕ, ◌+◌, ◌*◌, ◌≤◌, ◌<◌, length};
ghost use Rattle.paper.specs.Basics.{◌and◌};
ghost use Rattle.words.specs.Sets.{mem, mem_row, words, span};
ghost use Rattle.choice.specs.Taking.{rails, Rowed, Taken, SeveralAsks, FreeAsks};

// How many rails lead to bay a.
pub fn count_rails(table: &[u64], a: usize) -> u64
    requires { a * words + words ≤ length table.now }
    ensures { result ≡ rails table.now a }
{
    let from = a * words::WORDS;
    words::count(&table[from..from + words::WORDS])
}

// The choice among the bays of the set, of which the two lowest are given. They come rising, so a later bay is taken only if it has fewer rails.
fn of_several(table: &[u64], set: &[u64], first: usize, second: usize) -> usize
    requires { SeveralAsks table.now set.now first second }
    ensures { Taken table.now (mem set.now) result }
{
    let mut best = first;
    let mut fewest = count_rails(table, first);
    let mut x = second;
    while x < words::SPAN {
        let here = count_rails(table, x);
        if here < fewest {
            fewest = here;
            best = x;
        }
        x = words::next_from(set, x + 1);
    }
    best
}

// The choice among the bays of the set; SPAN where there is none. Of a single bay no rails are counted.
fn of_set(table: &[u64], set: &[u64]) -> usize
    requires { (length set.now ≡ words) × Rowed table.now (mem set.now) }
    ensures { Taken table.now (mem set.now) result }
{
    let first = words::next_from(set, 0);
    if words::SPAN <= first {
        return first;
    }
    let second = words::next_from(set, first + 1);
    if words::SPAN <= second {
        return first;
    }
    of_several(table, set, first, second)
}

// The bays that are in row a of s and in row b of t.
fn meet_rows(s: &[u64], a: usize, t: &[u64], b: usize, both: &mut [u64])
    requires { (a * words + words ≤ length s.now) × (b * words + words ≤ length t.now) × (length both.old ≡ words) }
    ensures { (x : ℕ) → x < span → mem both.new x ≡ mem_row s.now a x and mem_row t.now b x }
{
    for i in 0..words::WORDS {
        both[i] = s[a * words::WORDS + i] & t[b * words::WORDS + i];
    }
}

// The choice among the bays that are in row a of s and in row b of t; SPAN where there is none. Mostly there is none, which all words together tell
// sooner than one after the other.
pub fn common(table: &[u64], s: &[u64], a: usize, t: &[u64], b: usize) -> usize
    requires { (a * words + words ≤ length s.now) × (b * words + words ≤ length t.now) × Rowed table.now (λ x. mem_row s.now a x and mem_row t.now b x) }
    ensures { Taken table.now (λ x. mem_row s.now a x and mem_row t.now b x) result }
{
    if !words::meets(s, a, t, b) {
        return words::SPAN;
    }
    let mut both = [0u64; words::WORDS];
    meet_rows(s, a, t, b, &mut both);
    of_set(table, &both)
}

// The choice among the wanted bays of a ring, which is row d; SPAN where there is none.
pub fn in_ring(table: &[u64], rows: &[u64], d: usize, wanted: &[u64]) -> usize
    requires { (d * words + words ≤ length rows.now)
        × (length wanted.now ≡ words)
        × Rowed table.now (λ x. mem_row rows.now d x and mem_row wanted.now 0 x) }
    ensures { Taken table.now (λ x. mem_row rows.now d x and mem_row wanted.now 0 x) result }
{
    common(table, rows, d, wanted, 0)
}

// The choice among the bays of row a of the table that are wanted and not held; SPAN where there is none.
pub fn free(table: &[u64], a: usize, wanted: &[u64], held: &[u64]) -> usize
    requires { FreeAsks table.now a wanted.now held.now }
    ensures { Taken table.now (λ b. mem_row table.now a b and (mem wanted.now b and not (mem held.now b))) result }
{
    let mut left = [0u64; words::WORDS];
    words::keep(&mut left, 0, wanted);
    words::minus(&mut left, held);
    common(table, table, a, &left, 0)
}
