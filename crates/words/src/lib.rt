// Sets of bays as 64-bit words, and tables with a set in each row. A set has any count of words; a row has WORDS.
#![tactic(auto)]

ghost use Rattle.std.specs.Prelude.{◌≡◌, true, false, not, ℕ, ◌+◌, ◌-◌, ◌*◌, ◌/◌, ◌^◌, ◌≤◌, ◌<◌, length, eqb};
ghost use Rattle.std.specs.Int.Count.{count_trailing_zeros};
ghost use Rattle.paper.specs.Basics.{◌and◌, ◌or◌};
ghost use Rattle.words.specs.Sets.{mem, mem_row, members, words, span, bit_of, any_below, Lowest, Settled, Kept, Beside};

// The words of a row, and the bays that they hold.
pub const WORDS: usize = paper::WORDS;

pub const SPAN: usize = paper::BAYS;

// Nothing is in the set any more.
pub fn clear(ws: &mut [u64])
    ensures { (x : ℕ) → mem ws.new x ≡ false }
{
    ws.fill(0);
}

// Bay x joins the set.
pub fn add(ws: &mut [u64], x: usize)
    requires { x / 64 < length ws.old }
    ensures { (y : ℕ) → mem ws.new y ≡ mem ws.old y or eqb y x }
{
    ws[x / 64] |= 1 << (x % 64);
}

// Bay x leaves the set.
pub fn remove(ws: &mut [u64], x: usize)
    requires { x / 64 < length ws.old }
    ensures { (y : ℕ) → mem ws.new y ≡ mem ws.old y and not (eqb y x) }
{
    ws[x / 64] &= !(1 << (x % 64));
}

// The bit of bay x, as it stands in word i.
fn bit_of(x: usize, i: usize) -> u64
    ensures { result ≡ bit_of x i }
{
    if x / 64 == i { 1 << (x % 64) } else { 0 }
}

// Bay x alone is in the set. Every word is made in turn: so the compiler holds a small set in registers, while one word written by its
// number keeps it in memory, and loading two words together waits for it.
pub fn alone(ws: &mut [u64], x: usize)
    requires { (length ws.old ≡ words) × (x < span) }
    ensures { (y : ℕ) → mem ws.new y ≡ eqb y x }
{
    for i in 0..WORDS {
        ws[i] = bit_of(x, i);
    }
}

// Bay x joins the set, word by word.
pub fn join(ws: &mut [u64], x: usize)
    requires { (length ws.old ≡ words) × (x < span) }
    ensures { (y : ℕ) → mem ws.new y ≡ mem ws.old y or eqb y x }
{
    for i in 0..WORDS {
        ws[i] |= bit_of(x, i);
    }
}

// Bay x leaves the set and y joins it, word by word.
pub fn replace(ws: &mut [u64], x: usize, y: usize)
    requires { (length ws.old ≡ words) × (x < span) × (y < span) }
    ensures { (b : ℕ) → mem ws.new b ≡ (mem ws.old b and not (eqb b x)) or eqb b y }
{
    for i in 0..WORDS {
        ws[i] = (ws[i] & !bit_of(x, i)) | bit_of(y, i);
    }
}

// Whether bay x is in the set.
pub fn is_in(ws: &[u64], x: usize) -> bool
    requires { x / 64 < length ws.now }
    ensures { result ≡ mem ws.now x }
{
    (ws[x / 64] >> (x % 64)) % 2 == 1
}

// The bays of b leave a.
pub fn minus(a: &mut [u64], b: &[u64])
    requires { length b.now ≡ length a.old }
    ensures { (x : ℕ) → mem a.new x ≡ mem a.old x and not (mem b.now x) }
{
    for i in 0..a.len() {
        a[i] &= !b[i];
    }
}

// How many bays are in the set.
pub fn count(ws: &[u64]) -> u64
    requires { 64 * length ws.now < 2 ^ 64 }
    ensures { result ≡ length (members ws.now) }
{
    let mut n = 0;
    for w in ws {
        n += u64::from(w.count_ones());
    }
    n
}

// The bays of row a of the table join the set.
pub fn join_row(acc: &mut [u64], table: &[u64], a: usize)
    requires { (length acc.old ≡ words) × (a * words + words ≤ length table.now) }
    ensures { (b : ℕ) → b < span → mem acc.new b ≡ mem acc.old b or mem_row table.now a b }
{
    for i in 0..WORDS {
        acc[i] |= table[a * WORDS + i];
    }
}

// The bays of next that are not seen yet are the ring, and are seen.
pub fn settle(next: &[u64], seen: &mut [u64], ring: &mut [u64])
    requires { (length next.now ≡ words) × (length seen.old ≡ words) × (length ring.old ≡ words) }
    ensures { Settled next.now seen.old seen.new ring.new }
{
    for i in 0..WORDS {
        let fresh = next[i] & !seen[i];
        seen[i] |= fresh;
        ring[i] = fresh;
    }
}

// Row d of the table becomes the ring.
pub fn keep(rows: &mut [u64], d: usize, ring: &[u64])
    requires { (length ring.now ≡ words) × (d * words + words ≤ length rows.old) }
    ensures { Kept rows.old d ring.now rows.new }
{
    for i in 0..WORDS {
        rows[d * WORDS + i] = ring[i];
    }
}

// The lowest bay of word i, if it has one.
fn lowest_of(i: usize, word: u64) -> usize
    requires { i < words }
    ensures { result ≡ i * 64 + count_trailing_zeros 64 word }
{
    i * 64 + word.trailing_zeros() as usize
}

// The lowest bay that is in row a of s and in row b of t; SPAN where there is none.
pub fn lowest_common(s: &[u64], a: usize, t: &[u64], b: usize) -> usize
    requires { (a * words + words ≤ length s.now) × (b * words + words ≤ length t.now) }
    ensures { Lowest (λ x. mem_row s.now a x and mem_row t.now b x) 0 span result }
{
    for i in 0..WORDS {
        let both = s[a * WORDS + i] & t[b * WORDS + i];
        if both != 0 {
            return lowest_of(i, both);
        }
    }
    SPAN
}

// Whether row a of s and row b of t have a bay in common. All words are read, which is sooner done than asking at each of them.
pub fn meets(s: &[u64], a: usize, t: &[u64], b: usize) -> bool
    requires { (a * words + words ≤ length s.now) × (b * words + words ≤ length t.now) }
    ensures { result ≡ any_below (λ x. mem_row s.now a x and mem_row t.now b x) span }
{
    let mut any = 0;
    for i in 0..WORDS {
        any |= s[a * WORDS + i] & t[b * WORDS + i];
    }
    any != 0
}

// Whether no bay is in the set.
pub fn is_empty(ws: &[u64]) -> bool
    requires { length ws.now ≡ words }
    ensures { result ≡ not (any_below (mem ws.now) span) }
{
    let mut any = 0;
    for i in 0..WORDS {
        any |= ws[i];
    }
    any == 0
}

// The lowest bay of row a of the table that is wanted and not held; SPAN where there is none.
pub fn lowest_free(table: &[u64], a: usize, wanted: &[u64], held: &[u64]) -> usize
    requires { (a * words + words ≤ length table.now) × (length wanted.now ≡ words) × (length held.now ≡ words) }
    ensures { Lowest (λ b. mem_row table.now a b and (mem wanted.now b and not (mem held.now b))) 0 span result }
{
    for i in 0..WORDS {
        let free = table[a * WORDS + i] & wanted[i] & !held[i];
        if free != 0 {
            return lowest_of(i, free);
        }
    }
    SPAN
}

// The lowest bay of the set from a on; SPAN where there is none.
pub fn next_from(ws: &[u64], a: usize) -> usize
    requires { (length ws.now ≡ words) × (a ≤ span) }
    ensures { Lowest (mem ws.now) a span result }
{
    let mut s = a % 64;
    for i in a / 64..WORDS {
        let rest = ws[i] >> s;
        if rest != 0 {
            return lowest_of(i, rest) + s;
        }
        s = 0;
    }
    SPAN
}

// The rows of the bays of word i join what is found; each time its lowest bit is taken off what is left of the word.
fn join_word(table: &[u64], set: &[u64], i: usize, found: &mut [u64])
    requires { (i < words)
        × (length set.now ≡ words)
        × (length found.old ≡ words)
        × ((a : ℕ) → a < span → mem set.now a ≡ true → a * words + words ≤ length table.now)
        × Beside table.now set.now found.old (i * 64) }
    ensures { Beside table.now set.now found.new (i * 64 + 64) }
{
    let mut left = set[i];
    while left != 0 {
        join_row(found, table, lowest_of(i, left));
        left &= left - 1;
    }
}

// The bays that stand in the rows of the set's members. They are gathered in an array of its own, which the compiler holds in registers. The set is
// asked for its length, so that the compiler keeps this short enough to put it into its callers.
pub fn beside(table: &[u64], set: &[u64], found: &mut [u64])
    requires { (length set.now ≡ words) × (length found.old ≡ words) × ((a : ℕ) → a < span → mem set.now a ≡ true → a * words + words ≤ length table.now) }
    ensures { Beside table.now set.now found.new span }
{
    let mut all = [0u64; WORDS];
    for i in 0..set.len() {
        join_word(table, set, i, &mut all);
    }
    keep(found, 0, &all);
}
