// The queue of a search, in which bays are met one by one: each stands in it from when it was met, with the bay from which it was. A ring of
// bays is passed at once, and the path to a bay is read back from it.
#![tactic(auto)]

ghost use Rattle.std.specs.Prelude.{◌≡◌, [], ◌+◌, take};
ghost use Rattle.queue.specs.Meeting.{in_word, new_in, new, Queued, Meets, EnqueueAsks, MeetWordAsks, MeetAsks, back};
ghost use Rattle.queue.specs.Queue.{PassAsks, PassSays, TraceAsks};

// The bays of word i go to the queue's end, rising, as met from a.
fn enqueue(i: usize, word: u64, a: u16, met: &mut [u16], before: &mut [u16], count: usize) -> usize
    requires { EnqueueAsks i word met.old before.old count }
    ensures { Queued (in_word i word) a count met.old before.old met.new before.new result }
{
    let mut left = word;
    let mut c = count;
    // Each turn takes the lowest bit off the word: a `for` would count the bits first.
    while left != 0 {
        let y = i * 64 + u64::trailing_zeros(left) as usize;
        left = left & (left - 1);
        before[y] = a;
        met[c] = y as u16;
        c += 1;
    }
    c
}

// The new bays of word i that a leads to.
fn meet_word(
    table: &[u64],
    a: u16,
    i: usize,
    seen: &mut [u64],
    met: &mut [u16],
    before: &mut [u16],
    count: usize,
) -> usize
    requires { MeetWordAsks table.now a i seen.old met.old before.old count }
    ensures { Meets (new_in table.now seen.old a i) a count seen.old met.old before.old
        seen.new met.new before.new result }
{
    let word = table[a as usize * words::WORDS + i] & !seen[i];
    if word == 0 {
        return count;
    }
    seen[i] = seen[i] | word;
    enqueue(i, word, a, met, before, count)
}

// All new bays that a leads to.
fn meet(
    table: &[u64],
    a: u16,
    seen: &mut [u64],
    met: &mut [u16],
    before: &mut [u16],
    count: usize,
) -> usize
    requires { MeetAsks (new table.now seen.old a) table.now a seen.old met.old before.old count }
    ensures { Meets (new table.now seen.old a) a count seen.old met.old before.old
        seen.new met.new before.new result }
{
    let mut c = count;
    for i in 0..words::WORDS {
        c = meet_word(table, a, i, seen, met, before, c);
    }
    c
}

// The bays of the queue from `start` to `count` are passed: what they lead to, the next ring, goes to its end.
pub fn pass(
    table: &[u64],
    n: usize,
    start: usize,
    count: usize,
    seen: &mut [u64],
    met: &mut [u16],
    before: &mut [u16],
) -> usize
    requires { PassAsks n table.now start count seen.old met.old before.old }
    ensures { PassSays n table.now start count seen.old met.old before.old
        seen.new met.new before.new result }
{
    let mut c = count;
    for done in start..count {
        c = meet(table, met[done], seen, met, before, c);
    }
    c
}

// The path to e, d rails long, is read from its end.
pub fn trace(before: &[u16], e: usize, d: usize, path: &mut [u16])
    requires { TraceAsks before.now e d path.old }
    ensures { take (d + 1) path.new ≡ back before.now d e [] }
{
    let mut u = e;
    for i in (0..d).rev() {
        path[i + 1] = u as u16;
        u = before[u] as usize;
    }
    path[0] = u as u16;
}
