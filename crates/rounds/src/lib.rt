// A search from a bay, round after round: the bays of a queue lead to the next ring, which is also told as a set.
#![tactic(auto)]

ghost use Rattle.rounds.specs.Rounds.{RingAsks, RingSays};

// The bays of the queue from `start` to `count` are passed: what they lead to goes to its end, and is the ring then.
pub fn next_ring(
    table: &[u64],
    n: usize,
    start: usize,
    count: usize,
    seen: &mut [u64],
    ring: &mut [u64],
    met: &mut [u16],
    before: &mut [u16],
) -> usize
    requires { RingAsks n start count table.now seen.old ring.old met.old before.old }
    ensures { RingSays n start count table.now seen.old met.old before.old
        seen.new ring.new met.new before.new result }
{
    let mut last = [0u64; words::WORDS];
    words::keep(&mut last, 0, seen);
    let end = queue::pass(table, n, start, count, seen, met, before);
    words::keep(ring, 0, seen);
    words::minus(ring, &last);
    end
}
