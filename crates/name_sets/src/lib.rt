// Sets of names as 64-bit words, as long as the plan needs: the lowest name from one on.
#![tactic(auto)]

ghost use Rattle.std.specs.Prelude.{ℕ, ◌+◌, ◌*◌, ◌^◌, ◌≤◌, ◌<◌, ◌≡◌, length};
ghost use Rattle.words.specs.Sets.{mem, Lowest};

// The lowest name of the set from a on; one past all that the words hold where there is none.
pub fn next_name(ws: &[u64], a: usize) -> usize
    requires { (64 * length ws.now < 2 ^ 32) × (a ≤ 64 * length ws.now) }
    ensures { Lowest (mem ws.now) a (64 * length ws.now) result }
{
    let mut s = a % 64;
    for i in a / 64..ws.len() {
        let rest = ws[i] >> s;
        if rest != 0 {
            return i * 64 + s + rest.trailing_zeros() as usize;
        }
        s = 0;
    }
    ws.len() * 64
}
