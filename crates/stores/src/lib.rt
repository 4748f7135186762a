// Storing into lent lists: what fits is stored and what does not is left out, so that a writer can count on past the end and its
// caller learns how much room it takes.
#![tactic(auto)]

ghost use Rattle.std.specs.Prelude.{◌≡◌, set};

// A byte, or a number of any width.
pub fn store<T: Copy>(out: &mut [T], at: usize, x: T)
    ensures { out.new ≡ set out.old at x }
{
    if at < out.len() {
        out[at] = x;
    }
}
