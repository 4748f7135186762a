// Whether nothing of a plan is done, by its marks.
#![tactic(auto)]

ghost use Rattle.std.specs.Prelude.{◌≡◌};
ghost use Rattle.begun.specs.Fresh.{any_set, is_fresh};

// Whether any mark is not 0. All marks are read, which is sooner done than asking at each of them. `mark_order::odd_mark` asks for marks over 1: one function
// with the bound as its argument would be no plainer.
fn any_set(marks: &[u8]) -> bool
    ensures { result ≡ any_set marks.now }
{
    let mut seen = false;
    for m in marks {
        seen |= *m > 0;
    }
    seen
}

// Whether there is a mark for each crossing, and each is 0.
pub fn is_fresh(plan: &[u64], marks: &[u8]) -> bool
    ensures { result ≡ is_fresh plan.now marks.now }
{
    marks.len() == plan.len() && !any_set(marks)
}
