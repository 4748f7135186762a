// Whether two lists of lines are the same.
#![tactic(auto)]

ghost use Rattle.std.specs.Prelude.{◌≡◌, ◌<◌, take};
ghost use Rattle.paper.specs.Limits.{most_bays};
ghost use Rattle.bills.specs.Answering.{same_lines};

use bills::Line;
use yard::Yard;

// Whether the first `lent` lines of one list are the first `fresh` of the other. Of the second there are fewer than a list has places: a count that is
// higher than the places then differs from it.
pub fn same_lines(lent: usize, a: [Line; Yard::BAYS], fresh: usize, b: [Line; Yard::BAYS]) -> bool
    requires { fresh < most_bays }
    ensures { result ≡ same_lines (take lent a) (take fresh b) }
{
    if lent != fresh {
        return false;
    }
    for c in 0..fresh {
        if a[c] != b[c] {
            return false;
        }
    }
    true
}
