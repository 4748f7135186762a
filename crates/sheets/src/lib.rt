// Lent account lines: read to a value, written from one, and one of them changed. All else is done by value.
#![tactic(auto)]

ghost use Rattle.std.specs.Prelude.{◌≡◌, ◌++◌, ◌≤◌, length, take, drop, set};
ghost use Rattle.paper.specs.Limits.{most_bays};
ghost use Rattle.held_lines.specs.Lines.{gathered};

use bills::Line;
use held_lines::HeldLines;

// The lent lines by value.
pub fn gather(lines: &[Line]) -> HeldLines
    ensures { result ≡ gathered lines.now }
{
    let count = lines.len();
    let top = held_lines::top(count);
    let mut kept = held_lines::no_lines();
    copies::copy(&mut kept, &lines[..top]);
    held_lines::hold(count, kept)
}

// The held lines into the first places of the lent ones.
pub fn fill(lines: &mut [Line], held: HeldLines)
    requires { (held.count ≤ most_bays) × (held.count ≤ length lines.old) × (length held.lines ≡ most_bays) }
    ensures { lines.new ≡ take held.count held.lines ++ drop held.count lines.old }
{
    let top = held.count;
    copies::copy(lines, &held.lines[..top]);
}

// One line changed, where there is one at that place.
pub fn enter(lines: &mut [Line], at: usize, line: Line)
    ensures { lines.new ≡ set lines.old at line }
{
    if at < lines.len() {
        lines[at] = line;
    }
}
