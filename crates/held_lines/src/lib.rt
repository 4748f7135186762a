// Account lines by value: an array with a place for each carrier that a yard may have, and how many lines there are.
#![tactic(auto)]

ghost use Rattle.std.specs.Prelude.{◌≡◌, ◌≤◌};
ghost use Rattle.paper.specs.Limits.{most_bays};
ghost use Rattle.held_lines.specs.Lines.{no_lines, held_of, top_of, line_at, gathered, listed};

use bills::Line;
use yard::Yard;

// Lines by value: how many there are, and the first of them, as many as a yard may have carriers.
#[derive(Clone, Copy)]
pub struct HeldLines {
    pub count: usize,
    pub lines: [Line; Yard::BAYS],
}

// As many lines as are held, of which none is read yet.
pub fn no_lines() -> [Line; Yard::BAYS]
    ensures { result ≡ no_lines }
{
    let line = entries::no_line();
    [line; Yard::BAYS]
}

// So many lines, of which these are held.
pub fn hold(count: usize, lines: [Line; Yard::BAYS]) -> HeldLines
    ensures { result ≡ held_of count lines }
{
    HeldLines { count, lines }
}

// How many of so many lines are held.
pub fn top(count: usize) -> usize
    ensures { result ≡ top_of count }
{
    count.min(Yard::BAYS)
}

// The line at place i: none past the last place.
pub fn line_at(held: HeldLines, i: usize) -> Line
    ensures { result ≡ line_at held i }
{
    let lines = held.lines;
    entries::line_in(lines, i)
}

// So many lines with these counts and last names.
pub fn list_lines(count: usize, billed: &[u32; Yard::BAYS], last: &[u32; Yard::BAYS]) -> HeldLines
    requires { count ≤ most_bays }
    ensures { result ≡ gathered (listed count billed.now last.now) }
{
    let mut lines = no_lines();
    for c in 0..count {
        lines[c] = Line {
            carrier: c as u32,
            billed: billed[c],
            last: last[c],
        };
    }
    hold(count, lines)
}
