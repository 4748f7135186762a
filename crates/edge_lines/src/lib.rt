// The lines of a surveyors' file: what is known of the line under way, and what a line that ends makes of it.
#![tactic(auto)]

ghost use Rattle.edge_lines.specs.Lines.{OneMore, Opened, Broken, Marked, Takes, Closes};

// What is due: the `p` line; or, with its bays and rails and how many ends were read since, a rail. Both are lines, so as an Option it would be no plainer.
#[derive(Clone, Copy)]
pub enum Due {
    Head,
    Rails(u32, u32, u64),
}

// The line under way: no byte yet; a comment; broken; how many bytes of the word; the digits and the number so far of the first
// number; the first number, and the same of the second.
#[derive(Clone, Copy)]
pub enum Part {
    Fresh,
    Comment,
    Broken,
    Word(u8),
    First(u8, u32),
    Second(u32, u8, u32),
}

// The file under way: the line's number, whether it broke the layout, whether it has begun, whether a CR is held back, what is due,
// the last rail, and what is known of the line.
#[derive(Clone, Copy)]
pub struct Reading {
    pub line: u64,
    pub failed: bool,
    pub begun: bool,
    pub held: bool,
    pub due: Due,
    pub from: u32,
    pub to: u32,
    pub part: Part,
}

// The next line's number.
fn one_more(n: u64) -> u64
    ensures { OneMore n result }
{
    if n < 18446744073709551615 { n + 1 } else { n }
}

// The next line is due, and the last rail is this one.
fn opened(s: Reading, due: Due, from: u32, to: u32) -> Reading
    ensures { Opened s due from to result }
{
    Reading {
        line: one_more(s.line),
        failed: false,
        begun: false,
        held: false,
        due: due,
        from: from,
        to: to,
        part: Part::Fresh,
    }
}

// The line under way breaks the layout.
fn broken(s: Reading) -> Reading
    ensures { Broken s result }
{
    let mut r = s;
    r.failed = true;
    r
}

// The line goes on, and a CR is held back or not.
pub fn marked(s: Reading, part: Part, hold: bool) -> Reading
    ensures { Marked s part hold result }
{
    let due = s.due;
    Reading {
        line: s.line,
        failed: s.failed,
        begun: true,
        held: hold,
        due: due,
        from: s.from,
        to: s.to,
        part: part,
    }
}

// The two numbers of a line: those of the `p` line, or the bays of a rail, from 1.
fn take(s: Reading, p: u32, n: u32) -> Reading
    ensures { Takes s p n result }
{
    let due = s.due;
    match due {
        Due::Head => opened(s, Due::Rails(p, n, 0), 0, 0),
        Due::Rails(bays, rails, ends) => {
            if ends < 2 * (rails as u64) {
                if 1 <= p {
                    if 1 <= n {
                        return opened(s, Due::Rails(bays, rails, ends + 2), p - 1, n - 1);
                    }
                    return broken(s);
                }
                return broken(s);
            }
            broken(s)
        }
    }
}

// The line under way ends.
pub fn closed(s: Reading) -> Reading
    ensures { Closes s result }
{
    let part = s.part;
    match part {
        Part::Fresh => broken(s),
        Part::Comment => {
            let due = s.due;
            opened(s, due, s.from, s.to)
        }
        Part::Broken => broken(s),
        Part::Word(_) => broken(s),
        Part::First(_, _) => broken(s),
        Part::Second(p, k, n) => {
            if 1 <= k {
                return take(s, p, n);
            }
            broken(s)
        }
    }
}
