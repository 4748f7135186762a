// The surveyors' file byte by byte: a state of fixed size goes in and comes out. The ends read so far are no part of it: it has their
// count and the last rail, which `feed` stores where the count has grown. So a file of any length is read in the same room.
#![tactic(auto)]

ghost use Rattle.std.specs.Prelude.{◌≡◌, List, [], ℕ, ◌≤◌, length, drop, if◌then◌else◌};
ghost use Rattle.paper.specs.Text.{Text, is_digit};
ghost use Rattle.paper.specs.Bytes.{tally};
ghost use Rattle.survey.specs.Bytes.{in_first, in_second, word_byte, line_byte};
ghost use Rattle.survey.specs.Narrow.{narrow as narrowed};
ghost use Rattle.edge_lines.specs.Lines.{part_of, part_by, word_by, count_of};
ghost use Rattle.edges.specs.Held.{Steps, Finishes, answer_of, answer_by, stored, Came, Feeds, Ends, Reads};

use edge_lines::{Due, Part, Reading};

// The number with one more digit, up to five.
fn tallied(n: u32, b: u8) -> u32
    ensures { result ≡ tally n b }
{
    if 48 <= b {
        if b <= 57 {
            if n < 10000 {
                return n * 10 + ((b - 48) as u32);
            }
            return n;
        }
        return n;
    }
    n
}

fn is_digit(b: u8) -> bool
    ensures { result ≡ is_digit b }
{
    b.is_ascii_digit()
}

// A byte of the word, of which so many are past. Behind the word stands the first number.
fn word_byte(word: &[u8], past: u8, b: u8) -> Part
    requires { length word.now ≤ 7 }
    ensures { part_of word.now result ≡ word_byte (drop past word.now) b }
{
    let at = past as usize;
    if at < word.len() {
        if b == word[at] {
            if at + 1 == word.len() {
                return Part::First(0, 0);
            }
            return Part::Word(past + 1);
        }
        return Part::Broken;
    }
    Part::Broken
}

// A byte of the first number: a space ends it.
fn first_byte(k: u8, n: u32, b: u8) -> Part
    ensures { (w : Text) → part_of w result ≡ line_byte w (in_first k n) b }
{
    if b == 32 {
        if 1 <= k {
            return Part::Second(n, 0, 0);
        }
        return Part::Broken;
    }
    if k < 5 {
        if is_digit(b) {
            return Part::First(k + 1, tallied(n, b));
        }
        return Part::Broken;
    }
    Part::Broken
}

// A byte of the second number.
fn second_byte(p: u32, k: u8, n: u32, b: u8) -> Part
    ensures { (w : Text) → part_of w result ≡ line_byte w (in_second p k n) b }
{
    if k < 5 {
        if is_digit(b) {
            return Part::Second(p, k + 1, tallied(n, b));
        }
        return Part::Broken;
    }
    Part::Broken
}

// A byte of the line's word: `p edge `, or `e `.
fn due_byte(due: Due, past: u8, b: u8) -> Part
    ensures { part_by due result ≡ word_byte (drop past (word_by due)) b }
{
    match due {
        Due::Head => word_byte(b"p edge ", past, b),
        Due::Rails(_, _, _) => word_byte(b"e ", past, b),
    }
}

// A byte inside a line.
fn on_byte(due: Due, part: Part, b: u8) -> Part
    ensures { part_by due result ≡ line_byte (word_by due) (part_by due part) b }
{
    match part {
        Part::Fresh => {
            if b == 99 {
                return Part::Comment;
            }
            due_byte(due, 0, b)
        }
        Part::Comment => Part::Comment,
        Part::Broken => Part::Broken,
        Part::Word(past) => due_byte(due, past, b),
        Part::First(k, n) => first_byte(k, n, b),
        Part::Second(p, k, n) => second_byte(p, k, n, b),
    }
}

// A CR that was held back belongs to the line.
fn released(due: Due, part: Part, held: bool) -> Part
    ensures { part_by due result ≡ if held then line_byte (word_by due) (part_by due part) 13 else part_by due part }
{
    if held { on_byte(due, part, 13) } else { part }
}

// Before the first byte the `p` line is due.
pub fn start() -> Reading
    ensures { (room : List ℕ) → Came [] result room room }
{
    Reading {
        line: 1,
        failed: false,
        begun: false,
        held: false,
        due: Due::Head,
        from: 0,
        to: 0,
        part: Part::Fresh,
    }
}

// One byte of the file.
fn step(s: Reading, b: u8) -> Reading
    ensures { Steps s b result }
{
    if s.failed {
        return s;
    }
    if b == 10 {
        return edge_lines::closed(s);
    }
    let due = s.due;
    let part = s.part;
    let p = released(due, part, s.held);
    if b == 13 {
        return edge_lines::marked(s, p, true);
    }
    edge_lines::marked(s, on_byte(due, p, b), false)
}

// The file ends: so does the line under way, if it has begun.
fn finished(s: Reading) -> Reading
    ensures { Finishes s result }
{
    if s.failed {
        return s;
    }
    if s.begun {
        let due = s.due;
        let part = s.part;
        return edge_lines::closed(edge_lines::marked(s, released(due, part, s.held), false));
    }
    s
}

// What was read, once the file has ended.
fn answer(s: Reading) -> Result<(u32, u64), u64>
    ensures { answer_of result ≡ answer_by s }
{
    if s.failed {
        return Err(s.line);
    }
    let due = s.due;
    match due {
        Due::Head => Err(s.line),
        Due::Rails(bays, rails, ends) => {
            if ends == 2 * (rails as u64) {
                return Ok((bays, ends));
            }
            Err(s.line)
        }
    }
}

// How many ends were read.
fn count(due: Due) -> u64
    ensures { result ≡ count_of due }
{
    match due {
        Due::Head => 0,
        Due::Rails(_, _, ends) => ends,
    }
}

// A bay in 16 bits: what does not fit is above every bay.
fn narrow(x: u32) -> u16
    ensures { result ≡ narrowed x }
{
    x.min(65535) as u16
}

// The rail that was read last, where there is one more than before.
fn keep(s: Reading, r: Reading, ends: &mut [u16])
    ensures { ends.new ≡ stored s r ends.old }
{
    let before = s.due;
    let after = r.due;
    let at = count(before);
    if at < count(after) {
        stores::store(ends, at as usize, narrow(r.from));
        stores::store(ends, (at as usize) + 1, narrow(r.to));
    }
}

// A piece of the file. The ends in it are stored behind those before, as far as there is room for them.
pub fn feed(s: Reading, piece: &[u8], ends: &mut [u16]) -> Reading
    ensures { Feeds s piece.now result ends.old ends.new }
{
    let mut now = s;
    for b in piece {
        let next = step(now, *b);
        keep(now, next, ends);
        now = next;
    }
    now
}

// The file ends. Bays and ends, or the first bad line.
pub fn finish(s: Reading, ends: &mut [u16]) -> Result<(u32, u64), u64>
    ensures { Ends s result ends.old ends.new }
{
    let last = finished(s);
    keep(s, last, ends);
    answer(last)
}

// The whole file.
pub fn read(file: &[u8], ends: &mut [u16]) -> Result<(u32, u64), u64>
    ensures { Reads file.now result ends.old ends.new }
{
    let s = feed(start(), file, ends);
    finish(s, ends)
}
