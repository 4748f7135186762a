// The map file's layout: its height and width, or its first bad line. What the rows say is read once they are known to be good.
#![tactic(auto)]

ghost use Rattle.std.specs.Prelude.{◌≡◌, ◌≤◌, leb, if◌then◌else◌};
ghost use Rattle.paper.specs.Basics.{◌or◌};
ghost use Rattle.paper.specs.Text.{all};
ghost use Rattle.paper.specs.Map.{side_after, bay_letter, is_row, read_map};
ghost use Rattle.sides.specs.Letters.{letter, digit_of, side_in, side_of};
ghost use Rattle.sides.specs.Layout.{line_taken, end_taken, taken_of, sides_of, sides_read};

use lines::Line;

// The line that is due, with the sides read before it, and how many rows were read.
#[derive(Clone, Copy)]
pub enum Due {
    Octile,
    Height,
    Width(u8),
    Map(u8, u8),
    Row(u8, u8, u8),
}

// A digit's number; 100, which is above any side, for any other byte.
fn digit(b: u8) -> u16
    ensures { (result ≡ digit_of b) × (result ≤ 100) }
{
    if 48 <= b {
        if b <= 57 {
            return (b - 48) as u16;
        }
        return 100;
    }
    100
}

// A number that is a side; 0 for any other.
fn within(n: u16) -> u8
    ensures { result ≡ if leb n 64 then n else 0 }
{
    if n <= 64 {
        return n as u8;
    }
    0
}

// A side in one or two digits; 0 where it is none.
fn side(text: &[u8]) -> u8
    ensures { side_of result ≡ side_in text.now }
{
    if text.len() == 1 {
        return within(digit(text[0]));
    }
    if text.len() == 2 {
        let tens = digit(text[0]);
        let ones = digit(text[1]);
        return within(tens * 10 + ones);
    }
    0
}

// The side after the word; 0 where the line breaks the layout.
fn side_after(word: &[u8], text: &[u8]) -> u8
    ensures { side_of result ≡ side_after word.now text.now }
{
    let k = word.len();
    if lines::begins_with(word, text) {
        if k <= text.len() {
            return side(&text[k..]);
        }
        return 0;
    }
    0
}

// A bay's letter.
pub fn is_bay(b: u8) -> bool
    ensures { result ≡ bay_letter b }
{
    b == b'.' || b == b'G'
}

// A letter of a row: a bay's or a wall's.
pub fn is_letter(b: u8) -> bool
    ensures { result ≡ letter b }
{
    is_bay(b) || b == b'@' || b == b'O' || b == b'T' || b == b'W'
}

fn all_letters(text: &[u8]) -> bool
    ensures { result ≡ all letter text.now }
{
    for b in text {
        if !is_letter(*b) {
            return false;
        }
    }
    true
}

fn is_row(text: &[u8], width: u8) -> bool
    ensures { result ≡ is_row width text.now }
{
    text.len() == width as usize && all_letters(text)
}

// The due line is this one.
fn take(due: Due, text: &[u8]) -> Option<Due>
    ensures { taken_of result ≡ line_taken due text.now }
{
    match due {
        Due::Octile => {
            if lines::is_word(text, b"type octile") {
                return Some(Due::Height);
            }
            None
        }
        Due::Height => {
            let h = side_after(b"height ", text);
            if h == 0 {
                return None;
            }
            Some(Due::Width(h))
        }
        Due::Width(h) => {
            let w = side_after(b"width ", text);
            if w == 0 {
                return None;
            }
            Some(Due::Map(h, w))
        }
        Due::Map(h, w) => {
            if lines::is_word(text, b"map") {
                return Some(Due::Row(h, w, 0));
            }
            None
        }
        Due::Row(h, w, rows) => row(h, w, rows, text),
    }
}

// The due row is this line.
fn row(h: u8, w: u8, rows: u8, text: &[u8]) -> Option<Due>
    ensures { taken_of result ≡ line_taken (Due.Row h w rows) text.now }
{
    if rows < h {
        if is_row(text, w) {
            return Some(Due::Row(h, w, rows + 1));
        }
        return None;
    }
    None
}

// The file ends where this line is due, the n-th.
fn end(due: Due, n: u64) -> Result<(u8, u8), u64>
    ensures { sides_of result ≡ end_taken n due }
{
    match due {
        Due::Octile => Err(n),
        Due::Height => Err(n),
        Due::Width(_) => Err(n),
        Due::Map(_, _) => Err(n),
        Due::Row(h, w, rows) => {
            if rows == h {
                return Ok((h, w));
            }
            Err(n)
        }
    }
}

// The sides of the map, or the first bad line.
pub fn read(file: &[u8]) -> Result<(u8, u8), u64>
    ensures { sides_of result ≡ sides_read (read_map file.now) }
{
    let mut due = Due::Octile;
    let mut at = 0;
    let mut n: u64 = 1;
    // Where a line ends is known only once it is found, and the number is wanted behind the loop too: a `for` over numbers would be no plainer.
    while let Some(Line { end: stop, next }) = lines::next_line(file, at) {
        let Some(d) = take(due, &file[at..stop]) else {
            return Err(n);
        };
        due = d;
        at = next;
        n += 1;
    }
    end(due, n)
}
