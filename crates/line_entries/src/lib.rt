// A line of a printed plan or of reports: the number that it says, a comment, or a broken layout.
#![tactic(auto)]

ghost use Rattle.std.specs.Prelude.{◌≡◌, leb};
ghost use Rattle.paper.specs.Basics.{◌and◌};
ghost use Rattle.paper.specs.Text.{SPACE, value, split};
ghost use Rattle.paper.specs.Print.{number_after, read_action};
ghost use Rattle.line_entries.specs.Entries.{entry_of, plan_entry, numeral, report_entry, entry_in};
ghost use Rattle.line_entries.specs.Steps.{figure, digit_on, capped, Cut, to_entry, from_entry, carrier_entry, words_entry};

use docket::{Bay, Carrier, Crossing};

// What a line says.
#[derive(Clone, Copy)]
pub enum Entry {
    Number(u64),
    Comment,
    Broken,
}

// One more digit, up to the most.
fn digit_on(n: u32, b: u8, most: u32) -> Option<u32>
    ensures { result ≡ digit_on most n b }
{
    if b < 48 {
        return None;
    }
    if 57 < b {
        return None;
    }
    let next = (n as u64) * 10 + ((b - 48) as u64);
    if next <= most as u64 {
        return Some(next as u32);
    }
    None
}

// Digits, at least one, that spell a number up to the most.
fn number(digits: &[u8], most: u32) -> Option<u32>
    ensures { result ≡ figure (numeral digits.now and leb (value digits.now) most) (value digits.now) }
{
    if digits.len() == 0 {
        return None;
    }
    let mut n: u32 = 0;
    for b in digits {
        n = digit_on(n, *b, most)?;
    }
    Some(n)
}

// The letter, then such digits.
fn number_after(letter: u8, word: &[u8], most: u32) -> Option<u32>
    ensures { result ≡ capped most (number_after letter word.now) }
{
    if word.len() == 0 {
        return None;
    }
    if word[0] == letter {
        return number(&word[1..], most);
    }
    None
}

// The place of the first such byte, or the text's end.
fn cut(text: &[u8], b: u8) -> usize
    ensures { Cut b text.now result }
{
    for (i, x) in text.iter().enumerate() {
        if *x == b {
            return i;
        }
    }
    text.len()
}

// The bay that is entered, the last word.
fn to_bay(carrier: u32, from: u16, text: &[u8]) -> Entry
    ensures { result ≡ to_entry carrier from (split SPACE text.now) }
{
    if cut(text, 32) < text.len() {
        return Entry::Broken;
    }
    let Some(to) = number_after(98, text, 65535) else {
        return Entry::Broken;
    };
    Entry::Number(docket::pack(Crossing {
        carrier: Carrier(carrier),
        from: Bay(from),
        to: Bay(to as u16),
    }))
}

// The bay that is left, and the rest.
fn from_bay(carrier: u32, text: &[u8]) -> Entry
    ensures { result ≡ from_entry carrier (split SPACE text.now) }
{
    let end = cut(text, 32);
    if end < text.len() {
        let Some(from) = number_after(98, &text[..end], 65535) else {
            return Entry::Broken;
        };
        let next = end + 1;
        return to_bay(carrier, from as u16, &text[next..]);
    }
    Entry::Broken
}

// The carrier, and the rest.
fn carrier(text: &[u8]) -> Entry
    ensures { result ≡ carrier_entry (split SPACE text.now) }
{
    let end = cut(text, 32);
    if end < text.len() {
        let Some(carrier) = number_after(99, &text[..end], 4294967295) else {
            return Entry::Broken;
        };
        let next = end + 1;
        return from_bay(carrier, &text[next..]);
    }
    Entry::Broken
}

// The words between the brackets.
fn words(text: &[u8]) -> Entry
    ensures { result ≡ words_entry (split SPACE text.now) }
{
    let end = cut(text, 32);
    if end < text.len() {
        if lines::is_word(&text[..end], b"(move") {
            let next = end + 1;
            return carrier(&text[next..]);
        }
        return Entry::Broken;
    }
    Entry::Broken
}

// A line that is no comment.
fn action(line: &[u8]) -> Entry
    ensures { result ≡ entry_of (read_action line.now) }
{
    let end = cut(line, 41);
    if end + 1 == line.len() {
        return words(&line[..end]);
    }
    Entry::Broken
}

// A line of a plan.
fn plan_entry(line: &[u8]) -> Entry
    ensures { result ≡ plan_entry line.now }
{
    if line.len() == 0 {
        return Entry::Broken;
    }
    if line[0] == 59 {
        return Entry::Comment;
    }
    action(line)
}

// A line of reports.
fn report_entry(line: &[u8]) -> Entry
    ensures { result ≡ report_entry line.now }
{
    let Some(name) = number(line, 4294967295) else {
        return Entry::Broken;
    };
    Entry::Number(name as u64)
}

// A line of either.
pub fn of_line(reports: bool, line: &[u8]) -> Entry
    ensures { result ≡ entry_in reports line.now }
{
    if reports {
        return report_entry(line);
    }
    plan_entry(line)
}
