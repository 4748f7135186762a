// Numbers written in decimal between blanks, read from the bytes of a file: what the programs that run the vectors read their cases with.
// A list stands as its count and then its numbers.
#![tactic(auto)]

ghost use Rattle.std.specs.Prelude.{◌≡◌, ◌+◌, ◌*◌, ◌%◌, ◌^◌, ◌<◌, ◌≤◌, length, take, drop, IfOk};
ghost use Rattle.cases.specs.Numerals.{is_digit, from_digit, Reads};

use std::io::Read;
use std::rt::Files;
use std::{fs, io};

// Room for a file of yards, of paths or of vacates: as many bytes as it has at most.
pub const TEXT: usize = 1 << 16;

// A number that was read, and the place after its last digit.
#[derive(Clone, Copy)]
pub struct Numeral {
    pub value: u64,
    pub next: usize,
}

// How many numbers of a list were stored, and the place after the list.
#[derive(Clone, Copy)]
pub struct Listed {
    pub count: usize,
    pub next: usize,
}

// The first bytes of a file, as many as the buffer holds, and how many these are.
pub fn load(rt: &impl Files, name: &str, buffer: &mut [u8]) -> io::Result<usize>
    ensures { IfOk result (λ n. n ≤ length buffer.new) }
{
    let mut file = fs::open(rt, name)?;
    let mut done = 0;
    while done < buffer.len() {
        let more = file.read(&mut buffer[done..])?;
        if more == 0 {
            return Ok(done);
        }
        done += more;
    }
    Ok(done)
}

fn is_digit(b: u8) -> bool
    ensures { result ≡ is_digit b }
{
    b'0' <= b && b <= b'9'
}

// The place of the first digit from `at` on; the text's length where there is none.
fn first_digit(text: &[u8], at: usize) -> usize
    ensures { (drop result text.now ≡ from_digit (drop at text.now)) × (result ≤ length text.now) }
{
    for i in at..text.len() {
        if is_digit(text[i]) {
            return i;
        }
    }
    text.len()
}

// One digit more. What does not fit in 64 bits wraps at its last digit: no case has such a number.
fn with_digit(value: u64, digit: u8) -> u64
    ensures { value * 10 + digit % 16 < 2 ^ 64 → result ≡ value * 10 + digit % 16 }
{
    (value.min(u64::MAX / 10) * 10).wrapping_add(u64::from(digit % 16))
}

// The first number from `at` on; 0 where there is none.
pub fn number(text: &[u8], at: usize) -> Numeral
    ensures { Reads text.now at result }
{
    let mut value = 0;
    for i in first_digit(text, at)..text.len() {
        if !is_digit(text[i]) {
            return Numeral { value, next: i };
        }
        value = with_digit(value, text[i]);
    }
    Numeral {
        value,
        next: text.len(),
    }
}

// What a list holds: a number as far as the type has room for it.
pub trait Listable: Copy {
    fn of(n: u64) -> Self;
}

impl Listable for u64 {
    fn of(n: u64) -> u64 {
        n
    }
}

// A bay: a number below 2^16.
impl Listable for u16 {
    fn of(n: u64) -> u16 {
        (n % 65536) as u16
    }
}

// A mark: a number below 2^8.
impl Listable for u8 {
    fn of(n: u64) -> u8 {
        (n % 256) as u8
    }
}

// The list from `at` on, its numbers into the first places of `out` as far as there are any.
pub fn list<T: Listable>(text: &[u8], at: usize, out: &mut [T]) -> Listed
    ensures { result.count ≤ length out.new }
{
    let size = number(text, at);
    let mut next = size.next;
    for (i, place) in out.iter_mut().enumerate() {
        if size.value <= i as u64 {
            return Listed { count: i, next };
        }
        let n = number(text, next);
        *place = T::of(n.value);
        next = n.next;
    }
    Listed {
        count: out.len(),
        next,
    }
}

// The first `n` items of a list, or all where there are fewer.
pub fn first<T>(list: &[T], n: usize) -> &[T]
    ensures { result.now ≡ take n list.now }
{
    &list[..n.min(list.len())]
}
