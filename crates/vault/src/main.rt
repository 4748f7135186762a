// `vault MAP SCENARIO` prints the plan that the two files ask for, or one line that says why there is none; `vault --shorten MAP SCENARIO` prints
// it without its there-and-back trips.
#![tactic(auto)]

ghost use Rattle.std.specs.Prelude.{◌≡◌, ◌≤◌, length, IfSome};
ghost use Rattle.paper.specs.Text.{text, same};
ghost use Rattle.stores.specs.Writing.{Wrote};
ghost use Rattle.filing.specs.Filing.{file_of};
ghost use Rattle.print_room.specs.Printout.{print_room};
ghost use Rattle.print_room.specs.Whole.{print_for};

use std::env::{Env, FillError};
use std::io::Read;
use std::rt::Files;
use std::{fs, io};

// As many bytes as the longest path that the system opens, and its end.
const PATH_BYTES: usize = 4096;

// How many of the file's first bytes are in the buffer: as many as it holds. None where it cannot be read: a directory, a file that is not there,
// one whose read fails, or one whose path is not UTF-8, since std names no such file. No contract says which bytes these are: what a call of the
// operating system puts into a buffer is not known to the proof. So the promises begin with the bytes read, in `print`, and end with the bytes
// handed to the operating system.
fn load(rt: &impl Files, path: &[u8], buffer: &mut [u8]) -> Option<usize>
    ensures { IfSome result (λ n. n ≤ length buffer.new) }
{
    let name = str::from_utf8(path).ok()?;
    let mut file = fs::open(rt, name).ok()?;
    let mut done = 0;
    while done < buffer.len() {
        let more = file.read(&mut buffer[done..]).ok()?;
        if more == 0 {
            break;
        }
        done += more;
    }
    Some(done)
}

// All that is printed for two files, each with whether it could be read: what the paper prints; with the flag as first word, with the plan shortened.
fn print(
    word: &[u8],
    map: &[u8],
    mapped: bool,
    scenario: &[u8],
    listed: bool,
    out: &mut [u8],
) -> usize
    ensures { Wrote out.old 0
        (print_for (same word.now (text "--shorten")) (file_of mapped map.now) (file_of listed scenario.now))
        out.new result
        × (result ≤ print_room) }
{
    let short = flag::is_shorten(word);
    printout::print(short, map, mapped, scenario, listed, out)
}

// These many bytes of a file decide the answer, however long it is, and every print fits in these many. It has no contract of its own: it lends nothing
// and answers only whether the print was written. What it writes is the whole of what `print` answers.
fn answer(
    rt: &(impl Files + Print),
    word: &[u8],
    map_path: &[u8],
    scenario_path: &[u8],
) -> io::Result<()> {
    let mut map = [0u8; file_room::MAP_BYTES];
    let mut scenario = [0u8; file_room::SCENARIO_BYTES];
    let mut out = [0u8; print_room::PRINT_BYTES];
    let first = load(rt, map_path, &mut map);
    let second = load(rt, scenario_path, &mut scenario);
    let m = first.unwrap_or(0);
    let s = second.unwrap_or(0);
    let n = print(
        word,
        &map[..m],
        first.is_some(),
        &scenario[..s],
        second.is_some(),
        &mut out,
    );
    rt.write_all(&out[..n])
}

// Puts a word of the command line at the start of the buffer: none of its bytes where it is missing or longer than the buffer.
fn arg(rt: &impl Env, i: usize, buffer: &mut [u8]) -> usize
    ensures { result ≤ length buffer.new }
{
    rt.arg(i, buffer).unwrap_or(0)
}

fn is_given(rt: &impl Env, i: usize) -> bool {
    let mut start = [0u8; 1];
    match rt.arg(i, &mut start) {
        Ok(_) => true,
        Err(FillError::TooLong) => true,
        Err(FillError::NotPresent) => false,
    }
}

// The two files are named by the words from `first` on. Where standard error takes no usage, the answer is still printed.
fn answer_from(rt: &HostRuntime, word: &[u8], first: usize) -> io::Result<()>
    requires { first ≤ 2 }
{
    if !is_given(rt, first + 1) || is_given(rt, first + 2) {
        let _ = eprintln!(rt;
            "usage: vault [--shorten] MAP SCENARIO (a grid map and a scenario file; prints the plan or the refusal)"
        );
    }
    let mut map = [0u8; PATH_BYTES];
    let m = arg(rt, first, &mut map);
    let mut scenario = [0u8; PATH_BYTES];
    let s = arg(rt, first + 1, &mut scenario);
    answer(rt, word, &map[..m], &scenario[..s])
}

fn main(rt: HostRuntime) -> io::Result<()> {
    let mut word = [0u8; PATH_BYTES];
    let w = arg(&rt, 1, &mut word);
    if flag::is_shorten(&word[..w]) {
        answer_from(&rt, &word[..w], 2)
    } else {
        answer_from(&rt, &word[..w], 1)
    }
}
