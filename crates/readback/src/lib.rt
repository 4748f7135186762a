// A printed plan and a file of reported names, read line by line into a lent list: the numbers, or the first bad line, which changes nothing.
#![tactic(auto)]

ghost use Rattle.std.specs.Prelude.{◌≡◌, ◌+◌, ◌<◌, ◌^◌, set};
ghost use Rattle.stores.specs.Writing.{Wrote};
ghost use Rattle.readback.specs.Files.{Gives, PlanRead, ReportsRead};
ghost use Rattle.readback.specs.Steps.{numbers_of, is_broken, Folds};

use docket::Refusal;
use line_entries::Entry;
use lines::Line;

// The number of a line behind those before it; answers how many there are then.
fn keep(said: Entry, out: &mut [u64], count: usize) -> usize
    requires { count + 1 < 2 ^ 64 }
    ensures { Wrote out.old count (numbers_of said) out.new result }
{
    match said {
        Entry::Number(n) => {
            stores::store(out, count, n);
            count + 1
        }
        Entry::Comment => count,
        Entry::Broken => count,
    }
}

fn is_broken(said: Entry) -> bool
    ensures { result ≡ is_broken said }
{
    match said {
        Entry::Number(_) => false,
        Entry::Comment => false,
        Entry::Broken => true,
    }
}

// All lines of a file, their numbers stored as far as there is room.
fn fold(reports: bool, file: &[u8], out: &mut [u64]) -> Result<usize, u64>
    ensures { Folds reports file.now out.old result out.new }
{
    let mut at = 0;
    let mut line: u64 = 1;
    let mut count = 0;
    loop {
        let Some(Line { end: stop, next }) = lines::next_line(file, at) else {
            return Ok(count);
        };
        let said = line_entries::of_line(reports, &file[at..stop]);
        if is_broken(said) {
            return Err(line);
        }
        count = keep(said, out, count);
        at = next;
        line += 1;
    }
}

// The numbers of a good file, of which there are so many, handed over.
fn give(reports: bool, file: &[u8], count: usize, out: &mut [u64]) -> Result<u64, Refusal>
    ensures { Gives reports file.now count out.old result out.new }
{
    let n = count as u64;
    if count <= out.len() {
        let _ = fold(reports, file, out);
        return Ok(n);
    }
    Err(Refusal::Room(n))
}

// A printed plan. It is read once without room, so that a refusal changes nothing.
pub fn plan(file: &[u8], out: &mut [u64]) -> Result<u64, Refusal>
    ensures { PlanRead file.now out.old result out.new }
{
    let mut none = [0u64; 1];
    let found = fold(false, file, &mut none);
    match found {
        Ok(count) => {
            if paper::CROSSINGS < count {
                return Err(Refusal::Size);
            }
            give(false, file, count, out)
        }
        Err(line) => Err(Refusal::BadPlan(line)),
    }
}

// Reported names, read in the same way.
pub fn reports(file: &[u8], out: &mut [u64]) -> Result<u64, Refusal>
    ensures { ReportsRead file.now out.old result out.new }
{
    let mut none = [0u64; 1];
    let found = fold(true, file, &mut none);
    match found {
        Ok(count) => give(true, file, count, out),
        Err(line) => Err(Refusal::BadReports(line)),
    }
}
