// A yard's rails as a surveyors' file. All bytes are counted and those that fit are stored, so an empty list only counts.
#![tactic(auto)]

ghost use Rattle.std.specs.Prelude.{◌∷◌, [], ◌+◌, ◌/◌, ◌≤◌, ◌<◌, ◌^◌, length};
ghost use Rattle.paper.specs.Limits.{most_rails};
ghost use Rattle.paper.specs.Print.{ended};
ghost use Rattle.stores.specs.Writing.{Wrote};
ghost use Rattle.survey.specs.Survey.{head_line, rail_line};
ghost use Rattle.survey_lines.specs.Writes.{Goes, Writes};

// The `p` line.
fn head(out: &mut [u8], bays: u64, rails: u64) -> usize
    ensures { Wrote out.old 0 (ended (head_line bays rails ∷ [])) out.new result × (result ≤ 49) }
{
    let first = put_bytes::put_named(out, 0, b"p edge ", bays);
    let second = put_bytes::put_named(out, first, b" ", rails);
    put_bytes::put_text(out, second, b"\n")
}

// A rail's line: its bays count from 1.
fn rail(out: &mut [u8], at: usize, a: u16, b: u16) -> usize
    requires { at + 100 < 2 ^ 63 }
    ensures { Wrote out.old at (ended (rail_line (a, b) ∷ [])) out.new result × (result ≤ at + 44) }
{
    let from = put_bytes::put_named(out, at, b"e ", (a as u64) + 1);
    let to = put_bytes::put_named(out, from, b" ", (b as u64) + 1);
    put_bytes::put_text(out, to, b"\n")
}

// The rails' lines in the order held.
fn rails_from(out: &mut [u8], at: usize, rails: &[u16]) -> usize
    requires { (at ≤ 49) × (length rails.now / 2 ≤ most_rails) }
    ensures { Goes rails.now out.old at out.new result }
{
    let mut end = at;
    for k in 0..rails.len() / 2 {
        end = rail(out, end, rails[2 * k], rails[2 * k + 1]);
    }
    end
}

// The whole file, of a yard that keeps its limits. Answers how many bytes that takes.
pub fn write(bays: u64, rails: &[u16], out: &mut [u8]) -> usize
    requires { length rails.now / 2 ≤ most_rails }
    ensures { Writes bays rails.now out.old out.new result }
{
    let end = head(out, bays, (rails.len() / 2) as u64);
    rails_from(out, end, rails)
}
