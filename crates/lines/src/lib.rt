// A file line by line: where a line's text ends and the next line begins, and whether a line is a given text or begins with it.
#![tactic(auto)]

ghost use Rattle.std.specs.Prelude.{◌≡◌};
ghost use Rattle.paper.specs.Text.{same};
ghost use Rattle.lines.specs.Lines.{EndOf, LineAt, begins};

// A line's text ends at `end`, and the next line begins at `next`.
#[derive(Clone, Copy)]
pub struct Line {
    pub end: usize,
    pub next: usize,
}

// The place of the first LF from `at` on, or the file's end.
fn line_end(file: &[u8], at: usize) -> usize
    ensures { EndOf file.now at result }
{
    for i in at..file.len() {
        if file[i] == 10 {
            return i;
        }
    }
    at.max(file.len())
}

// The line that begins at `at`. A CR right before the LF belongs to the end.
pub fn next_line(file: &[u8], at: usize) -> Option<Line>
    ensures { LineAt file.now at result }
{
    let end = line_end(file, at);
    if end < file.len() {
        if at < end {
            if file[end - 1] == 13 {
                return Some(Line {
                    end: end - 1,
                    next: end + 1,
                });
            }
            return Some(Line {
                end: end,
                next: end + 1,
            });
        }
        return Some(Line {
            end: end,
            next: end + 1,
        });
    }
    if at < end {
        return Some(Line {
            end: end,
            next: end,
        });
    }
    None
}

// Whether a text begins with the word.
pub fn begins_with(word: &[u8], text: &[u8]) -> bool
    ensures { result ≡ begins word.now text.now }
{
    text.starts_with(word)
}

// Whether it is the word.
pub fn is_word(text: &[u8], word: &[u8]) -> bool
    ensures { result ≡ same text.now word.now }
{
    text == word
}
