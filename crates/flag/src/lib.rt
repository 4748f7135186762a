// The flag on the command line.
#![tactic(auto)]

ghost use Rattle.std.specs.Prelude.{◌≡◌};
ghost use Rattle.paper.specs.Text.{text, same};

// True exactly for the word `--shorten`. Any other word is a file's name.
pub fn is_shorten(word: &[u8]) -> bool
    ensures { result ≡ same word.now (text "--shorten") }
{
    lines::is_word(word, b"--shorten")
}
