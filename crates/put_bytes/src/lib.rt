// Texts and numbers into lent bytes. All bytes are counted and those that fit are stored, so a writer can count on past the end.
#![tactic(auto)]

ghost use Rattle.std.specs.Prelude.{◌+◌, ◌<◌, ◌^◌, length};
ghost use Rattle.paper.specs.Print.{decimal};
ghost use Rattle.stores.specs.Writing.{Wrote};
ghost use Rattle.put_bytes.specs.Named.{named};

// A text; answers the place after it.
pub fn put_text(out: &mut [u8], at: usize, text: &[u8]) -> usize
    requires { at + length text.now < 2 ^ 63 }
    ensures { Wrote out.old at text.now out.new result }
{
    for (i, b) in text.iter().enumerate() {
        stores::store(out, at + i, *b);
    }
    at + text.len()
}

// A number's digits, the higher ones first.
pub fn put_number(out: &mut [u8], at: usize, n: u64) -> usize
    requires { at + 20 < 2 ^ 63 }
    ensures { Wrote out.old at (decimal n) out.new result }
{
    if n < 10 {
        stores::store(out, at, 48 + (n as u8));
        return at + 1;
    }
    let end = put_number(out, at, n / 10);
    stores::store(out, end, 48 + ((n % 10) as u8));
    end + 1
}

// A text and a number behind it.
pub fn put_named(out: &mut [u8], at: usize, text: &[u8], n: u64) -> usize
    requires { at + length text.now + 20 < 2 ^ 63 }
    ensures { Wrote out.old at (named text.now n) out.new result }
{
    let end = put_text(out, at, text);
    put_number(out, end, n)
}
