// What is kept of a scenario's line, byte by byte: the version under way, a field under way, and the fields that are past. Straight
// functions over tiny ones, each equal to its definition.
#![tactic(auto)]

ghost use Rattle.std.specs.Prelude.{◌≡◌, true, false, suc, ◌<◌, ltb, leb, if◌then◌else◌};
ghost use Rattle.paper.specs.Basics.{◌and◌, ◌or◌};
ghost use Rattle.paper.specs.Text.{is_digit, is_point, text};
ghost use Rattle.paper.specs.Bytes.{match_byte, matched, grow, tally, sized_field, number_field, length_field, keep_at, well_field, see as see_byte, field_past as past_field};
ghost use Rattle.fields.specs.ReadAs.{match_of, seen_of, past_of};

// The version line under way: how many bytes, and whether they agree so far.
#[derive(Clone, Copy)]
pub struct TextSeen {
    pub place: u8,
    pub agrees: bool,
}

// A field under way: how many bytes, its number, and what kinds of bytes were seen.
#[derive(Clone, Copy)]
pub struct FieldSeen {
    pub place: u8,
    pub number: u32,
    pub digits: bool,
    pub point: bool,
    pub plain: bool,
    pub figure: bool,
}

// The fields of the line that are past: how many, whether all are well, and the coordinates.
#[derive(Clone, Copy)]
pub struct FieldsPast {
    pub index: u8,
    pub well: bool,
    pub sx: u32,
    pub sy: u32,
    pub gx: u32,
    pub gy: u32,
}

fn is_digit(b: u8) -> bool
    ensures { result ≡ is_digit b }
{
    b.is_ascii_digit()
}

fn is_point(b: u8) -> bool
    ensures { result ≡ is_point b }
{
    b == b'.'
}

// One more, up to 129.
fn grown(p: u8) -> u8
    ensures { result ≡ grow p }
{
    if p < 129 { p + 1 } else { p }
}

// The number with one more digit, up to five.
fn tallied(n: u32, b: u8) -> u32
    ensures { result ≡ tally n b }
{
    if b.is_ascii_digit() && n < 10000 {
        n * 10 + u32::from(b - b'0')
    } else {
        n
    }
}

// A byte of a field.
pub fn seen(m: FieldSeen, b: u8) -> FieldSeen
    ensures { seen_of result ≡ see_byte (seen_of m) b }
{
    let d = is_digit(b);
    let p = is_point(b);
    FieldSeen {
        place: grown(m.place),
        number: tallied(m.number, b),
        digits: m.digits && d,
        point: m.point || p,
        plain: m.plain && (d || p && !m.point),
        figure: m.figure || d,
    }
}

// A byte of the version line.
pub fn text_seen(t: TextSeen, b: u8) -> TextSeen
    ensures { match_of result ≡ match_byte (text "version 1.0") (match_of t) b }
{
    let word = b"version 1.0";
    let place = t.place;
    let at = place as usize;
    if at < 11 {
        return TextSeen {
            place: place + 1,
            agrees: t.agrees && b == word[at],
        };
    }
    TextSeen {
        place: past_word(place),
        agrees: t.agrees && b == 0,
    }
}

// One more, up to one past the word.
fn past_word(p: u8) -> u8
    ensures { result ≡ if leb p 11 then suc p else p }
{
    if p <= 11 { p + 1 } else { p }
}

// One to so many bytes.
fn sized_field(m: FieldSeen, most: u8) -> bool
    ensures { result ≡ sized_field most (seen_of m) }
{
    1 <= m.place && m.place <= most
}

// One to five digits.
fn number_field(m: FieldSeen) -> bool
    ensures { result ≡ number_field (seen_of m) }
{
    sized_field(m, 5) && m.digits
}

// The last field.
fn length_field(m: FieldSeen) -> bool
    ensures { result ≡ length_field (seen_of m) }
{
    sized_field(m, 20) && m.plain && m.figure
}

// Whether the field at an index is well.
fn well_field(i: u8, m: FieldSeen, w: u32, h: u32) -> bool
    ensures { result ≡ well_field w h i (seen_of m) }
{
    if i == 1 {
        return sized_field(m, 128);
    }
    if i == 8 {
        return length_field(m);
    }
    if i == 2 {
        return number_field(m) && m.number == w;
    }
    if i == 3 {
        return number_field(m) && m.number == h;
    }
    if i < 8 {
        return number_field(m);
    }
    false
}

// The field at index j, once i is there.
fn kept(i: u8, j: u8, new: u32, old: u32) -> u32
    ensures { result ≡ keep_at i j new old }
{
    if i == j { new } else { old }
}

// One more, up to nine.
fn one_on(i: u8) -> u8
    ensures { result ≡ if ltb i 9 then suc i else i }
{
    if i < 9 { i + 1 } else { i }
}

// The field is past.
pub fn field_past(p: FieldsPast, m: FieldSeen, w: u32, h: u32) -> FieldsPast
    ensures { past_of result ≡ past_field w h (past_of p) (seen_of m) }
{
    FieldsPast {
        index: one_on(p.index),
        well: p.well && well_field(p.index, m, w, h),
        sx: kept(p.index, 4, m.number, p.sx),
        sy: kept(p.index, 5, m.number, p.sy),
        gx: kept(p.index, 6, m.number, p.gx),
        gy: kept(p.index, 7, m.number, p.gy),
    }
}

// Whether the version line is one of the two.
pub fn is_version(t: TextSeen) -> bool
    ensures { result ≡ matched 9 (match_of t) or matched 11 (match_of t) }
{
    t.agrees && (t.place == 9 || t.place == 11)
}
