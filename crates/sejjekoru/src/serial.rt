// A scenario over the serial link, for C: the lent functions are thin, over the calls by value.
ghost use Rattle.paper.specs.Map.{read_map};
ghost use Rattle.link.specs.Link.{saying_of};
ghost use Rattle.numbers.specs.Tells.{Tells};
ghost use Rattle.sejjekoru.specs.Serial.{saying_number, saying_value, BeginTells, PieceTells, EndTells};

use docket::Refusal;
use link::Link;

// "more" is no refusal, so the table has no number for it.
const MORE: u64 = 101;

// What a call tells and leaves.
#[derive(Clone, Copy)]
struct Spoken {
    number: u64,
    link: Link,
}

fn told(said: Option<Result<u64, Refusal>>, value: &mut u64) -> u64
    ensures { Tells (saying_number (saying_of said)) (saying_value (saying_of said)) result value.new }
{
    match said {
        None => {
            *value = 0;
            MORE
        }
        Some(verdict) => numbers::told(verdict, value),
    }
}

fn begin_on(map: &[u8], state: Link, value: &mut u64) -> Spoken
    ensures { BeginTells (read_map map.now) state result.number value.new result.link }
{
    let turn = link_calls::begin(state, map);
    let said = turn.said;
    let next = turn.link;
    Spoken {
        number: told(said, value),
        link: next,
    }
}

fn piece_on(state: Link, piece: &[u8], value: &mut u64) -> Spoken
    ensures { PieceTells state piece.now result.number value.new result.link }
{
    let turn = link_calls::piece(state, piece);
    let said = turn.said;
    let next = turn.link;
    Spoken {
        number: told(said, value),
        link: next,
    }
}

fn end_on(state: Link, value: &mut u64) -> Spoken
    ensures { EndTells state result.number value.new result.link }
{
    let turn = link_calls::end(state);
    let said = turn.said;
    let next = turn.link;
    Spoken {
        number: told(said, value),
        link: next,
    }
}

#[unsafe(no_mangle)]
pub extern "C" fn sejjekoru_link_begin(map: &[u8], state: &mut Link, value: &mut u64) -> u64
    ensures { BeginTells (read_map map.now) state.old result value.new state.new }
{
    let turn = begin_on(map, *state, value);
    *state = turn.link;
    turn.number
}

#[unsafe(no_mangle)]
pub extern "C" fn sejjekoru_link_piece(state: &mut Link, piece: &[u8], value: &mut u64) -> u64
    ensures { PieceTells state.old piece.now result value.new state.new }
{
    let turn = piece_on(*state, piece, value);
    *state = turn.link;
    turn.number
}

#[unsafe(no_mangle)]
pub extern "C" fn sejjekoru_link_end(state: &mut Link, value: &mut u64) -> u64
    ensures { EndTells state.old result value.new state.new }
{
    let turn = end_on(*state, value);
    *state = turn.link;
    turn.number
}
