// A scenario over the serial link, in pieces of at most PIECE bytes: its state by value. It is plain numbers, so that any bytes which a
// caller lends are some state.
#![tactic(auto)]

ghost use Rattle.std.specs.Prelude.{◌≡◌};
ghost use Rattle.link.specs.Link.{yes_of, bit_of, reading_in, under_way_of};

use docket::Refusal;
use fields::{FieldSeen, FieldsPast, TextSeen};
use scenario::Reading;

// The bytes of the longest piece.
pub const PIECE: usize = 256;

// What is known of the line under way. A number that says yes or no says no where it is 0. The spare byte is 0: with it the struct has no gaps,
// so that a caller may compare two states byte by byte.
#[repr(C)]
#[derive(Clone, Copy)]
pub struct UnderWay {
    pub sx: u32,
    pub sy: u32,
    pub gx: u32,
    pub gy: u32,
    pub number: u32,
    pub count: u16,
    pub failed: u8,
    pub version: u8,
    pub begun: u8,
    pub held: u8,
    pub place: u8,
    pub agrees: u8,
    pub index: u8,
    pub well: u8,
    pub size: u8,
    pub spare: u8,
    pub digits: u8,
    pub point: u8,
    pub plain: u8,
    pub figure: u8,
}

// The carriers read so far, the map's cells and sides, and the line under way. It is open where the phase is 1, and has ended where it
// is anything else.
#[repr(C)]
#[derive(Clone, Copy)]
pub struct Link {
    pub start: [u16; paper::CARRIERS],
    pub goal: [u16; paper::CARRIERS],
    pub cells: [u16; 4096],
    pub line: UnderWay,
    pub phase: u16,
    pub height: u8,
    pub width: u8,
}

// What a call answers and leaves.
#[derive(Clone, Copy)]
pub struct Turn {
    pub said: Option<Result<u64, Refusal>>,
    pub link: Link,
}

// The reading that the numbers stand for.
pub fn reading(k: UnderWay) -> Reading
    ensures { result ≡ reading_in k }
{
    let version = k.version != 0;
    Reading {
        failed: k.failed != 0,
        version: version,
        begun: k.begun != 0,
        held: k.held != 0,
        count: carrier_lists::counted(version, k.count),
        start: 0,
        goal: 0,
        text: TextSeen {
            place: k.place,
            agrees: k.agrees != 0,
        },
        past: FieldsPast {
            index: k.index,
            well: k.well != 0,
            sx: k.sx,
            sy: k.sy,
            gx: k.gx,
            gy: k.gy,
        },
        field: FieldSeen {
            place: k.size,
            number: k.number,
            digits: k.digits != 0,
            point: k.point != 0,
            plain: k.plain != 0,
            figure: k.figure != 0,
        },
    }
}

// The numbers of a reading, 0 where nothing of it is read any more.
pub fn keep(r: Reading) -> UnderWay
    ensures { result ≡ under_way_of r }
{
    let mut k = UnderWay {
        sx: 0,
        sy: 0,
        gx: 0,
        gy: 0,
        number: 0,
        count: r.count,
        failed: u8::from(r.failed),
        version: u8::from(r.version),
        begun: 0,
        held: 0,
        place: 0,
        agrees: 0,
        index: 0,
        well: 0,
        size: 0,
        spare: 0,
        digits: 0,
        point: 0,
        plain: 0,
        figure: 0,
    };
    if r.failed {
        return k;
    }
    k.begun = u8::from(r.begun);
    k.held = u8::from(r.held);
    if r.version {
        k.place = r.text.place;
        k.agrees = u8::from(r.text.agrees);
        return k;
    }
    k.index = r.past.index;
    k.well = u8::from(r.past.well);
    k.sx = r.past.sx;
    k.sy = r.past.sy;
    k.gx = r.past.gx;
    k.gy = r.past.gy;
    k.size = r.field.place;
    k.number = r.field.number;
    k.digits = u8::from(r.field.digits);
    k.point = u8::from(r.field.point);
    k.plain = u8::from(r.field.plain);
    k.figure = u8::from(r.field.figure);
    k
}
