// The limits as the code has them, in the lowest crate, since arrays from words to link have their lengths. specs/Limits has them for the
// definitions; `yard::Yard::limits` proves that the two agree.
#![tactic(auto)]

pub const FEWEST: usize = 2;

pub const BAYS: usize = 256;

// The 64-bit words of a set of bays.
pub const WORDS: usize = BAYS / 64;

pub const RAILS: usize = 1024;

pub const KEPT_EMPTY: usize = 2;

pub const CARRIERS: usize = BAYS - KEPT_EMPTY;

pub const CROSSINGS: usize = 65536;
