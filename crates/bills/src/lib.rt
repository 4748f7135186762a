// What is kept beside a plan as its reports come in: one running record and one account line for each carrier. C reads both, so their fields lie in order.
#![tactic(auto)]

// Where the carriers stand, how many crossings are done, and the highest slot in which anything is done, or 0. The places beyond the carriers are 0.
#[repr(C)]
#[derive(Clone, Copy, PartialEq, Eq)]
pub struct Record {
    pub at: [u16; paper::BAYS],
    pub done: u32,
    pub highest: u32,
}

// A carrier, the crossings billed to it, and the last of its names that was accepted, UNTOUCHED before the first.
#[repr(C)]
#[derive(Clone, Copy, PartialEq, Eq)]
pub struct Line {
    pub carrier: u32,
    pub billed: u32,
    pub last: u32,
}

// No name is as high.
pub const UNTOUCHED: u32 = paper::CROSSINGS as u32;
