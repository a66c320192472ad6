// The values of rules, fired into ten regions of one lent buffer.
#![tactic(auto)]

pub mod rule;
pub mod stage;
pub mod writing;

// The most bytes that the five strings may have together.
pub const LONGEST_TOTAL: u32 = 1048576;

// The next free position of each of ten regions of the buffer (base and additions of component 0, of component 1, ..), which bases are set, and how far all
// positions together have moved.
#[derive(Clone, Copy)]
pub struct Cursors {
    pub at: [u32; 10],
    pub based: [bool; 5],
    pub total: u32,
}

// Where each of ten texts starts that stand one after the other, and where the last ends.
#[derive(Clone, Copy)]
pub struct Sums {
    pub at: [u32; 10],
    pub total: u32,
}
