// The bytes of a rules file as lines and words: the types that its definitions and its readers share.
#![tactic(auto)]

pub mod bytes;
pub mod compare;
pub mod faults;
pub mod kinds;
pub mod source;

// What a byte other than LF means, by itself and the byte after it.
#[derive(Clone, Copy)]
pub enum Class {
    Blank,
    Join,
    Slashes,
    Bang,
    Other,
}

// Where in a line a byte stands: before the first non-blank byte, where a word would begin, in a word, in a comment; and at the LF that a
// joining backslash makes a blank, before the first non-blank byte or later.
#[derive(Clone, Copy)]
pub enum Place {
    Start,
    Space,
    Word,
    Comment,
    JoinStart,
    JoinSpace,
}

// A refusal as the definitions tell it: a number of document 01, and the place that goes with it. The code's own is `faults::Refusal`.
#[derive(Clone, Copy)]
pub struct Refusal {
    pub number: usize,
    pub place: usize,
}

#[derive(Clone, Copy)]
pub struct Opening {
    pub heading: bool,
    pub at: usize,
    pub line: usize,
}

// A place in a file, and the number of the physical line there.
#[derive(Clone, Copy)]
pub struct Spot {
    pub at: usize,
    pub line: usize,
}

// A part of a text: the bytes from `start` up to `end`.
#[derive(Clone, Copy)]
pub struct Span {
    pub start: usize,
    pub end: usize,
}
