// One reading of a file: each line is judged, and where its set still wants a layout, matched and fired.
#![tactic(auto)]

pub mod file;
pub mod heading;
pub mod keep;
pub mod left;
pub mod opening;
pub mod profiled;
pub mod seek;

use firing::Cursors;
use rules::{Present, SetHeading};
use text::Spot;

// A set that is being read: what its rules are held to, its heading, its layouts, `count` of them from `first` on, whether each matching rule fires, and the
// layouts that still want a rule. Where there is no set, `count` is 0.
#[derive(Clone, Copy)]
pub struct OpenSet {
    pub present: Present,
    pub set: SetHeading,
    pub first: usize,
    pub count: usize,
    pub every: bool,
    pub wanted: u64,
}

// The layouts at which the left words so far match, and where the last of them ends.
#[derive(Clone, Copy)]
pub struct LeftWords {
    pub layouts: u64,
    pub end: Spot,
}

// How far a walk over the rules of a set has come: to a rule that matches, at which layouts, where its line goes on behind its left words, and where the next line
// starts; to a heading, where its line starts and its words begin; or to the end of the file.
#[derive(Clone, Copy)]
pub enum Sought {
    Rule {
        place: usize,
        layouts: u64,
        next: Spot,
    },
    Heading {
        at: Spot,
        words: Spot,
    },
    End,
}

// How far a reading has come: the start of the next line; the set that is being read and the places of its kept rules; and what is written.
#[derive(Clone, Copy)]
pub struct Reading {
    pub at: Spot,
    pub set: OpenSet,
    pub places: [usize; 33],
    pub cursors: Cursors,
}
