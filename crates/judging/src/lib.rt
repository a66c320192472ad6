// A line of a rules file, judged as it is read.
#![tactic(auto)]

pub mod group;
pub mod ranges;
pub mod rule;
pub mod set;

use names::Row;
use rules::SetHeading;
use text::Spot;
use text::faults::Fault;

// A line of which nothing is refused. `Read`: it is no heading, its words stand from `words` on, and the next line starts at `next`. `Heading`: its words
// stand from there on, behind the `!`.
#[derive(Clone, Copy)]
pub enum RuleLine {
    Read { words: Spot, next: Spot },
    Heading(Spot),
}

// The heading of a set, or the line's fault, and where the next line starts.
#[derive(Clone, Copy)]
pub struct SetLine {
    pub set: Result<SetHeading, Fault>,
    pub next: Spot,
}

// The first word of a heading, if it begins with `$`: where it starts, the place behind it, and its fault.
#[derive(Clone, Copy)]
pub struct FirstWord {
    pub start: usize,
    pub end: Spot,
    pub fault: Option<Fault>,
}

// A group's words: the lowest fault of a word, whether all are ordinary, the union of their rows, and where the next line starts.
#[derive(Clone, Copy)]
pub struct Members {
    pub fault: Option<Fault>,
    pub ordinary: bool,
    pub row: Row,
    pub next: Spot,
}

// A group line: its fault, the row of its words, and where the next line starts.
#[derive(Clone, Copy)]
pub struct GroupLine {
    pub fault: Option<Fault>,
    pub row: Row,
    pub next: Spot,
}

// Layouts by their numbers: `count` of them, from `first` on.
#[derive(Clone, Copy)]
pub struct Range {
    pub first: usize,
    pub count: usize,
}
