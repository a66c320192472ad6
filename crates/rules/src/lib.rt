// What the lines of a rules file are: the types that its definitions and its readers share.
#![tactic(auto)]

pub mod headings;
pub mod judge;
pub mod lines;
pub mod listing;
pub mod percent;
pub mod placed;
pub mod plain;
pub mod sets;
pub mod words;

use listing::Listing;
use text::Spot;
use text::faults::Fault;

// A left column of a set.
#[derive(Clone, Copy, PartialEq, Eq, Debug)]
pub enum Column {
    Model,
    Layout,
    Variant,
    Options,
}

// The index of a layout or variant item of a heading.
#[derive(Clone, Copy, PartialEq, Eq, Debug)]
pub enum Index {
    Absent,
    Single,
    First,
    Later,
    Any,
    Numbered(usize),
}

// A left item of a heading.
#[derive(Clone, Copy, PartialEq, Eq, Debug)]
pub enum Item {
    Model,
    Layout(Index),
    Variant(Index),
    Options,
}

// Which layout or variant a percent item takes: the only one, that of the matched layout, or one by its number.
// `Wrong` is a `[` that opens no index. This and the next two are no `Option`: a malformed item has a length of its own,
// and whether it is refused is judged later.
#[derive(Clone, Copy)]
pub enum Which {
    Alone,
    Matched,
    Numbered(usize),
    Wrong,
}

// What a percent item stands for.
#[derive(Clone, Copy)]
pub enum Variable {
    Model,
    Layout(Which),
    Variant(Which),
    Unknown,
}

// A piece of a right-hand value: a byte as it stands, or what follows a percent sign. `Unclosed` is a parenthesis that
// does not close.
#[derive(Clone, Copy)]
pub enum Piece {
    Byte(u8),
    Number,
    Bare(Variable),
    Parens(Variable),
    Prefixed { sign: u8, variable: Variable },
    Unclosed,
}

// What is counted of a line's words as they are read: all of them; those before the first `=`, if it was met; whether
// another was met after it; and whether all from the third on are ordinary.
#[derive(Clone, Copy)]
pub struct Tally {
    pub count: usize,
    pub equals: Option<usize>,
    pub again: bool,
    pub plain: bool,
}

// A line, split: its tally, the lowest refusal of its words, and the start of the next line with that line's number.
#[derive(Clone, Copy)]
pub struct Split {
    pub tally: Tally,
    pub fault: Option<Fault>,
    pub next: Spot,
}

// The heading before a rule: none, a set's, or a set's with one of the four index words, under which `%i` may stand.
#[derive(Clone, Copy, PartialEq, Eq, Debug)]
pub enum Form {
    Absent,
    Plain,
    Indexed,
}

// What a rule is held to by the heading before it, with the numbers of its left and right words. That they are few is no
// ghost field: the definitions make a `Present` of any heading.
#[derive(Clone, Copy)]
pub struct Present {
    pub form: Form,
    pub left: usize,
    pub right: usize,
}

// No set has begun: a rule here is refused.
pub const NO_HEADING: Present = Present {
    form: Form::Absent,
    left: 0,
    right: 0,
};

// The heading of a set: its columns, its index, and its components by their numbers.
#[derive(Clone, Copy)]
pub struct SetHeading {
    pub columns: Listing<Column, 5>,
    pub index: Index,
    pub components: Listing<usize, 5>,
}
