// What follows a percent sign in a right-hand value, and whether a value is malformed.
ghost use Rattle.std.specs.Prelude.{◌≡◌, drop};
ghost use Rattle.rules.specs.Percent.{which_of, variable_of, which_length, variable_length, in_parens, piece_after, piece_length, PlainTo};
ghost use Rattle.rules.specs.Percent.{bad_which, bad_variable, bad_piece, malformed};

use super::{Piece, Variable, Which};

impl Which {
    // How many bytes an index takes.
    #[tactic(auto, unfolding(crate::specs::Percent::which_length))]
    pub fn length(self) -> usize
        ensures { result ≡ which_length self }
    {
        match self {
            Which::Alone | Which::Wrong => 0,
            Which::Numbered(_) => 3,
            Which::Matched => 4,
        }
    }

    // Whether it is malformed, `indexed` telling whether the heading has an index word.
    #[tactic(auto, unfolding(crate::specs::Percent::bad_which))]
    fn is_bad(self, indexed: bool) -> bool
        ensures { result ≡ bad_which indexed self }
    {
        match self {
            Which::Alone | Which::Numbered(_) => false,
            Which::Matched => !indexed,
            Which::Wrong => true,
        }
    }
}

impl Variable {
    // How many bytes a variable takes.
    #[tactic(auto, using(crate::proofs::Pieces::which_small), unfolding(crate::specs::Percent::variable_length))]
    pub fn length(self) -> usize
        ensures { result ≡ variable_length self }
    {
        match self {
            Variable::Model => 1,
            Variable::Layout(which) | Variable::Variant(which) => 1 + which.length(),
            Variable::Unknown => 0,
        }
    }

    // Whether it is malformed: none after the percent sign, or a bad index.
    #[tactic(auto, unfolding(crate::specs::Percent::bad_variable))]
    fn is_bad(self, indexed: bool) -> bool
        ensures { result ≡ bad_variable indexed self }
    {
        match self {
            Variable::Model => false,
            Variable::Layout(which) | Variable::Variant(which) => which.is_bad(indexed),
            Variable::Unknown => true,
        }
    }
}

impl Piece {
    // How many bytes after the percent sign an item takes.
    #[tactic(auto, using(crate::proofs::Pieces::variable_small), unfolding(crate::specs::Percent::piece_length))]
    pub fn length(self) -> usize
        ensures { result ≡ piece_length self }
    {
        match self {
            Piece::Byte(_) | Piece::Unclosed => 0,
            Piece::Number => 1,
            Piece::Bare(variable) => variable.length(),
            Piece::Parens(variable) => 2 + variable.length(),
            Piece::Prefixed { sign: _, variable } => 1 + variable.length(),
        }
    }

    // Whether it is malformed, `indexed` telling whether the heading has an index word.
    #[tactic(auto, unfolding(crate::specs::Percent::bad_piece))]
    pub fn is_bad(self, indexed: bool) -> bool
        ensures { result ≡ bad_piece indexed self }
    {
        match self {
            Piece::Byte(_) => false,
            Piece::Number => !indexed,
            Piece::Bare(variable) | Piece::Parens(variable) => variable.is_bad(indexed),
            Piece::Prefixed { sign: _, variable } => variable.is_bad(indexed),
            Piece::Unclosed => true,
        }
    }
}

// The index that a text begins with, just after an `l` or `v`.
#[tactic(auto, using(crate::proofs::Pieces::which_reads, crate::proofs::Pieces::matched_reads, std::proofs::lemmas::Bool::Decides::nat_tests))]
fn which_of(t: &[u8]) -> Which
    ensures { result ≡ which_of t.now }
{
    if t.starts_with(b"[%i]") {
        return Which::Matched;
    }
    match t {
        [b'[', d @ b'1'..=b'4', b']', ..] => Which::Numbered(usize::from(*d - b'0')),
        [b'[', ..] => Which::Wrong,
        _ => Which::Alone,
    }
}

// The variable that a text begins with.
#[tactic(auto, using(crate::proofs::Pieces::variable_reads, crate::proofs::Pieces::rest_is))]
fn variable_of(t: &[u8]) -> Variable
    ensures { result ≡ variable_of t.now }
{
    match t {
        [b'm', ..] => Variable::Model,
        [b'l', rest @ ..] => Variable::Layout(which_of(rest)),
        [b'v', rest @ ..] => Variable::Variant(which_of(rest)),
        _ => Variable::Unknown,
    }
}

// The item in parentheses, behind the one that opens.
#[tactic(auto, using(crate::proofs::Pieces::parens_reads))]
fn in_parens(t: &[u8]) -> Piece
    ensures { result ≡ in_parens t.now }
{
    let variable = variable_of(t);
    match t.get(variable.length()) {
        Some(b')') => Piece::Parens(variable),
        _ => Piece::Unclosed,
    }
}

// The bytes of a word from `at` on; none beyond its end.
pub fn tail<'a>(w: &'a [u8], at: usize) -> &'a [u8]
    ensures { result.now ≡ drop at w.now }
{
    w.get(at..).unwrap_or(&[])
}

// The item whose percent sign stands just before `at`.
#[tactic(auto, using(crate::proofs::Pieces::piece_reads, crate::proofs::Pieces::rest_is))]
pub fn piece_after(w: &[u8], at: usize) -> Piece
    ensures { result ≡ piece_after (drop at w.now) }
{
    let t = tail(w, at);
    match t {
        [b'i', ..] => Piece::Number,
        [sign @ (b'+' | b'|' | b'-' | b'_'), rest @ ..] => Piece::Prefixed {
            sign: *sign,
            variable: variable_of(rest),
        },
        [b'(', rest @ ..] => in_parens(rest),
        _ => Piece::Bare(variable_of(t)),
    }
}

// A place up to which no percent sign stands. Four bytes a turn: `position` takes about half as long again.
fn skip_plain(w: &[u8]) -> usize
    ensures { PlainTo w.now result }
{
    let mut i: usize = 0;
    while i + 3 < w.len() {
        if w[i] == b'%' {
            return i;
        }
        if w[i + 1] == b'%' {
            return i;
        }
        if w[i + 2] == b'%' {
            return i;
        }
        if w[i + 3] == b'%' {
            return i;
        }
        i += 4;
    }
    i
}

// Whether a right-hand value is malformed.
pub fn is_malformed(w: &[u8], indexed: bool) -> bool
    ensures { result ≡ malformed indexed w.now }
{
    let mut i = skip_plain(w);
    // a step is as long as the item
    while i < w.len() {
        if w[i] != b'%' {
            i += 1;
            continue;
        }
        i += 1;
        let piece = piece_after(w, i);
        if piece.is_bad(indexed) {
            return true;
        }
        i += piece.length();
    }
    false
}
