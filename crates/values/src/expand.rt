// Percent items replaced by the profile's values.
ghost use Rattle.std.specs.Prelude.{◌≡◌, [], suc, ◌*◌, ◌≤◌, length, get_or};
ghost use Rattle.output.specs.Store.{farthest, Wrote};
ghost use Rattle.profile.specs.Spans.{value_at, values_from};
ghost use Rattle.values.specs.Values.{choose, value_of, piece_text, filled};
ghost use Rattle.values.specs.Filling.{most_per_byte, Filled};
ghost use Rattle.values.specs.Expanding.{as_profile};

use super::fill::{put_parens, put_prefixed};
use super::{Values, write};
use rules::{Piece, Variable, Which};

// The numbers before the first layout's, and before the first variant's.
const BEFORE_LAYOUTS: usize = 0;

const BEFORE_VARIANTS: usize = 32;

impl<'a> Values<'a> {
    // The value of a number; the empty part where no value has it.
    fn value_at(&self, j: usize) -> &'a [u8]
        ensures { result.now ≡ value_at self.now.text.now self.now.bounds.now j }
    {
        let bounds = self.bounds;
        match bounds.get(j) {
            Some(span) => &self.text[span.start..span.end],
            None => &[],
        }
    }

    // The value of place i, from 0, among the layouts or variants, which stand behind the number `before`; the empty part beyond the last.
    fn nth(&self, before: usize, i: usize) -> &'a [u8]
        requires { before ≤ 32 }
        ensures { result.now ≡ get_or
            (values_from self.now.text.now self.now.bounds.now (suc before) self.now.n) i [] }
    {
        if self.n <= i {
            return &[];
        }
        self.value_at(before + 1 + i)
    }

    // One of them, where k is the matched layout. The empty part where the item is invalid.
    fn chosen(&self, before: usize, k: usize, x: Which) -> &'a [u8]
        requires { before ≤ 32 }
        ensures { result.now ≡ choose self.now.n k
            (values_from self.now.text.now self.now.bounds.now (suc before) self.now.n) x }
    {
        match x {
            Which::Alone if self.n == 1 => self.nth(before, 0),
            Which::Matched => self.nth(before, k.saturating_sub(1)),
            Which::Numbered(j) if 1 < self.n && j <= self.n => self.nth(
                before,
                j.saturating_sub(1),
            ),
            _ => &[],
        }
    }

    // The value that an item stands for; empty where the item is invalid.
    fn value_of(&self, v: Variable, k: usize) -> &'a [u8]
        ensures { result.now ≡ value_of (as_profile self.now) k v }
    {
        match v {
            Variable::Model => self.value_at(0),
            Variable::Layout(x) => self.chosen(BEFORE_LAYOUTS, k, x),
            Variable::Variant(x) => self.chosen(BEFORE_VARIANTS, k, x),
            Variable::Unknown => &[],
        }
    }

    // Writes what a piece yields at the matched layout k.
    fn put_piece(&self, p: Piece, k: usize, out: &mut [u8], at: u32) -> u32
        requires { (k ≤ 32) × (length out.old ≤ farthest) × (at ≤ farthest) }
        ensures { Wrote out.old out.new at (piece_text (as_profile self.now) k p) result }
    {
        match p {
            Piece::Byte(b) => write::put_byte(b, out, at),
            Piece::Number => write::put_number(k, out, at),
            Piece::Bare(v) => output::put(self.value_of(v, k), out, at),
            Piece::Parens(v) => put_parens(self.value_of(v, k), out, at),
            Piece::Prefixed { sign, variable } => put_prefixed(
                sign,
                self.value_of(variable, k),
                out,
                at,
            ),
            Piece::Unclosed => at,
        }
    }

    // Writes a word with the values put in at the start of `scratch`, and gives its length; k is the matched layout.
    pub fn fill_word(&self, w: &[u8], k: usize, scratch: &mut [u8]) -> usize
        requires { (k ≤ 32) × (most_per_byte * length w.now ≤ length scratch.old) × (length scratch.old ≤ farthest) }
        ensures { Filled scratch.old scratch.new (filled (as_profile self.now) k w.now) result }
    {
        let mut i: usize = 0;
        let mut o: u32 = 0;
        // a step is as long as the item
        while i < w.len() {
            let b = w[i];
            i += 1;
            if b != b'%' {
                o = write::put_byte(b, scratch, o);
                continue;
            }
            let p = rules::percent::piece_after(w, i);
            o = self.put_piece(p, k, scratch, o);
            i += p.length();
        }
        o as usize
    }
}
