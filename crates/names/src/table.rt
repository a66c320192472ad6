// A list of names with their rows, and a filter before it.
ghost use Rattle.std.specs.Prelude.{◌≡◌, length};

use super::Row;
use super::sieve::{FLAGS, sieve_of};
use listing::MOST_NAMES;
use listing::names::Listing;
use rules::words::is_star;
use text::Span;

// The names, each with the row of its number; and the filter: the flag of each name is set.
#[derive(Drop)]
pub struct Table {
    pub list: Listing,
    pub rows: [Row; MOST_NAMES],
    pub flags: [bool; FLAGS],
    pub ghost sized: { (length rows ≡ 256) × (length flags ≡ 1024) },
}

impl Table {
    ghost use Rattle.std.specs.Prelude.{false, ◌≤◌, ◌<◌, ◌+◌, ◌++◌};
    ghost use Rattle.text.specs.Bytes.{same, any_of};
    ghost use Rattle.listing.specs.Names.{text_size, most_names};
    ghost use Rattle.listing.specs.Lists.{text_of, names_of, bytes_at};
    ghost use Rattle.names.specs.Compiled.{Blank, Rowed, NewRow};

    // No name, and no text.
    pub fn new() -> Table
        ensures { Blank result }
    {
        Table {
            list: Listing::new(),
            rows: [Row::NONE; MOST_NAMES],
            flags: [false; FLAGS],
        }
    }

    // The row of a word: that of `*` at once, and the empty one for a word that is not listed.
    #[inline(always)]
    pub fn row(&self, word: &[u8]) -> Row
        ensures { Rowed self.now word.now result }
    {
        if is_star(word) {
            return self.rows[0];
        }
        if !self.flags[sieve_of(word)] {
            return Row::NONE;
        }
        match self.list.find(word) {
            Some(g) => self.rows[g],
            None => Row::NONE,
        }
    }

    // Lists the name at a place, which is not listed yet, with a row.
    pub fn list_row(&mut self, span: Span, row: Row)
        requires { (span.start ≤ span.end) × (span.end ≤ self.old.list.used) × (self.old.list.count < most_names)
            × (any_of (same (bytes_at self.old.list span)) (names_of self.old.list) ≡ false) }
        ensures { NewRow self.old self.new (text_of self.old.list) (bytes_at self.old.list span) row }
    {
        let g = self.list.count;
        let f = sieve_of(&self.list.text[span.start..span.end]);
        self.flags[f] = true;
        self.rows[g] = row;
        self.list.add(span);
    }

    // Copies a name that is not listed yet behind the text, and lists it with a row.
    pub fn add_name(&mut self, name: &[u8], row: Row)
        requires { (self.old.list.used + length name.now ≤ text_size) × (self.old.list.count < most_names)
            × (any_of (same name.now) (names_of self.old.list) ≡ false) }
        ensures { NewRow self.old self.new (text_of self.old.list ++ name.now) name.now row }
    {
        let span = self.list.append(name);
        self.list_row(span, row);
    }
}
