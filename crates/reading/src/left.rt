// A rule's left words, each held against its column: the layouts at which they match.
ghost use Rattle.std.specs.Prelude.{◌≡◌, ◌&&◌, ℕ};
ghost use Rattle.text.specs.Sources.{Within};
ghost use Rattle.bitsets.specs.Sets.{is_in};
ghost use Rattle.names.specs.Rows.{says};
ghost use Rattle.reading.specs.Left.{LeftHeld};

use super::LeftWords;
use bitsets::{both, contains};
use names::{Names, Row};
use rules::Column;
use text::Spot;
use text::source::{Next, Source};

// All layouts of m, or none.
#[tactic(auto, using(bitsets::proofs::Bits::in_none))]
fn all_or_none(m: u64, yes: bool) -> u64
    ensures { (k : ℕ) → is_in k result ≡ (is_in k m && yes) }
{
    if yes { m } else { 0 }
}

// The layouts of m at which a word matches in a column, by its row.
fn narrow(m: u64, row: Row, column: Column) -> u64
    ensures { (k : ℕ) → is_in k result ≡ (is_in k m && says row k column) }
{
    match column {
        Column::Model => all_or_none(m, contains(row.layouts, 0)),
        Column::Layout => both(m, row.layouts),
        Column::Variant => both(m, row.variants),
        Column::Options => all_or_none(m, contains(row.variants, 0)),
    }
}

// The next word of a line behind those so far, held against a column at their layouts; no word matches nowhere.
pub fn left_word(src: &Source, x: LeftWords, column: Column, names: &Names) -> LeftWords
    requires { Within src.now.bytes.now x.end.at x.end.line }
    ensures { LeftHeld names.now.table column src.now.bytes.now x result }
{
    match src.next_word(x.end) {
        Next::Found {
            start,
            end,
            line,
            ..
        } => {
            let row = names.row(src.word(start, end));
            LeftWords {
                layouts: narrow(x.layouts, row, column),
                end: Spot { at: end, line },
            }
        }
        Next::Stop { .. } => LeftWords {
            layouts: 0,
            end: x.end,
        },
    }
}
